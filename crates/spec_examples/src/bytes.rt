//! The bytes of fields, frames and records, and the lines of entries.
ghost use Rattle.std.specs.Prelude.{◌≡◌, [], ◌++◌, ◌∷◌, codes, map, replicate, length, Ok, Err};
ghost use Rattle.xt_frames.specs.declared.fault.FrameErr.TheVariants.{Truncated};
ghost use Rattle.xt_frames.specs.Frames.{frame_of};
ghost use Rattle.xt_frames.specs.Decoding.{decoded};
ghost use Rattle.xt_messages.specs.declared.file.FileHead.{FileHead};
ghost use Rattle.xt_messages.specs.declared.status.Status.TheVariants.{NotOurs};
ghost use Rattle.schedule_text.specs.EntryText.{entry_text};
ghost use Rattle.schedule_text.specs.StatusText.{last_line};
ghost use Rattle.xt_messages.specs.FrameLength.{frame_length, head_length};
ghost use Rattle.xt_protocol.specs.Folds.{IsInPlace, body_kept, fold_of, widened};
ghost use Rattle.replica_records.specs.declared.errors.RecordErr.TheVariants.{BadRecord};
ghost use Rattle.replica_records.specs.RecordText.{record_text};
ghost use Rattle.replica_records.specs.RecordFields.{recorded};
ghost use Rattle.spec_examples.specs.Fields.{fields_at, fronts_of, refused, values, written};
ghost use Rattle.spec_examples.specs.Fields as fields;
ghost use Rattle.spec_examples.specs.Frames.{changed, gather, length_of, read_in, rows};
ghost use Rattle.spec_examples.specs.Frames as frames;
ghost use Rattle.spec_examples.specs.Texts.{entries};
ghost use Rattle.spec_examples.specs.Messages.{of_later_lists, that_change_lists, that_name_objects, tried, with_heads, IsFull};
ghost use Rattle.spec_examples.specs.Records.{found, fronts, later_kinds, lower, others, promise, promised, puts, spellings, start};
ghost use Rattle.spec_examples.specs.OldRecords.{new_kinds, old_kinds};
ghost use Rattle.spec_examples.specs.Values.{file, stamp};

/// One field of each kind is written and read again, and fields are refused for the first reason.
#[tactic(auto, unfolding(crate::specs::Fields::fields))]
pub fn fields_have_bytes()
    ensures written { written ≡ fields.bytes }
    ensures read { fields_at fields.bytes ≡ Ok (values, []) }
    ensures refused { map (λ row. row.0 row.1) refused ≡ map (λ row. Err row.2) refused }
{}

/// A Gather has its frame and is read from it. Fronts and changed frames are refused for the first reason.
#[tactic(auto, unfolding(crate::specs::Frames::frames))]
pub fn frames_have_bytes()
    ensures written { frame_of gather ≡ frames.bytes }
    ensures read { decoded frames.bytes ≡ Ok (gather, 50) }
    ensures fronts { map decoded (fronts_of frames.bytes) ≡ replicate 50 (Err Truncated) }
    ensures changed { map (λ row. length_of (decoded (changed row))) rows ≡
        map (λ row. row.3) rows }
{}

/// Messages of later lists have their frames, and are read from them.
#[tactic(auto, unfolding(crate::specs::Messages::messages))]
pub fn later_lists_have_frames()
    ensures written { map (λ row. frame_of row.0) of_later_lists ≡ map (λ row. row.1) of_later_lists }
    ensures read { map (λ row. decoded row.1) of_later_lists ≡ map read_in of_later_lists }
{}

/// Messages by which a list is changed have their frames, and are read from them.
#[tactic(auto, unfolding(crate::specs::Messages::messages))]
pub fn changes_of_lists_have_frames()
    ensures written { map (λ row. frame_of row.0) that_change_lists ≡
        map (λ row. row.1) that_change_lists }
    ensures read { map (λ row. decoded row.1) that_change_lists ≡ map read_in that_change_lists }
{}

/// Messages that name an object have their frames, and are read from them.
#[tactic(auto, unfolding(crate::specs::Messages::messages))]
pub fn objects_have_64_bits()
    ensures written { map (λ row. frame_of row.0) that_name_objects ≡
        map (λ row. row.1) that_name_objects }
    ensures read { map (λ row. decoded row.1) that_name_objects ≡ map read_in that_name_objects }
{}

/// Which lists, kinds, versions, heads, stripes and objects a frame may have.
#[tactic(auto, unfolding(crate::specs::Messages::messages))]
pub fn frames_have_limits()
    ensures { map (λ row. length_of (decoded row.0)) tried ≡ map (λ row. row.1) tried }
{}

/// How long the longest heads are, and the messages that have one.
pub fn heads_make_the_longest_messages()
    ensures heads { (head : FileHead) → IsFull head → head_length head ≡ 463940 }
    ensures messages { (head : FileHead) → IsFull head →
        map (λ row. frame_length (row.0 head)) with_heads ≡ map (λ row. row.1) with_heads }
{}

/// Entries have their lines, and of the journal of another program its first eight bytes are reported.
#[tactic(auto, unfolding(crate::specs::Texts::texts))]
pub fn entries_have_lines()
    ensures entries { map (λ row. entry_text row.0) entries ≡ map (λ row. row.1) entries }
    ensures foreign { last_line (NotOurs (codes "abcdefgh")) ≡
        codes "! notours 6162636465666768" ++ 10 ∷ [] }
{}

/// Each kind of record has its bytes and is read from them. No front of them is a record, and other bytes are none.
#[tactic(auto, unfolding(crate::specs::Records::records))]
pub fn records_have_bytes()
    ensures written { map (λ row. record_text row.0) spellings ≡ map (λ row. row.1) spellings }
    ensures read { map (λ row. recorded row.1) spellings ≡ map (λ row. Ok row.0) spellings }
    ensures fronts { map recorded fronts ≡ replicate (length fronts) (Err BadRecord) }
    ensures others { map recorded others ≡ replicate 7 (Err BadRecord) }
{}

/// So has each kind that came later.
#[tactic(auto, unfolding(crate::specs::Records::records))]
pub fn later_records_have_bytes()
    ensures written { map (λ row. record_text row.0) later_kinds ≡ map (λ row. row.1) later_kinds }
    ensures read { map (λ row. recorded row.1) later_kinds ≡ map (λ row. Ok row.0) later_kinds }
{}

/// The kinds that are no longer written are read, and say what those say that are written in their place.
#[tactic(auto, unfolding(crate::specs::OldRecords::old_records))]
pub fn old_records_have_bytes()
    ensures written { map (λ row. record_text row.0) old_kinds ≡ map (λ row. row.1) old_kinds }
    ensures read { map (λ row. recorded row.1) old_kinds ≡ map (λ row. Ok row.0) old_kinds }
    ensures widened { map (λ row. widened row.0) old_kinds ≡ new_kinds }
{}

/// Records determine the last start and the body that was put last. A promise can come again, and none below it.
#[tactic(auto, unfolding(crate::specs::Records::records))]
pub fn records_are_folded()
    ensures start { fold_of (start ∷ []) ≡ record { boot = record { 0 = 1 }; files = [] } }
    ensures again { IsInPlace promised promise }
    ensures lower { IsInPlace promised lower → ⊥ }
    ensures bodies { map (λ row. body_kept puts (file 1) row.0 (stamp 0 0 row.1)) found ≡
        map (λ row. row.2) found }
{}
