//! The disk, the journal on it, and what is kept of records.
ghost use Rattle.std.specs.Prelude.{◌≡◌, [], ◌∷◌, map, None, Some};
ghost use Rattle.disk_model.specs.Changes.{Sync};
ghost use Rattle.disk_model.specs.Disk.{IsFilled};
ghost use Rattle.xt_messages.specs.declared.record.Record.TheVariants.{Head};
ghost use Rattle.xt_journal.specs.Format.{journal_of, end_of};
ghost use Rattle.object_store.specs.Texts.{AreRecords, texts_of};
ghost use Rattle.world_hull.specs.declared.hull.Kept.TheVariants.{Done, StoppedKept, StoppedLost};
ghost use Rattle.world_hull.specs.Appends.{kept_by};
ghost use Rattle.journal_areas.specs.Sites.{moved, shut_slot};
ghost use Rattle.spec_examples.specs.Areas.{lengths, rewritten, slot, superblock, unsound};
ghost use Rattle.spec_examples.specs.Disks.{plans, failed, failed_wanted, four_after, one_byte, three_bytes, unsynced, half_synced};
ghost use Rattle.spec_examples.specs.Journals.{AreRead, both, damaged, foreign, left_by, left_wanted, no_start, one_start, standing, stops, two_starts, without};
ghost use Rattle.spec_examples.specs.StoredRecords.{AreBad, abc, bad, body, boot, boots_found, by_stop, each_stop, file, head, head_texts, one_version, promise, promised_found, stage, stopped, two_versions, update};
ghost use Rattle.spec_examples.specs.Values.{epoch};

/// Which calls of a disk fail, by their numbers and by the call in which it stops.
pub fn calls_fail_as_planned()
    ensures { map failed plans ≡ failed_wanted }
{}

/// What a read gives after two writes, and what a crash leaves that puts its byte at each place that isn't synced.
pub fn a_stop_leaves_its_byte()
    ensures reads { (four_after (one_byte ∷ Sync ∷ three_bytes ∷ Sync ∷ [])).read ≡
        1 ∷ 9 ∷ 3 ∷ 8 ∷ 8 ∷ 8 ∷ [] }
    ensures early { IsFilled 0x37 unsynced (1 ∷ 0x37 ∷ 3 ∷ 0x37 ∷ 0x37 ∷ 0x37 ∷ []) }
    ensures late { IsFilled 0x37 half_synced (1 ∷ 9 ∷ 3 ∷ 0x37 ∷ 0x37 ∷ 0x37 ∷ []) }
{}

/// The bytes of journals, and where their records end.
pub fn journals_are_spelled()
    ensures none { journal_of [] ≡ no_start }
    ensures one { journal_of without ≡ one_start }
    ensures two { journal_of both ≡ two_starts }
    ensures end_of_one { end_of without ≡ 26 }
    ensures end_of_two { end_of both ≡ 40 }
{}

/// What bytes are read as.
pub fn journals_are_read()
    ensures standing { AreRead standing }
    ensures foreign { AreRead foreign }
    ensures damaged { AreRead damaged }
{}

/// A journal with one start, rewritten three times: the new area goes after the last one, and to the base where it ends there before the
/// one that counts. What each of these disks stands for; and a superblock that can't stand where it does is damage at its gate.
pub fn journals_are_rewritten()
    ensures lengths { lengths ≡ 98 ∷ 113 ∷ 113 ∷ [] }
    ensures first { moved None 26 15 ≡ superblock (slot 1 83) shut_slot }
    ensures again { moved (Some (superblock (slot 1 83) shut_slot)) 97 15 ≡
        superblock (slot 1 83) (slot 2 98) }
    ensures below { moved (Some (superblock (slot 1 83) (slot 2 98))) 112 15 ≡
        superblock (slot 3 83) (slot 2 98) }
    ensures rewritten { AreRead rewritten }
    ensures unsound { AreRead unsound }
{}

/// What stands after an append that stopped: its record where the gate was being opened and the byte opens it.
pub fn a_stopped_append_is_kept_by_its_gate()
    ensures { map left_by stops ≡ left_wanted }
{}

/// The bytes of heads.
#[tactic(auto, unfolding(xt_fields::specs::BasicFields::word_bytes, xt_fields::specs::BasicFields::long_bytes))]
pub fn heads_are_spelled()
    ensures { texts_of (Head file one_version ∷ Head file two_versions ∷ []) ≡ head_texts }
{}

/// Which records are in their places, which payload is the first that is none in its, and where its gate stands.
#[tactic(auto, unfolding(xt_fields::specs::BasicFields::word_bytes, xt_fields::specs::BasicFields::long_bytes))]
pub fn records_are_placed()
    ensures promises { AreRecords (promise 1 ∷ promise 2 ∷ update ∷ []) }
    ensures starts { AreRecords (promise 1 ∷ boot 1 ∷ []) }
    ensures heads { AreRecords (stage abc ∷ head ∷ []) }
    ensures bad { AreBad bad }
    ensures behind_promise { end_of (texts_of (promise 1 ∷ [])) ≡ 54 }
    ensures behind_update { end_of (texts_of (update ∷ [])) ≡ 113 }
    ensures behind_three { end_of (texts_of (stage abc ∷ promise 2 ∷ update ∷ [])) ≡ 220 }
{}

/// Which body is kept: none where none was put, and else the one that was put last.
#[tactic(auto, unfolding(xt_protocol::specs::Folds::body_kept))]
pub fn the_last_body_is_kept()
    ensures none { body (boot 1 ∷ boot 2 ∷ []) ≡ None }
    ensures last { body (stage abc ∷ stage (110 ∷ 101 ∷ 119 ∷ []) ∷ []) ≡
        Some (110 ∷ 101 ∷ 119 ∷ []) }
{}

/// How an append ends that stops, and what its node finds: a start, or a promise that was torn.
#[tactic(auto, unfolding(xt_protocol::specs::Folds::fold_of, xt_protocol::specs::Folds::row_in, xt_protocol::specs::Folds::with_row))]
pub fn a_stop_keeps_a_record_or_loses_it()
    ensures done { kept_by None ≡ Done }
    ensures ends { map (λ stop. kept_by (Some stop)) each_stop ≡ by_stop StoppedLost StoppedKept }
    ensures first { map (stopped [] (boot 1)) each_stop ≡ by_stop [] (boot 1 ∷ []) }
    ensures starts { map boots_found each_stop ≡ by_stop (1, 3) (2, 3) }
    ensures promised { map promised_found each_stop ≡ by_stop [] (epoch 2 3 ∷ []) }
{}
