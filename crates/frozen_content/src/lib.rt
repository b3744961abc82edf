//! What a pinned replica shows, as a definition over a trace: the content of a file after so many writes of its order (`Frozen`). And
//! what a client that reads a whole object learns of it: in a safe trace, its bytes are the object's in that content.
//!
//! Definitions and a theorem alone; nothing runs here.
#![tactic(auto)]

ghost use Rattle.std.specs.Prelude.{◌≡◌, ℕ, List, true};
ghost use Rattle.xt_base.specs.declared.ids.OpId.{OpId};
ghost use Rattle.time_line.specs.declared.entry.Entry.{Entry};
ghost use Rattle.time_line.specs.Clauses.{IsBefore, ok_entry};
ghost use Rattle.time_line.specs.TimeLine.{is_replicated};
ghost use Rattle.time_line.specs.Verdicts.{IsSafeFor};
ghost use Rattle.frozen_content.specs.Frozen.{ReadsWhole, ShowsFrozen};

/// In a trace that is safe for a replicated file, each read of a whole object of it that ends well shows the object's bytes in the content
/// after as many writes as it reports, whatever is written later.
pub fn whole_reads_show_frozen_content()
    ensures { (file object count : ℕ) (entries before : List Entry) (id : OpId) (bytes : List ℕ) →
        is_replicated file entries ≡ true → IsSafeFor file entries →
        IsBefore before (ok_entry id count bytes) entries → ReadsWhole file entries id object →
        ShowsFrozen file entries object count bytes }
{}
