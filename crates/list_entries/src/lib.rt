//! The lists of a file in a trace: which one is in force at a moment, that only its members hold the file, and the stretches between two
//! lists. Definitions and theorems alone; nothing runs here.
#![tactic(auto)]

ghost use Rattle.std.specs.Prelude.{ℕ, Bool, true, false, Option, None, Some, List, [], ◌∷◌, ◌++◌, ◌≡◌, ◌≤◌, ◌<◌, ◌+◌};
ghost use Rattle.xt_base.specs.declared.ids.NodeId.{NodeId};
ghost use Rattle.time_line.specs.declared.entry.Entry.{Entry};
ghost use Rattle.time_line.specs.Clauses.{IsMoment};
ghost use Rattle.list_entries.specs.Stretches.{MembersHold, is_list_of, last_list, list_told, members_in, stretch_after, stretch_in, told_after, told_at, told_in};
ghost use Rattle.list_entries.specs.Laws.{HoldsByAStretch, IsSilent, MayHold, members_after};

/// What one more entry changes: the list in force, the stretch, and the end of the lease that a node told in a stretch.
pub fn lists_go_on()
    ensures none { (file : ℕ) → last_list file [] ≡ None }
    ensures last { (file : ℕ) (moment : List Entry) (e : Entry) →
        last_list file (moment ++ e ∷ []) ≡ list_told file (last_list file moment) e }
    ensures members { (file : ℕ) (moment : List Entry) (e : Entry) →
        members_in file (moment ++ e ∷ []) ≡ members_after file moment e }
    ensures silent { (file : ℕ) (moment : List Entry) (e : Entry) → IsSilent file e →
        members_in file (moment ++ e ∷ []) ≡ members_in file moment }
    ensures stretch { (file : ℕ) (moment : List Entry) (e : Entry) →
        stretch_in file (moment ++ e ∷ []) ≡ stretch_after file (stretch_in file moment) e }
    ensures told { (k : ℕ) (node : NodeId) (file : ℕ) (moment : List Entry) (e : Entry) →
        told_at k node file (moment ++ e ∷ []) ≡
        told_after k node file (told_at k node file moment) e }
{}

/// Stretches rise along a trace, begin with the first one, and are those in which leases are told: in a later one nothing is told yet.
pub fn stretches_rise()
    ensures first { (file : ℕ) (moment : List Entry) → 1 ≤ stretch_in file moment }
    ensures rise { (file : ℕ) (moment entries : List Entry) → IsMoment moment entries →
        stretch_in file moment ≤ stretch_in file entries }
    ensures same { (k : ℕ) (node : NodeId) (file : ℕ) (moment : List Entry) →
        (told_at k node file moment).stretch ≡ stretch_in file moment }
    ensures later { (k : ℕ) (node : NodeId) (file : ℕ) (moment : List Entry) →
        stretch_in file moment < k → told_in k node file moment ≡ None }
{}

/// Each lease by which a node holds a file was told in the present stretch or in an earlier one.
pub fn holders_have_a_stretch()
    ensures { (file : ℕ) (moment : List Entry) (node : NodeId) → HoldsByAStretch file moment node }
{}

/// That members alone hold a file is so of no entries, of each prefix, and after one more entry that is such a member's or holds nothing.
pub fn members_hold()
    ensures none { (file : ℕ) → MembersHold file [] }
    ensures prefix { (file : ℕ) (moment entries : List Entry) → IsMoment moment entries →
        MembersHold file entries → MembersHold file moment }
    ensures more { (file : ℕ) (moment : List Entry) (e : Entry) → MembersHold file moment →
        MayHold file moment e → MembersHold file (moment ++ e ∷ []) }
{}
