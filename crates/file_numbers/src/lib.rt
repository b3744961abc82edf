//! Which lists a file had: numbers of files are distinct in whatever a metadata server knows, so the lists that are chosen for a file come one
//! after the other, each of the next version, and become the file's in that order.
//!
//! Definitions and theorems alone; nothing runs here.
#![tactic(auto)]

ghost use Rattle.std.specs.Prelude.{◌≡◌, ◌++◌, ◌∷◌, ℕ, List, [], Some};
ghost use Rattle.std.specs.Option.{option_to_list};
ghost use Rattle.xt_base.specs.TimeSettings.{TimeSettings};
ghost use Rattle.xt_base.specs.declared.ids.FileId.{FileId};
ghost use Rattle.xt_base.specs.declared.ids.Boot.{Boot};
ghost use Rattle.xt_messages.specs.declared.file.Location.{Location};
ghost use Rattle.xt_messages.specs.declared.record.Record.{Record};
ghost use Rattle.xt_messages.specs.declared.record.Record.TheVariants as kept;
ghost use Rattle.xt_messages.specs.declared.event.Event.{Event};
ghost use Rattle.volume_rows.specs.Rows.{Volumes};
ghost use Rattle.change_rows.specs.Coordinating.{Running, running_of};
ghost use Rattle.list_changes.specs.Lists.{location_in};
ghost use Rattle.list_changes.specs.Recorded.{recorded_of};
ghost use Rattle.list_changes.specs.Steps.{ChangingMrc, known_in, step_with_changes};
ghost use Rattle.list_changes.specs.Laws.{IsInOrder};
ghost use Rattle.file_numbers.specs.Numbers.{NumbersFit, StandOnce};
ghost use Rattle.file_numbers.specs.Chosen.{CountUp, FollowOn, Stands};
ghost use Rattle.file_numbers.specs.Laws.{IsInForce, IsOneOf, ListsFit};

/// No number is that of two files, whatever the records of a metadata server are: files of one number stand at one path.
pub fn numbers_are_distinct()
    ensures fit { (key : List ℕ) (times : TimeSettings) (records : List Record) →
        NumbersFit (recorded_of key times records).catalogue.volumes }
    ensures once { (volumes : Volumes) → NumbersFit volumes → StandOnce volumes.rows }
{}

/// The lists that are chosen for a file come one after the other, the first after the one with which the file was made, which is of version
/// 1, and become the file's in that order. So it is without records, after a start, and after each step of a server that knows what its
/// records say.
pub fn chosen_lists_follow()
    ensures none { (key : List ℕ) (times : TimeSettings) → ListsFit key times [] }
    ensures start { (key : List ℕ) (times : TimeSettings) (records : List Record) (boot : Boot) →
        ListsFit key times records → ListsFit key times (records ++ kept.Boot boot ∷ []) }
    ensures step { (key : List ℕ) (times : TimeSettings) (records : List Record) (s : ChangingMrc)
        (reading : ℕ) (happens : Event) → IsInOrder times s.running →
        known_in s ≡ recorded_of key times records → ListsFit key times records →
        (let step = step_with_changes key times s reading happens in
        ListsFit key times (records ++ option_to_list step.turned.rec)) }
{}

/// The list in force is the one with which the file was made, or one of those that were chosen; while the file has a change, its version is
/// the one after as many as became the file's.
pub fn lists_in_force_were_chosen()
    ensures one { (made : Location) (chosen : List Location) (listed : List ℕ) (rows : ℕ)
        (running : List Running) (file : FileId) → FollowOn made chosen →
        Stands made chosen listed rows (running_of running file) →
        IsOneOf made chosen (location_in running file made) }
    ensures version { (made : Location) (chosen : List Location) (listed : List ℕ) (rows : ℕ)
        (running : List Running) (file : FileId) (r : Running) → FollowOn made chosen →
        running_of running file ≡ Some r →
        Stands made chosen listed rows (running_of running file) →
        IsInForce made listed (location_in running file made) }
{}
