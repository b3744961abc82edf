//! The metadata server where lists of replicas change, as definitions with their laws: what a request does (`Lists`, `Requests`), what the
//! records say (`Recorded`), the step (`Steps`), and what holds of every step (`Laws`). It stands beside the server without changes
//! (`server_rows`), and does what that one does while no change is asked for.
//!
//! A file stays in its row where it was made; the list in force is that of its last change that has ended. Definitions and theorems alone;
//! nothing runs here.
#![tactic(auto)]

ghost use Rattle.std.specs.Prelude.{◌≡◌, ◌++◌, ◌∷◌, [], ℕ, Bool, List, None, Some, max};
ghost use Rattle.std.specs.List.{AllByRecursion};
ghost use Rattle.std.specs.Option.{option_to_list};
ghost use Rattle.xt_base.specs.TimeSettings.{TimeSettings};
ghost use Rattle.xt_messages.specs.declared.record.Record.{Record};
ghost use Rattle.xt_messages.specs.declared.event.Event.{Event};
ghost use Rattle.xt_messages.specs.declared.event.Mark.TheVariants as mark;
ghost use Rattle.xt_messages.specs.declared.meta.MetaRefusal.TheVariants as refusal;
ghost use Rattle.xt_protocol.specs.OsdSteps.{asks_dir};
ghost use Rattle.xt_base.specs.declared.ids.FileId.{FileId as File};
ghost use Rattle.xt_messages.specs.declared.file.Location.{Location as Place};
ghost use Rattle.server_rows.specs.Metadata.{MrcState, catalogue_of, empty_catalogue, step_of_mrc};
ghost use Rattle.change_rows.specs.declared.Choice.{Choice};
ghost use Rattle.change_rows.specs.Changes.{ChangeState, server, choice_at};
ghost use Rattle.change_rows.specs.Coordinating.{Running, chosen, close_to, install_to, listed};
ghost use Rattle.change_rows.specs.Examples.{on_nodes, osd, some_file, to_second};
ghost use Rattle.list_changes.specs.Lists.{all_known};
ghost use Rattle.list_changes.specs.Recorded.{recorded_of, uncounted};
ghost use Rattle.list_changes.specs.Steps.{ChangingMrc, beside, changing_of, known_in, step_with_changes};
ghost use Rattle.list_changes.specs.Laws.{AllFollow, AreOrdered, BringsNoChange, GrantsHold, GrantsStay, HasWaited, IsChoiceOf, IsInOrder, IsOfLists, Moves, Passing, StepKeeps, TellsNoChange};
ghost use Rattle.list_changes.specs.Examples.{closed_once, early_wake, first_wake, installed_once, late_wake, place_in, refusal_in};

/// While no change of a list is asked for, a metadata server does at each event what one without changes does, and its records say the
/// same.
pub fn nothing_differs_without_changes()
    ensures steps { (key : List ℕ) (times : TimeSettings) (mrc : MrcState) (reading : ℕ)
        (happens : Event) → BringsNoChange happens →
        step_with_changes key times (record { mrc = mrc; running = [] }) reading happens
        ≡ beside [] (step_of_mrc key mrc reading happens) }
    ensures records { (key : List ℕ) (times : TimeSettings) (records : List Record) →
        AllByRecursion TellsNoChange records →
        recorded_of key times records ≡
        record { catalogue = catalogue_of key records; running = [] } }
{}

/// The records say what a metadata server knows: with that of a step after the earlier ones they say what it knows after the step. The
/// OSDs, the clock and what is counted are in memory alone.
pub fn records_tell_the_changes()
    ensures { (key : List ℕ) (times : TimeSettings) (records : List Record) (s : ChangingMrc)
        (reading : ℕ) (happens : Event) → IsInOrder times s.running →
        known_in s ≡ recorded_of key times records →
        (let step = step_with_changes key times s reading happens in
        known_in step.server ≡
        recorded_of key times (records ++ option_to_list step.turned.rec)) }
{}

/// The files with a change stay in order, one change a file, and each change stays sound: its choice is its own, at the next version. So
/// it is without records, after each step, and at a start from the records of a server in order.
pub fn changes_stay_in_order()
    ensures none { (times : TimeSettings) → IsInOrder times [] }
    ensures step { (key : List ℕ) (times : TimeSettings) (s : ChangingMrc) (reading : ℕ)
        (happens : Event) → IsInOrder times s.running →
        IsInOrder times (step_with_changes key times s reading happens).server.running }
    ensures start { (key : List ℕ) (times : TimeSettings) (records : List Record)
        (s : ChangingMrc) (now : ℕ) → IsInOrder times s.running →
        known_in s ≡ recorded_of key times records →
        IsInOrder times (changing_of key times records now).running }
{}

/// Each file's change after a step stood before it, or begins in the step at the list in force, or results from one that stood: by a closing
/// that is counted, by a choice at a Wake, or by an installation that is counted. So what is counted came as a message since the server's
/// start.
pub fn each_change_follows()
    ensures { (key : List ℕ) (times : TimeSettings) (s : ChangingMrc) (reading : ℕ)
        (happens : Event) →
        AllFollow times s.mrc.catalogue.volumes (max reading s.mrc.last) happens s.running
        (step_with_changes key times s reading happens).server.running }
{}

/// A choice is made once a majority of the old members is counted, and not before the length of a lease and the drift have passed since
/// the clock at which it was; it is its change's own, at the next version.
pub fn choices_have_waited()
    ensures waited { (c : ChangeState) (now : ℕ) (choice : Choice) →
        choice_at c now ≡ Some choice → HasWaited c now choice }
    ensures own { (c : ChangeState) (now : ℕ) (choice : Choice) →
        choice_at c now ≡ Some choice → IsChoiceOf c choice }
{}

/// A step keeps one record at most: that of a request, of a choice at a Wake, or of a list that becomes the file's. Each Install that it
/// sends is of a choice that is kept, and each Close of a file without a choice.
pub fn orders_are_of_choices()
    ensures keeps { (key : List ℕ) (times : TimeSettings) (s : ChangingMrc) (reading : ℕ)
        (happens : Event) →
        StepKeeps (max reading s.mrc.last) happens s.running
        (step_with_changes key times s reading happens).turned.rec }
    ensures sends { (key : List ℕ) (times : TimeSettings) (s : ChangingMrc) (reading : ℕ)
        (happens : Event) →
        (let step = step_with_changes key times s reading happens in
        AreOrdered step.server.running step.turned.outs) }
{}

/// The list in force of a file with a change stays, or the list of its choice takes its place, by a record that says so, and is of the
/// version after it.
pub fn versions_rise_by_one()
    ensures { (key : List ℕ) (times : TimeSettings) (s : ChangingMrc) (reading : ℕ)
        (happens : Event) → IsInOrder times s.running →
        (let step = step_with_changes key times s reading happens in
        Moves s.running step.turned.rec step.server.running) }
{}

/// Any test that each file passes where it was made, and at its list in force, each capability passes that a step grants, also one that it
/// grants again. So a capability names a file that the server made, at a list that was the file's. The lemmas say so of any property.
pub fn capabilities_name_lists()
    ensures none { (test : File → Place → Bool) → GrantsHold (Passing test) empty_catalogue }
    ensures step { (test : File → Place → Bool) (key : List ℕ) (times : TimeSettings)
        (s : ChangingMrc) (reading : ℕ) (happens : Event) →
        GrantsHold (Passing test) s.mrc.catalogue →
        (let step = step_with_changes key times s reading happens in
        IsOfLists (Passing test) s.running step.server.mrc.catalogue.made →
        GrantsStay (Passing test) s step) }
{}

/// The steps of a change of a file from OSD 1 to OSD 2, worked out by hand: it is closed at 1100, nothing is chosen at 2199, and at 2200 a
/// head is chosen and installed; until then another change is refused, and the file stays where it is.
#[tactic(auto, unfolding(crate::specs::Steps::step_with_changes, xt_protocol::specs::Choice::chosen_of))]
pub fn examples()
    ensures closes { first_wake.turned.outs ≡
        asks_dir server ∷ close_to some_file 1 (osd 1) ∷ [] }
    ensures waits { early_wake.turned.outs ≡ asks_dir server ∷ [] }
    ensures stays { place_in early_wake ≡ on_nodes 1 (osd 1 ∷ []) }
    ensures busy { refusal_in early_wake ≡ Some (refusal.Changing 2) }
    ensures chooses { late_wake.turned.rec ≡ Some (chosen to_second) }
    ensures installs { late_wake.turned.outs ≡
        asks_dir server ∷ install_to to_second (osd 2) ∷ [] }
    ensures old { place_in late_wake ≡ on_nodes 1 (osd 1 ∷ []) }
    ensures lists { installed_once.turned.rec ≡ Some (listed to_second) }
    ensures shows { installed_once.turned.marks ≡ mark.List some_file 2 (osd 2 ∷ []) ∷ [] }
    ensures new { place_in installed_once ≡ on_nodes 2 (osd 2 ∷ []) }
    ensures rests { refusal_in installed_once ≡ None }
    ensures unknown { all_known (osd 1 ∷ osd 2 ∷ []) (osd 2 ∷ osd 9 ∷ []) ≡
        Some (refusal.UnknownOsd (osd 9)) }
{}
