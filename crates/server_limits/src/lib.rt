//! The metadata server and the directory service keep to the limits.
//!
//! Each record, message and mark of a step is within its limits, and the step leaves a state that is within its own. So is the state
//! that records within the limits determine. A node that serves one of them, and keeps each record before it sends the messages of the
//! step, can be refused only where there is no room. Definitions and theorems alone; nothing runs here.
#![tactic(auto)]

ghost use Rattle.std.specs.Prelude.{◌<◌, ◌^◌, ◌++◌, ◌∷◌, [], ℕ, List};
ghost use Rattle.std.specs.List.{AllByRecursion};
ghost use Rattle.xt_base.specs.declared.ids.Boot.{Boot};
ghost use Rattle.xt_messages.specs.Limits.{FitsBoot, FitsEvent, FitsRecord};
ghost use Rattle.xt_messages.specs.declared.event.Event.{Event};
ghost use Rattle.xt_messages.specs.declared.record.Record.{Record};
ghost use Rattle.xt_messages.specs.declared.record.Record.TheVariants as kept;
ghost use Rattle.server_rows.specs.Metadata.{MrcState, mrc_of, step_of_mrc};
ghost use Rattle.server_rows.specs.Directory.{DirState, dir_of, step_of_dir};
ghost use Rattle.server_limits.specs.Limits.{FitsDir, FitsDirStep, FitsMrc, FitsMrcStep};
ghost use Rattle.server_limits.specs.Keeping.{DirRunsOn, DirStepsOn, MrcRunsOn, MrcStepsOn};

/// A metadata server within the limits, at any reading of its clock and on any event within them, under any key. So is one that
/// starts from records within them.
pub fn metadata_fits()
    ensures start { (key : List ℕ) (records : List Record) (now : ℕ) →
        AllByRecursion FitsRecord records → now < 2 ^ 62 → FitsMrc (mrc_of key records now) }
    ensures step { (key : List ℕ) (mrc : MrcState) (reading : ℕ) (happens : Event) → FitsMrc mrc →
        reading < 2 ^ 62 → FitsEvent happens → FitsMrcStep (step_of_mrc key mrc reading happens) }
{}

/// A directory service within the limits, on any event within them. So is one that starts from records within them.
pub fn directory_fits()
    ensures start { (records : List Record) → AllByRecursion FitsRecord records →
        FitsDir (dir_of records) }
    ensures step { (dir : DirState) (happens : Event) → FitsDir dir → FitsEvent happens →
        FitsDirStep (step_of_dir dir happens) }
{}

/// A metadata server runs on the records that it keeps: it starts so from records within the limits, the record of its boot
/// changes nothing, and any step on an event within the limits gives a record that may be kept after them, and goes on so.
pub fn metadata_servers_run_on_their_records()
    ensures starts { (key : List ℕ) (records : List Record) (now : ℕ) →
        AllByRecursion FitsRecord records → now < 2 ^ 62 →
        MrcRunsOn key records (mrc_of key records now) }
    ensures boots { (key : List ℕ) (records : List Record) (mrc : MrcState) (boot : Boot) →
        MrcRunsOn key records mrc → FitsBoot boot →
        MrcRunsOn key (records ++ kept.Boot boot ∷ []) mrc }
    ensures steps { (key : List ℕ) (records : List Record) (mrc : MrcState) (reading : ℕ)
        (happens : Event) → MrcRunsOn key records mrc → reading < 2 ^ 62 → FitsEvent happens →
        MrcStepsOn key records (step_of_mrc key mrc reading happens) }
{}

/// And so does a directory service.
pub fn directories_run_on_their_records()
    ensures starts { (records : List Record) → AllByRecursion FitsRecord records →
        DirRunsOn records (dir_of records) }
    ensures boots { (records : List Record) (dir : DirState) (boot : Boot) →
        DirRunsOn records dir → FitsBoot boot → DirRunsOn (records ++ kept.Boot boot ∷ []) dir }
    ensures steps { (records : List Record) (dir : DirState) (happens : Event) →
        DirRunsOn records dir → FitsEvent happens →
        DirStepsOn records (step_of_dir dir happens) }
{}
