//! An OSD that keeps its records, with no world around it: what it gives in any step is within the limits, and it goes on so.
//!
//! Each record of a step is in its place after those that it runs on, the messages are within their limits, and after the step the
//! OSD runs on the records with that one. So it does from its start on. A node that serves an OSD, and keeps each record before it
//! sends the messages of the step, can be refused only where there is no room. Definitions and theorems alone; nothing runs here.
#![tactic(auto)]

ghost use Rattle.std.specs.Prelude.{◌<◌, ◌^◌, ◌++◌, ◌∷◌, [], ℕ, Bool, List};
ghost use Rattle.xt_base.specs.TimeSettings.{AreTimes};
ghost use Rattle.xt_messages.specs.declared.event.Event.{Event};
ghost use Rattle.xt_messages.specs.declared.file.Capability.{Capability};
ghost use Rattle.xt_messages.specs.declared.record.Record.{Record};
ghost use Rattle.xt_messages.specs.declared.record.Record.TheVariants as kept;
ghost use Rattle.xt_protocol.specs.Folds.{fold_of};
ghost use Rattle.xt_protocol.specs.Forgetting.{keep_of, osd_without, rewritten};
ghost use Rattle.xt_protocol.specs.LeaseRows.{Silent};
ghost use Rattle.xt_protocol.specs.OsdSteps.{OsdState, osd_from, step_of_osd};
ghost use Rattle.xt_messages.specs.Limits.{FitsEvent};
ghost use Rattle.world_limits.specs.Fits.{FitsKept};
ghost use Rattle.world_limits.specs.States.{KeptIs, outside_by};
ghost use Rattle.osd_limits.specs.Keeping.{RunsOn, StepsOn};

/// Records that are within the limits, each in its place after those before it, as a store gives them: the rows that they say are
/// within the limits, too.
pub fn records_are_kept()
    ensures { (records : List Record) → FitsKept records → KeptIs records }
{}

/// A step of an OSD on the records that it runs on, whatever capabilities pass there, at any reading of its clock, on any event
/// within the limits.
pub fn steps_are_kept()
    ensures { (sealed : Capability → Bool) (records : List Record) (s : OsdState) (reading : ℕ) (happens : Event) →
        KeptIs records → RunsOn records s → reading < 2 ^ 62 → FitsEvent happens →
        StepsOn records (step_of_osd (outside_by sealed records) s reading happens) }
{}

/// An OSD that starts from what its records say, and keeps the record of that start.
pub fn starts_run_on_their_records()
    ensures { (records : List Record) (silent : Silent) → KeptIs records → silent.node.0 < 2 ^ 32 →
        silent.boot.0 < 2 ^ 62 → AreTimes silent.times.lease silent.times.drift →
        silent.start < 2 ^ 62 → KeptIs (records ++ kept.Boot silent.boot ∷ [])
        × RunsOn (records ++ kept.Boot silent.boot ∷ []) (osd_from silent (fold_of records).files) }
{}

/// An OSD that has forgotten what it doesn't need runs on its rewritten records, and these are kept as the old ones were.
pub fn forgetting_runs_on_rewritten_records()
    ensures { (records : List Record) (s : OsdState) → KeptIs records → RunsOn records s →
        KeptIs (rewritten (keep_of s) records)
        × RunsOn (rewritten (keep_of s) records) (osd_without (keep_of s) s) }
{}
