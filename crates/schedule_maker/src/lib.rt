//! The schedule that a number and a size generate: calls of four clients on four files over three OSDs, with restarts and pauses.
//!
//! `generate` promises exactly the lines of the definition. They are lines of a schedule, no more than one may have.
#![tactic(auto)]

mod draws;
mod lines;
mod worked;

ghost use Rattle.std.specs.Prelude.{ℕ, ◌≤◌};
ghost use Rattle.schedule_maker.specs.Generated.{generated};
ghost use Rattle.schedule_maker.specs.Scheduled.{AreSchedule};

pub use draws::Choice;
pub use lines::generate;
pub use worked::worked_schedules;

/// How many turns a generated schedule may have.
pub const TURNS: u64 = 4096;

/// What is generated is a schedule, for every number and every size in range.
pub fn generated_are_schedules()
    ensures { (number size : ℕ) → size ≤ TURNS → AreSchedule (generated number size) }
{}
