//! A make: the schedule that a number and a size generate is replayed, its trace is audited and counted, and one line reports what
//! there was.
//!
//! `make` promises that this line has the counts of the trace of exactly the generated lines, and is put where each of them is done;
//! that the first line that isn't done ends the make, with its cause; and that a fault of the sink is reported, and no other. A trace
//! that is broken never ends a make: each run's trace is safe.
#![tactic(auto)]

mod counts;
mod making;
mod replaying;
mod telling;

pub use counts::Counts;
pub use making::make;
