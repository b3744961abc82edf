//! Replays a schedule: its lines are taken from a source, drive a world, and what they add to the trace is put to a sink.
//!
//! `replay` promises that what is put is the text of the entries of a run of the lines that were taken, with the last line
//! of the status after it; that this trace is safe; that each status comes where it is due; and that a fault ends the replay,
//! and is reported only where its object's count rose.
#![tactic(auto)]

mod replaying;
mod step;

pub use replaying::replay;
pub use step::status_of;
