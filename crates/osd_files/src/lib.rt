//! A file at an OSD that is awake: the step on a message that concerns it, what a Wake gives at it, which of its held bodies it needs,
//! and how it forgets the others.
//!
//! `OsdFile` does exactly what the rows of `xt_protocol` say (`step_of_file`, `expired`, `wake_of_file`) on the state that contracts
//! see, which is sound at every moment. A call fails only where memory runs out or a body can't be read, and then the file is as it
//! was. Clocks are in milliseconds, below 2^62. A primary acts only in a turn of the lease.
#![tactic(auto)]

mod asks;
mod copying;
mod file;
mod hearing;
mod joining;
mod keeping;
mod lead;
mod leading;
mod leases;
mod light;
mod noting;
mod overdue;
mod parts;
mod seeking;
mod serving;
mod starting;
mod steps;
mod striped;
mod waking;

pub use file::OsdFile;
pub use waking::Woken;
