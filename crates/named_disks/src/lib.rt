//! Disks in memory by the names of their files, for tests of what works on several files one after the other.
#![tactic(auto)]

mod chosen;
mod named;

pub use named::NamedDisks;
