//! The lines of a cluster: each names a client command, which is run in the cluster's session; after its output its code is put.
//!
//! `run_lines` promises, line by line, which bytes were taken, which command they ask for and that it was run as the line before it left
//! the session, what was put, and why the lines ended.
#![tactic(auto)]

mod running;

pub use running::run_lines;
