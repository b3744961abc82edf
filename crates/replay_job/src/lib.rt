//! A replay, over any source and any sink.
//!
//! `run_replay` promises that what is put is the text of a run of the lines that were taken, that its trace is safe for each
//! replicated file, and when each status comes. A fault of the source or the sink ends it, and its status reports no other.
#![tactic(auto)]

mod job;

pub use job::run_replay;
