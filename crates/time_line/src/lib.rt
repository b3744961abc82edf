//! The lines of a schedule and their limits, the entries of a trace, and what a trace says at a moment: which boots run,
//! who holds a file, the file's writes in order and its content. When a trace is safe, clause by clause, and where it is
//! broken first.
//!
//! The definitions in `specs/` speak of lines and entries alone: no message, version, ballot or epoch occurs in them.
#![tactic(auto)]

mod entry;
mod line;

pub use entry::{Entry, Halt};
pub use line::Line;

/// How many lines a schedule may have.
pub const LINES: u64 = 65_536;

/// How many bytes a line of a schedule may have, without its line feed.
pub const LINE_BYTES: u64 = 300_000;
