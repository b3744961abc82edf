//! The languages of schedules and traces: reading a schedule's line and a trace's entry, and printing a line, the entries of a trace and
//! the last line of a job.
//!
//! Each line has one spelling: words with one space between, numbers in decimal digits without leading zeros, bytes
//! in lower-case hex. A line is read exactly where its bytes are that spelling of a line of the language; what is
//! printed is the spelling. A line stands without its line feed. Lines, entries and traces that are spelled alike are one.
#![tactic(auto)]

mod answers;
mod bounds;
mod call;
mod common;
mod entry;
mod entry_forms;
mod forms;
mod line;
mod nodes;
mod outcome;
mod status;

pub use entry::{one_entry_a_spelling, one_trace_a_spelling, print_entries, read_entry};
pub use line::{LineErr, one_line_a_spelling, read_line};
pub use status::print_status;
