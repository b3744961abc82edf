//! What a replay takes from its source and puts to its sink: the lines of a schedule, one by one, the entries of a trace,
//! and the last line of a status.
//!
//! Each call promises exactly which bytes were taken or put, why no line is read, and that a fault comes only where the
//! count of the object's faults rose, and then always.
#![tactic(auto)]

mod ending;
mod next;
mod reading;
mod writing;

pub use ending::{finish, put_entries};
pub use next::{NextLine, next_line};
pub use reading::{RawLine, read_raw, take_byte};
pub use writing::put_all;
