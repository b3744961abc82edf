//! How nodes stand after each entry of a trace, and the spans of the entries after which something holds.
//!
//! `holding` and `clocks` promise what the definition of a trace says of each moment; `spans_of` promises spans that have exactly those
//! entries.
#![tactic(auto)]

mod spans;
mod standings;

pub use spans::{Span, are_told, spans_of};
pub use standings::{clocks, holding};
