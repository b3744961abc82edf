//! The job that the words of the command line ask for, or a line of a cluster, and the ranges of its values.
//!
//! `asked_job` reads the words, with this program's values for what they leave out, and `asked_line` those of a line, with the values of
//! its cluster. Whoever does a job relies on its ranges: they are proved for all words, so nothing tests them again.
#![tactic(auto)]

mod asking;
mod line;

pub use asking::{asked_job, usual, words_ask_for_a_replay};
pub use line::asked_line;
