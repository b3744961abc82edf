//! All that the program does, over any source, sink, link, disk and clock.
//!
//! `run` reads the words and does the job that they ask for. Its one clause says, for all words, what that is, case by case: a replay, an
//! audit, the serving of a node, the check, the scrub or the sweep of a store, a client command, a cluster, or only the last line of a status
//! if the words ask for nothing.
#![tactic(auto)]

mod doing;
mod serving;
mod stores;

pub use doing::run;
