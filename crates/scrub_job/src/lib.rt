//! The job of `scrub`: it loads the store of a node that has stopped, checks the bodies that its heads name, keeps the digests of those that
//! are new, and puts to the sink how many bodies are new, good and damaged. No file of the store changes.
#![tactic(auto)]

mod checking;
mod counting;
mod scrubbing;
mod sealing;

pub use scrubbing::scrub_store;
