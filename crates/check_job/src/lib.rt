//! The job of `check`: it loads the store of a node that has stopped, puts to the sink what the store holds, and writes nothing to the store.
#![tactic(auto)]

mod checking;
mod report;
mod sizes;

pub use checking::check_store;
