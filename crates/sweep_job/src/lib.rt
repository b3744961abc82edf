//! The job of `sweep`: it loads the store of a metadata server that has stopped, for the files that it made and unlinked, and then that of an
//! OSD that has stopped, and removes from this the files whose time is over.
#![tactic(auto)]

mod lines;
mod listing;
mod sweeping;

pub use sweeping::sweep_store;
