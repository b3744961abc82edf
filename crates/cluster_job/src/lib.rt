//! The command `cluster`: the nodes of a cluster on this machine, as children of this program, and client commands for them.
//!
//! It goes from phase to phase. The children are started, and time passes until they run; they are registered, and
//! listed; time passes until the OSDs are no longer silent and the metadata server knows them; the lines of the source are carried out as
//! client commands; each node is ordered to end, and is waited for. Whatever ends it, each child that isn't waited for is stopped
//! once.
#![tactic(auto)]

mod cluster;
mod listening;
mod opening;
mod parting;
mod registering;

pub use cluster::run_cluster;
