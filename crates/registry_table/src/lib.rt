//! The registry: the row of each registered node, and what comes of a request to it, on the rows alone.
//!
//! Contracts see the list of the rows, rising by node: a page of a List goes on by node, so the table is in the order of the nodes, with an
//! index of those of each kind. `Registry::plan` works out what a Set, Remove, Get or List does to them and
//! what is answered: a row changes only under the version that the client expects. `Registry::apply` makes the change, and changes
//! nothing if memory runs out.
#![tactic(auto)]

mod plans;
mod registry;

pub use plans::Plan;
pub use registry::{Change, Registered, Registry};
