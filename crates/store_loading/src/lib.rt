//! The store of a node is chosen and loaded from its disk; the last boot in its records; and how a job over a store says what it has found.
#![tactic(auto)]

mod loading;

pub use loading::{loaded, store_at, stored_boot};
