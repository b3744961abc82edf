//! A tree of names: an entry, and what is in it under each name.
//!
//! Contracts see the flat list of its rows, each with its path from the tree's top, and each call equals the one on that list. It
//! goes down the names of its path alone: a subtree is taken out and put elsewhere without a walk over what is in it.
#![tactic(auto)]

mod node;

pub use node::Node;
