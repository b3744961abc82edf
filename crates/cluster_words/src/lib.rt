//! The nodes of a cluster on one machine, and the words with which each is started as a program of its own.
#![tactic(auto)]

mod children;

pub use children::{ClusterNode, address, child_words};
