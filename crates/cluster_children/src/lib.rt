//! The children of a cluster: its nodes, each started as a program of its own, and then waited for or stopped.
//!
//! Whoever starts them gives them up by `stop_all`: a child that was waited for is passed over, and each other one is stopped once.
#![tactic(auto)]

mod children;

pub use children::Children;
