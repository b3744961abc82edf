//! The declared nodes of a world, over a hull that keeps their records and carries their messages.
//!
//! Contracts see the times of the world and its nodes, each with the records that the hull keeps for it and what was done to them.
//! Each rule about nodes equals its definition in `world_spec`; each change is that of the one node that is there, and the others
//! are as before. Where the hull rewrites the records of an OSD, `Nodes::forget` has the OSD forget the same bodies.
#![tactic(auto)]

mod nodes;

pub use nodes::Nodes;
