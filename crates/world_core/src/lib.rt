//! The world of files that a schedule drives: it takes the lines one by one, and its entries are the trace so far.
//!
//! `World::apply` computes a run as `world_spec` defines it: the rules that a line may break, the world after it, and the limit
//! or the full journal that it came to. It stands over any `Hull`, which keeps the nodes' records and carries their messages.
#![tactic(auto)]

mod lines;
mod state;
mod world;

pub use world::World;
pub use world_hull::{Hull, Kept, ListHull, WorldErr};
