//! What a world of nodes is built on: a hull, which keeps the nodes' records and carries their messages.
//!
//! A `Hull` gives each message unchanged, keeps a record exactly where its append was done or the stop in it leaves the
//! record, and gives back what the node's records say, and the body that the last of them put. It rewrites a node's
//! records exactly where that is due by what was done to them. `ListHull` is a hull in memory, which rewrites none. `Past`
//! is what was done to a node's records, for proofs alone. `WorldErr` is why a line isn't done.
#![tactic(auto)]

mod errors;
mod hull;
mod list_hull;
mod past;

pub use errors::WorldErr;
pub use hull::{Hull, Kept};
pub use list_hull::ListHull;
pub use object_versions::BodyErr;
pub use past::{Done, Past};
