//! The records of one node, on a disk in memory that a crash can leave in any allowed state.
//!
//! A `NodeStore` shows its records and its disk, and the bytes on the disk stand for exactly these records. An append in which
//! the node stops stops a disk in that call, and what that disk leaves is what the node has then. A node that starts again reads
//! what a crash leaves of its disk. A record has no room exactly where the journal would pass `JOURNAL` bytes with it, by where
//! its current area ends. Records that are rewritten go to a new area of the journal, where that has room for it.
#![tactic(auto)]

mod node_store;

pub use node_store::NodeStore;

/// The limit of a node's journal, in bytes.
pub const JOURNAL: u64 = 1_073_741_824;

/// A node's records are rewritten where the number of those that were put since they were loaded last is a multiple of this.
pub const REWRITING_PERIOD: u8 = 64;
