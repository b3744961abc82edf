//! A hull over real frames, parts, journals and stores.
//!
//! `DiskHull` gives the very message, which it carries as its frame, cut into parts that are joined again. It shows each node's
//! disk, whose bytes stand for the records that the node keeps. A stop in an append is one of a disk, and what that disk leaves
//! is what the node has then; a node that starts again has what a crash leaves of its disk. A node's records are rewritten on its
//! disk. Beside the disks it keeps one number of each node, by which it knows when that is to be done.
#![tactic(auto)]

mod carrying;
mod disk_hull;
mod stored_node;

pub use disk_hull::DiskHull;
