//! The values that every part of xtfs speaks of: nodes, files, ballots, leases, epochs, stamps, members, times, bytes, texts and lists.
//!
//! Contracts see each of them as plain data: a number as a number, a list as a list, a text as its bytes. What holds a list is
//! not `Copy` and has `copy`, which gives an equal value or runs out of memory. The limits of numbers, bytes and texts are in
//! `specs/FieldLimits.antt`.
#![tactic(auto)]

mod address;
mod ids;
mod lists;
mod members;
mod optional_box;
mod outside;
mod times;

pub use address::Address;
pub use ids::{Ballot, Boot, Epoch, FileId, Lease, NodeId, OpId, SizeMark, Stamp, VolumeId};
pub use lists::{Buffer, Copies, Name, Octets, OutOfMemory, Seq, Words};
pub use members::{BadMembers, Members, has_node};
pub use optional_box::OptionalBox;
pub use outside::{CallList, Failed};
pub use times::{BadTimes, Times, majority};

/// The node of the directory service.
pub const DIR_NODE: NodeId = NodeId(900);

/// The node of the metadata server.
pub const MRC_NODE: NodeId = NodeId(901);

/// How many objects a replicated file may have, or a striped one on each of its OSDs.
pub const OBJECTS: u64 = 16_384;

/// The longest frame, and so the longest message, in bytes.
pub const FRAME: usize = 1_048_576;

/// The longest `bytes` field of a message, and so the largest stripe, in bytes.
pub const BODY: usize = 131_072;

/// The greatest number of 64 bits. In an update it stands for no object.
pub const NO_OBJECT: u64 = u64::MAX;

/// How many clients may write to a file.
pub const CLIENTS: usize = 256;

/// Counts, boots, epoch numbers, truncate epochs, registry versions, operation numbers and clocks are below this.
pub const COUNTS: u64 = 1 << 62;
