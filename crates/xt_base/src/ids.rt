use crate::lists::{Copies, OutOfMemory};
use std::alloc::Global;
use std::marker::Model;

/// A node: an OSD, the MRC, the DIR or a client.
#[derive(Clone, Copy, PartialEq, Eq, PartialOrd, Ord)]
pub struct NodeId(pub u32);

impl Copies for NodeId {
    fn copy(&self, _alloc: Global) -> Result<NodeId, OutOfMemory> {
        Ok(*self)
    }
}

/// A start of a node, counted from 1, below 2^62.
#[derive(Clone, Copy, PartialEq, Eq, PartialOrd)]
pub struct Boot(pub u64);

/// A volume: the sixteen bytes of its UUID. Contracts see the bytes, and its order is theirs.
#[derive(Clone, Copy, PartialEq, Eq, PartialOrd, Ord)]
pub struct VolumeId(pub [u8; 16]);

impl Model for VolumeId {
    ghost use Rattle.std.specs.Prelude.{List, ℕ};

    ghost Value = { List ℕ };

    ghost view = { λ v. v.0 };

    ghost inverse = { λ bytes. record { 0 = bytes } };
}

impl VolumeId {
    /// The nil UUID, the volume of each file that a schedule declares.
    pub const NIL: VolumeId = VolumeId([0; 16]);
}

/// A file: its volume and its number.
#[derive(Clone, Copy, PartialEq, Eq, PartialOrd, Ord)]
pub struct FileId {
    pub volume: VolumeId,
    pub number: u64,
}

/// A numbered round of the lease negotiation, ordered by its places.
#[derive(Clone, Copy, PartialEq, Eq, PartialOrd)]
pub struct Ballot {
    pub count: u64,
    pub node: NodeId,
    pub boot: Boot,
}

/// The tenure of a primary, ordered by its places.
#[derive(Clone, Copy, PartialEq, Eq, PartialOrd, Ord)]
pub struct Epoch {
    pub number: u64,
    pub node: NodeId,
}

/// The epoch of a write and the count of writes with it, ordered by its places. It is an object's version, too.
#[derive(Clone, Copy, PartialEq, Eq, PartialOrd, Ord)]
pub struct Stamp {
    pub epoch: Epoch,
    pub count: u64,
}

/// A lease: who holds it, and the clock in milliseconds at which it ends.
#[derive(Clone, Copy)]
pub struct Lease {
    pub node: NodeId,
    pub boot: Boot,
    pub end: u64,
}

/// A client's operation. A client's numbers rise.
#[derive(Clone, Copy, PartialEq, Eq)]
pub struct OpId {
    pub client: NodeId,
    pub number: u64,
}

/// A file's size in bytes, under the epoch of its last truncation.
#[derive(Clone, Copy, PartialEq, Eq, PartialOrd)]
pub struct SizeMark {
    pub epoch: u64,
    pub size: u64,
}
