use std::alloc::Global;
use xt_base::{Copies, NodeId, Octets, OutOfMemory, Seq, SizeMark};

/// Why an OSD, or the MRC for a report, denies an ask. Its number is sent and printed.
#[derive(Clone, Copy)]
pub enum Denial {
    /// The capability's tag isn't the one under the shared secret.
    Tag = 1,
    /// The capability is of another file.
    File = 2,
    /// The capability's time is over.
    Expired = 3,
    /// The capability is only for reading.
    Mode = 4,
    /// The capability's list isn't the stored one, or this node isn't in it.
    List = 5,
    /// The range leaves the object, or the object isn't this node's.
    Range = 6,
}

/// What an OSD answers to an ask.
#[derive(Drop)]
pub enum Reply {
    /// The operation is done, or the bytes are read; `count` is how many writes the file has.
    Ok {
        count: u64,
        mark: SizeMark,
        bytes: Octets,
    },
    /// No lease was to be had; `end` is the last end of a lease that the OSD knew.
    NoLease {
        end: u64,
    },
    /// `have` of the `need` acknowledgements came in time. A write may still take effect.
    NoMajority {
        have: u8,
        need: u8,
    },
    /// Another node holds the lease, up to `end`.
    Elsewhere {
        node: NodeId,
        end: u64,
    },
    Denied {
        rule: Denial,
    },
    /// The capability's list is older than this version.
    OldList {
        version: u32,
    },
    /// The capability's truncate epoch is older than this one.
    OldEpoch {
        epoch: u64,
    },
    /// The file would have an object past the last one that it may have.
    TooFar {
        object: u64,
    },
    /// As many clients as may have written to the file.
    ClientsFull,
}

impl Copies for Reply {
    fn copy(&self, alloc: Global) -> Result<Reply, OutOfMemory> {
        match self {
            Reply::Ok { count, mark, bytes } => Ok(Reply::Ok {
                count: *count,
                mark: *mark,
                bytes: bytes.copy(alloc)?,
            }),
            Reply::NoLease { end } => Ok(Reply::NoLease { end: *end }),
            Reply::NoMajority { have, need } => Ok(Reply::NoMajority {
                have: *have,
                need: *need,
            }),
            Reply::Elsewhere { node, end } => Ok(Reply::Elsewhere {
                node: *node,
                end: *end,
            }),
            Reply::Denied { rule } => Ok(Reply::Denied { rule: *rule }),
            Reply::OldList { version } => Ok(Reply::OldList { version: *version }),
            Reply::OldEpoch { epoch } => Ok(Reply::OldEpoch { epoch: *epoch }),
            Reply::TooFar { object } => Ok(Reply::TooFar { object: *object }),
            Reply::ClientsFull => Ok(Reply::ClientsFull),
        }
    }
}

/// The outcome of asking one node that doesn't end a call.
#[derive(Clone, Copy)]
pub enum Retry {
    NoLease { end: u64 },
    NoMajority { have: u8, need: u8 },
    Elsewhere { node: NodeId, end: u64 },
    /// Its deadline came before an answer.
    Silent,
}

/// What one member of a file's list gave to a call that may be made again.
#[derive(Clone, Copy)]
pub struct Answered {
    pub node: NodeId,
    pub outcome: Retry,
}

impl Copies for Answered {
    fn copy(&self, _alloc: Global) -> Result<Answered, OutOfMemory> {
        Ok(*self)
    }
}

/// What each member gave, in the order of the file's list.
pub type Answers = Seq<Answered>;
