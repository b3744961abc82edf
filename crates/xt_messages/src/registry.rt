use std::alloc::Global;
use xt_base::{Copies, Name, NodeId, OutOfMemory, Seq};

/// A request to the DIR. The kind of a node is 1 for an OSD and 2 for an MRC.
pub enum RegistryReq {
    /// Registers a node, where its row has the expected version.
    Set {
        node: NodeId,
        kind: u8,
        address: Name,
        expected: u64,
    },
    Get {
        node: NodeId,
    },
    /// The rows of a kind with nodes above `after`.
    List {
        kind: u8,
        after: NodeId,
    },
    /// Removes a node, where its row has the expected version.
    Remove {
        node: NodeId,
        expected: u64,
    },
}

impl Copies for RegistryReq {
    fn copy(&self, alloc: Global) -> Result<RegistryReq, OutOfMemory> {
        match self {
            RegistryReq::Set {
                node,
                kind,
                address,
                expected,
            } => Ok(RegistryReq::Set {
                node: *node,
                kind: *kind,
                address: address.copy(alloc)?,
                expected: *expected,
            }),
            RegistryReq::Get { node } => Ok(RegistryReq::Get { node: *node }),
            RegistryReq::List { kind, after } => Ok(RegistryReq::List {
                kind: *kind,
                after: *after,
            }),
            RegistryReq::Remove { node, expected } => Ok(RegistryReq::Remove {
                node: *node,
                expected: *expected,
            }),
        }
    }
}

/// A registered node. An absent one has version 0.
pub struct RegistryRow {
    pub node: NodeId,
    pub kind: u8,
    pub address: Name,
    pub version: u64,
}

impl Copies for RegistryRow {
    fn copy(&self, alloc: Global) -> Result<RegistryRow, OutOfMemory> {
        Ok(RegistryRow {
            node: self.node,
            kind: self.kind,
            address: self.address.copy(alloc)?,
            version: self.version,
        })
    }
}

/// Rows, rising by node.
pub type RegistryRows = Seq<RegistryRow>;

/// What the DIR answers.
pub enum RegistryAnswer {
    Done { version: u64 },
    /// The row's version isn't the expected one, but this.
    Changed { version: u64 },
    Absent,
    Row { row: RegistryRow },
    Rows { rows: RegistryRows },
}

impl Copies for RegistryAnswer {
    fn copy(&self, alloc: Global) -> Result<RegistryAnswer, OutOfMemory> {
        match self {
            RegistryAnswer::Done { version } => Ok(RegistryAnswer::Done { version: *version }),
            RegistryAnswer::Changed { version } => {
                Ok(RegistryAnswer::Changed { version: *version })
            }
            RegistryAnswer::Absent => Ok(RegistryAnswer::Absent),
            RegistryAnswer::Row { row } => Ok(RegistryAnswer::Row {
                row: row.copy(alloc)?,
            }),
            RegistryAnswer::Rows { rows } => Ok(RegistryAnswer::Rows {
                rows: rows.copy(alloc)?,
            }),
        }
    }
}

// A derived drop is part of the code of each function that may drop a value, and proved there. These are proved once.

impl Drop for RegistryReq {
    fn drop(self) {
        match self {
            RegistryReq::Set {
                node: _,
                kind: _,
                address: _,
                expected: _,
            } => {}
            RegistryReq::Get { node: _ } => {}
            RegistryReq::List { kind: _, after: _ } => {}
            RegistryReq::Remove {
                node: _,
                expected: _,
            } => {}
        }
    }
}

impl Drop for RegistryRow {
    fn drop(self) {
        let RegistryRow {
            node: _,
            kind: _,
            address: _,
            version: _,
        } = self;
    }
}

impl Drop for RegistryAnswer {
    fn drop(self) {
        match self {
            RegistryAnswer::Done { version: _ } => {}
            RegistryAnswer::Changed { version: _ } => {}
            RegistryAnswer::Absent => {}
            RegistryAnswer::Row { row: _ } => {}
            RegistryAnswer::Rows { rows: _ } => {}
        }
    }
}
