use std::alloc::Global;
use xt_base::{
    Copies, Epoch, FileId, Members, NodeId, Octets, OpId, OutOfMemory, Seq, SizeMark, Stamp,
};

/// How a file's objects lie on its OSDs.
#[derive(Clone, Copy)]
pub enum Kind {
    /// Each member keeps all objects, and one at a time acts as primary.
    Replicated,
    /// Object `o` lies on member `o` modulo their number.
    Striped,
}

/// Where a file's content is kept. A change of the members raises the version.
#[derive(Clone, Copy)]
pub struct Location {
    pub version: u32,
    pub kind: Kind,
    /// The size of an object in bytes: 1,024 to 131,072, in steps of 1,024.
    pub stripe: u32,
    pub members: Members,
}

/// What lets a client use a file, from the MRC, under a secret that it shares with the OSDs.
#[derive(Clone, Copy)]
pub struct Capability {
    pub file: FileId,
    /// 1 to read, 2 to read and write.
    pub mode: u8,
    /// The last clock, in milliseconds, at which it serves.
    pub expiry: u64,
    /// The truncate epoch.
    pub epoch: u64,
    pub location: Location,
    pub tag: [u8; 32],
}

/// An operation on a file's content.
pub enum Op {
    /// The bytes of an object from `at` on, up to `len` of them.
    Read { object: u64, at: u32, len: u32 },
    /// These bytes into an object from `at` on.
    Write { object: u64, at: u32, bytes: Octets },
    /// Cuts or extends the file to this size.
    Truncate { size: u64 },
}

impl Copies for Op {
    fn copy(&self, alloc: Global) -> Result<Op, OutOfMemory> {
        match self {
            Op::Read { object, at, len } => Ok(Op::Read {
                object: *object,
                at: *at,
                len: *len,
            }),
            Op::Write { object, at, bytes } => Ok(Op::Write {
                object: *object,
                at: *at,
                bytes: bytes.copy(alloc)?,
            }),
            Op::Truncate { size } => Ok(Op::Truncate { size: *size }),
        }
    }
}

/// One write or truncation, as a primary sends it and a replica keeps it.
pub struct Update {
    pub stamp: Stamp,
    pub id: OpId,
    pub mark: SizeMark,
    /// The objects from this one on are dropped; none are where it is `NO_OBJECT`.
    pub drop_from: u64,
    /// The object that gets the body; none does where it is `NO_OBJECT`, and then the body is empty.
    pub object: u64,
    pub body: Octets,
}

impl Copies for Update {
    fn copy(&self, alloc: Global) -> Result<Update, OutOfMemory> {
        Ok(Update {
            stamp: self.stamp,
            id: self.id,
            mark: self.mark,
            drop_from: self.drop_from,
            object: self.object,
            body: self.body.copy(alloc)?,
        })
    }
}

/// An object and the stamp of the update that made its bytes.
#[derive(Clone, Copy, PartialEq, Eq, PartialOrd, Ord)]
pub struct ObjectVersion {
    pub object: u64,
    pub version: Stamp,
}

impl Copies for ObjectVersion {
    fn copy(&self, _alloc: Global) -> Result<ObjectVersion, OutOfMemory> {
        Ok(*self)
    }
}

/// The versions of a file's objects, rising by object.
pub type Versions = Seq<ObjectVersion>;

/// The last write of a client: its number, and how many writes the file had with it.
#[derive(Clone, Copy)]
pub struct Session {
    pub client: NodeId,
    pub number: u64,
    pub count: u64,
}

impl Copies for Session {
    fn copy(&self, _alloc: Global) -> Result<Session, OutOfMemory> {
        Ok(*self)
    }
}

/// The last writes of a file's clients, rising by client.
pub type Sessions = Seq<Session>;

/// The state of a replica.
pub struct FileHead {
    pub promised: Epoch,
    pub stamp: Stamp,
    /// The last write's id; (0, 0) before the first.
    pub last: OpId,
    pub mark: SizeMark,
    pub versions: Versions,
    pub sessions: Sessions,
}

impl Copies for FileHead {
    fn copy(&self, alloc: Global) -> Result<FileHead, OutOfMemory> {
        Ok(FileHead {
            promised: self.promised,
            stamp: self.stamp,
            last: self.last,
            mark: self.mark,
            versions: self.versions.copy(alloc)?,
            sessions: self.sessions.copy(alloc)?,
        })
    }
}

// A derived drop is part of the code of each function that may drop a value, and proved there. These are proved once.

impl Drop for Op {
    fn drop(self) {
        match self {
            Op::Read {
                object: _,
                at: _,
                len: _,
            } => {}
            Op::Write {
                object: _,
                at: _,
                bytes: _,
            } => {}
            Op::Truncate { size: _ } => {}
        }
    }
}

impl Drop for Update {
    fn drop(self) {
        let Update {
            stamp: _,
            id: _,
            mark: _,
            drop_from: _,
            object: _,
            body: _,
        } = self;
    }
}

impl Drop for FileHead {
    fn drop(self) {
        let FileHead {
            promised: _,
            stamp: _,
            last: _,
            mark: _,
            versions: _,
            sessions: _,
        } = self;
    }
}
