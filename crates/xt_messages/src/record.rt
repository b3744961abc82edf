use crate::file::{FileHead, Location, ObjectVersion, Update};
use crate::meta::MetaReq;
use crate::registry::RegistryReq;
use std::alloc::Global;
use std::collections::BTreeSet;
use std::marker::Model;
use xt_base::{Boot, Copies, Epoch, FileId, Members, NodeId, Octets, OutOfMemory, Seq, Stamp};

/// A recorded request of the MRC or the DIR.
pub enum Logged {
    Meta {
        user: u32,
        group: u32,
        request: MetaReq,
    },
    Registry {
        request: RegistryReq,
    },
}

impl Copies for Logged {
    fn copy(&self, alloc: Global) -> Result<Logged, OutOfMemory> {
        match self {
            Logged::Meta {
                user,
                group,
                request,
            } => Ok(Logged::Meta {
                user: *user,
                group: *group,
                request: request.copy(alloc)?,
            }),
            Logged::Registry { request } => Ok(Logged::Registry {
                request: request.copy(alloc)?,
            }),
        }
    }
}

/// What a node keeps of a step.
pub enum Record {
    /// A start.
    Boot {
        boot: Boot,
    },
    /// A replica's promise.
    Promise {
        file: FileId,
        epoch: Epoch,
    },
    /// A write or truncation that a replica took.
    Update {
        file: FileId,
        update: Update,
    },
    /// Bytes that a replica holds.
    Stage {
        file: FileId,
        object: u64,
        version: Stamp,
        bytes: Octets,
    },
    /// A head that a replica took in place of its own.
    Head {
        file: FileId,
        head: FileHead,
    },
    /// Where a file's content is kept.
    View {
        file: FileId,
        location: Location,
    },
    /// A request that the MRC or the DIR recorded, when, and the OSDs that it picked from.
    Meta {
        from: NodeId,
        number: u64,
        now: u64,
        nodes: Option<Members>,
        request: Logged,
    },
    /// A version of a file's list that is closed at this node.
    Close {
        file: FileId,
        version: u32,
    },
    /// A list that a member took, with the head that it begins with.
    Install {
        file: FileId,
        location: Location,
        head: FileHead,
    },
    /// The MRC's choice for its running change: the new list, its first head, and the node that has the bodies.
    Choice {
        file: FileId,
        location: Location,
        head: FileHead,
        source: NodeId,
    },
    /// The MRC ended its change to this version.
    Listed {
        file: FileId,
        version: u32,
    },
    /// The digest of a body.
    Seal {
        file: FileId,
        object: u64,
        version: Stamp,
        digest: [u8; 32],
    },
    /// A file that is removed with all that is kept of it.
    Forget {
        file: FileId,
    },
    /// An update as it was written while objects had 32 bits. It, and the four kinds that follow, are read and no longer written.
    OldUpdate {
        file: FileId,
        update: Update,
    },
    OldStage {
        file: FileId,
        object: u64,
        version: Stamp,
        bytes: Octets,
    },
    OldHead {
        file: FileId,
        head: FileHead,
    },
    OldInstall {
        file: FileId,
        location: Location,
        head: FileHead,
    },
    OldChoice {
        file: FileId,
        location: Location,
        head: FileHead,
        source: NodeId,
    },
}

impl Copies for Record {
    fn copy(&self, alloc: Global) -> Result<Record, OutOfMemory> {
        match self {
            Record::Boot { boot } => Ok(Record::Boot { boot: *boot }),
            Record::Promise { file, epoch } => Ok(Record::Promise {
                file: *file,
                epoch: *epoch,
            }),
            Record::Update { file, update } => Ok(Record::Update {
                file: *file,
                update: update.copy(alloc)?,
            }),
            Record::Stage {
                file,
                object,
                version,
                bytes,
            } => Ok(Record::Stage {
                file: *file,
                object: *object,
                version: *version,
                bytes: bytes.copy(alloc)?,
            }),
            Record::Head { file, head } => Ok(Record::Head {
                file: *file,
                head: head.copy(alloc)?,
            }),
            Record::View { file, location } => Ok(Record::View {
                file: *file,
                location: *location,
            }),
            Record::Meta {
                from,
                number,
                now,
                nodes,
                request,
            } => Ok(Record::Meta {
                from: *from,
                number: *number,
                now: *now,
                nodes: *nodes,
                request: request.copy(alloc)?,
            }),
            Record::Close { file, version } => Ok(Record::Close {
                file: *file,
                version: *version,
            }),
            Record::Install {
                file,
                location,
                head,
            } => Ok(Record::Install {
                file: *file,
                location: *location,
                head: head.copy(alloc)?,
            }),
            Record::Choice {
                file,
                location,
                head,
                source,
            } => Ok(Record::Choice {
                file: *file,
                location: *location,
                head: head.copy(alloc)?,
                source: *source,
            }),
            Record::Listed { file, version } => Ok(Record::Listed {
                file: *file,
                version: *version,
            }),
            Record::Seal {
                file,
                object,
                version,
                digest,
            } => Ok(Record::Seal {
                file: *file,
                object: *object,
                version: *version,
                digest: *digest,
            }),
            Record::Forget { file } => Ok(Record::Forget { file: *file }),
            Record::OldUpdate { file, update } => Ok(Record::OldUpdate {
                file: *file,
                update: update.copy(alloc)?,
            }),
            Record::OldStage {
                file,
                object,
                version,
                bytes,
            } => Ok(Record::OldStage {
                file: *file,
                object: *object,
                version: *version,
                bytes: bytes.copy(alloc)?,
            }),
            Record::OldHead { file, head } => Ok(Record::OldHead {
                file: *file,
                head: head.copy(alloc)?,
            }),
            Record::OldInstall {
                file,
                location,
                head,
            } => Ok(Record::OldInstall {
                file: *file,
                location: *location,
                head: head.copy(alloc)?,
            }),
            Record::OldChoice {
                file,
                location,
                head,
                source,
            } => Ok(Record::OldChoice {
                file: *file,
                location: *location,
                head: head.copy(alloc)?,
                source: *source,
            }),
        }
    }
}

/// Versions of objects, each once.
pub type HeldPairs = Seq<ObjectVersion>;

/// The bodies that a replica holds, rising by object, then version. Contracts see the list.
#[derive(Drop)]
pub struct HeldSet {
    pub versions: BTreeSet<ObjectVersion>,
}

impl Model for HeldSet {
    ghost use Rattle.std.specs.Prelude.{List};
    ghost use Rattle.xt_messages.specs.declared.file.ObjectVersion.{ObjectVersion};

    ghost Value = { List ObjectVersion };

    ghost view = { λ h. h.versions.keys };
}

impl HeldSet {
    ghost use Rattle.std.specs.Prelude.{◌≡◌, []};

    /// Nothing is held.
    pub fn new(alloc: Global) -> HeldSet
        ensures { result ≡ [] }
    {
        HeldSet {
            versions: BTreeSet::new(alloc),
        }
    }
}

/// What a node's records say of one file.
#[derive(Drop)]
pub struct FileRow {
    pub file: FileId,
    pub head: FileHead,
    pub held: HeldSet,
    pub location: Option<Location>,
    /// The version of the last list that was closed.
    pub closed: Option<u32>,
}

/// What a node's records say of its files, rising by file.
pub type FileTable = Seq<FileRow>;

/// What a node's records say: its last start, 0 before the first, and its files.
#[derive(Drop)]
pub struct Folded {
    pub boot: Boot,
    pub files: FileTable,
}

/// A body that is to be kept.
#[derive(Clone, Copy)]
pub struct KeepBody {
    pub file: FileId,
    pub object: u64,
    pub version: Stamp,
}

impl Copies for KeepBody {
    fn copy(&self, _alloc: Global) -> Result<KeepBody, OutOfMemory> {
        Ok(*self)
    }
}

/// The bodies that are to be kept.
pub type Keep = Seq<KeepBody>;

// A derived drop is part of the code of each function that may drop a value, and proved there. These are proved once.

impl Drop for Logged {
    fn drop(self) {
        match self {
            Logged::Meta {
                user: _,
                group: _,
                request: _,
            } => {}
            Logged::Registry { request: _ } => {}
        }
    }
}

impl Drop for Record {
    fn drop(self) {
        match self {
            Record::Boot { boot: _ } => {}
            Record::Promise { file: _, epoch: _ } => {}
            Record::Update { file: _, update: _ } => {}
            Record::Stage {
                file: _,
                object: _,
                version: _,
                bytes: _,
            } => {}
            Record::Head { file: _, head: _ } => {}
            Record::View {
                file: _,
                location: _,
            } => {}
            Record::Meta {
                from: _,
                number: _,
                now: _,
                nodes: _,
                request: _,
            } => {}
            Record::Close {
                file: _,
                version: _,
            } => {}
            Record::Install {
                file: _,
                location: _,
                head: _,
            } => {}
            Record::Choice {
                file: _,
                location: _,
                head: _,
                source: _,
            } => {}
            Record::Listed {
                file: _,
                version: _,
            } => {}
            Record::Seal {
                file: _,
                object: _,
                version: _,
                digest: _,
            } => {}
            Record::Forget { file: _ } => {}
            Record::OldUpdate { file: _, update: _ } => {}
            Record::OldStage {
                file: _,
                object: _,
                version: _,
                bytes: _,
            } => {}
            Record::OldHead { file: _, head: _ } => {}
            Record::OldInstall {
                file: _,
                location: _,
                head: _,
            } => {}
            Record::OldChoice {
                file: _,
                location: _,
                head: _,
                source: _,
            } => {}
        }
    }
}
