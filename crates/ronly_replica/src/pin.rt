ghost use Rattle.std.specs.Prelude.{◌≡◌};
ghost use Rattle.ronly_replica.specs.Pins as rows;

use std::alloc::Global;
use xt_base::{Epoch, FileId, NodeId, Octets, OpId, Seq, SizeMark, Stamp};
use xt_messages::{FileHead, Location, Record};

/// What a replica is pinned to: a file, where its content is kept, how many writes it had, and its size then.
#[derive(Clone, Copy)]
pub struct Pin {
    pub file: FileId,
    pub location: Location,
    pub count: u64,
    pub mark: SizeMark,
}

impl Pin {
    /// The version under which its objects are staged: no primary gives it, since it is of the epoch before all others.
    pub(crate) fn version(&self) -> Stamp
        ensures { result ≡ rows.pinned_version self.now.count }
    {
        Stamp {
            epoch: Epoch {
                number: 0,
                node: NodeId(0),
            },
            count: self.count,
        }
    }

    /// The record of where its content is kept.
    pub(crate) fn view(&self) -> Record
        ensures { result ≡ rows.view_of self.now }
    {
        Record::View {
            file: self.file,
            location: self.location,
        }
    }

    /// The record of its count and its size.
    pub(crate) fn head(&self, alloc: Global) -> Record
        ensures { result ≡ rows.head_of self.now }
    {
        let version = self.version();
        Record::Head {
            file: self.file,
            head: FileHead {
                promised: version.epoch,
                stamp: version,
                last: OpId {
                    client: NodeId(0),
                    number: 0,
                },
                mark: self.mark,
                versions: Seq::new(alloc),
                sessions: Seq::new(alloc),
            },
        }
    }

    /// The record of an object that was fetched.
    pub(crate) fn stage(&self, object: u64, bytes: Octets) -> Record
        ensures { result ≡ rows.stage_of self.now object bytes }
    {
        Record::Stage {
            file: self.file,
            object,
            version: self.version(),
            bytes,
        }
    }
}
