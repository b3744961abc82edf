use crate::file::{Capability, FileHead, Location, Op, Update};
use crate::meta::{MetaAnswer, MetaReq};
use crate::registry::{RegistryAnswer, RegistryReq};
use crate::reply::Reply;
use std::alloc::Global;
use xt_base::{
    Ballot, Boot, Copies, Epoch, FileId, Lease, NodeId, Octets, OutOfMemory, Seq, Stamp,
};

/// What a message says, in the order of the kinds' numbers: from 1, and from 33 on for what changes a file's list.
pub enum Payload {
    /// Asks an acceptor to promise a ballot.
    Read {
        file: FileId,
        ballot: Ballot,
    },
    /// A promise, with the lease that this boot of the acceptor has accepted.
    Promise {
        file: FileId,
        ballot: Ballot,
        boot: Boot,
        report: Option<Lease>,
    },
    /// Asks this boot of an acceptor to accept a lease.
    Write {
        file: FileId,
        ballot: Ballot,
        boot: Boot,
        lease: Lease,
    },
    Accepted {
        file: FileId,
        ballot: Ballot,
        boot: Boot,
    },
    /// A round at least as high was promised.
    Outrun {
        file: FileId,
        ballot: Ballot,
        seen: Ballot,
    },
    /// A new primary asks for a replica's promise and head.
    Gather {
        file: FileId,
        epoch: Epoch,
    },
    Status {
        file: FileId,
        epoch: Epoch,
        head: FileHead,
    },
    /// Asks for the bytes of one version of an object.
    Fetch {
        file: FileId,
        epoch: Epoch,
        object: u64,
        version: Stamp,
    },
    Object {
        file: FileId,
        epoch: Epoch,
        object: u64,
        version: Stamp,
        bytes: Octets,
    },
    /// Bytes for a replica to hold.
    Stage {
        file: FileId,
        epoch: Epoch,
        object: u64,
        version: Stamp,
        bytes: Octets,
    },
    Staged {
        file: FileId,
        epoch: Epoch,
        object: u64,
        version: Stamp,
    },
    /// The head that a replica is to take.
    Head {
        file: FileId,
        epoch: Epoch,
        head: FileHead,
    },
    Update {
        file: FileId,
        update: Update,
    },
    /// The replica has the head or the update of this stamp.
    Ack {
        file: FileId,
        stamp: Stamp,
    },
    /// A higher epoch was promised.
    Refused {
        file: FileId,
        epoch: Epoch,
        promised: Epoch,
    },
    /// The replica lacks what the message builds on.
    Behind {
        file: FileId,
        epoch: Epoch,
        stamp: Stamp,
    },
    /// The replica doesn't hold this version of an object.
    Missing {
        file: FileId,
        epoch: Epoch,
        object: u64,
        version: Stamp,
    },
    /// A client's operation on a file's content.
    Ask {
        number: u64,
        capability: Capability,
        op: Op,
    },
    Reply {
        number: u64,
        file: FileId,
        reply: Reply,
    },
    Meta {
        number: u64,
        user: u32,
        group: u32,
        request: MetaReq,
    },
    MetaReply {
        number: u64,
        answer: MetaAnswer,
    },
    Registry {
        number: u64,
        request: RegistryReq,
    },
    RegistryReply {
        number: u64,
        answer: RegistryAnswer,
    },
    /// Ends a served node, where the tag is right.
    Stop {
        tag: [u8; 32],
    },
    /// Closes this version of a file's list at one of its members.
    Close {
        file: FileId,
        version: u32,
    },
    /// The member has closed this version, and this is its head.
    Closed {
        file: FileId,
        version: u32,
        head: FileHead,
    },
    /// The list that a member is to take, and the head that it begins with. The source has the bodies.
    Install {
        file: FileId,
        location: Location,
        head: FileHead,
        source: NodeId,
    },
    Installed {
        file: FileId,
        version: u32,
    },
    /// Asks for the bytes of one version of an object of a head that is to be installed.
    Pull {
        file: FileId,
        object: u64,
        version: Stamp,
    },
    Pulled {
        file: FileId,
        object: u64,
        version: Stamp,
        bytes: Octets,
    },
    /// A new member can go on with what it is to install.
    Wanted {
        file: FileId,
    },
}

impl Copies for Payload {
    fn copy(&self, alloc: Global) -> Result<Payload, OutOfMemory> {
        Ok(match self {
            Payload::Read { file, ballot } => Payload::Read {
                file: *file,
                ballot: *ballot,
            },
            Payload::Promise {
                file,
                ballot,
                boot,
                report,
            } => Payload::Promise {
                file: *file,
                ballot: *ballot,
                boot: *boot,
                report: *report,
            },
            Payload::Write {
                file,
                ballot,
                boot,
                lease,
            } => Payload::Write {
                file: *file,
                ballot: *ballot,
                boot: *boot,
                lease: *lease,
            },
            Payload::Accepted { file, ballot, boot } => Payload::Accepted {
                file: *file,
                ballot: *ballot,
                boot: *boot,
            },
            Payload::Outrun { file, ballot, seen } => Payload::Outrun {
                file: *file,
                ballot: *ballot,
                seen: *seen,
            },
            Payload::Gather { file, epoch } => Payload::Gather {
                file: *file,
                epoch: *epoch,
            },
            Payload::Status { file, epoch, head } => Payload::Status {
                file: *file,
                epoch: *epoch,
                head: head.copy(alloc)?,
            },
            Payload::Fetch {
                file,
                epoch,
                object,
                version,
            } => Payload::Fetch {
                file: *file,
                epoch: *epoch,
                object: *object,
                version: *version,
            },
            Payload::Object {
                file,
                epoch,
                object,
                version,
                bytes,
            } => Payload::Object {
                file: *file,
                epoch: *epoch,
                object: *object,
                version: *version,
                bytes: bytes.copy(alloc)?,
            },
            Payload::Stage {
                file,
                epoch,
                object,
                version,
                bytes,
            } => Payload::Stage {
                file: *file,
                epoch: *epoch,
                object: *object,
                version: *version,
                bytes: bytes.copy(alloc)?,
            },
            Payload::Staged {
                file,
                epoch,
                object,
                version,
            } => Payload::Staged {
                file: *file,
                epoch: *epoch,
                object: *object,
                version: *version,
            },
            Payload::Head { file, epoch, head } => Payload::Head {
                file: *file,
                epoch: *epoch,
                head: head.copy(alloc)?,
            },
            Payload::Update { file, update } => Payload::Update {
                file: *file,
                update: update.copy(alloc)?,
            },
            Payload::Ack { file, stamp } => Payload::Ack {
                file: *file,
                stamp: *stamp,
            },
            Payload::Refused {
                file,
                epoch,
                promised,
            } => Payload::Refused {
                file: *file,
                epoch: *epoch,
                promised: *promised,
            },
            Payload::Behind { file, epoch, stamp } => Payload::Behind {
                file: *file,
                epoch: *epoch,
                stamp: *stamp,
            },
            Payload::Missing {
                file,
                epoch,
                object,
                version,
            } => Payload::Missing {
                file: *file,
                epoch: *epoch,
                object: *object,
                version: *version,
            },
            Payload::Ask {
                number,
                capability,
                op,
            } => Payload::Ask {
                number: *number,
                capability: *capability,
                op: op.copy(alloc)?,
            },
            Payload::Reply {
                number,
                file,
                reply,
            } => Payload::Reply {
                number: *number,
                file: *file,
                reply: reply.copy(alloc)?,
            },
            Payload::Meta {
                number,
                user,
                group,
                request,
            } => Payload::Meta {
                number: *number,
                user: *user,
                group: *group,
                request: request.copy(alloc)?,
            },
            Payload::MetaReply { number, answer } => Payload::MetaReply {
                number: *number,
                answer: answer.copy(alloc)?,
            },
            Payload::Registry { number, request } => Payload::Registry {
                number: *number,
                request: request.copy(alloc)?,
            },
            Payload::RegistryReply { number, answer } => Payload::RegistryReply {
                number: *number,
                answer: answer.copy(alloc)?,
            },
            Payload::Stop { tag } => Payload::Stop { tag: *tag },
            Payload::Close { file, version } => Payload::Close {
                file: *file,
                version: *version,
            },
            Payload::Closed {
                file,
                version,
                head,
            } => Payload::Closed {
                file: *file,
                version: *version,
                head: head.copy(alloc)?,
            },
            Payload::Install {
                file,
                location,
                head,
                source,
            } => Payload::Install {
                file: *file,
                location: *location,
                head: head.copy(alloc)?,
                source: *source,
            },
            Payload::Installed { file, version } => Payload::Installed {
                file: *file,
                version: *version,
            },
            Payload::Pull {
                file,
                object,
                version,
            } => Payload::Pull {
                file: *file,
                object: *object,
                version: *version,
            },
            Payload::Pulled {
                file,
                object,
                version,
                bytes,
            } => Payload::Pulled {
                file: *file,
                object: *object,
                version: *version,
                bytes: bytes.copy(alloc)?,
            },
            Payload::Wanted { file } => Payload::Wanted { file: *file },
        })
    }
}

/// A message from one node to another.
pub struct Msg {
    pub from: NodeId,
    pub to: NodeId,
    /// The version of the file's list of members. It is 1 but for what replicas of a later list say to each other.
    pub list: u32,
    pub payload: Payload,
}

impl Copies for Msg {
    fn copy(&self, alloc: Global) -> Result<Msg, OutOfMemory> {
        Ok(Msg {
            from: self.from,
            to: self.to,
            list: self.list,
            payload: self.payload.copy(alloc)?,
        })
    }
}

/// Messages, in order of sending.
pub type Msgs = Seq<Msg>;

// A derived drop is part of the code of each function that may drop a value, and proved there. These are proved once.

impl Drop for Payload {
    fn drop(self) {
        match self {
            Payload::Read { file: _, ballot: _ } => {}
            Payload::Promise {
                file: _,
                ballot: _,
                boot: _,
                report: _,
            } => {}
            Payload::Write {
                file: _,
                ballot: _,
                boot: _,
                lease: _,
            } => {}
            Payload::Accepted {
                file: _,
                ballot: _,
                boot: _,
            } => {}
            Payload::Outrun {
                file: _,
                ballot: _,
                seen: _,
            } => {}
            Payload::Gather { file: _, epoch: _ } => {}
            Payload::Status {
                file: _,
                epoch: _,
                head: _,
            } => {}
            Payload::Fetch {
                file: _,
                epoch: _,
                object: _,
                version: _,
            } => {}
            Payload::Object {
                file: _,
                epoch: _,
                object: _,
                version: _,
                bytes: _,
            } => {}
            Payload::Stage {
                file: _,
                epoch: _,
                object: _,
                version: _,
                bytes: _,
            } => {}
            Payload::Staged {
                file: _,
                epoch: _,
                object: _,
                version: _,
            } => {}
            Payload::Head {
                file: _,
                epoch: _,
                head: _,
            } => {}
            Payload::Update { file: _, update: _ } => {}
            Payload::Ack { file: _, stamp: _ } => {}
            Payload::Refused {
                file: _,
                epoch: _,
                promised: _,
            } => {}
            Payload::Behind {
                file: _,
                epoch: _,
                stamp: _,
            } => {}
            Payload::Missing {
                file: _,
                epoch: _,
                object: _,
                version: _,
            } => {}
            Payload::Ask {
                number: _,
                capability: _,
                op: _,
            } => {}
            Payload::Reply {
                number: _,
                file: _,
                reply: _,
            } => {}
            Payload::Meta {
                number: _,
                user: _,
                group: _,
                request: _,
            } => {}
            Payload::MetaReply {
                number: _,
                answer: _,
            } => {}
            Payload::Registry {
                number: _,
                request: _,
            } => {}
            Payload::RegistryReply {
                number: _,
                answer: _,
            } => {}
            Payload::Stop { tag: _ } => {}
            Payload::Close {
                file: _,
                version: _,
            } => {}
            Payload::Closed {
                file: _,
                version: _,
                head: _,
            } => {}
            Payload::Install {
                file: _,
                location: _,
                head: _,
                source: _,
            } => {}
            Payload::Installed {
                file: _,
                version: _,
            } => {}
            Payload::Pull {
                file: _,
                object: _,
                version: _,
            } => {}
            Payload::Pulled {
                file: _,
                object: _,
                version: _,
                bytes: _,
            } => {}
            Payload::Wanted { file: _ } => {}
        }
    }
}

impl Drop for Msg {
    fn drop(self) {
        let Msg {
            from: _,
            to: _,
            list: _,
            payload: _,
        } = self;
    }
}
