use crate::file::Location;
use crate::message::Msg;
use crate::meta::{MetaRefusal, MetaReq, Names, RowKind};
use crate::registry::{RegistryReq, RegistryRow};
use crate::reply::Answers;
use crate::status::AskRefusal;
use std::alloc::Global;
use xt_base::{Copies, FileId, Members, NodeId, Octets, OpId, OutOfMemory, Seq, SizeMark};

/// A call of a client, on a file by its number, on the MRC or on the DIR.
pub enum Call {
    Read {
        file: u64,
        object: u64,
        at: u32,
        len: u32,
    },
    Write {
        file: u64,
        object: u64,
        at: u32,
        bytes: Octets,
    },
    /// `epoch` is the truncate epoch of a declared file; one of the MRC uses the granted capability.
    Truncate {
        file: u64,
        size: u64,
        epoch: u64,
    },
    Meta {
        user: u32,
        group: u32,
        request: MetaReq,
    },
    /// Reports to the MRC the size that the client learnt.
    Report {
        user: u32,
        group: u32,
        file: u64,
    },
    Registry {
        request: RegistryReq,
    },
}

impl Copies for Call {
    fn copy(&self, alloc: Global) -> Result<Call, OutOfMemory> {
        Ok(match self {
            Call::Read {
                file,
                object,
                at,
                len,
            } => Call::Read {
                file: *file,
                object: *object,
                at: *at,
                len: *len,
            },
            Call::Write {
                file,
                object,
                at,
                bytes,
            } => Call::Write {
                file: *file,
                object: *object,
                at: *at,
                bytes: bytes.copy(alloc)?,
            },
            Call::Truncate { file, size, epoch } => Call::Truncate {
                file: *file,
                size: *size,
                epoch: *epoch,
            },
            Call::Meta {
                user,
                group,
                request,
            } => Call::Meta {
                user: *user,
                group: *group,
                request: request.copy(alloc)?,
            },
            Call::Report { user, group, file } => Call::Report {
                user: *user,
                group: *group,
                file: *file,
            },
            Call::Registry { request } => Call::Registry {
                request: request.copy(alloc)?,
            },
        })
    }
}

/// What a node handles in one step.
pub enum Event {
    Deliver(Msg),
    /// Some time has passed.
    Wake,
    Call(Call),
}

/// What the MRC answered, as a trace shows it.
#[derive(Drop)]
pub enum MetaOutcome {
    Done,
    Refused {
        refusal: MetaRefusal,
    },
    Names {
        names: Names,
    },
    Row {
        kind: RowKind,
        owner: u32,
        group: u32,
        mode: u16,
        mark: SizeMark,
    },
    Granted {
        file: u64,
        mark: SizeMark,
    },
    Located {
        version: u32,
        changing: bool,
        members: Members,
    },
}

impl Copies for MetaOutcome {
    fn copy(&self, alloc: Global) -> Result<MetaOutcome, OutOfMemory> {
        Ok(match self {
            MetaOutcome::Done => MetaOutcome::Done,
            MetaOutcome::Refused { refusal } => MetaOutcome::Refused { refusal: *refusal },
            MetaOutcome::Names { names } => MetaOutcome::Names {
                names: names.copy(alloc)?,
            },
            MetaOutcome::Row {
                kind,
                owner,
                group,
                mode,
                mark,
            } => MetaOutcome::Row {
                kind: *kind,
                owner: *owner,
                group: *group,
                mode: *mode,
                mark: *mark,
            },
            MetaOutcome::Granted { file, mark } => MetaOutcome::Granted {
                file: *file,
                mark: *mark,
            },
            MetaOutcome::Located {
                version,
                changing,
                members,
            } => MetaOutcome::Located {
                version: *version,
                changing: *changing,
                members: *members,
            },
        })
    }
}

/// What the DIR answered, as a trace shows it: of rows, the nodes.
#[derive(Drop)]
pub enum RegistryOutcome {
    Done { version: u64 },
    Changed { version: u64 },
    Absent,
    Row { row: RegistryRow },
    Rows { nodes: Seq<NodeId> },
}

impl Copies for RegistryOutcome {
    fn copy(&self, alloc: Global) -> Result<RegistryOutcome, OutOfMemory> {
        Ok(match self {
            RegistryOutcome::Done { version } => RegistryOutcome::Done { version: *version },
            RegistryOutcome::Changed { version } => RegistryOutcome::Changed { version: *version },
            RegistryOutcome::Absent => RegistryOutcome::Absent,
            RegistryOutcome::Row { row } => RegistryOutcome::Row {
                row: row.copy(alloc)?,
            },
            RegistryOutcome::Rows { nodes } => RegistryOutcome::Rows {
                nodes: nodes.copy(alloc)?,
            },
        })
    }
}

/// How a call ended.
#[derive(Drop)]
pub enum Outcome {
    Ok { count: u64, bytes: Octets },
    Retry { answers: Answers },
    Refused { refusal: AskRefusal },
    Meta { answer: MetaOutcome },
    Registry { answer: RegistryOutcome },
}

impl Copies for Outcome {
    fn copy(&self, alloc: Global) -> Result<Outcome, OutOfMemory> {
        Ok(match self {
            Outcome::Ok { count, bytes } => Outcome::Ok {
                count: *count,
                bytes: bytes.copy(alloc)?,
            },
            Outcome::Retry { answers } => Outcome::Retry {
                answers: answers.copy(alloc)?,
            },
            Outcome::Refused { refusal } => Outcome::Refused { refusal: *refusal },
            Outcome::Meta { answer } => Outcome::Meta {
                answer: answer.copy(alloc)?,
            },
            Outcome::Registry { answer } => Outcome::Registry {
                answer: answer.copy(alloc)?,
            },
        })
    }
}

/// What a step reports of itself: a line of the trace without the node.
#[derive(Drop)]
pub enum Mark {
    /// The MRC made a file.
    File {
        file: FileId,
        location: Location,
    },
    /// The MRC ended a change of a file's list.
    List {
        file: FileId,
        version: u32,
        members: Members,
    },
    /// A client's call begins.
    Begin {
        number: u64,
        call: Call,
    },
    /// A lease or a renewal was chosen.
    Held {
        file: u64,
        end: u64,
    },
    /// The node became a file's active primary; the id is the last write's.
    Active {
        file: u64,
        count: u64,
        id: OpId,
    },
    /// An update was sent to the replicas.
    Issue {
        file: u64,
        count: u64,
        id: OpId,
    },
    /// A majority has the update.
    Commit {
        file: u64,
        count: u64,
        id: OpId,
    },
    /// A client is answered `Ok` on a replicated file.
    Answer {
        file: u64,
        id: OpId,
        count: u64,
        bytes: Octets,
    },
    /// A client's call has ended.
    Done {
        number: u64,
        outcome: Outcome,
    },
}

/// The marks of a step, in order.
pub type Marks = Seq<Mark>;

// A derived drop is part of the code of each function that may drop a value, and proved there. These are proved once.

impl Drop for Call {
    fn drop(self) {
        match self {
            Call::Read {
                file: _,
                object: _,
                at: _,
                len: _,
            } => {}
            Call::Write {
                file: _,
                object: _,
                at: _,
                bytes: _,
            } => {}
            Call::Truncate {
                file: _,
                size: _,
                epoch: _,
            } => {}
            Call::Meta {
                user: _,
                group: _,
                request: _,
            } => {}
            Call::Report {
                user: _,
                group: _,
                file: _,
            } => {}
            Call::Registry { request: _ } => {}
        }
    }
}

impl Drop for Event {
    fn drop(self) {
        match self {
            Event::Deliver(_) => {}
            Event::Wake => {}
            Event::Call(_) => {}
        }
    }
}
