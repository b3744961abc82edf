ghost use Rattle.std.specs.Prelude.{◌≡◌};
ghost use Rattle.xt_messages.specs.StatusCode.{code_of};

use crate::meta::MetaRefusal;
use crate::reply::{Answers, Denial};
use xt_base::NodeId;

/// A rule that a line of a schedule breaks.
#[derive(Clone, Copy)]
pub enum Rule {
    /// Clock `a`, the new one, and clock `b` of a running node differ by more than the drift.
    Drift { a: u64, b: u64 },
    NoSuchMessage { number: u128 },
    NotRunning { node: NodeId },
    Running { node: NodeId },
    NoSuchNode { node: NodeId },
    ClientBusy { client: NodeId },
    /// A running clock doesn't go back; this is its reading.
    ClockBack { last: u64 },
    /// A node or a file of this number is there already.
    Declared { number: u64 },
    NoSuchFile { number: u64 },
    NoCall { client: NodeId },
    /// This node's clock would reach 2^62.
    ClockEnd { node: NodeId },
}

/// A count that has a limit.
#[derive(Clone, Copy)]
pub enum Limited {
    /// Lines of a schedule.
    Lines,
    /// Bytes of a line.
    Line,
    /// Nodes of a schedule.
    Nodes,
    /// Numbered messages of a schedule.
    Messages,
    /// Bytes of the numbered messages' frames.
    Bytes,
    /// Starts of a node.
    Boots,
    /// Operation numbers of a client.
    Numbers,
}

/// Why an OSD refuses an ask for good.
#[derive(Clone, Copy)]
pub enum AskRefusal {
    Denied { rule: Denial },
    OldList { version: u32 },
    OldEpoch { epoch: u64 },
    TooFar { object: u64 },
    ClientsFull,
}

/// The refusal that ended an operation, as it was sent.
#[derive(Clone, Copy)]
pub enum Refusal {
    Ask { refusal: AskRefusal },
    Meta { refusal: MetaRefusal },
    /// The row's version isn't the expected one, but this.
    Changed { version: u64 },
    Absent,
}

/// How a job ended.
pub enum Status {
    Done,
    Usage,
    Malformed { line: u64 },
    Illegal { line: u64, rule: Rule },
    DiskFault { count: u64 },
    LinkFault { count: u64 },
    SourceFault { count: u64 },
    SinkFault { count: u64 },
    ClockFault { count: u64 },
    ChildFault { count: u64 },
    TurnsSpent { turns: u64 },
    OutOfMemory,
    /// The disk begins with these bytes, which aren't a journal's sign.
    NotOurs { first: [u8; 8] },
    Layout { version: u32 },
    Limit { what: Limited, limit: u64 },
    JournalFull { need: u64, limit: u64 },
    Broken { clause: u8, entry: u64 },
    Damaged { place: u64 },
    Retry { answers: Answers },
    Refused { rule: Refusal },
    /// This many damaged bodies were not mended.
    Unmended { count: u64 },
    /// The file is not as it was pinned: what was fetched is of this count, or the path names another file (0).
    Moved { count: u64 },
    /// The file is striped; only a replicated one can be pinned.
    NotReplicated,
    /// The store holds this many pins, not the number that the command needs.
    PinStore { pins: u64 },
}

impl Status {
    /// The status with which the program ends.
    pub fn code(&self) -> u8
        ensures { result ≡ code_of self.now }
    {
        match self {
            Status::Done => 0,
            Status::Usage => 2,
            Status::Malformed { .. } => 3,
            Status::Illegal { .. } => 4,
            Status::DiskFault { .. } => 5,
            Status::LinkFault { .. } => 6,
            Status::SourceFault { .. } => 7,
            Status::SinkFault { .. } => 8,
            Status::ClockFault { .. } => 9,
            Status::ChildFault { .. } => 10,
            Status::TurnsSpent { .. } => 11,
            Status::OutOfMemory => 12,
            Status::NotOurs { .. } => 13,
            Status::Layout { .. } => 14,
            Status::Limit { .. } => 15,
            Status::JournalFull { .. } => 16,
            Status::Broken { .. } => 17,
            Status::Damaged { .. } => 18,
            Status::Retry { .. } => 20,
            Status::Refused { .. } => 21,
            Status::Unmended { .. } => 22,
            Status::Moved { .. } => 23,
            Status::NotReplicated => 24,
            Status::PinStore { .. } => 25,
        }
    }
}

// A derived drop is part of the code of each function that may drop a value, and proved there. This is proved once.
impl Drop for Status {
    fn drop(self) {
        match self {
            Status::Done => {}
            Status::Usage => {}
            Status::Malformed { line: _ } => {}
            Status::Illegal { line: _, rule: _ } => {}
            Status::DiskFault { count: _ } => {}
            Status::LinkFault { count: _ } => {}
            Status::SourceFault { count: _ } => {}
            Status::SinkFault { count: _ } => {}
            Status::ClockFault { count: _ } => {}
            Status::ChildFault { count: _ } => {}
            Status::TurnsSpent { turns: _ } => {}
            Status::OutOfMemory => {}
            Status::NotOurs { first: _ } => {}
            Status::Layout { version: _ } => {}
            Status::Limit { what: _, limit: _ } => {}
            Status::JournalFull { need: _, limit: _ } => {}
            Status::Broken {
                clause: _,
                entry: _,
            } => {}
            Status::Damaged { place: _ } => {}
            Status::Retry { answers: _ } => {}
            Status::Refused { rule: _ } => {}
            Status::Unmended { count: _ } => {}
            Status::Moved { count: _ } => {}
            Status::NotReplicated => {}
            Status::PinStore { pins: _ } => {}
        }
    }
}
