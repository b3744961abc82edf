use xt_base::{Epoch, FileId, NodeId, Octets, OpId, Seq, Stamp};
use xt_messages::{FileHead, HeldSet, ObjectVersion, Op, Payload, Record, Reply, Update, Versions};

/// Where a replica is: its node, its file, and the size of the file's objects in bytes.
#[derive(Clone, Copy)]
pub struct Place {
    pub node: NodeId,
    pub file: FileId,
    pub stripe: u32,
}

/// What a row of a replica gives: at most one record, which is kept first, and then at most one answer.
#[derive(Drop)]
pub struct Acted {
    pub rec: Option<Record>,
    pub answer: Option<Payload>,
}

/// What an operation on a striped file gives at a member: at most one record, which is kept first, and then at most one reply.
#[derive(Drop)]
pub struct PlainActed {
    pub rec: Option<Record>,
    pub reply: Option<Reply>,
}

/// How far a peer is, for the primary.
#[derive(Drop)]
pub enum PeerState {
    /// Nothing of it is known in this epoch.
    Unknown,
    /// Its status has come, and nothing was sent for it yet.
    Reported {
        head: FileHead,
    },
    /// The body of this version was sent last.
    Feeding {
        known: HeldSet,
        object: u64,
        version: Stamp,
        body: Octets,
    },
    /// This head was sent last.
    Heading {
        known: HeldSet,
        head: FileHead,
    },
    /// It has acknowledged the head, and gets every update.
    Current,
}

/// A member of the file's list, the primary itself among them.
#[derive(Drop)]
pub struct Peer {
    pub node: NodeId,
    pub state: PeerState,
}

/// The members of the file's list, in its order.
pub type Peers = Seq<Peer>;

/// Nodes, each once.
pub type Nodes = Seq<NodeId>;

/// An update that was sent, and who has acknowledged it.
#[derive(Drop)]
pub struct IssuedUpdate {
    pub update: Update,
    pub acked: Nodes,
}

/// How far a primary has come in its epoch.
#[derive(Drop)]
pub enum Progress {
    /// It counts statuses: those of the peers that have reported.
    Gathering,
    /// It has chosen a head, and fetches the bodies that it wants, one by one.
    Fetching {
        chosen: FileHead,
        source: NodeId,
        asked: ObjectVersion,
        later: Versions,
    },
    /// It has the bodies of the chosen head, and counts who has acknowledged that head.
    Installing {
        chosen: FileHead,
        acked: Nodes,
    },
    /// A majority has the head. It serves reads from the committed head, and issues updates.
    Active {
        committed: FileHead,
        issued: Option<IssuedUpdate>,
    },
}

/// What a primary does in one epoch.
#[derive(Drop)]
pub struct Tenure {
    pub epoch: Epoch,
    pub peers: Peers,
    pub progress: Progress,
}

/// A primary: the greatest number of an epoch that it was refused for, and its tenure, none while it is idle.
#[derive(Drop)]
pub struct PrimaryState {
    pub learnt: u64,
    pub tenure: Option<Tenure>,
}

/// An ask that waits: its id, the truncate epoch of its capability, what it asks, and the clock at which it is overdue.
#[derive(Drop)]
pub struct WaitingAsk {
    pub id: OpId,
    pub epoch: u64,
    pub op: Op,
    pub deadline: u64,
}

/// The ask of the issued update, and whether its client has got the answer that no majority answered.
#[derive(Drop)]
pub struct IssuedAsk {
    pub ask: WaitingAsk,
    pub told: bool,
}

/// The asks of a file that aren't answered: those that wait, in order, and that of the issued update.
#[derive(Drop)]
pub struct Asks {
    pub waiting: Seq<WaitingAsk>,
    pub issued: Option<IssuedAsk>,
}
