use xt_base::{Boot, Members, NodeId, Octets, OpId};
use xt_messages::{Call, Location, Outcome};

/// How a node stopped.
#[derive(Clone, Copy)]
pub enum Halt {
    /// Between two steps.
    Idle,
    /// In an append, and its record is kept. Nothing else of that step came out.
    Kept,
    /// In an append, and its record is lost. Nothing of that step came out.
    Lost,
    /// In the sending: some of the step's messages came out.
    Cut,
}

/// A line of a trace.
pub enum Entry {
    /// The lease length and the drift, in milliseconds.
    Times {
        lease: u64,
        drift: u64,
    },
    /// A file is there.
    File {
        number: u64,
        location: Location,
    },
    /// A file has this list from now on.
    List {
        number: u64,
        version: u32,
        members: Members,
    },
    /// A running clock was set.
    Clock {
        node: NodeId,
        clock: u64,
    },
    /// Every running clock advanced.
    Tick {
        count: u64,
    },
    /// A node started.
    Up {
        node: NodeId,
        boot: Boot,
        clock: u64,
    },
    /// A node stopped.
    Down {
        node: NodeId,
        clock: u64,
        how: Halt,
    },
    /// A client's call began.
    Begin {
        client: NodeId,
        number: u64,
        call: Call,
    },
    /// A lease or a renewal was chosen.
    Held {
        node: NodeId,
        file: u64,
        end: u64,
    },
    /// The node became the file's active primary; `count` is how many writes the file has, and the id is the last one's.
    Active {
        node: NodeId,
        file: u64,
        count: u64,
        id: OpId,
    },
    /// A primary sent an update to its replicas; `count` is how many writes the file has with it.
    Issue {
        node: NodeId,
        file: u64,
        count: u64,
        id: OpId,
    },
    /// A majority has the update.
    Commit {
        node: NodeId,
        file: u64,
        count: u64,
        id: OpId,
    },
    /// An OSD answered `Ok` on a replicated file.
    Answer {
        node: NodeId,
        file: u64,
        id: OpId,
        count: u64,
        bytes: Octets,
    },
    /// A client's call ended.
    Done {
        client: NodeId,
        number: u64,
        outcome: Outcome,
    },
}

// A derived drop is part of the code of each function that may drop a value, and proved there. This is proved once.
impl Drop for Entry {
    fn drop(self) {
        match self {
            Entry::Times { lease: _, drift: _ } => {}
            Entry::File {
                number: _,
                location: _,
            } => {}
            Entry::List {
                number: _,
                version: _,
                members: _,
            } => {}
            Entry::Clock { node: _, clock: _ } => {}
            Entry::Tick { count: _ } => {}
            Entry::Up {
                node: _,
                boot: _,
                clock: _,
            } => {}
            Entry::Down {
                node: _,
                clock: _,
                how: _,
            } => {}
            Entry::Begin {
                client: _,
                number: _,
                call: _,
            } => {}
            Entry::Held {
                node: _,
                file: _,
                end: _,
            } => {}
            Entry::Active {
                node: _,
                file: _,
                count: _,
                id: _,
            } => {}
            Entry::Issue {
                node: _,
                file: _,
                count: _,
                id: _,
            } => {}
            Entry::Commit {
                node: _,
                file: _,
                count: _,
                id: _,
            } => {}
            Entry::Answer {
                node: _,
                file: _,
                id: _,
                count: _,
                bytes: _,
            } => {}
            Entry::Done {
                client: _,
                number: _,
                outcome: _,
            } => {}
        }
    }
}
