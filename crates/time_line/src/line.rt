use xt_base::NodeId;
use xt_messages::{Call, Location};

/// A line of a schedule.
pub enum Line {
    /// The lease length and the drift, in milliseconds. It is the first line, if any.
    Times {
        lease: u64,
        drift: u64,
    },
    /// Declares an OSD.
    Osd {
        node: NodeId,
    },
    /// Declares the metadata server.
    Mrc,
    /// Declares the directory service.
    Dir,
    /// Declares a client, and starts it for good.
    Client {
        node: NodeId,
        clock: u64,
    },
    /// Declares a file.
    File {
        number: u64,
        location: Location,
    },
    /// Starts a node.
    Start {
        node: NodeId,
        clock: u64,
    },
    /// Stops a node between two steps.
    Stop {
        node: NodeId,
    },
    /// The node's next append stops in this device call, from 1 to 4; each place that isn't synced then holds the byte.
    Crash {
        node: NodeId,
        call: u8,
        fill: u8,
    },
    /// The node's next step that sends stops after so many messages, or after all.
    Cut {
        node: NodeId,
        count: u128,
    },
    /// Sets a running clock.
    Clock {
        node: NodeId,
        clock: u64,
    },
    /// Advances every running clock at once, in milliseconds.
    Tick {
        count: u64,
    },
    /// Some time has passed at a node.
    Wake {
        node: NodeId,
    },
    /// A client's call.
    Call {
        client: NodeId,
        call: Call,
    },
    /// A client's last call, once more.
    Again {
        client: NodeId,
    },
    /// A client's first target for a file.
    Aim {
        client: NodeId,
        file: u64,
        node: NodeId,
    },
    /// Delivers a message that was ever sent, again too. The first has number 1.
    Deliver {
        number: u128,
    },
    /// A pending message is no longer so.
    Drop {
        number: u128,
    },
    /// As many times, the pending message of least number is delivered.
    Settle {
        count: u128,
    },
}

// A derived drop is part of the code of each function that may drop a value, and proved there. This is proved once.
impl Drop for Line {
    fn drop(self) {
        match self {
            Line::Times { lease: _, drift: _ } => {}
            Line::Osd { node: _ } => {}
            Line::Mrc => {}
            Line::Dir => {}
            Line::Client { node: _, clock: _ } => {}
            Line::File {
                number: _,
                location: _,
            } => {}
            Line::Start { node: _, clock: _ } => {}
            Line::Stop { node: _ } => {}
            Line::Crash {
                node: _,
                call: _,
                fill: _,
            } => {}
            Line::Cut { node: _, count: _ } => {}
            Line::Clock { node: _, clock: _ } => {}
            Line::Tick { count: _ } => {}
            Line::Wake { node: _ } => {}
            Line::Call { client: _, call: _ } => {}
            Line::Again { client: _ } => {}
            Line::Aim {
                client: _,
                file: _,
                node: _,
            } => {}
            Line::Deliver { number: _ } => {}
            Line::Drop { number: _ } => {}
            Line::Settle { count: _ } => {}
        }
    }
}
