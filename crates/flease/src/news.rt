use crate::targets::Targets;
use xt_base::{Ballot, Lease};

/// What was overdue at a file's lease.
#[derive(Clone, Copy)]
pub enum Expiry {
    /// Nothing, or a renewal alone.
    Stands,
    /// A round has run for half the lease length.
    RanOut,
    /// The clock has come within the drift of the lease's end.
    Lapsed,
}

/// What an answer to the running round brings about.
#[derive(Clone, Copy)]
pub enum News {
    Nothing,
    /// A Write of this lease goes to these pairs of node and boot.
    Writes {
        ballot: Ballot,
        lease: Lease,
        targets: Targets,
    },
    /// The lease, or its renewal, is held until this end.
    Holds {
        end: u64,
    },
    /// A live report has ended the round: this lease.
    Finds {
        lease: Lease,
    },
    /// The round has ended otherwise.
    Ends,
}
