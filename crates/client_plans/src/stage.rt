//! The stages of a client command.

ghost use Rattle.std.specs.Prelude.{◌≡◌};
ghost use Rattle.client_plans.specs.Plans.{status_at};

use xt_base::{Name, NodeId, Octets, SizeMark};
use xt_messages::{Capability, RegistryRows, Status};

/// A stage of a command: its next operation, or how it ended.
#[derive(Drop)]
pub enum Stage {
    /// The rows of a kind, with nodes above this one.
    Lists {
        kind: u8,
        above: NodeId,
    },
    /// The rows of a kind, with nodes above this one, for a command that shows them; and those that came before.
    Collects {
        kind: u8,
        above: NodeId,
        rows: RegistryRows,
    },
    /// The version of a row, and then its setting or its removal.
    Looks,
    Sets {
        version: u64,
    },
    /// The one metadata call of a command, or the names above this one.
    AsksOnce,
    Pages {
        above: Name,
    },
    Creates,
    Grants,
    /// The next piece of what is written is taken. The mark is the greatest that was reported, as in all stages below.
    Fetches {
        capability: Capability,
        mark: SizeMark,
    },
    /// The piece of the file from this place on, in bytes, which is never empty.
    Writes {
        capability: Capability,
        from: u64,
        mark: SizeMark,
        piece: Octets,
    },
    /// The bytes from this place on.
    Reads {
        capability: Capability,
        from: u64,
        mark: SizeMark,
    },
    Truncates {
        capability: Capability,
        mark: SizeMark,
    },
    Reports {
        capability: Capability,
        mark: SizeMark,
    },
    Over {
        status: Status,
    },
}

impl Stage {
    /// The status with which a command ends that has no operation at this stage.
    pub fn into_status(self) -> Status
        ensures { result ≡ status_at self }
    {
        match self {
            Stage::Over { status } => status,
            _ => Status::Done,
        }
    }
}

/// The stage of a command after a result, and what it writes then.
#[derive(Drop)]
pub struct Goes {
    pub stage: Stage,
    pub text: Octets,
}
