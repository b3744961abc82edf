ghost use Rattle.std.specs.Prelude.{◌≡◌};
ghost use Rattle.object_versions.specs.declared.errors.StepErr.TheVariants as step;

use std::alloc::AllocError;
use std::fmt;
use thiserror::Error;
use xt_base::{FileId, Stamp};

/// Why a body wasn't given.
#[derive(Clone, Copy, Debug, Error)]
pub enum BodyErr {
    /// No record put this version of the object.
    #[error("no record put this version of the object")]
    NoSuchVersion,
    /// Reading failed, as often as this in all.
    #[error("reading failed, {count} times in all")]
    Failed { count: u64 },
    #[error("no memory was left")]
    OutOfMemory,
}

/// Why a step wasn't taken.
#[derive(Clone, Copy, Error)]
pub enum StepErr {
    /// A body could not be read, as often as this in all. The node stops.
    #[error("reading a body failed, {count} times in all")]
    BodyFault {
        count: u64,
    },
    /// A body was to be read that no record put. The node stops, as where it can't be read: such a body isn't taken for an empty one.
    #[error("no record put a body of object {object} that was to be read")]
    BodyLost {
        file: FileId,
        object: u64,
        version: Stamp,
    },
    #[error("no memory was left")]
    OutOfMemory,
}

impl fmt::Debug for StepErr {
    fn fmt<W: fmt::Write>(&self, f: &mut fmt::Formatter<W>) -> fmt::Result {
        fmt::Display::fmt(self, f)
    }
}

impl From<AllocError> for StepErr {
    ghost from_gives = { λ _ made. made ≡ step.OutOfMemory };

    fn from(_: AllocError) -> StepErr {
        StepErr::OutOfMemory
    }
}
