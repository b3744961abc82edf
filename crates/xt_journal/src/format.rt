ghost use Rattle.std.specs.Prelude.{◌≡◌};
ghost use Rattle.xt_journal.specs.declared.format.Trouble.TheVariants.{DiskFault, OutOfMemory};

use journal_areas::Superblock;
use journal_moves::Extent;
use std::alloc::{AllocError, AllocFailed};
use xt_base::Failed;

/// The text `XTFSJRNL`.
pub const SIGN: [u8; 8] = *b"XTFSJRNL";

/// The one layout that is known.
pub const LAYOUT: u32 = 1;

/// The header, and a closed gate.
pub const FRESH: [u8; 13] = [
    0x58, 0x54, 0x46, 0x53, 0x4a, 0x52, 0x4e, 0x4c, 0, 0, 0, 1, 0,
];

/// Why bytes aren't read as a journal.
#[derive(Drop)]
pub enum Trouble {
    DiskFault,
    NotOurs { first: [u8; 8] },
    Layout { version: u32 },
    Damaged { place: u64 },
    OutOfMemory,
}

impl From<AllocError> for Trouble {
    ghost from_gives = { λ _ trouble. trouble ≡ OutOfMemory };

    fn from(_: AllocError) -> Trouble {
        Trouble::OutOfMemory
    }
}

impl<T: Drop> From<AllocFailed<T>> for Trouble {
    ghost from_gives = { λ _ trouble. trouble ≡ OutOfMemory };

    fn from(_: AllocFailed<T>) -> Trouble {
        Trouble::OutOfMemory
    }
}

impl From<Failed> for Trouble {
    ghost from_gives = { λ _ trouble. trouble ≡ DiskFault };

    fn from(_: Failed) -> Trouble {
        Trouble::DiskFault
    }
}

/// What a journal holds.
#[derive(Drop)]
pub struct Found {
    /// The place of the gate after the last payload's record.
    pub end: u64,
    /// Its superblock, where it has one.
    pub superblock: Option<Superblock>,
    /// Where the payloads that count are, in order.
    pub extents: Vec<Extent>,
}
