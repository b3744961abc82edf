use crate::journal::Journal;
use disk_model::Disk;

/// Why a journal isn't loaded. The disk comes back.
#[derive(Drop)]
pub enum LoadErr<D> {
    /// The disk has failed; this is its count of faults.
    DiskFault { count: u64, disk: D },
    /// The disk has more than 13 bytes and begins with these 8, which aren't the journal's sign.
    NotOurs { first: [u8; 8], disk: D },
    /// The sign is right, but this layout isn't known.
    Layout { version: u32, disk: D },
    /// The open gate at this place isn't followed by a record.
    Damaged { place: u64, disk: D },
    OutOfMemory { disk: D },
}

/// Why a payload isn't appended.
#[derive(Drop)]
pub enum AppendErr<D: Disk> {
    /// The disk has failed; this is its count of faults. The journal is gone, and must be loaded again.
    Broken {
        count: u64,
        disk: D,
    },
    /// The journal would need this many bytes, at most `u64::MAX`, which passes the limit. It is as it was.
    Full {
        journal: Journal<D>,
        need: u64,
        limit: u64,
    },
    /// The journal comes back. No device call was made.
    OutOfMemory {
        journal: Journal<D>,
    },
}
