use crate::store::Store;
use disk_model::Disk;
use xt_journal::Journal;

/// Why a journal's records aren't loaded.
#[derive(Drop)]
pub enum StoreErr<D: Disk> {
    /// The payload at this index, from 0, isn't a record in its place, and those before it are. The journal is returned as it was.
    BadRecord { index: usize, journal: Journal<D> },
    /// A payload couldn't be read; this is the disk's count of faults, with that one. The journal is closed.
    Broken { count: u64, disk: D },
    /// The journal is returned as it was.
    OutOfMemory { journal: Journal<D> },
}

/// Why a record isn't put.
#[derive(Drop)]
pub enum AppendErr<D: Disk> {
    /// The disk has failed; this is its count of faults. The store is gone, and must be loaded again.
    Broken {
        count: u64,
        disk: D,
    },
    /// The journal would need this many bytes, at most `u64::MAX`, which passes the limit. The store is as it was.
    Full {
        store: Store<D>,
        need: u64,
        limit: u64,
    },
    /// The store is as it was. No device call was made.
    OutOfMemory {
        store: Store<D>,
    },
}

/// Why records aren't put at once. The store is gone, and must be loaded again.
#[derive(Drop)]
pub enum PutAllErr<D: Disk> {
    /// The disk has failed; this is its count of faults.
    Broken { count: u64, disk: D },
    /// No device call was made.
    OutOfMemory { disk: D },
}
