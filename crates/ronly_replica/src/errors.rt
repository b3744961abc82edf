use crate::origin::OriginErr;
use crate::replica::Ronly;
use disk_model::Disk;
use object_store::Store;

/// Why a replica isn't made.
#[derive(Drop)]
pub enum MakeErr<D: Disk> {
    /// The disk has failed; this is its count of faults. The store must be loaded again.
    Broken {
        count: u64,
        disk: D,
    },
    /// The journal would need this many bytes, which passes its limit. The store is as it was.
    Full {
        store: Store<D>,
        need: u64,
        limit: u64,
    },
    /// Memory ran out, and nothing was put.
    OutOfMemory {
        disk: D,
    },
}

/// Why a replica isn't loaded, or doesn't show what was asked for.
#[derive(Drop)]
pub enum RonlyErr<D: Disk> {
    /// The store keeps so many files with a place, and not one.
    PinStore {
        store: Store<D>,
        pins: u64,
    },
    /// Memory ran out over loading. The store is as it was.
    Unloaded {
        store: Store<D>,
    },
    /// Memory ran out. The replica holds the objects that were put.
    OutOfMemory {
        replica: Ronly<D>,
    },
    /// An object was fetched at this count, which isn't the pin's. The replica holds the objects that were put before.
    Moved {
        replica: Ronly<D>,
        count: u64,
    },
    /// An object wasn't fetched. The replica holds the objects that were put before.
    Origin {
        replica: Ronly<D>,
        fault: OriginErr,
    },
    /// An object couldn't be read from the disk; this is the disk's count of faults, with that one. The replica must be loaded again.
    Bodies {
        count: u64,
        disk: D,
    },
    /// The disk failed while an object was put; this is its count of faults. The replica must be loaded again.
    Broken {
        count: u64,
        disk: D,
    },
    /// The journal would need this many bytes, which passes its limit. The replica holds the objects that were put before.
    Full {
        replica: Ronly<D>,
        need: u64,
        limit: u64,
    },
}
