//! The store of a node is loaded from its disk.
ghost use Rattle.std.specs.Prelude.{◌≡◌, IfOk, IfErr};
ghost use Rattle.xt_protocol.specs.Folds.{boot_after};
ghost use Rattle.store_loading.specs.Boots.{stored_boot};
ghost use Rattle.store_loading.specs.Loading.{medium, IsLoaded, IsUnloaded};

use disk_model::Disk;
use node_loop::Ended;
use object_store::{Store, StoreErr};
use std::alloc::Global;
use xt_journal::{Journal, LoadErr};
use xt_messages::{Record, Status};

/// The bytes of a record that come before its payload: its gate (1), and the payload's length (4).
const BEFORE_PAYLOAD: u64 = 1 + 4;

/// Loads the records on a disk into a store, whose journal has this limit in bytes. An empty disk is made a journal first.
///
/// `Damaged` gives the place of the gate after which the journal goes wrong, or of the first payload that isn't a record in its place.
pub fn loaded<D: Disk>(alloc: Global, disk: D, limit: u64) -> Result<Store<D>, Ended<D>>
    ensures loads { IfOk result (λ store. IsLoaded
        (medium D.is_told D.kept D.moment D.left_since D.fault_count) disk limit store) }
    ensures ends { IfErr result (λ ended. IsUnloaded
        (medium D.is_told D.kept D.moment D.left_since D.fault_count) disk ended.disk ended.status) }
{
    let (journal, extents) = match Journal::load(alloc, disk, limit) {
        Ok(loaded) => loaded,
        Err(LoadErr::DiskFault { count, disk }) => {
            let status = Status::DiskFault { count };
            return Err(Ended { status, disk });
        }
        Err(LoadErr::NotOurs { first, disk }) => {
            let status = Status::NotOurs { first };
            return Err(Ended { status, disk });
        }
        Err(LoadErr::Layout { version, disk }) => {
            let status = Status::Layout { version };
            return Err(Ended { status, disk });
        }
        Err(LoadErr::Damaged { place, disk }) => {
            let status = Status::Damaged { place };
            return Err(Ended { status, disk });
        }
        Err(LoadErr::OutOfMemory { disk }) => {
            let status = Status::OutOfMemory;
            return Err(Ended { status, disk });
        }
    };
    match Store::load(alloc, journal, extents.as_slice()) {
        Ok(store) => Ok(store),
        Err(StoreErr::BadRecord { index, journal }) => Err(Ended {
            status: Status::Damaged {
                place: extents[index].at - BEFORE_PAYLOAD,
            },
            disk: journal.close(),
        }),
        Err(StoreErr::Broken { count, disk }) => Err(Ended {
            status: Status::DiskFault { count },
            disk,
        }),
        Err(StoreErr::OutOfMemory { journal }) => Err(Ended {
            status: Status::OutOfMemory,
            disk: journal.close(),
        }),
    }
}

/// Chooses the file at this path, and loads the store that it holds, whose journal has this limit in bytes. A file that isn't there is made.
pub fn store_at<D: Disk>(
    alloc: Global,
    path: &str,
    limit: u64,
    disk: D,
) -> Result<Store<D>, Ended<D>>
    ensures loads { IfOk result (λ store. IsLoaded
        (medium D.is_told D.kept D.moment D.left_since D.fault_count) disk limit store) }
    ensures ends { IfErr result (λ ended. IsUnloaded
        (medium D.is_told D.kept D.moment D.left_since D.fault_count) disk ended.disk ended.status) }
{
    let mut disk = disk;
    if disk.attach(path).is_err() {
        return Err(Ended {
            status: Status::DiskFault {
                count: disk.faults(),
            },
            disk,
        });
    }
    loaded(alloc, disk, limit)
}

/// The boot that a record starts, or else the one before it.
fn boot_after(boot: u64, rec: &Record) -> u64
    ensures { result ≡ boot_after boot rec.now }
{
    match rec {
        Record::Boot { boot } => boot.0,
        _ => boot,
    }
}

/// The last boot of these records, or 0.
pub fn stored_boot(records: &[Record]) -> u64
    ensures { result ≡ stored_boot records.now }
{
    let mut boot = 0;
    for rec in records {
        boot = boot_after(boot, rec);
    }
    boot
}
