//! The job of a sweep.
ghost use Rattle.std.specs.Prelude.{◌≡◌, ◌≤◌, ℕ, length, IfOk, Err};
ghost use Rattle.std.specs.List.{All};
ghost use Rattle.xt_protocol.specs.Folds.{fold_of};
ghost use Rattle.xt_journal.specs.Access.{limit_of, place_of, superblock_of};
ghost use Rattle.object_store.specs.Access.{disk_of, journal_of, records_of};
ghost use Rattle.object_store.specs.Answers.{disk_after_put};
ghost use Rattle.object_store.specs.Texts.{AreRecords};
ghost use Rattle.orphan_sweep.specs.Fates.{FitsFate, fates_of, orphans_of};
ghost use Rattle.node_loop.specs.Events.{HasDiskCause};
ghost use Rattle.store_loading.specs.Loading.{medium};
ghost use Rattle.store_loading.specs.Sinks.{HasSinkCause};
ghost use Rattle.sweep_job.specs.Sweeping.{HasClockCause, IsSweep, LoadsOrNot, SweepsOrStops, status_of};

use crate::lines::tell;
use crate::listing::files_in;
use disk_model::Disk;
use node_links::{Clock, Sink};
use node_loop::Ended;
use object_store::{AppendErr, Store};
use orphan_sweep::{Fate, judge_files, sweep};
use replica_records::fold;
use std::alloc::Global;
use store_loading::store_at;
use xt_base::{FileId, OutOfMemory, Times};
use xt_messages::Status;

/// The greatest limit of a journal, in bytes: the metadata server's store is only read.
const MOST: u64 = 1 << 30;

/// The fates of the files in a store, at this reading of the clock.
fn judged<D: Disk>(
    alloc: Global,
    store: &Store<D>,
    files: &[(FileId, Option<u64>)],
    times: &Times,
    now: u64,
) -> Result<Vec<(FileId, Fate)>, OutOfMemory>
    requires { AreRecords (records_of store.now) }
    ensures are { IfOk result (λ fates. fates.items ≡
        fates_of (fold_of (records_of store.now)) files.now times.now now) }
    ensures fit { IfOk result (λ fates. All FitsFate fates.items) }
{
    let folded = fold(alloc, store.records())?;
    judge_files(alloc, &folded, files, times, now)
}

/// The status of a sweep that ended with an error, and the disk.
fn stopped<D: Disk>(error: AppendErr<D>) -> Ended<D>
    ensures status { result.status ≡ status_of error }
    ensures disk { result.disk ≡ disk_after_put (Err error) }
{
    match error {
        AppendErr::Broken { count, disk } => Ended {
            status: Status::DiskFault { count },
            disk,
        },
        AppendErr::Full { store, need, limit } => Ended {
            status: Status::JournalFull { need, limit },
            disk: store.close(),
        },
        AppendErr::OutOfMemory { store } => Ended {
            status: Status::OutOfMemory,
            disk: store.close(),
        },
    }
}

/// Judges the files of a store that was loaded, sweeps it, and puts how many files of each fate there are. Returns why it ended.
fn sweep_loaded<K: Sink, D: Disk>(
    alloc: Global,
    store: Store<D>,
    files: &[(FileId, Option<u64>)],
    times: &Times,
    now: u64,
    out: &mut K,
) -> (Status, D)
    requires { AreRecords (records_of store) }
    ensures does { SweepsOrStops (medium D.is_told D.kept D.moment D.left_since D.fault_count)
        (limit_of (journal_of store)) (disk_of store) result.1 (records_of store)
        (superblock_of (journal_of store)) (place_of (journal_of store))
        (fates_of (fold_of (records_of store)) files.now times.now now)
        (K.held out.old) (K.held out.new) result.0 }
    ensures disk { HasDiskCause (D.fault_count (disk_of store)) (D.fault_count result.1) result.0 }
    ensures sink { HasSinkCause (K.fault_count out.old) (K.fault_count out.new) result.0 }
    ensures clock { (count : ℕ) → HasClockCause count count result.0 }
{
    let Ok(fates) = judged(alloc, &store, files, times, now) else {
        return (Status::OutOfMemory, store.close());
    };
    match sweep(alloc, store, fates.as_slice()) {
        Ok(store) => {
            let status = tell(alloc, fates.as_slice(), out);
            (status, store.close())
        }
        Err(error) => {
            let Ended { status, disk } = stopped(error);
            (status, disk)
        }
    }
}

/// Loads the store of the OSD at this path, and sweeps it. Returns why it ended.
fn sweep_osd<K: Sink, D: Disk>(
    alloc: Global,
    path: &str,
    limit: u64,
    files: &[(FileId, Option<u64>)],
    times: &Times,
    now: u64,
    out: &mut K,
    disk: D,
) -> (Status, D)
    ensures does { LoadsOrNot (medium D.is_told D.kept D.moment D.left_since D.fault_count) limit
        times.now files.now now disk result.1 (K.held out.old) (K.held out.new) result.0 }
    ensures disk { HasDiskCause (D.fault_count disk) (D.fault_count result.1) result.0 }
    ensures sink { HasSinkCause (K.fault_count out.old) (K.fault_count out.new) result.0 }
    ensures clock { (count : ℕ) → HasClockCause count count result.0 }
{
    match store_at(alloc, path, limit, disk) {
        Ok(store) => sweep_loaded(alloc, store, files, times, now, out),
        Err(Ended { status, disk }) => (status, disk),
    }
}

/// Removes from the store of an OSD that has stopped the files that a metadata server has unlinked, as its store tells that has stopped, too,
/// and of which all that was granted is over; then puts how many files of the OSD were removed, how many stay that the server made, and how
/// many stay that it never made. Returns why it ended.
///
/// The clock is read once, before both stores. A file stays where the server's store says nothing of it: so nothing is removed where that is
/// the store of another node, or the OSD's own. The OSD's store is compacted in any case. `limit` is that of its journal, in bytes.
pub fn sweep_store<K: Sink, D: Disk, C: Clock>(
    alloc: Global,
    store: &str,
    mrc_store: &str,
    key: &[u8],
    times: Times,
    limit: u64,
    out: &mut K,
    disk: D,
    clock: &mut C,
) -> (Status, D)
    requires some { 1 ≤ length key.now }
    requires short { length key.now ≤ 64 }
    ensures does { IsSweep (medium D.is_told D.kept D.moment D.left_since D.fault_count)
        (record { key = key.now; times = times; limit = limit })
        (record { readings = C.readings clock.old; held = K.held out.old; disk = disk })
        (record { readings = C.readings clock.new; held = K.held out.new; disk = result.1 })
        result.0 }
    ensures disk { HasDiskCause (D.fault_count disk) (D.fault_count result.1) result.0 }
    ensures sink { HasSinkCause (K.fault_count out.old) (K.fault_count out.new) result.0 }
    ensures clock { HasClockCause (C.fault_count clock.old) (C.fault_count clock.new) result.0 }
{
    let Ok(now) = clock.now() else {
        let status = Status::ClockFault {
            count: clock.faults(),
        };
        return (status, disk);
    };
    let server = match store_at(alloc, mrc_store, MOST, disk) {
        Ok(server) => server,
        Err(Ended { status, disk }) => return (status, disk),
    };
    let Ok(files) = files_in(alloc, key, &server, now) else {
        return (Status::OutOfMemory, server.close());
    };
    let disk = server.close();
    sweep_osd(
        alloc,
        store,
        limit,
        files.as_slice(),
        &times,
        now,
        out,
        disk,
    )
}
