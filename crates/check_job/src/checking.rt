//! The check of a store.
ghost use Rattle.std.specs.Prelude.{◌≡◌, List, IsTrue, IfOk, is_err, length};
ghost use Rattle.xt_messages.specs.declared.record.Record.{Record};
ghost use Rattle.disk_model.specs.Disk.{IsImage, LeavesOnly};
ghost use Rattle.xt_base.specs.Faults.{fault_count_after};
ghost use Rattle.object_store.specs.Access.{records_of};
ghost use Rattle.object_store.specs.Texts.{AreRecords};
ghost use Rattle.store_loading.specs.Loading.{medium};
ghost use Rattle.store_loading.specs.Sinks.{HasSinkCause, Reports};
ghost use Rattle.check_job.specs.Reports as spec;
ghost use Rattle.check_job.specs.Checking.{IsCheck, found_in};

use crate::report::report;
use crate::sizes::compacted_size;
use disk_model::Disk;
use node_links::Sink;
use node_loop::Ended;
use object_store::Store;
use schedule_lines::put_all;
use std::alloc::Global;
use store_loading::loaded;
use xt_base::Failed;
use xt_messages::{Record, Status};

/// How many bytes a journal with no record has.
const EMPTY: u64 = 13;

/// How many bytes the record of a boot takes in a journal: its gate (1), its length (4), its kind (1) and the boot (8).
const BOOT: u64 = 14;

/// How long an area is to which a compaction moves no records: it has the record of boot 0, and a closed gate.
const COMPACTED: u64 = BOOT + 1;

/// Chooses the store's file, and returns its length in bytes.
fn opened<D: Disk>(path: &str, disk: &mut D) -> Result<u64, Failed>
    ensures value { IsTrue D.is_told →
        IfOk result (λ len. len ≡ length (D.kept disk.old).read) }
    ensures same { IsTrue D.is_told → D.kept disk.new ≡ D.kept disk.old }
    ensures each { IsTrue D.is_told →
        LeavesOnly D.moment D.left_since disk.old disk.new (IsImage (D.kept disk.old)) }
    ensures count { D.fault_count disk.new ≡
        fault_count_after (is_err result) (D.fault_count disk.old) }
{
    disk.attach(path)?;
    disk.length()
}

/// The status of a store whose journal has this length: whether the next start can put its boot.
fn status_at(long: u64, limit: u64) -> Status
    ensures { (records : List Record) → result ≡ spec.status_at records long limit }
{
    let need = long.saturating_add(BOOT);
    if limit < need {
        Status::JournalFull { need, limit }
    } else {
        Status::Done
    }
}

/// Puts the report on a store. Returns why it ended.
fn tell<K: Sink>(
    alloc: Global,
    records: &[Record],
    long: u64,
    limit: u64,
    compacted: u64,
    out: &mut K,
) -> Status
    ensures reports { Reports (spec.report_lines records.now long limit compacted)
        (spec.status_at records.now long limit) (K.held out.old) (K.held out.new) result }
    ensures cause { HasSinkCause (K.fault_count out.old) (K.fault_count out.new) result }
{
    let Ok(text) = report(alloc, records, long, limit, compacted) else {
        return Status::OutOfMemory;
    };
    match put_all(out, text.as_bytes()) {
        Ok(()) => status_at(long, limit),
        Err(Failed) => Status::SinkFault {
            count: out.faults(),
        },
    }
}

/// Puts the report on a store that was loaded. Returns why it ended.
fn tell_of<K: Sink, D: Disk>(alloc: Global, store: &Store<D>, limit: u64, out: &mut K) -> Status
    requires { AreRecords (records_of store.now) }
    ensures reports { Reports (spec.report_text (found_in store.now limit))
        (spec.status_of (found_in store.now limit)) (K.held out.old) (K.held out.new) result }
    ensures cause { HasSinkCause (K.fault_count out.old) (K.fault_count out.new) result }
{
    let Ok(compacted) = compacted_size(alloc, store) else {
        return Status::OutOfMemory;
    };
    let area = store.area();
    let long = area.place + area.length;
    tell(alloc, store.records(), long, limit, compacted, out)
}

/// Loads the store at this path and puts what it holds to the sink. Returns why it ended. Nothing is written to the store: a start makes a
/// journal of a file of at most 13 bytes, which is reported as one with no record and left as it is.
pub fn check_store<K: Sink, D: Disk>(
    alloc: Global,
    path: &str,
    limit: u64,
    out: &mut K,
    disk: D,
) -> (Status, D)
    ensures { IsCheck (medium D.is_told D.kept D.moment D.left_since D.fault_count) limit disk
        result.1 (K.held out.old) (K.held out.new) (K.fault_count out.old)
        (K.fault_count out.new) result.0 }
{
    let mut disk = disk;
    match opened(path, &mut disk) {
        Ok(len) if len > EMPTY => {}
        Ok(_) => return (tell(alloc, &[], EMPTY, limit, COMPACTED, out), disk),
        Err(Failed) => {
            let status = Status::DiskFault {
                count: disk.faults(),
            };
            return (status, disk);
        }
    }
    match loaded(alloc, disk, limit) {
        Ok(store) => {
            let status = tell_of(alloc, &store, limit, out);
            (status, store.close())
        }
        Err(Ended { status, disk }) => (status, disk),
    }
}
