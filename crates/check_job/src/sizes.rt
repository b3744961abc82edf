//! How long an area is to which a compaction would move the records of a store.
ghost use Rattle.std.specs.Prelude.{◌≡◌, ◌+◌, IfOk};
ghost use Rattle.std.specs.List.{All, sum_by};
ghost use Rattle.xt_base.specs.Faults.{counted};
ghost use Rattle.object_store.specs.Access.{records_of};
ghost use Rattle.object_store.specs.Swapping.{FitsCopied};
ghost use Rattle.object_store.specs.Texts.{AreRecords};
ghost use Rattle.check_job.specs.Reports as spec;

use disk_model::Disk;
use object_store::{Copied, Store};
use replica_records::{fold, heads, record_front};
use std::alloc::Global;
use store_compact::{heads_name_what_must_stay, rewritten, rewritten_records_may_be_kept};
use xt_base::OutOfMemory;

/// How long an area of these records is, in bytes. Each has an open gate (1) and its length (4) before it, and a closed gate is at the end.
fn area_size(alloc: Global, records: &[Copied]) -> Result<u64, OutOfMemory>
    requires { All FitsCopied records.now }
    ensures { IfOk result (λ size. size ≡ counted (sum_by spec.area_part records.now + 1)) }
{
    let mut size: u64 = 1;
    for copied in records {
        let front = record_front(alloc, &copied.bare, copied.body.len)?;
        let len = 5 + front.as_slice().len() as u64 + copied.body.len as u64;
        size = size.saturating_add(len);
    }
    Ok(size)
}

/// How long an area is, in bytes, to which a compaction would move the store's records: without the bodies that no head names.
pub fn compacted_size<D: Disk>(alloc: Global, store: &Store<D>) -> Result<u64, OutOfMemory>
    requires { AreRecords (records_of store.now) }
    ensures { IfOk result (λ size. size ≡ spec.compacted_size (records_of store.now)) }
{
    heads_name_what_must_stay();
    rewritten_records_may_be_kept();
    let folded = fold(alloc, store.records())?;
    let keep = heads(alloc, &folded)?;
    let made = rewritten(alloc, store, &keep)?;
    area_size(alloc, made.as_slice())
}
