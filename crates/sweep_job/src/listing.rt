//! The files that a metadata server made.
ghost use Rattle.std.specs.Prelude.{◌≡◌, ◌≤◌, ◌<◌, ◌^◌, length, IfErr, IfOk};
ghost use Rattle.object_store.specs.Access.{records_of};
ghost use Rattle.object_store.specs.Texts.{AreRecords};
ghost use Rattle.sweep_job.specs.Sweeping.{files_by};

use disk_model::Disk;
use mrc_core::Mrc;
use object_store::Store;
use std::alloc::Global;
use xt_base::{FileId, OutOfMemory};

/// The files that the metadata server made whose store this is, each with the clock at which it was unlinked, if it was. They don't depend
/// on the reading.
pub fn files_in<D: Disk>(
    alloc: Global,
    key: &[u8],
    store: &Store<D>,
    now: u64,
) -> Result<Vec<(FileId, Option<u64>)>, OutOfMemory>
    requires some { 1 ≤ length key.now }
    requires short { length key.now ≤ 64 }
    requires clock { now < 2 ^ 62 }
    requires are { AreRecords (records_of store.now) }
    ensures { IfOk result (λ files. files.items ≡ files_by key.now (records_of store.now)) }
{
    let mrc = Mrc::start(alloc, key, store.records(), now)?;
    mrc.files()
}
