//! The sweep of a store.
ghost use Rattle.std.specs.Prelude.{◌≡◌, IfOk};
ghost use Rattle.std.specs.List.{All};
ghost use Rattle.xt_protocol.specs.Folds.{fold_of};
ghost use Rattle.replica_records.specs.Heads.{heads_of};
ghost use Rattle.object_store.specs.Access.{records_of};
ghost use Rattle.object_store.specs.Texts.{AreRecords};
ghost use Rattle.orphan_sweep.specs.Fates.{FitsFate, orphans_of};
ghost use Rattle.orphan_sweep.specs.Sweeps.{Removes, Sweeps};

use crate::fate::{Fate, is_orphan};
use disk_model::Disk;
use object_store::{AppendErr, Store};
use replica_records::{fold, heads};
use std::alloc::Global;
use store_compact::{compact, heads_name_what_must_stay, rewritten_records_may_be_kept};
use xt_base::{FileId, OutOfMemory};
use xt_messages::{Keep, Record};

/// Puts a record for each file that goes, in their order, which removes it.
fn remove_all<D: Disk>(
    alloc: Global,
    store: Store<D>,
    fates: &[(FileId, Fate)],
) -> Result<Store<D>, AppendErr<D>>
    requires { All FitsFate fates.now }
    ensures { Removes store (orphans_of fates.now) result }
{
    let mut store = store;
    for (file, fate) in fates {
        if is_orphan(*fate) {
            match store.put(alloc, &Record::Forget { file: *file }) {
                Ok(put) => store = put,
                Err(error) => return Err(error),
            }
        }
    }
    Ok(store)
}

/// The bodies that the heads of all files name, by these records.
fn named_bodies(alloc: Global, records: &[Record]) -> Result<Keep, OutOfMemory>
    ensures { IfOk result (λ keep. keep ≡ heads_of (fold_of records.now)) }
{
    let folded = fold(alloc, records)?;
    heads(alloc, &folded)
}

/// Removes from the store the files that go, and then has its records rewritten with those bodies alone that the heads of the others name,
/// on the disk and in memory.
///
/// Each file is removed by a record of its own, in their order, and a crash at any moment leaves the records as they were but for some of
/// the first of these files; or, once all of them are removed, the rewritten ones. `Full` comes exactly where the journal has no room for
/// the next such record, or for the rewritten ones; the store is then as it was but for the files that were removed by then, and so it is
/// where memory runs out. A store whose disk has failed is gone, and must be loaded again.
pub fn sweep<D: Disk>(
    alloc: Global,
    store: Store<D>,
    fates: &[(FileId, Fate)],
) -> Result<Store<D>, AppendErr<D>>
    requires sound { AreRecords (records_of store) }
    requires files { All FitsFate fates.now }
    ensures { Sweeps store (orphans_of fates.now) result }
{
    heads_name_what_must_stay();
    rewritten_records_may_be_kept();
    let store = match remove_all(alloc, store, fates) {
        Ok(store) => store,
        Err(error) => return Err(error),
    };
    let Ok(keep) = named_bodies(alloc, store.records()) else {
        return Err(AppendErr::OutOfMemory { store });
    };
    compact(alloc, store, &keep)
}
