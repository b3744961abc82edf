ghost use Rattle.xt_protocol.specs.Forgetting.{rewritten};
ghost use Rattle.object_store.specs.Access.{records_of};
ghost use Rattle.object_store.specs.Texts.{AreRecords};
ghost use Rattle.store_compact.specs.Compacting.{IsCompacted};

use crate::rewriting::rewritten;
use disk_model::Disk;
use object_store::{AppendErr, Store};
use std::alloc::Global;
use xt_messages::Keep;

/// The store with its records rewritten, on its disk and in memory: they say the same but for those held bodies that `keep` doesn't name,
/// which are gone. A crash at any moment leaves the old records or the rewritten ones, and after `Ok` the rewritten ones.
///
/// `keep` has to name enough for the rewritten records to be in their places: what the heads of all files name, at least. `Full` comes
/// exactly where the new area has no room within the limit of the store's journal, and before a body is read. Memory can only run out
/// before the first device call. In both cases the store is as it was. The kept bodies are read while the new area is written, where
/// nothing counts: a read that fails ends it as `Broken`, as a write that fails does, and the old records still count.
pub fn compact<D: Disk>(
    alloc: Global,
    store: Store<D>,
    keep: &Keep,
) -> Result<Store<D>, AppendErr<D>>
    requires { AreRecords (rewritten keep.now (records_of store)) }
    ensures { IsCompacted keep.now store result }
{
    let Ok(made) = rewritten(alloc, &store, keep) else {
        return Err(AppendErr::OutOfMemory { store });
    };
    store.swap(alloc, made)
}
