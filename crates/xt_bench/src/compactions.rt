use crate::done::Done;
use anyhow::{Result, bail};
use disk_model::Disk;
use object_store::Store;
use replica_records::{fold, heads};
use std::alloc::Global;
use store_compact::{compact, heads_name_what_must_stay, rewritten_records_may_be_kept};
use xt_journal::Journal;

/// Loads the store on a disk and compacts it with the bodies that the heads of its files name, and gives how many records it has then,
/// and how many bytes they take.
pub fn compact_on<D: Disk>(alloc: Global, disk: D) -> Result<Done> {
    let Ok((journal, extents)) = Journal::load(alloc, disk, u64::MAX) else {
        bail!("the journal isn't loaded");
    };
    let Ok(store) = Store::load(alloc, journal, extents.as_slice()) else {
        bail!("the records aren't loaded");
    };
    drop(extents);
    let Ok(folded) = fold(alloc, store.records()) else {
        bail!("out of memory");
    };
    let Ok(keep) = heads(alloc, &folded) else {
        bail!("out of memory");
    };
    heads_name_what_must_stay();
    rewritten_records_may_be_kept();
    match compact(alloc, store, &keep) {
        Ok(store) => Ok(Done {
            pieces: store.records().len() as u64,
            bytes: store.area().length,
        }),
        Err(_) => bail!("the store isn't compacted"),
    }
}
