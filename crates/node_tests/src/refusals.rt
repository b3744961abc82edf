//! That a disk that isn't loaded, and a record with no room, are reported as such, and not as out of memory; and that a hull in
//! memory keeps a record. No run of the program comes to these.

use crate::OTHERWISE;
use crate::journals::{LIMIT, ONE, append, load};
use disk_model::{Disk, MemoryDisk};
use object_store::{Store, StoreErr};
use std::alloc::Global;
use std::process::Abort;
use std::test::*;
use world_hull::{Hull, ListHull};
use xt_base::{Boot, CallList, NodeId, Octets};
use xt_journal::{AppendErr, Journal, LoadErr};
use xt_messages::Record;

/// A disk with these bytes.
fn disk(rt: &impl Abort, alloc: Global, bytes: &[u8]) -> MemoryDisk {
    let bytes = Octets::of(alloc, bytes).expect(rt, OTHERWISE);
    MemoryDisk::new(alloc, bytes, CallList::new(alloc), None)
}

/// Whether the journal of a disk isn't loaded, for another reason than out of memory.
fn is_refused<D: Disk>(alloc: Global, disk: D) -> bool {
    match load(alloc, disk, LIMIT) {
        Ok(_) | Err(LoadErr::OutOfMemory { .. }) => false,
        Err(_) => true,
    }
}

/// Another sign, another layout, and an open gate with no record after it.
static REFUSED: [&[u8]; 3] = [
    b"another file's",
    b"XTFSJRNL\0\0\0\x02\0\0",
    b"XTFSJRNL\0\0\0\x01\xa5\0",
];

#[test]
fn journals_are_refused(rt: HostRuntime) {
    for bytes in &REFUSED {
        assert!(rt; is_refused(rt.alloc(), disk(&rt, rt.alloc(), bytes)));
    }
}

/// Whether a journal is full for one more record under this limit.
fn is_full<D: Disk>(alloc: Global, disk: D, limit: u64) -> bool {
    let Some(loaded) = load(alloc, disk, limit).ok() else {
        return false;
    };
    matches!(append(alloc, loaded.journal), Err(AppendErr::Full { .. }))
}

#[test]
fn a_journal_is_full(rt: HostRuntime) {
    assert!(rt; is_full(rt.alloc(), disk(&rt, rt.alloc(), &ONE), 40));
}

/// Whether the payload of a journal is reported as no record.
fn is_bad<D: Disk>(alloc: Global, disk: D) -> bool {
    let Ok((journal, extents)) = Journal::load(alloc, disk, LIMIT) else {
        return false;
    };
    matches!(
        Store::load(alloc, journal, extents.as_slice()),
        Err(StoreErr::BadRecord { index: 0, .. })
    )
}

#[test]
fn a_record_is_refused(rt: HostRuntime) {
    let bytes = b"XTFSJRNL\0\0\0\x01\xa5\0\0\0\x01\x14\0";
    assert!(rt; is_bad(rt.alloc(), disk(&rt, rt.alloc(), bytes)));
}

/// Whether a hull in memory keeps a start, and finds a record then.
fn keeps_one(alloc: Global) -> bool {
    let mut hull = ListHull::new(alloc);
    let rec = Record::Boot { boot: Boot(1) };
    let kept = hull.append(alloc, NodeId(7), &rec, None).is_ok();
    drop(rec);
    kept && hull.revive(alloc, NodeId(7)).is_ok()
}

#[test]
fn a_hull_in_memory_keeps_a_record(rt: HostRuntime) {
    assert!(rt; keeps_one(rt.alloc()));
}
