//! What a scrub finds of stores, and what mends a body.
use crate::stores::{REMADE, ROTTEN, STARTED, TWICE_SEALED, WRITTEN};
use disk_model::{Disk, MemoryDisk};
use object_store::{Reader, Store};
use par_halves::{Gate, NoGate};
use replica_records::fold;
use scrub::{Found, Item, items, mend, scrub};
use std::alloc::Global;
use std::sync::atomic::{AtomicBool, Ordering};
use std::test::Fail;
use std::thread::Threads;
use xt_base::{CallList, Octets};
use xt_journal::Journal;

/// More bytes than any journal here has.
const LIMIT: u64 = 1 << 30;

/// The store on a disk, none where it isn't loaded.
fn loaded<D: Disk>(alloc: Global, disk: D) -> Option<Store<D>> {
    let Ok((journal, extents)) = Journal::load(alloc, disk, LIMIT) else {
        return None;
    };
    let Ok(store) = Store::load(alloc, journal, extents.as_slice()) else {
        return None;
    };
    Some(store)
}

/// The store on a disk with these bytes, none where it isn't loaded.
fn store_on(alloc: Global, bytes: &[u8]) -> Option<Store<MemoryDisk>> {
    let Ok(bytes) = Octets::of(alloc, bytes) else {
        return None;
    };
    loaded(
        alloc,
        MemoryDisk::new(alloc, bytes, CallList::new(alloc), None),
    )
}

/// The bodies that a scrub of a store checks.
fn items_of(alloc: Global, store: &Store<MemoryDisk>) -> Option<Vec<Item>> {
    let Ok(folded) = fold(alloc, store.records()) else {
        return None;
    };
    let Ok(list) = items(alloc, &folded, store.records()) else {
        return None;
    };
    Some(list)
}

/// How many bodies on a disk with these bytes are new, good and damaged.
fn found_on<R: Threads + Sync, G: Gate>(
    rt: &R,
    alloc: Global,
    bytes: &[u8],
    gate: &G,
) -> Option<[usize; 3]> {
    let store = store_on(alloc, bytes)?;
    let list = items_of(alloc, &store)?;
    let mut bodies = Reader::new(alloc, &store);
    let Ok(report) = scrub(rt, alloc, &mut bodies, list.as_slice(), gate) else {
        return None;
    };
    let new = report
        .iter()
        .filter(|found| matches!(found, Found::New(_)))
        .count();
    let good = report
        .iter()
        .filter(|found| matches!(found, Found::Good))
        .count();
    let damaged = report
        .iter()
        .filter(|found| matches!(found, Found::Damaged))
        .count();
    Some([new, good, damaged])
}

/// What is found of each store's bodies: the last digest counts, and none that stands before the file was removed.
#[test]
fn bodies_are_new_good_or_damaged(rt: HostRuntime) -> Result<(), Fail> {
    let cases = [
        (STARTED.as_slice(), [0usize, 0, 0]),
        (WRITTEN.as_slice(), [1, 0, 0]),
        (ROTTEN.as_slice(), [0, 0, 1]),
        (REMADE.as_slice(), [1, 0, 0]),
        (TWICE_SEALED.as_slice(), [0, 1, 1]),
    ];
    for (store, counts) in &cases {
        assert!(rt; found_on(&rt, rt.alloc(), store, &NoGate) == Some(*counts));
    }
    Ok(())
}

/// Whether these bytes mend the first body of the store on a disk.
fn mends(alloc: Global, store: &[u8], bytes: &[u8]) -> Option<bool> {
    let store = store_on(alloc, store)?;
    let list = items_of(alloc, &store)?;
    let Ok(bytes) = Octets::of(alloc, bytes) else {
        return None;
    };
    match mend(alloc, list.first()?, &bytes) {
        Ok(rec) => Some(rec.is_some()),
        Err(_) => None,
    }
}

/// The bytes that were written mend a damaged body, others don't, and nothing mends a body without a digest.
#[test]
fn only_the_written_bytes_mend(rt: HostRuntime) -> Result<(), Fail> {
    assert!(rt; mends(rt.alloc(), &ROTTEN, b"abc") == Some(true));
    assert!(rt; mends(rt.alloc(), &ROTTEN, b"c") == Some(false));
    assert!(rt; mends(rt.alloc(), &WRITTEN, b"abc") == Some(false));
    Ok(())
}

/// Holds the first body until the second one has begun, for a while at most.
#[derive(Drop)]
struct SecondFirst {
    begun: AtomicBool,
    seen: AtomicBool,
}

impl Gate for SecondFirst {
    fn begun(&self, index: u64) {
        if index == 1 {
            self.begun.store(true, Ordering::SeqCst);
        }
        if index == 0 {
            for _ in 0..100_000_000u32 {
                if self.begun.load(Ordering::SeqCst) {
                    self.seen.store(true, Ordering::SeqCst);
                    break;
                }
            }
        }
    }
}

/// Two bodies are digested beside each other.
#[test]
fn two_bodies_run_beside_each_other(rt: HostRuntime) -> Result<(), Fail> {
    let held = SecondFirst {
        begun: AtomicBool::new(false),
        seen: AtomicBool::new(false),
    };
    assert!(rt; found_on(&rt, rt.alloc(), &TWICE_SEALED, &held) == Some([0, 1, 1]));
    assert!(rt; held.seen.load(Ordering::SeqCst));
    Ok(())
}
