use disk_model::{Disk, MemoryDisk, Stop};
use object_store::{AppendErr, Store};
use replica_records::{Record, fold, heads};
use std::alloc::Global;
use std::process::Abort;
use std::test::*;
use store_compact::{compact, heads_name_what_must_stay, rewritten_records_may_be_kept};
use xt_base::{CallList, Octets};
use xt_journal::Journal;

/// The message where a test stops that can't go on.
const OTHERWISE: &str = "a call answers otherwise";

/// More bytes than any journal here has.
const LIMIT: u64 = 1 << 30;

/// A journal with one record, of a node's first start. Its record takes 14 bytes.
const ONE: [u8; 27] = [
    0x58, 0x54, 0x46, 0x53, 0x4a, 0x52, 0x4e, 0x4c, 0, 0, 0, 1, 0xa5, 0, 0, 0, 9, 1, 0, 0, 0, 0, 0,
    0, 0, 1, 0,
];

/// A disk with these bytes, of which these calls fail and which stops so.
fn disk(
    rt: &impl Abort,
    alloc: Global,
    bytes: &[u8],
    failing: &[u64],
    stop: Option<Stop>,
) -> MemoryDisk {
    let mut calls = CallList::new(alloc);
    for call in failing {
        calls.push(*call).expect(rt, OTHERWISE);
    }
    let bytes = Octets::of(alloc, bytes).expect(rt, OTHERWISE);
    MemoryDisk::new(alloc, bytes, calls, stop)
}

/// How a compaction ended.
#[derive(Drop)]
enum Ended<D: Disk> {
    Done { store: Store<D> },
    Broken { count: u64, disk: D },
}

/// Loads the records on a disk, and compacts them with the bodies that the heads of their files name.
fn compacted<D: Disk>(alloc: Global, disk: D) -> Option<Ended<D>> {
    let Ok((journal, extents)) = Journal::load(alloc, disk, LIMIT) else {
        return None;
    };
    let Ok(store) = Store::load(alloc, journal, extents.as_slice()) else {
        return None;
    };
    let Ok(folded) = fold(alloc, store.records()) else {
        return None;
    };
    let Ok(keep) = heads(alloc, &folded) else {
        return None;
    };
    heads_name_what_must_stay();
    rewritten_records_may_be_kept();
    match compact(alloc, store, &keep) {
        Ok(store) => Some(Ended::Done { store }),
        Err(AppendErr::Broken { count, disk }) => Some(Ended::Broken { count, disk }),
        Err(AppendErr::Full { .. } | AppendErr::OutOfMemory { .. }) => None,
    }
}

/// How many records are on a disk, where each is a start and the last one is this; 0 where there are other records, or none.
fn starts<D: Disk>(alloc: Global, disk: D, last: u64) -> usize {
    let Ok((journal, extents)) = Journal::load(alloc, disk, LIMIT) else {
        return 0;
    };
    let Ok(store) = Store::load(alloc, journal, extents.as_slice()) else {
        return 0;
    };
    match store.records() {
        [Record::Boot { boot }] if boot.0 == last => 1,
        [Record::Boot { .. }, Record::Boot { boot }] if boot.0 == last => 2,
        _ => 0,
    }
}

/// How many starts are in these bytes, of which the last one is this.
fn starts_in(rt: &impl Abort, alloc: Global, bytes: &[u8], last: u8) -> usize {
    starts(alloc, disk(rt, alloc, bytes, &[], None), u64::from(last))
}

/// The store on a disk, compacted.
fn done<D: Disk>(alloc: Global, disk: D) -> Option<Store<D>> {
    match compacted(alloc, disk) {
        Some(Ended::Done { store }) => Some(store),
        Some(Ended::Broken { .. }) | None => None,
    }
}

/// What a disk is left as by a compaction of which a call fails, with its count of faults.
fn broken<D: Disk>(alloc: Global, disk: D) -> Option<(u64, D)> {
    match compacted(alloc, disk) {
        Some(Ended::Broken { count, disk }) => Some((count, disk)),
        Some(Ended::Done { .. }) | None => None,
    }
}

/// These bytes once the journal in them is compacted.
fn bytes_compacted(rt: &impl Abort, alloc: Global, bytes: &[u8]) -> Octets {
    let store = done(alloc, disk(rt, alloc, bytes, &[], None)).expect(rt, OTHERWISE);
    store.close().image().expect(rt, OTHERWISE)
}

/// These bytes once a start is appended to the journal in them.
fn with_start(rt: &impl Abort, alloc: Global, bytes: &[u8], boot: u8) -> Octets {
    let old = disk(rt, alloc, bytes, &[], None);
    let (journal, extents) = Journal::load(alloc, old, LIMIT).ok().expect(rt, OTHERWISE);
    drop(extents);
    let journal = journal.append(alloc, &[1, 0, 0, 0, 0, 0, 0, 0, boot]);
    let journal = journal.ok().expect(rt, OTHERWISE);
    journal.close().image().expect(rt, OTHERWISE)
}

/// A journal of two starts, of which the last one is this. It was compacted before each start but the first two.
fn two_starts(rt: &impl Abort, alloc: Global, last: u8) -> Octets {
    let mut bytes = with_start(rt, alloc, &ONE, 2);
    for boot in 2..last {
        let shorter = bytes_compacted(rt, alloc, bytes.as_slice());
        bytes = with_start(rt, alloc, shorter.as_slice(), boot + 1);
    }
    bytes
}

/// After each compaction: how many bytes the disk has, and where the area stands.
static AREAS: [(usize, u64); 3] = [(98, 83), (113, 98), (113, 83)];

/// The superblock's record takes 56 bytes, so the first new area stands after its gate. The second one stands after the first, and the
/// third one has the first one's room.
#[test]
fn one_record_is_compacted(rt: HostRuntime) {
    let mut bytes = Octets::of(rt.alloc(), &ONE).expect(&rt, OTHERWISE);
    for (length, place) in &AREAS {
        let old = disk(&rt, rt.alloc(), bytes.as_slice(), &[], None);
        let store = done(rt.alloc(), old).expect(&rt, OTHERWISE);
        let area = store.area();
        assert!(rt; area.place == *place && area.length == 15 && area.first == 15);
        bytes = store.close().image().expect(&rt, OTHERWISE);
        assert!(rt; bytes.as_slice().len() == *length);
        assert!(rt; starts_in(&rt, rt.alloc(), bytes.as_slice(), 1) == 1);
    }
}

/// What may be left at each place that isn't synced: a gate that is closed, another one, and one that is open.
static FILLS: [u8; 3] = [0x00, 0x37, 0xa5];

/// The last start of a journal, and how many writes and syncs its compaction takes. The first one adds the superblock by four. Each
/// writes and syncs its area, its slot's numbers and its slot's gate. The third one shuts the gate of its slot before, by two.
static ROUNDS: [(u8, u64); 3] = [(2, 10), (3, 6), (4, 8)];

/// How many starts stand then: both, or the last one alone once it is compacted.
fn count(stands: bool) -> usize {
    if stands { 1 } else { 2 }
}

/// A crash after a compaction leaves the new records, whatever it leaves at places that aren't synced: there is none.
#[test]
fn a_compaction_goes_well(rt: HostRuntime) {
    for (last, _) in &ROUNDS {
        let bytes = two_starts(&rt, rt.alloc(), *last);
        assert!(rt; starts_in(&rt, rt.alloc(), bytes.as_slice(), *last) == 2);
        let old = disk(&rt, rt.alloc(), bytes.as_slice(), &[], None);
        let left = done(rt.alloc(), old).expect(&rt, OTHERWISE).close();
        for fill in &FILLS {
            let image = left.filled(*fill).expect(&rt, OTHERWISE);
            assert!(rt; starts_in(&rt, rt.alloc(), image.as_slice(), *last) == 1);
        }
    }
}

/// Loading makes two calls of the disk, so that those of the compaction come from the third on. Before the last two, which write
/// and sync the gate of the slot, no byte that a crash may leave makes the new area count. What the failed call wrote is read, too.
#[test]
fn a_call_of_a_compaction_fails(rt: HostRuntime) {
    for (last, calls) in &ROUNDS {
        let bytes = two_starts(&rt, rt.alloc(), *last);
        for call in 1..11 {
            if call <= *calls {
                let old = disk(&rt, rt.alloc(), bytes.as_slice(), &[2 + call], None);
                let (faults, left) = broken(rt.alloc(), old).expect(&rt, OTHERWISE);
                assert!(rt; faults == 1);
                let read = left.image().expect(&rt, OTHERWISE);
                let stands = call + 1 >= *calls;
                assert!(rt; starts_in(&rt, rt.alloc(), read.as_slice(), *last) == count(stands));
                for fill in &FILLS {
                    let image = left.filled(*fill).expect(&rt, OTHERWISE);
                    let stands = call + 1 >= *calls && *fill == 0xa5;
                    assert!(rt;
                        starts_in(&rt, rt.alloc(), image.as_slice(), *last) == count(stands)
                    );
                }
            }
        }
    }
}

/// Loading makes one call that writes or syncs, so that those of the compaction come from the second on.
#[test]
fn a_compaction_stops(rt: HostRuntime) {
    for (last, calls) in &ROUNDS {
        let bytes = two_starts(&rt, rt.alloc(), *last);
        for call in 1..11 {
            for fill in &FILLS {
                if call <= *calls {
                    let stop = Stop {
                        call: 1 + call,
                        fill: *fill,
                    };
                    let old = disk(&rt, rt.alloc(), bytes.as_slice(), &[], Some(stop));
                    let (faults, left) = broken(rt.alloc(), old).expect(&rt, OTHERWISE);
                    assert!(rt; faults == 1);
                    let image = left.image().expect(&rt, OTHERWISE);
                    let stands = call + 1 >= *calls && *fill == 0xa5;
                    assert!(rt;
                        starts_in(&rt, rt.alloc(), image.as_slice(), *last) == count(stands)
                    );
                }
            }
        }
    }
}
