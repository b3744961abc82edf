//! An append to a journal, each of whose four calls fails once, or stops once with each of three bytes.

use crate::OTHERWISE;
use crate::bytes::hex;
use crate::journals::{LIMIT, Loading, load, sound_disk};
use disk_model::{Disk, MemoryDisk, Stop};
use journal_moves::Extent;
use std::alloc::Global;
use std::process::Abort;
use std::test::*;
use xt_base::{CallList, Octets};
use xt_journal::{AppendErr, Journal};

/// A journal of two records: a first start, and the bytes of object 0 in the version ((1, 1), 1).
const OLD: &str = "
    58544653 4a524e4c 00000001 a5 00000009 01 0000000000000001
    a5 00000038 04 00000000000000000000000000000000 0000000000000001 00000000 0000000000000001
    00000001 0000000000000001 00000003 616263
    00";

/// A record of each of the kinds 1 to 6, in its place after those two: a second start, a promise, a write, bytes that are held, a
/// head that names the version above, and a location; and the write, the bytes and the head again, in the kinds 13 to 15 in which they
/// are written today.
static RECORDS: [&str; 9] = [
    "01 0000000000000002",
    "02 00000000000000000000000000000000 0000000000000001 0000000000000002 00000003",
    "03 00000000000000000000000000000000 0000000000000001 0000000000000000 00000000
     0000000000000001 0000000a 0000000000000001 0000000000000000 0000000000000003 ffffffff
     00000000 00000003 616263",
    "04 00000000000000000000000000000000 0000000000000001 00000001 0000000000000001 00000001
     0000000000000002 00000003 646566",
    "05 00000000000000000000000000000000 0000000000000001 0000000000000002 00000001
     0000000000000002 00000001 0000000000000001 0000000a 0000000000000001 0000000000000000
     0000000000000003 00000001 00000000 0000000000000001 00000001 0000000000000001 00000001
     0000000a 0000000000000001 0000000000000001",
    "06 00000000000000000000000000000000 0000000000000001 00000001 01 00020000 01 00000001",
    "0d 00000000000000000000000000000000 0000000000000001 0000000000000000 00000000
     0000000000000001 0000000a 0000000000000001 0000000000000000 0000000000000003 ffffffffffffffff
     0000000000000000 00000003 616263",
    "0e 00000000000000000000000000000000 0000000000000001 0000000000000001 0000000000000001 00000001
     0000000000000002 00000003 646566",
    "0f 00000000000000000000000000000000 0000000000000001 0000000000000002 00000001
     0000000000000002 00000001 0000000000000001 0000000a 0000000000000001 0000000000000000
     0000000000000003 00000001 0000000000000000 0000000000000001 00000001 0000000000000001 00000001
     0000000a 0000000000000001 0000000000000001",
];

/// What may be left at each place that isn't synced: a gate that is closed, another one, and one that is open.
static FILLS: [u8; 3] = [0x00, 0x37, 0xa5];

/// Loads the journal on a disk, and appends a payload. Gives the disk's count of faults, and the disk.
fn appended<D: Disk>(alloc: Global, disk: D, payload: &[u8]) -> Option<(u64, D)> {
    if payload.is_empty() || payload.len() > 65_535 || payload[0] == 8 {
        return None;
    }
    let Ok((journal, _)) = Journal::load(alloc, disk, LIMIT) else {
        return None;
    };
    match journal.append(alloc, payload) {
        Ok(journal) => {
            let disk = journal.close();
            Some((disk.faults(), disk))
        }
        Err(AppendErr::Broken { count, disk }) => Some((count, disk)),
        Err(AppendErr::Full { .. } | AppendErr::OutOfMemory { .. }) => None,
    }
}

/// Whether this payload is at an extent of the journal.
fn is_payload<D: Disk>(
    alloc: Global,
    journal: &Journal<D>,
    extent: Extent,
    payload: &[u8],
) -> bool {
    let Some(end) = extent.at.checked_add(extent.len as u64) else {
        return false;
    };
    if end > journal.end() {
        return false;
    }
    let Ok(mut ahead) = journal.read_ahead(alloc) else {
        return false;
    };
    let Ok(mut bytes) = vec![in alloc; 0; extent.len] else {
        return false;
    };
    ahead.read(extent.at, bytes.as_mut_slice()).is_ok() && bytes.as_slice() == payload
}

/// Whether two payloads are there, and then this one, if it is to stand.
fn are_payloads<D: Disk>(
    alloc: Global,
    journal: &Journal<D>,
    extents: &[Extent],
    payload: &[u8],
    stands: bool,
) -> bool {
    match extents {
        [_, _] => !stands,
        [_, _, last] => stands && is_payload(alloc, journal, *last, payload),
        _ => false,
    }
}

/// Whether the payloads on a disk are so.
fn has_payloads<D: Disk>(alloc: Global, disk: D, payload: &[u8], stands: bool) -> bool {
    match Journal::load(alloc, disk, LIMIT) {
        Ok((journal, extents)) => {
            are_payloads(alloc, &journal, extents.as_slice(), payload, stands)
        }
        Err(_) => false,
    }
}

/// Asserts what these bytes are loaded as: the two old records, and then this one, if it is to stand.
fn assert_left(rt: &impl Abort, alloc: Global, image: &[u8], payload: &[u8], stands: bool) {
    let disk = sound_disk(rt, alloc, image);
    assert!(rt; has_payloads(alloc, disk, payload, stands));
    let records = if stands { 3 } else { 2 };
    let disk = sound_disk(rt, alloc, image);
    assert!(rt; load(alloc, disk) == Loading::Records(records));
}

/// Appends to the old journal on a disk of which these calls fail and which stops so, and asserts its count of faults.
fn append(
    rt: &impl Abort,
    alloc: Global,
    payload: &[u8],
    failing: &[u64],
    stop: Option<Stop>,
    faults: u64,
) -> MemoryDisk {
    let mut calls = CallList::new(alloc);
    for call in failing {
        calls.push(*call).expect(rt, OTHERWISE);
    }
    let old = hex(alloc, OLD).expect(rt, OTHERWISE);
    let disk = MemoryDisk::new(alloc, old, calls, stop);
    let (count, disk) = appended(alloc, disk, payload).expect(rt, OTHERWISE);
    assert!(rt; count == faults);
    disk
}

/// The payloads of the records.
fn payload(rt: &impl Abort, alloc: Global, text: &str) -> Octets {
    hex(alloc, text).expect(rt, OTHERWISE)
}

/// A crash after an append leaves its record, whatever it leaves at places that aren't synced: there is none.
#[test]
fn an_append_goes_well(rt: HostRuntime) {
    for text in &RECORDS {
        let payload = payload(&rt, rt.alloc(), text);
        let payload = payload.as_slice();
        let disk = append(&rt, rt.alloc(), payload, &[], None, 0);
        for fill in &FILLS {
            let image = disk.filled(*fill).expect(&rt, OTHERWISE);
            assert_left(&rt, rt.alloc(), image.as_slice(), payload, true);
        }
    }
}

/// Loading makes two calls of the disk, so that those of the append are the third to the sixth. Before the third of these
/// opens the gate, no byte that a crash may leave is the record's gate. What the failed call wrote is read, too.
#[test]
fn a_call_of_an_append_fails(rt: HostRuntime) {
    for text in &RECORDS {
        let payload = payload(&rt, rt.alloc(), text);
        let payload = payload.as_slice();
        for call in 1..5 {
            let disk = append(&rt, rt.alloc(), payload, &[2 + call], None, 1);
            let read = disk.image().expect(&rt, OTHERWISE);
            assert_left(&rt, rt.alloc(), read.as_slice(), payload, call >= 3);
            for fill in &FILLS {
                let image = disk.filled(*fill).expect(&rt, OTHERWISE);
                let stands = call >= 3 && *fill == 0xa5;
                assert_left(&rt, rt.alloc(), image.as_slice(), payload, stands);
            }
        }
    }
}

/// Loading makes one call that writes or syncs, so that those of the append are the second to the fifth.
#[test]
fn an_append_stops(rt: HostRuntime) {
    for text in &RECORDS {
        let payload = payload(&rt, rt.alloc(), text);
        let payload = payload.as_slice();
        for call in 1..5 {
            for fill in &FILLS {
                let stop = Stop {
                    call: 1 + call,
                    fill: *fill,
                };
                let disk = append(&rt, rt.alloc(), payload, &[], Some(stop), 1);
                let image = disk.image().expect(&rt, OTHERWISE);
                let stands = call >= 3 && *fill == 0xa5;
                assert_left(&rt, rt.alloc(), image.as_slice(), payload, stands);
            }
        }
    }
}
