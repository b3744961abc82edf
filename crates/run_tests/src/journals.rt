//! What loading a disk comes to, as a journal and as the records of a node.

use crate::OTHERWISE;
use crate::bytes::{front, hex};
use disk_model::{Disk, MemoryDisk};
use object_store::{Store, StoreErr};
use std::alloc::Global;
use std::process::Abort;
use std::test::*;
use xt_base::{CallList, Octets};
use xt_journal::{Journal, LoadErr};

/// More bytes than any journal here has.
pub const LIMIT: u64 = 1 << 30;

/// A journal with one record, of a node's first start: the sign, the layout, the open gate at place 12, the length at 13, the payload
/// at 17, and the closed gate at 26.
pub const ONE: &str = "58544653 4a524e4c 00000001 a5 00000009 01 0000000000000001 00";

/// What loading comes to.
#[derive(Clone, Copy, PartialEq)]
pub enum Loading {
    /// So many records stand.
    Records(usize),
    /// The payload at this index isn't a record in its place.
    BadRecord(usize),
    /// Another file's: its first eight bytes, the first one highest.
    NotOurs(u64),
    Layout(u32),
    /// The place of the open gate that no record follows.
    Damaged(u64),
    /// A call of the disk failed, or memory ran out.
    Nothing,
}

/// Loads the records on a disk.
pub fn load<D: Disk>(alloc: Global, disk: D) -> Loading {
    let (journal, extents) = match Journal::load(alloc, disk, LIMIT) {
        Ok(loaded) => loaded,
        Err(LoadErr::NotOurs { first, .. }) => {
            return Loading::NotOurs(u64::from_be_bytes(first));
        }
        Err(LoadErr::Layout { version, .. }) => return Loading::Layout(version),
        Err(LoadErr::Damaged { place, .. }) => return Loading::Damaged(place),
        Err(LoadErr::DiskFault { .. } | LoadErr::OutOfMemory { .. }) => return Loading::Nothing,
    };
    match Store::load(alloc, journal, extents.as_slice()) {
        Ok(store) => Loading::Records(store.records().len()),
        Err(StoreErr::BadRecord { index, .. }) => Loading::BadRecord(index),
        Err(StoreErr::Broken { .. } | StoreErr::OutOfMemory { .. }) => Loading::Nothing,
    }
}

/// A disk with these bytes that doesn't fail.
pub fn sound_disk(rt: &impl Abort, alloc: Global, bytes: &[u8]) -> MemoryDisk {
    let bytes = Octets::of(alloc, bytes).expect(rt, OTHERWISE);
    MemoryDisk::new(alloc, bytes, CallList::new(alloc), None)
}

/// What a journal that was cut to so many bytes comes to.
fn cut_to(count: usize) -> Loading {
    if count <= 13 {
        Loading::Records(0)
    } else if count <= 26 {
        Loading::Damaged(12)
    } else {
        Loading::Records(1)
    }
}

#[test]
fn journals_are_cut(rt: HostRuntime) {
    let one = hex(rt.alloc(), ONE).expect(&rt, OTHERWISE);
    assert!(rt; one.as_slice().len() == 27);
    for count in 0..28 {
        let disk = sound_disk(&rt, rt.alloc(), front(one.as_slice(), count));
        assert!(rt; load(rt.alloc(), disk) == cut_to(count), "of {count} bytes");
    }
}

/// Journals that are damaged, and what loading comes to.
static DAMAGED: [(&str, Loading); 15] = [
    // a length of none
    (
        "58544653 4a524e4c 00000001 a5 00000000 01 0000000000000001 00",
        Loading::Damaged(12),
    ),
    // a length with which the next gate lies outside, one with which the payload does, and the greatest one
    (
        "58544653 4a524e4c 00000001 a5 0000000a 01 0000000000000001 00",
        Loading::Damaged(12),
    ),
    (
        "58544653 4a524e4c 00000001 a5 0000000b 01 0000000000000001 00",
        Loading::Damaged(12),
    ),
    (
        "58544653 4a524e4c 00000001 a5 ffffffff 01 0000000000000001 00",
        Loading::Damaged(12),
    ),
    // a length that is one too small: the last byte of the payload is a gate then, and closed
    (
        "58544653 4a524e4c 00000001 a5 00000008 01 0000000000000001 00",
        Loading::BadRecord(0),
    ),
    // kinds that there aren't
    (
        "58544653 4a524e4c 00000001 a5 00000009 00 0000000000000001 00",
        Loading::BadRecord(0),
    ),
    (
        "58544653 4a524e4c 00000001 a5 00000009 14 0000000000000001 00",
        Loading::BadRecord(0),
    ),
    // a superblock's kind, without a superblock's length
    (
        "58544653 4a524e4c 00000001 a5 00000009 08 0000000000000001 00",
        Loading::Damaged(12),
    ),
    // a boot that is no count
    (
        "58544653 4a524e4c 00000001 a5 00000009 01 4000000000000000 00",
        Loading::BadRecord(0),
    ),
    // another file's sign, and another layout
    (
        "59544653 4a524e4c 00000001 a5 00000009 01 0000000000000001 00",
        Loading::NotOurs(0x5954_4653_4a52_4e4c),
    ),
    (
        "58544653 4a524e4c 00000007 a5 00000009 01 0000000000000001 00",
        Loading::Layout(7),
    ),
    (
        "58544653 4a524e4c 01000001 a5 00000009 01 0000000000000001 00",
        Loading::Layout(0x0100_0001),
    ),
    // gates of which one bit is another: they are closed
    (
        "58544653 4a524e4c 00000001 a4 00000009 01 0000000000000001 00",
        Loading::Records(0),
    ),
    (
        "58544653 4a524e4c 00000001 25 00000009 01 0000000000000001 00",
        Loading::Records(0),
    ),
    // an open gate at the end
    (
        "58544653 4a524e4c 00000001 a5 00000009 01 0000000000000001 a5",
        Loading::Damaged(26),
    ),
];

#[test]
fn journals_are_damaged(rt: HostRuntime) {
    for (text, expected) in &DAMAGED {
        let bytes = hex(rt.alloc(), text).expect(&rt, OTHERWISE);
        let disk = sound_disk(&rt, rt.alloc(), bytes.as_slice());
        assert!(rt; load(rt.alloc(), disk) == *expected, "of {text}");
    }
}

/// A node's first start, and then a head that names a version of an object which no record put.
pub const NAMES_NOTHING: &str = "
    58544653 4a524e4c 00000001 a5 00000009 01 0000000000000001
    a5 00000089
    05 00000000000000000000000000000000 0000000000000001 0000000000000002 00000001
    0000000000000002 00000001 0000000000000001 0000000a 0000000000000001
    0000000000000000 0000000000000003
    00000001 00000000 0000000000000001 00000001 0000000000000001
    00000001 0000000a 0000000000000001 0000000000000001
    00";

/// A start, a promise of the epoch (2, 3), and one of (2, 2), which is below it.
const PROMISES_LESS: &str = "
    58544653 4a524e4c 00000001 a5 00000009 01 0000000000000001
    a5 00000025 02 00000000000000000000000000000000 0000000000000001 0000000000000002 00000003
    a5 00000025 02 00000000000000000000000000000000 0000000000000001 0000000000000002 00000002
    00";

/// An update whose count is 2, where nothing was written before.
const SKIPS_ONE: &str = "
    58544653 4a524e4c 00000001
    a5 00000058 03 00000000000000000000000000000000 0000000000000001
    0000000000000000 00000000 0000000000000002 0000000a 0000000000000001
    0000000000000000 0000000000000003 ffffffff 00000000 00000003 616263
    00";

/// An update of the epoch (1, 1), which wasn't promised.
const UNPROMISED: &str = "
    58544653 4a524e4c 00000001
    a5 00000058 03 00000000000000000000000000000000 0000000000000001
    0000000000000001 00000001 0000000000000001 0000000a 0000000000000001
    0000000000000000 0000000000000003 ffffffff 00000000 00000003 616263
    00";

/// Records out of their place, and which of them it is.
static MISPLACED: [(&str, usize); 4] = [
    (NAMES_NOTHING, 1),
    (PROMISES_LESS, 2),
    (SKIPS_ONE, 0),
    (UNPROMISED, 0),
];

#[test]
fn records_are_out_of_place(rt: HostRuntime) {
    for (text, index) in &MISPLACED {
        let bytes = hex(rt.alloc(), text).expect(&rt, OTHERWISE);
        let disk = sound_disk(&rt, rt.alloc(), bytes.as_slice());
        assert!(rt;
            load(rt.alloc(), disk) == Loading::BadRecord(*index),
            "of {text}"
        );
    }
}
