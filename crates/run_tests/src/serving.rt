//! Runs that nothing disturbs, which no contract says, since memory may run out anywhere; and what a device call that fails ends one with.

use disk_model::MemoryDisk;
use node_links::{FixedClock, MemoryLink, MemorySink, MemorySource, NoSpawner, Readings};
use std::alloc::Global;
use std::test::Fail;
use std::thread::Threads;
use xt_base::{CallList, Octets, OutOfMemory, Seq, Words};
use xt_messages::Status;
use xtfs_run::run;

/// A journal with one record, of a node's first start.
const ONE: &[u8] = &[
    0x58, 0x54, 0x46, 0x53, 0x4a, 0x52, 0x4e, 0x4c, 0, 0, 0, 1, 0xa5, 0, 0, 0, 9, 1, 0, 0, 0, 0, 0,
    0, 0, 1, 0,
];

/// It with the record of the second start.
const TWO: &[u8] = &[
    0x58, 0x54, 0x46, 0x53, 0x4a, 0x52, 0x4e, 0x4c, 0, 0, 0, 1, 0xa5, 0, 0, 0, 9, 1, 0, 0, 0, 0, 0,
    0, 0, 1, 0xa5, 0, 0, 0, 9, 1, 0, 0, 0, 0, 0, 0, 0, 2, 0,
];

/// The words of a command line.
fn words(alloc: Global, texts: &[&str]) -> Result<Words, OutOfMemory> {
    let mut words = Words::new(alloc);
    for text in texts {
        words.push(alloc, text)?;
    }
    Ok(words)
}

/// What a run left: its status, what was put, and its disk.
#[derive(Drop)]
struct Left {
    status: Status,
    sink: MemorySink,
    disk: MemoryDisk,
}

/// The numbers of the calls that fail, of a disk and of a spawner.
#[derive(Clone, Copy)]
struct Failing {
    device: &'static [u64],
    child: &'static [u64],
}

/// No call fails.
const NONE: Failing = Failing {
    device: &[],
    child: &[],
};

fn calls(alloc: Global, numbers: &[u64]) -> Result<CallList, OutOfMemory> {
    let mut calls = CallList::new(alloc);
    for number in numbers {
        calls.push(*number)?;
    }
    Ok(calls)
}

/// Runs the program on a disk with these bytes. Nothing comes over its link, and its clock stands still.
fn ran<R: Threads + Sync>(
    rt: &R,
    alloc: Global,
    texts: &[&str],
    bytes: &[u8],
    failing: Failing,
) -> Result<Left, OutOfMemory> {
    let words = words(alloc, texts)?;
    let failing_calls = calls(alloc, failing.device)?;
    let disk = MemoryDisk::new(alloc, Octets::of(alloc, bytes)?, failing_calls, None);
    let mut source = MemorySource::new(Octets::new(alloc), 4_096, CallList::new(alloc));
    let mut sink = MemorySink::new(alloc, 4_096, CallList::new(alloc))?;
    let mut link = MemoryLink::new(alloc, Seq::new(alloc), 1 << 20, CallList::new(alloc));
    let mut clock = FixedClock::new(Readings::new(alloc), CallList::new(alloc));
    let mut spawner = NoSpawner::new(alloc, calls(alloc, failing.child)?);
    let (status, disk) = run(
        rt,
        alloc,
        &words,
        &mut source,
        &mut sink,
        &mut link,
        disk,
        &mut clock,
        &mut spawner,
    );
    Ok(Left { status, sink, disk })
}

/// An OSD that takes three turns.
const OSD: &[&str] = &[
    "osd", "--id", "1", "--listen", "a:2", "--dir", "a:1", "--store", "s", "--key", "00",
    "--turns", "3",
];

#[test]
fn an_osd_serves_and_keeps_its_boot(rt: HostRuntime) -> Result<(), Fail> {
    let left = ran(&rt, rt.alloc(), OSD, ONE, NONE)?;
    assert_eq!(rt; left.sink.as_slice(), b"ready 1\n! turns 3\n".as_slice());
    assert_eq!(rt; left.status.code(), 11);
    assert_eq!(rt; left.disk.image()?.as_slice(), TWO);
    Ok(())
}

#[test]
fn a_client_takes_its_turns(rt: HostRuntime) -> Result<(), Fail> {
    let get = &["get", "/v/a", "--dir", "a:1", "--turns", "3"];
    let left = ran(&rt, rt.alloc(), get, &[], NONE)?;
    assert_eq!(rt; left.sink.as_slice(), b"! turns 3\n".as_slice());
    assert_eq!(rt; left.status.code(), 11);
    Ok(())
}

/// A node attaches its disk, and syncs it and asks for its length in two calls more; the calls of its first append come then.
#[test]
fn a_failed_call_of_an_append_is_told(rt: HostRuntime) -> Result<(), Fail> {
    const CALLS: [&[u64]; 4] = [&[4], &[5], &[6], &[7]];
    for device in CALLS {
        let left = ran(&rt, rt.alloc(), OSD, ONE, Failing { device, child: &[] })?;
        assert_eq!(rt; left.sink.as_slice(), b"! disk 1\n".as_slice());
        assert_eq!(rt; left.status.code(), 5);
    }
    Ok(())
}

#[test]
fn a_child_that_is_not_started_is_told(rt: HostRuntime) -> Result<(), Fail> {
    let cluster = &[
        "cluster", "--osds", "1", "--port", "7400", "--store", "s", "--key", "00",
    ];
    let failing = Failing {
        device: &[],
        child: &[1],
    };
    let left = ran(&rt, rt.alloc(), cluster, &[], failing)?;
    assert_eq!(rt; left.sink.as_slice(), b"! child 1\n".as_slice());
    assert_eq!(rt; left.status.code(), 10);
    Ok(())
}
