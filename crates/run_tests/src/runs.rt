//! Runs of the whole program over memory.

ghost use Rattle.std.specs.Prelude.{◌≤◌, ◌<◌, ◌↔◌, ◌^◌, IsTrue, length};
ghost use Rattle.std.specs.List.{All};

use crate::OTHERWISE;
use disk_model::{MemoryDisk, Stop};
use node_links::{
    Datagram, Datagrams, FixedClock, MemoryLink, MemorySink, MemorySource, NoSpawner,
};
use std::alloc::Global;
use std::process::Abort;
use std::thread::Threads;
use xt_base::{CallList, Octets, Seq, Words};
use xtfs_run::run;

/// The words of an OSD, before the number of its turns.
pub const OSD: &[&str] = &[
    "osd", "--id", "1", "--listen", "a:2", "--dir", "a:1", "--store", "s", "--key", "00",
];

/// The words of a metadata server, likewise.
pub const MRC: &[&str] = &[
    "mrc", "--listen", "a:2", "--dir", "a:1", "--store", "s", "--key", "00",
];

/// The words of a directory service, likewise.
pub const DIR: &[&str] = &["dir", "--listen", "a:1", "--store", "s", "--key", "00"];

/// What is outside of a run: the bytes of its source and of its disk, the readings of its clock in milliseconds, and the numbers of
/// the calls that fail, of its disk, its link, its clock and its spawner; and where its disk stops, if it does.
#[derive(Clone, Copy)]
pub struct Outside<'a> {
    pub source: &'a [u8],
    pub disk: &'a [u8],
    pub readings: &'a [u64],
    pub device: &'a [u64],
    pub stop: Option<Stop>,
    pub link: &'a [u64],
    pub clock: &'a [u64],
    pub child: &'a [u64],
}

/// Nothing is given, the clock stands at 0, and nothing fails.
pub const NOTHING: Outside<'static> = Outside {
    source: &[],
    disk: &[],
    readings: &[],
    device: &[],
    stop: None,
    link: &[],
    clock: &[],
    child: &[],
};

/// What a run left: its status, what it wrote, its disk, its link, and what it had started and stopped.
#[derive(Drop)]
pub struct Left {
    pub code: u8,
    pub sink: MemorySink,
    pub disk: MemoryDisk,
    pub link: MemoryLink,
    pub spawner: NoSpawner,
}

/// The words of a command line.
fn words(rt: &impl Abort, alloc: Global, texts: &[&str], turns: &[&str]) -> Words {
    let mut words = Words::new(alloc);
    for text in texts {
        words.push(alloc, text).expect(rt, OTHERWISE);
    }
    for text in turns {
        words.push(alloc, text).expect(rt, OTHERWISE);
    }
    words
}

/// The numbers of calls.
fn calls(rt: &impl Abort, alloc: Global, numbers: &[u64]) -> CallList {
    let mut calls = CallList::new(alloc);
    for number in numbers {
        calls.push(*number).expect(rt, OTHERWISE);
    }
    calls
}

/// Whether a link can give these datagrams.
fn are_short(given: &[Datagram]) -> bool
    ensures { IsTrue result ↔ All (λ d. length d.bytes ≤ 65536) given.now }
{
    given
        .iter()
        .all(|datagram| datagram.bytes.as_slice().len() <= 65_536)
}

/// Whether a clock can give these readings.
fn are_small(readings: &[u64]) -> bool
    ensures { IsTrue result ↔ All (λ reading. reading < 2 ^ 62) readings.now }
{
    readings.iter().all(|reading| *reading < 1 << 62)
}

/// A clock of these readings.
fn clock(rt: &impl Abort, alloc: Global, readings: &[u64], failing: &[u64]) -> FixedClock {
    let readings = calls(rt, alloc, readings);
    let fits = are_small(readings.as_slice());
    assert!(rt; fits);
    FixedClock::new(readings, calls(rt, alloc, failing))
}

/// Runs the program with these words over what is outside, whose link gives these datagrams.
pub fn ran<R: Threads + Sync + Abort>(
    rt: &R,
    alloc: Global,
    texts: &[&str],
    turns: &[&str],
    given: Datagrams,
    outside: Outside<'_>,
) -> Left {
    let fits = are_short(given.as_slice());
    assert!(rt; fits);
    let words = words(rt, alloc, texts, turns);
    let bytes = Octets::of(alloc, outside.disk).expect(rt, OTHERWISE);
    let disk = MemoryDisk::new(alloc, bytes, calls(rt, alloc, outside.device), outside.stop);
    let bytes = Octets::of(alloc, outside.source).expect(rt, OTHERWISE);
    let mut source = MemorySource::new(bytes, 4_096, CallList::new(alloc));
    let sink = MemorySink::new(alloc, 4_096, CallList::new(alloc));
    let mut sink = sink.expect(rt, OTHERWISE);
    let mut link = MemoryLink::new(alloc, given, 1 << 20, calls(rt, alloc, outside.link));
    let mut clock = clock(rt, alloc, outside.readings, outside.clock);
    let mut spawner = NoSpawner::new(alloc, calls(rt, alloc, outside.child));
    let (status, disk) = run(
        rt,
        alloc,
        &words,
        &mut source,
        &mut sink,
        &mut link,
        disk,
        &mut clock,
        &mut spawner,
    );
    Left {
        code: status.code(),
        sink,
        disk,
        link,
        spawner,
    }
}

/// Runs it with a link that gives nothing.
pub fn ran_alone<R: Threads + Sync + Abort>(
    rt: &R,
    alloc: Global,
    texts: &[&str],
    turns: &[&str],
    outside: Outside<'_>,
) -> Left {
    ran(rt, alloc, texts, turns, Seq::new(alloc), outside)
}

/// Asserts what a run wrote, and the status that it ended with.
pub fn assert_ended(rt: &impl Abort, left: &Left, said: &str, code: u8) {
    assert!(rt; left.sink.as_slice() == said.as_bytes(), "not {said}");
    assert!(rt; left.code == code, "status {} and not {code}", left.code);
}
