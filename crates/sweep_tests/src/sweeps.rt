//! Sweeps over disks in memory.

ghost use Rattle.std.specs.Prelude.{◌<◌, ◌↔◌, ◌^◌, IsTrue};
ghost use Rattle.std.specs.List.{All};

use crate::OTHERWISE;
use crate::bytes::{continued, hex};
use crate::stores::{OSD, SERVER, SWEPT};
use disk_model::MemoryDisk;
use named_disks::NamedDisks;
use node_links::{FixedClock, MemorySink};
use std::alloc::Global;
use std::process::Abort;
use std::test::*;
use sweep_job::sweep_store;
use xt_base::{CallList, Name, Octets, Times};
use xt_messages::Status;

/// The default limit of a journal, in bytes.
const LIMIT: u64 = 1 << 30;

/// The first clock at which all that was granted on the file is over that was unlinked at 5,000, with the default times.
const OVER: u64 = 634_000;

/// What is outside of a sweep: the bytes of the two stores, the reading of the clock in milliseconds, the limit, and the numbers of the calls
/// of the OSD's disk, of the clock and of the sink that fail.
#[derive(Clone, Copy)]
struct Outside<'a> {
    server: &'a [u8],
    osd: &'a [u8],
    reading: u64,
    limit: u64,
    disk: &'a [u64],
    clock: &'a [u64],
    sink: &'a [u64],
}

/// What a sweep left.
#[derive(Drop)]
struct Left {
    status: Status,
    sink: MemorySink,
    disks: NamedDisks,
}

/// The numbers of calls.
fn calls(rt: &impl Abort, alloc: Global, numbers: &[u64]) -> CallList {
    let mut calls = CallList::new(alloc);
    for number in numbers {
        calls.push(*number).expect(rt, OTHERWISE);
    }
    calls
}

/// Whether a clock can give these readings.
fn are_small(readings: &[u64]) -> bool
    ensures { IsTrue result ↔ All (λ reading. reading < 2 ^ 62) readings.now }
{
    readings.iter().all(|reading| *reading < 1 << 62)
}

/// A clock with this reading.
fn clock(rt: &impl Abort, alloc: Global, reading: u64, failing: &[u64]) -> FixedClock {
    let readings = calls(rt, alloc, &[reading]);
    let fits = are_small(readings.as_slice());
    assert!(rt; fits);
    FixedClock::new(readings, calls(rt, alloc, failing))
}

/// A disk under this name with these bytes, of which these calls fail.
fn named(
    rt: &impl Abort,
    alloc: Global,
    name: &str,
    bytes: &[u8],
    failing: &[u64],
) -> (Name, MemoryDisk) {
    let name = Name::of(alloc, name).expect(rt, OTHERWISE);
    let bytes = Octets::of(alloc, bytes).expect(rt, OTHERWISE);
    let disk = MemoryDisk::new(alloc, bytes, calls(rt, alloc, failing), None);
    (name, disk)
}

/// Sweeps the store `osd` by the store `mrc`, with the default times, over two disks, the one of these names.
fn swept_as(rt: &impl Abort, alloc: Global, osd: &str, server: &str, outside: Outside<'_>) -> Left {
    let mut disks = Vec::new(alloc);
    let disk = named(rt, alloc, server, outside.server, &[]);
    disks.push(disk).ok().expect(rt, OTHERWISE);
    let disk = named(rt, alloc, osd, outside.osd, outside.disk);
    disks.push(disk).ok().expect(rt, OTHERWISE);
    let times = Times::new(Times::DEFAULT_LEASE, Times::DEFAULT_DRIFT);
    let sink = MemorySink::new(alloc, 256, calls(rt, alloc, outside.sink));
    let mut sink = sink.expect(rt, OTHERWISE);
    let mut clock = clock(rt, alloc, outside.reading, outside.clock);
    let (status, disks) = sweep_store(
        alloc,
        "osd",
        "mrc",
        &[0],
        times.ok().expect(rt, OTHERWISE),
        outside.limit,
        &mut sink,
        NamedDisks::new(disks),
        &mut clock,
    );
    Left {
        status,
        sink,
        disks,
    }
}

/// The same over these two stores.
fn swept(rt: &impl Abort, alloc: Global, outside: Outside<'_>) -> Left {
    swept_as(rt, alloc, "osd", "mrc", outside)
}

/// What a crash leaves of a store now.
fn image(rt: &impl Abort, left: &Left, name: &str) -> Octets {
    let image = left.disks.image(name).expect(rt, OTHERWISE);
    image.expect(rt, OTHERWISE)
}

/// The bytes of a store that is spelled in hex.
fn store(rt: &impl Abort, alloc: Global, text: &str) -> Octets {
    hex(alloc, text).expect(rt, OTHERWISE)
}

/// The file goes at the first clock at which all that was granted on it is over, and not before. The other one stays in either case, and a
/// second sweep removes nothing.
#[test]
fn a_file_goes_once_its_time_is_over(rt: HostRuntime) {
    let server = store(&rt, rt.alloc(), SERVER);
    let osd = store(&rt, rt.alloc(), OSD);
    let all = Outside {
        server: server.as_slice(),
        osd: osd.as_slice(),
        reading: OVER,
        limit: LIMIT,
        disk: &[],
        clock: &[],
        sink: &[],
    };
    let early = swept(
        &rt,
        rt.alloc(),
        Outside {
            reading: OVER - 1,
            ..all
        },
    );
    assert!(rt; matches!(&early.status, Status::Done));
    assert!(rt; early.sink.as_slice() == b"swept 0 kept 1 unknown 1\n".as_slice());

    let left = swept(&rt, rt.alloc(), all);
    assert!(rt; matches!(&left.status, Status::Done));
    assert!(rt; left.sink.as_slice() == b"swept 1 kept 0 unknown 1\n".as_slice());
    assert!(rt; image(&rt, &left, "mrc").as_slice() == server.as_slice());
    let after = image(&rt, &left, "osd");
    let tail = store(&rt, rt.alloc(), SWEPT);
    let whole = continued(rt.alloc(), osd.as_slice(), tail.as_slice()).expect(&rt, OTHERWISE);
    assert!(rt; after.as_slice() == whole.as_slice());

    let again = swept(
        &rt,
        rt.alloc(),
        Outside {
            osd: after.as_slice(),
            ..all
        },
    );
    assert!(rt; matches!(&again.status, Status::Done));
    assert!(rt; again.sink.as_slice() == b"swept 0 kept 0 unknown 1\n".as_slice());
}

/// Limits of the OSD's journal, which ends at 525, and how many bytes it needs: 30 for the record that removes the file, and, once that is there,
/// 879 for all.
static LIMITS: [(u64, u64, usize); 4] = [
    (525, 555, 525),
    (554, 555, 525),
    (555, 879, 555),
    (878, 879, 555),
];

/// Where there is no room for the record, nothing is changed; where there is for it and not for the rewritten records, the file is gone and
/// all else is as it was.
#[test]
fn a_journal_has_no_room(rt: HostRuntime) {
    let server = store(&rt, rt.alloc(), SERVER);
    let osd = store(&rt, rt.alloc(), OSD);
    let tail = store(&rt, rt.alloc(), SWEPT);
    let whole = continued(rt.alloc(), osd.as_slice(), tail.as_slice()).expect(&rt, OTHERWISE);
    for (limit, needs, length) in &LIMITS {
        let left = swept(
            &rt,
            rt.alloc(),
            Outside {
                server: server.as_slice(),
                osd: osd.as_slice(),
                reading: OVER,
                limit: *limit,
                disk: &[],
                clock: &[],
                sink: &[],
            },
        );
        assert!(rt;
            matches!(&left.status, Status::JournalFull { need, limit: most } if *need == *needs && *most == *limit),
            "with {limit}"
        );
        assert!(rt; left.sink.as_slice().is_empty());
        let after = image(&rt, &left, "osd");
        let after = after.as_slice();
        let (front, gate) = after.split_at(after.len().saturating_sub(1));
        assert!(rt;
            after.len() == *length && gate == b"\0".as_slice(),
            "with {limit}"
        );
        assert!(rt; whole.as_slice().starts_with(front), "with {limit}");
    }
}

/// Where a store isn't there, or a clock or a sink fails, the fault is reported. The sink is used last.
#[test]
fn a_device_fails(rt: HostRuntime) {
    let server = store(&rt, rt.alloc(), SERVER);
    let osd = store(&rt, rt.alloc(), OSD);
    let all = Outside {
        server: server.as_slice(),
        osd: osd.as_slice(),
        reading: OVER,
        limit: LIMIT,
        disk: &[],
        clock: &[],
        sink: &[],
    };
    let left = swept_as(&rt, rt.alloc(), "osd", "elsewhere", all);
    assert!(rt; matches!(&left.status, Status::DiskFault { count: 1 }));
    assert!(rt; image(&rt, &left, "osd").as_slice() == osd.as_slice());
    let left = swept_as(&rt, rt.alloc(), "elsewhere", "mrc", all);
    assert!(rt; matches!(&left.status, Status::DiskFault { count: 1 }));
    assert!(rt; image(&rt, &left, "elsewhere").as_slice() == osd.as_slice());
    let left = swept(&rt, rt.alloc(), Outside { clock: &[1], ..all });
    assert!(rt; matches!(&left.status, Status::ClockFault { count: 1 }));
    assert!(rt; image(&rt, &left, "osd").as_slice() == osd.as_slice());
    let left = swept(&rt, rt.alloc(), Outside { sink: &[1], ..all });
    assert!(rt; matches!(&left.status, Status::SinkFault { count: 1 }));
    assert!(rt; image(&rt, &left, "osd").as_slice().len() == 879);
}

/// A sweep of which a call of the OSD's disk fails is done by another one: the file is removed by one of them, and the other one stays.
#[test]
fn a_call_of_the_disk_fails(rt: HostRuntime) {
    let server = store(&rt, rt.alloc(), SERVER);
    let osd = store(&rt, rt.alloc(), OSD);
    let mut broken: u64 = 0;
    for call in 1..40 {
        let all = Outside {
            server: server.as_slice(),
            osd: osd.as_slice(),
            reading: OVER,
            limit: LIMIT,
            disk: &[call],
            clock: &[],
            sink: &[],
        };
        let left = swept(&rt, rt.alloc(), all);
        if let Status::DiskFault { count: 1 } = &left.status {
            broken = broken.saturating_add(1);
            assert!(rt; left.sink.as_slice().is_empty());
        } else {
            assert!(rt; matches!(&left.status, Status::Done));
        }
        let after = image(&rt, &left, "osd");
        let again = swept(
            &rt,
            rt.alloc(),
            Outside {
                osd: after.as_slice(),
                disk: &[],
                ..all
            },
        );
        assert!(rt; matches!(&again.status, Status::Done), "after {call}");
        let wrote = again.sink.as_slice();
        assert!(rt;
            wrote == b"swept 1 kept 0 unknown 1\n".as_slice()
                || wrote == b"swept 0 kept 0 unknown 1\n".as_slice(),
            "after {call}"
        );
    }
    // Two to attach and measure the disk, two to load it, four for the record, and ten for the new area with its superblock.
    assert!(rt; broken == 18);
}
