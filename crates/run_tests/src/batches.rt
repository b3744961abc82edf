//! Nodes to which datagrams come faster than their disk syncs: their records are put at once, and their answers are sent after that.

use crate::OTHERWISE;
use crate::bytes::hex;
use crate::datagrams::{assert_sent, push};
use crate::journals::{Loading, ONE, load, sound_disk};
use crate::runs::{DIR, MRC, NOTHING, OSD, Outside, assert_ended, ran};
use disk_model::MemoryDisk;
use node_links::Datagrams;
use std::alloc::Global;
use std::process::Abort;
use std::test::*;
use xt_base::{Octets, Seq};

/// A node; three datagrams, each of which makes it put a record and send an answer; what is sent, and how much of it before the answers.
struct Case {
    node: &'static [&'static str],
    before: usize,
    parts: &'static [&'static str],
    sent: &'static [(&'static str, &'static str)],
}

/// The three files of an OSD are promised to node 2; a client makes three volumes; and it sets three addresses.
///
/// A byte that is no message comes in the first turn, after which the clock is past the next Wake: so the second turn is that Wake. The
/// datagrams come in the three turns after it, and the clock stands still. So the first of them is received as a datagram is
/// waited for, and each later one by a look that doesn't wait.
static CASES: [Case; 3] = [
    Case {
        node: OSD,
        before: 1,
        parts: &[
            "01 00000002 0000000000000001 0000000000000001 00 01 00000032
             00000032 02 06 00000002 00000001 00000000000000000000000000000000 0000000000000001
             0000000000000001 00000002",
            "01 00000002 0000000000000001 0000000000000002 00 01 00000032
             00000032 02 06 00000002 00000001 00000000000000000000000000000000 0000000000000002
             0000000000000001 00000002",
            "01 00000002 0000000000000001 0000000000000003 00 01 00000032
             00000032 02 06 00000002 00000001 00000000000000000000000000000000 0000000000000003
             0000000000000001 00000002",
        ],
        sent: &[
            (
                "a:1",
                "01 00000001 0000000000000002 0000000000000001 00 01 0000001c
                 0000001c 02 16 00000001 00000384 0000000000000000 03 01 00000000",
            ),
            (
                "b:1",
                "01 00000001 0000000000000002 0000000000000002 00 01 00000076
                 00000076 02 07 00000001 00000002 00000000000000000000000000000000 0000000000000001
                 0000000000000001 00000002
                 0000000000000001 00000002 0000000000000000 00000000 0000000000000000
                 00000000 0000000000000000 0000000000000000 0000000000000000 00000000 00000000",
            ),
            (
                "b:1",
                "01 00000001 0000000000000002 0000000000000003 00 01 00000076
                 00000076 02 07 00000001 00000002 00000000000000000000000000000000 0000000000000002
                 0000000000000001 00000002
                 0000000000000001 00000002 0000000000000000 00000000 0000000000000000
                 00000000 0000000000000000 0000000000000000 0000000000000000 00000000 00000000",
            ),
            (
                "b:1",
                "01 00000001 0000000000000002 0000000000000004 00 01 00000076
                 00000076 02 07 00000001 00000002 00000000000000000000000000000000 0000000000000003
                 0000000000000001 00000002
                 0000000000000001 00000002 0000000000000000 00000000 0000000000000000
                 00000000 0000000000000000 0000000000000000 0000000000000000 00000000 00000000",
            ),
        ],
    },
    Case {
        node: MRC,
        before: 1,
        parts: &[
            "01 0000000a 0000000000000001 0000000000000001 00 01 00000025
             00000025 02 14 0000000a 00000385 0000000000000001 00000001 00000001 01 0002 2f76 01ed",
            "01 0000000a 0000000000000001 0000000000000002 00 01 00000025
             00000025 02 14 0000000a 00000385 0000000000000002 00000001 00000001 01 0002 2f77 01ed",
            "01 0000000a 0000000000000001 0000000000000003 00 01 00000025
             00000025 02 14 0000000a 00000385 0000000000000003 00000001 00000001 01 0002 2f78 01ed",
        ],
        sent: &[
            (
                "a:1",
                "01 00000385 0000000000000002 0000000000000001 00 01 0000001c
                 0000001c 02 16 00000385 00000384 0000000000000000 03 01 00000000",
            ),
            (
                "b:1",
                "01 00000385 0000000000000002 0000000000000002 00 01 00000017
                 00000017 02 15 00000385 0000000a 0000000000000001 00",
            ),
            (
                "b:1",
                "01 00000385 0000000000000002 0000000000000003 00 01 00000017
                 00000017 02 15 00000385 0000000a 0000000000000002 00",
            ),
            (
                "b:1",
                "01 00000385 0000000000000002 0000000000000004 00 01 00000017
                 00000017 02 15 00000385 0000000a 0000000000000003 00",
            ),
        ],
    },
    Case {
        node: DIR,
        before: 0,
        parts: &[
            "01 0000000a 0000000000000001 0000000000000001 00 01 00000029
             00000029 02 16 0000000a 00000384 0000000000000001 01 00000001 01 0003 613a31
             0000000000000000",
            "01 0000000a 0000000000000001 0000000000000002 00 01 00000029
             00000029 02 16 0000000a 00000384 0000000000000002 01 00000002 01 0003 613a31
             0000000000000000",
            "01 0000000a 0000000000000001 0000000000000003 00 01 00000029
             00000029 02 16 0000000a 00000384 0000000000000003 01 00000003 01 0003 613a31
             0000000000000000",
        ],
        sent: &[
            (
                "b:1",
                "01 00000384 0000000000000002 0000000000000001 00 01 0000001f
                 0000001f 02 17 00000384 0000000a 0000000000000001 00 0000000000000001",
            ),
            (
                "b:1",
                "01 00000384 0000000000000002 0000000000000002 00 01 0000001f
                 0000001f 02 17 00000384 0000000a 0000000000000002 00 0000000000000001",
            ),
            (
                "b:1",
                "01 00000384 0000000000000002 0000000000000003 00 01 0000001f
                 0000001f 02 17 00000384 0000000a 0000000000000003 00 0000000000000001",
            ),
        ],
    },
];

/// A byte that is no message, and then these datagrams.
pub fn given(rt: &impl Abort, alloc: Global, parts: &[&'static str]) -> Datagrams {
    let mut given = Seq::new(alloc);
    push(
        rt,
        &mut given,
        Octets::of(alloc, &[0]).expect(rt, OTHERWISE),
    );
    for part in parts {
        push(rt, &mut given, hex(alloc, part).expect(rt, OTHERWISE));
    }
    given
}

/// What is sent with so many answers.
fn sent_with(case: &Case, answers: usize) -> &'static [(&'static str, &'static str)] {
    let count = case.before.saturating_add(answers).min(case.sent.len());
    &case.sent[..count]
}

/// What may be left at each place that isn't synced: a gate that is closed, another one, and one that is open.
static FILLS: [u8; 3] = [0x00, 0x37, 0xa5];

/// Asserts that a crash leaves two starts, and after them all three records or none: all where the gate before the first of them may be open.
fn assert_all_or_none(rt: &impl Abort, alloc: Global, disk: &MemoryDisk, is_opened: bool) {
    let read = disk.image().expect(rt, OTHERWISE);
    let records = if is_opened { 5 } else { 2 };
    assert!(rt; load(alloc, sound_disk(rt, alloc, read.as_slice())) == Loading::Records(records));
    for fill in &FILLS {
        let image = disk.filled(*fill).expect(rt, OTHERWISE);
        let records = if is_opened && *fill == 0xa5 { 5 } else { 2 };
        let disk = sound_disk(rt, alloc, image.as_slice());
        assert!(rt;
            load(alloc, disk) == Loading::Records(records),
            "fill {fill}"
        );
    }
}

/// A node attaches its disk, syncs it, asks for its length, and appends its start in four calls. So three records that are put at once
/// are the calls 8 to 11; the third of these opens the gate before the first record. Where one fails, no answer is sent.
#[test]
fn a_call_of_a_batch_fails(rt: HostRuntime) {
    const FAILING: [&[u64]; 4] = [&[8], &[9], &[10], &[11]];
    const SAID: [&str; 3] = [
        "ready 1\n! disk 1\n",
        "ready 901\n! disk 1\n",
        "ready 900\n! disk 1\n",
    ];
    let one = hex(rt.alloc(), ONE).expect(&rt, OTHERWISE);
    for (case, said) in CASES.iter().zip(&SAID) {
        for (call, device) in FAILING.iter().enumerate() {
            let outside = Outside {
                disk: one.as_slice(),
                readings: &[0, 20_000],
                device,
                ..NOTHING
            };
            let given = given(&rt, rt.alloc(), case.parts);
            let left = ran(
                &rt,
                rt.alloc(),
                case.node,
                &["--turns", "5"],
                given,
                outside,
            );
            assert_ended(&rt, &left, said, 5);
            assert_sent(&rt, rt.alloc(), left.link.sent(), sent_with(case, 0));
            assert_all_or_none(&rt, rt.alloc(), &left.disk, call >= 2);
        }
    }
}
