//! Nodes to which a thousand datagrams come that are no messages: each is a part of a message that was cut, lengthened or changed, or
//! bytes that were drawn. After them comes the part as it was, so that it shows that nothing came of the others.

use crate::OTHERWISE;
use crate::bytes::{Draws, changed, front, hex, joined};
use crate::runs::{DIR, MRC, NOTHING, OSD, Outside, assert_ended, ran};
use node_links::{Datagram, Datagrams};
use std::alloc::Global;
use std::process::Abort;
use std::test::*;
use xt_base::{Address, Octets, Seq};

/// The seed of all draws.
const SEED: u64 = 7_400;

/// How many datagrams are damaged.
const DAMAGED: u64 = 1_000;

/// The places of a part at which no other byte makes a part of a message to this node: its version; its index, its total and its
/// length; and of its frame the length, the version, the kind, and the receiver. Another kind has fields of another length, in the
/// parts below.
static PLACES: [usize; 17] = [
    0, 21, 22, 23, 24, 25, 26, 27, 28, 29, 30, 31, 32, 37, 38, 39, 40,
];

/// Bytes that are drawn, so many.
fn drawn(rt: &impl Abort, alloc: Global, draws: &mut Draws, count: u64) -> Octets {
    let mut bytes = Vec::new(alloc);
    for _ in 0..count {
        bytes.push(draws.byte()).expect(rt, OTHERWISE);
    }
    Octets::from_vec(bytes).expect(rt, OTHERWISE)
}

/// A part of this one that is damaged in a way that is drawn.
fn damaged(rt: &impl Abort, alloc: Global, draws: &mut Draws, part: &[u8]) -> Octets {
    match draws.below(4) {
        0 => {
            let count = draws.below(part.len() as u64) as usize;
            Octets::of(alloc, front(part, count)).expect(rt, OTHERWISE)
        }
        1 => {
            let count = draws.below(64) | 1;
            let more = drawn(rt, alloc, draws, count);
            joined(alloc, part, more.as_slice()).expect(rt, OTHERWISE)
        }
        2 => {
            let place = draws.below(PLACES.len() as u64) as usize;
            let at = PLACES.get(place).copied().unwrap_or(0);
            let mask = draws.byte() | 1;
            changed(alloc, part, at, mask).expect(rt, OTHERWISE)
        }
        _ => {
            let count = draws.below(100);
            drawn(rt, alloc, draws, count)
        }
    }
}

/// A datagram from the other end.
pub fn push(rt: &impl Abort, given: &mut Datagrams, bytes: Octets) {
    let peer = Address::of("b:1").expect(rt, OTHERWISE);
    given.push(Datagram { peer, bytes }).expect(rt, OTHERWISE);
}

/// Datagrams that are damaged, and then this part.
fn datagrams(rt: &impl Abort, alloc: Global, part: &[u8]) -> Datagrams {
    let mut given = Seq::new(alloc);
    let mut draws = Draws::new(SEED);
    for _ in 0..DAMAGED {
        let bytes = damaged(rt, alloc, &mut draws, part);
        push(rt, &mut given, bytes);
    }
    push(
        rt,
        &mut given,
        Octets::of(alloc, part).expect(rt, OTHERWISE),
    );
    given
}

/// A node, the part that comes to it in the end, what it writes, and what it sends: where to, and the bytes.
struct Case {
    node: &'static [&'static str],
    part: &'static str,
    said: &'static str,
    sent: &'static [(&'static str, &'static str)],
}

/// An OSD and a metadata server ask the directory service at their one Wake. Then an OSD answers a Gather with its head, a metadata
/// server answers that there is no such path, and a directory service that there is no such row.
static CASES: [Case; 3] = [
    Case {
        node: OSD,
        part: "01 00000002 0000000000000001 0000000000000001 00 01 00000032
               00000032 02 06 00000002 00000001 00000000000000000000000000000000 0000000000000001
               0000000000000001 00000002",
        said: "ready 1\n! turns 1002\n",
        sent: &[
            (
                "a:1",
                "01 00000001 0000000000000001 0000000000000001 00 01 0000001c
                 0000001c 02 16 00000001 00000384 0000000000000000 03 01 00000000",
            ),
            (
                "b:1",
                "01 00000001 0000000000000001 0000000000000002 00 01 00000076
                 00000076 02 07 00000001 00000002 00000000000000000000000000000000 0000000000000001
                 0000000000000001 00000002
                 0000000000000001 00000002 0000000000000000 00000000 0000000000000000
                 00000000 0000000000000000 0000000000000000 0000000000000000 00000000 00000000",
            ),
        ],
    },
    Case {
        node: MRC,
        part: "01 0000000a 0000000000000001 0000000000000001 00 01 00000023
               00000023 02 14 0000000a 00000385 0000000000000001 00000001 00000001 07 0002 2f76",
        said: "ready 901\n! turns 1002\n",
        sent: &[
            (
                "a:1",
                "01 00000385 0000000000000001 0000000000000001 00 01 0000001c
                 0000001c 02 16 00000385 00000384 0000000000000000 03 01 00000000",
            ),
            (
                "b:1",
                "01 00000385 0000000000000001 0000000000000002 00 01 00000017
                 00000017 02 15 00000385 0000000a 0000000000000001 01",
            ),
        ],
    },
    Case {
        node: DIR,
        part: "01 0000000a 0000000000000001 0000000000000001 00 01 0000001b
               0000001b 02 16 0000000a 00000384 0000000000000001 02 00000001",
        said: "ready 900\n! turns 1002\n",
        sent: &[(
            "b:1",
            "01 00000384 0000000000000001 0000000000000001 00 01 00000017
             00000017 02 17 00000384 0000000a 0000000000000001 02",
        )],
    },
];

/// Asserts what was sent.
pub fn assert_sent(
    rt: &impl Abort,
    alloc: Global,
    sent: &[Datagram],
    expected: &[(&'static str, &'static str)],
) {
    assert!(rt; sent.len() == expected.len(), "{} datagrams", sent.len());
    for (datagram, (peer, text)) in sent.iter().zip(expected) {
        let bytes = hex(alloc, text).expect(rt, OTHERWISE);
        assert!(rt; datagram.peer.as_str() == *peer, "to {peer}");
        assert!(rt; datagram.bytes.as_slice() == bytes.as_slice(), "not {text}");
    }
}

/// The first reading after a node is ready is past its silence, and past its next Wake: its second turn is that Wake, and each other
/// turn takes a datagram.
#[test]
fn damaged_datagrams_come(rt: HostRuntime) {
    for case in &CASES {
        let part = hex(rt.alloc(), case.part).expect(&rt, OTHERWISE);
        let given = datagrams(&rt, rt.alloc(), part.as_slice());
        let outside = Outside {
            readings: &[0, 20_000],
            ..NOTHING
        };
        let left = ran(
            &rt,
            rt.alloc(),
            case.node,
            &["--turns", "1002"],
            given,
            outside,
        );
        assert_ended(&rt, &left, case.said, 11);
        assert_sent(&rt, rt.alloc(), left.link.sent(), case.sent);
    }
}
