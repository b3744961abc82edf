//! What a node, a client and a cluster do where their disk is damaged, or their link, their clock or their spawner fails.

use crate::OTHERWISE;
use crate::bytes::{front, hex};
use crate::journals::{NAMES_NOTHING, ONE};
use crate::runs::{DIR, MRC, NOTHING, OSD, Outside, assert_ended, ran_alone};
use node_links::{ChildCall, Datagram, Link};
use std::test::*;
use xt_base::Octets;

/// A journal of two starts.
pub const TWO: &str = "
    58544653 4a524e4c 00000001 a5 00000009 01 0000000000000001
    a5 00000009 01 0000000000000002 00";

/// A node replaces a journal of at most 13 bytes by a new one, and keeps its first start there. It leaves one that is damaged as
/// it is.
#[test]
fn an_osd_has_a_cut_disk(rt: HostRuntime) {
    let one = hex(rt.alloc(), ONE).expect(&rt, OTHERWISE);
    let one = one.as_slice();
    assert!(rt; one.len() == 27);
    for count in 0..27 {
        let disk = front(one, count);
        let left = ran_alone(
            &rt,
            rt.alloc(),
            OSD,
            &["--turns", "1"],
            Outside { disk, ..NOTHING },
        );
        let image = left.disk.image().expect(&rt, OTHERWISE);
        if count <= 13 {
            assert_ended(&rt, &left, "ready 1\n! turns 1\n", 11);
            assert!(rt; image.as_slice() == one);
        } else {
            assert_ended(&rt, &left, "! damaged 12\n", 18);
            assert!(rt; image.as_slice() == disk);
        }
    }
}

/// Disks that a node refuses, and what it reports.
static REFUSED: [(&str, &str, u8); 6] = [
    (
        "58544653 4a524e4c 00000001 a5 00000000 01 0000000000000001 00",
        "! damaged 12\n",
        18,
    ),
    (
        "58544653 4a524e4c 00000001 a5 00000009 00 0000000000000001 00",
        "! damaged 12\n",
        18,
    ),
    (
        "58544653 4a524e4c 00000001 a5 00000009 01 0000000000000001 a5",
        "! damaged 26\n",
        18,
    ),
    (NAMES_NOTHING, "! damaged 26\n", 18),
    (
        "59544653 4a524e4c 00000001 a5 00000009 01 0000000000000001 00",
        "! notours 595446534a524e4c\n",
        13,
    ),
    (
        "58544653 4a524e4c 00000007 a5 00000009 01 0000000000000001 00",
        "! layout 7\n",
        14,
    ),
];

#[test]
fn nodes_have_damaged_disks(rt: HostRuntime) {
    for (text, said, code) in &REFUSED {
        let bytes = hex(rt.alloc(), text).expect(&rt, OTHERWISE);
        let disk = bytes.as_slice();
        for node in [OSD, MRC, DIR] {
            let outside = Outside { disk, ..NOTHING };
            let left = ran_alone(&rt, rt.alloc(), node, &["--turns", "1"], outside);
            assert_ended(&rt, &left, said, *code);
            let image = left.disk.image().expect(&rt, OTHERWISE);
            assert!(rt; image.as_slice() == disk, "of {text}");
        }
    }
}

/// A request of an OSD to the directory service, its fourth message, in one part: the rows of kind 1 after node 0.
const FOURTH: &str = "
    01 00000001 0000000000000001 0000000000000004 00 01 0000001c
    0000001c 02 16 00000001 00000384 0000000000000000 03 01 00000000";

/// Whether these datagrams are this one alone.
fn is_alone(sent: &[Datagram], bytes: &Octets) -> bool {
    match sent {
        [one] => one.peer.as_str() == "a:1" && one.bytes.as_slice() == bytes.as_slice(),
        _ => false,
    }
}

/// An OSD binds in the first call of its link. Its clock is past its silence at its first turn, so that in each turn it receives
/// nothing and sends one request: calls 2 and 3, 4 and 5, and so on.
#[test]
fn sends_fail(rt: HostRuntime) {
    let outside = Outside {
        readings: &[0, 20_000],
        link: &[3, 5, 7],
        ..NOTHING
    };
    let left = ran_alone(&rt, rt.alloc(), OSD, &["--turns", "3"], outside);
    assert_ended(&rt, &left, "ready 1\n! turns 3\n", 11);
    assert!(rt; left.link.losses() == 3 && left.link.sent().is_empty());

    let left = ran_alone(&rt, rt.alloc(), OSD, &["--turns", "4"], outside);
    assert_ended(&rt, &left, "ready 1\n! turns 4\n", 11);
    let fourth = hex(rt.alloc(), FOURTH).expect(&rt, OTHERWISE);
    assert!(rt; left.link.losses() == 3 && is_alone(left.link.sent(), &fourth));
}

/// A client command. It binds, sends its first request, and receives.
const GET: &[&str] = &["get", "/v/a", "--dir", "a:1"];

/// A cluster of one OSD. It binds, and starts its three nodes.
const CLUSTER: &[&str] = &[
    "cluster", "--osds", "1", "--port", "7400", "--store", "s", "--key", "00",
];

/// What is run, the calls of its link and of its clock that fail, and how it ends.
static FAILING: [(&[&str], &[u64], &[u64], &str, u8); 13] = [
    // no address is bound
    (OSD, &[1], &[], "! link 1\n", 6),
    (MRC, &[1], &[], "! link 1\n", 6),
    (DIR, &[1], &[], "! link 1\n", 6),
    (GET, &[1], &[], "! link 1\n", 6),
    (CLUSTER, &[1], &[], "! link 1\n", 6),
    // nothing is received: at once, and after a turn in which a directory service sends nothing
    (OSD, &[2], &[], "ready 1\n! link 1\n", 6),
    (DIR, &[3], &[], "ready 900\n! link 1\n", 6),
    (GET, &[3], &[], "! link 1\n", 6),
    // the clock isn't read: before the node is ready, in a turn, and by a client and a cluster
    (OSD, &[], &[1], "! clock 1\n", 9),
    (MRC, &[], &[2], "ready 901\n! clock 1\n", 9),
    (DIR, &[], &[3], "ready 900\n! clock 1\n", 9),
    (GET, &[], &[1], "! clock 1\n", 9),
    (CLUSTER, &[], &[1], "! clock 1\n", 9),
];

#[test]
fn links_and_clocks_fail(rt: HostRuntime) {
    for (texts, link, clock, said, code) in &FAILING {
        let outside = Outside {
            link,
            clock,
            ..NOTHING
        };
        let left = ran_alone(&rt, rt.alloc(), texts, &[], outside);
        assert_ended(&rt, &left, said, *code);
    }
}

/// A node whose clock fails after its start was kept has kept it.
#[test]
fn a_start_is_kept_before_the_clock_is_read(rt: HostRuntime) {
    let one = hex(rt.alloc(), ONE).expect(&rt, OTHERWISE);
    let two = hex(rt.alloc(), TWO).expect(&rt, OTHERWISE);
    let outside = Outside {
        disk: one.as_slice(),
        clock: &[1],
        ..NOTHING
    };
    let left = ran_alone(&rt, rt.alloc(), OSD, &[], outside);
    assert_ended(&rt, &left, "! clock 1\n", 9);
    let image = left.disk.image().expect(&rt, OTHERWISE);
    assert!(rt; image.as_slice() == two.as_slice());
}

/// Whether a directory service and a metadata server were started, and then both were stopped.
fn are_stopped(calls: &[ChildCall]) -> bool {
    matches!(
        calls,
        [
            ChildCall::Started { child: 1, .. },
            ChildCall::Started { child: 2, .. },
            ChildCall::Stopped { child: 1 },
            ChildCall::Stopped { child: 2 },
        ]
    )
}

#[test]
fn the_third_child_is_not_started(rt: HostRuntime) {
    let outside = Outside {
        child: &[3],
        ..NOTHING
    };
    let left = ran_alone(&rt, rt.alloc(), CLUSTER, &[], outside);
    assert_ended(&rt, &left, "! child 1\n", 10);
    assert!(rt; are_stopped(left.spawner.calls()));
}
