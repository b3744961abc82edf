//! A replica that stops as it puts a promise: whether the promise stands after that, and what the replica answers then.

use crate::OTHERWISE;
use crate::batches::given;
use crate::bytes::hex;
use crate::datagrams::assert_sent;
use crate::journals::ONE;
use crate::runs::{NOTHING, Outside, assert_ended, ran};
use disk_model::Stop;
use std::test::*;

/// The words of OSD 2.
const REPLICA: &[&str] = &[
    "osd", "--id", "2", "--listen", "a:2", "--dir", "a:1", "--store", "s", "--key", "00",
];

/// Node 3 asks for the promise of the epoch (2, 3), and node 1 for that of (1, 1).
const LATER: &str = "
    01 00000003 0000000000000001 0000000000000001 00 01 00000032
    00000032 02 06 00000003 00000002 00000000000000000000000000000000 0000000000000001
    0000000000000002 00000003";

const EARLIER: &str = "
    01 00000001 0000000000000001 0000000000000001 00 01 00000032
    00000032 02 06 00000001 00000002 00000000000000000000000000000000 0000000000000001
    0000000000000001 00000001";

/// What the replica sends at its first Wake in its boots 2 and 3: it asks the directory service for the OSDs.
const ASKS: [(&str, &str); 2] = [
    (
        "a:1",
        "01 00000002 0000000000000002 0000000000000001 00 01 0000001c
         0000001c 02 16 00000002 00000384 0000000000000000 03 01 00000000",
    ),
    (
        "a:1",
        "01 00000002 0000000000000003 0000000000000001 00 01 0000001c
         0000001c 02 16 00000002 00000384 0000000000000000 03 01 00000000",
    ),
];

/// It reports its head, which has nothing but its promise.
const STATUS: (&str, &str) = (
    "b:1",
    "01 00000002 0000000000000003 0000000000000002 00 01 00000076
     00000076 02 07 00000002 00000001 00000000000000000000000000000000 0000000000000001
     0000000000000001 00000001
     0000000000000001 00000001 0000000000000000 00000000 0000000000000000
     00000000 0000000000000000 0000000000000000 0000000000000000 00000000 00000000",
);

/// It has promised the epoch (2, 3).
const REFUSED: (&str, &str) = (
    "b:1",
    "01 00000002 0000000000000003 0000000000000002 00 01 0000003e
     0000003e 02 0f 00000002 00000001 00000000000000000000000000000000 0000000000000001
     0000000000000001 00000001 0000000000000002 00000003",
);

/// A node syncs its disk, and appends its start by two writes and two syncs. So the append of the promise is the writes and syncs 6 to 9.
/// It stops in one of these, and an open gate is left wherever nothing was synced: what it answers then.
static STOPS: [(Stop, (&str, &str)); 2] = [
    (
        Stop {
            call: 6,
            fill: 0xa5,
        },
        STATUS,
    ),
    (
        Stop {
            call: 8,
            fill: 0xa5,
        },
        REFUSED,
    ),
];

/// A byte that is no message comes before each question, and the clock is past the next Wake then: as in the tests of batches.
#[test]
fn a_promise_is_torn(rt: HostRuntime) {
    let one = hex(rt.alloc(), ONE).expect(&rt, OTHERWISE);
    for (stop, answer) in &STOPS {
        let asked = given(&rt, rt.alloc(), &[LATER]);
        let outside = Outside {
            disk: one.as_slice(),
            readings: &[0, 20_000],
            stop: Some(*stop),
            ..NOTHING
        };
        let left = ran(&rt, rt.alloc(), REPLICA, &[], asked, outside);
        assert_ended(&rt, &left, "ready 2\n! disk 1\n", 5);
        assert_sent(&rt, rt.alloc(), left.link.sent(), &ASKS[..1]);

        let image = left.disk.image().expect(&rt, OTHERWISE);
        let asked = given(&rt, rt.alloc(), &[EARLIER]);
        let outside = Outside {
            disk: image.as_slice(),
            readings: &[0, 20_000],
            ..NOTHING
        };
        let left = ran(&rt, rt.alloc(), REPLICA, &["--turns", "3"], asked, outside);
        assert_ended(&rt, &left, "ready 2\n! turns 3\n", 11);
        assert_sent(&rt, rt.alloc(), left.link.sent(), &[ASKS[1], *answer]);
    }
}
