//! Starts of nodes at their limits: the last start that there can be, and a journal that is as long as it may be.

use crate::OTHERWISE;
use crate::bytes::hex;
use crate::devices::TWO;
use crate::journals::ONE;
use crate::runs::{DIR, MRC, NOTHING, OSD, Outside, assert_ended, ran_alone};
use std::test::*;

/// A journal of no record.
const NONE: &str = "58544653 4a524e4c 00000001 00";

/// A journal of the last start but one that there can be.
const LAST_BUT_ONE: &str = "58544653 4a524e4c 00000001 a5 00000009 01 3ffffffffffffffe 00";

/// It with the last start.
const LAST_TWO: &str = "
    58544653 4a524e4c 00000001 a5 00000009 01 3ffffffffffffffe
    a5 00000009 01 3fffffffffffffff 00";

/// What an OSD, a metadata server and a directory service write that come to serve for a turn.
const SERVED: [&str; 3] = [
    "ready 1\n! turns 1\n",
    "ready 901\n! turns 1\n",
    "ready 900\n! turns 1\n",
];

/// A start: the disk, the limit of the journal in bytes, what each of the three nodes writes, its status, and the disk that it leaves.
struct Start {
    disk: &'static str,
    limit: &'static str,
    said: [&'static str; 3],
    code: u8,
    left: &'static str,
}

static STARTS: [Start; 6] = [
    Start {
        disk: LAST_BUT_ONE,
        limit: "1073741824",
        said: SERVED,
        code: 11,
        left: LAST_TWO,
    },
    Start {
        disk: LAST_TWO,
        limit: "1073741824",
        said: ["! limit boots 4611686018427387903\n"; 3],
        code: 15,
        left: LAST_TWO,
    },
    Start {
        disk: ONE,
        limit: "41",
        said: SERVED,
        code: 11,
        left: TWO,
    },
    Start {
        disk: ONE,
        limit: "40",
        said: ["! full 41 40\n"; 3],
        code: 16,
        left: ONE,
    },
    // a limit that the journal has passed already
    Start {
        disk: ONE,
        limit: "1",
        said: ["! full 41 1\n"; 3],
        code: 16,
        left: ONE,
    },
    // a new journal
    Start {
        disk: "",
        limit: "26",
        said: ["! full 27 26\n"; 3],
        code: 16,
        left: NONE,
    },
];

#[test]
fn starts_come_to_their_limits(rt: HostRuntime) {
    for start in &STARTS {
        let disk = hex(rt.alloc(), start.disk).expect(&rt, OTHERWISE);
        let expected = hex(rt.alloc(), start.left).expect(&rt, OTHERWISE);
        for (node, said) in [OSD, MRC, DIR].iter().zip(&start.said) {
            let left = ran_alone(
                &rt,
                rt.alloc(),
                node,
                &["--limit", start.limit, "--turns", "1"],
                Outside {
                    disk: disk.as_slice(),
                    ..NOTHING
                },
            );
            assert_ended(&rt, &left, said, start.code);
            let image = left.disk.image().expect(&rt, OTHERWISE);
            assert!(rt; image.as_slice() == expected.as_slice(), "not {said}");
        }
    }
}
