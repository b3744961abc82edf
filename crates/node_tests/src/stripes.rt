use crate::OTHERWISE;
use std::alloc::Global;
use std::process::Abort;
use std::test::*;
use striping::{gather, pieces};
use xt_base::Octets;

/// How many pieces a range has, and how many bytes of two parts come together.
fn counts(rt: &impl Abort, alloc: Global) -> (usize, usize) {
    let pieces = pieces(alloc, 1024, 3, 1023, 2050).expect(rt, OTHERWISE);
    let parts = [
        Octets::of(alloc, b"ab").expect(rt, OTHERWISE),
        Octets::of(alloc, b"c").expect(rt, OTHERWISE),
    ];
    let whole = gather(alloc, &parts).expect(rt, OTHERWISE);
    (pieces.len(), whole.as_slice().len())
}

#[test]
fn ranges_are_cut_and_joined(rt: HostRuntime) {
    let (pieces, bytes) = counts(&rt, rt.alloc());
    assert!(rt; pieces == 4 && bytes == 3);
}
