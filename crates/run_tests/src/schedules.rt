//! Schedules at their limits. That of the lines, and a last line without its line feed, are tried on the built program.

use crate::OTHERWISE;
use crate::runs::{NOTHING, Outside, assert_ended, ran_alone};
use std::alloc::Global;
use std::process::Abort;
use std::test::*;

/// A line of so many bytes that aren't spaces, without a meaning.
fn line(rt: &impl Abort, alloc: Global, count: usize) -> Vec<u8> {
    let mut bytes = Vec::new(alloc);
    for _ in 0..count {
        bytes.push(b'x').expect(rt, OTHERWISE);
    }
    bytes.push(b'\n').expect(rt, OTHERWISE);
    bytes
}

/// How many bytes a line has, and what is reported of it.
static LINES: [(usize, &str, u8); 2] = [
    (300_000, "! malformed 1\n", 3),
    (300_001, "! limit line 300000\n", 15),
];

#[test]
fn a_line_is_too_long(rt: HostRuntime) {
    for (count, said, code) in &LINES {
        let source = line(&rt, rt.alloc(), *count);
        let outside = Outside {
            source: source.as_slice(),
            ..NOTHING
        };
        let left = ran_alone(&rt, rt.alloc(), &["replay"], &[], outside);
        assert_ended(&rt, &left, said, *code);
    }
}

/// Lines that declare so many clients.
fn clients(rt: &impl Abort, alloc: Global, count: u64) -> String {
    let mut text = String::new(alloc);
    for number in 1..=count {
        let line = format!(in alloc; "client {number} 0\n").expect(rt, OTHERWISE);
        text.push_str(line.as_str()).expect(rt, OTHERWISE);
    }
    text
}

/// The trace of 64 of them.
fn started(rt: &impl Abort, alloc: Global) -> String {
    let mut text = String::new(alloc);
    for number in 1..65 {
        let line = format!(in alloc; "up {number} 1 0\n").expect(rt, OTHERWISE);
        text.push_str(line.as_str()).expect(rt, OTHERWISE);
    }
    text
}

#[test]
fn clients_are_too_many(rt: HostRuntime) {
    for (count, last, code) in [(64, "", 0), (65, "! limit nodes 64\n", 15)] {
        let source = clients(&rt, rt.alloc(), count);
        let outside = Outside {
            source: source.as_bytes(),
            ..NOTHING
        };
        let left = ran_alone(&rt, rt.alloc(), &["replay"], &[], outside);
        let mut said = started(&rt, rt.alloc());
        said.push_str(last).expect(&rt, OTHERWISE);
        assert_ended(&rt, &left, said.as_str(), code);
    }
}
