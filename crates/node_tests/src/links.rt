use crate::OTHERWISE;
use node_links::{MemorySink, MemorySource, Sink, Source, StdinSource, StdoutSink};
use std::alloc::Global;
use std::io::{self, Read, Write};
use std::process::Abort;
use std::test::*;
use xt_base::{CallList, Octets};

/// The calls of these numbers.
fn calls(rt: &impl Abort, alloc: Global, numbers: &[u64]) -> CallList {
    let mut calls = CallList::new(alloc);
    for number in numbers {
        calls.push(*number).expect(rt, OTHERWISE);
    }
    calls
}

/// A step of a source: it reads ahead, where none is given, or so many bytes are taken. Then whether it went well, what is ahead, and
/// how many faults there were.
type Step = (Option<usize>, bool, &'static [u8], u64);

/// Whether the source goes so, and then has this ahead.
fn goes<S: Source>(source: &mut S, step: &Step) -> bool {
    let is_well = match step.0 {
        None => source.ahead().is_empty() && source.fill().is_ok(),
        Some(count) => {
            let count = count.min(source.ahead().len());
            source.consume(count);
            true
        }
    };
    is_well == step.1 && source.ahead() == step.2 && source.faults() == step.3
}

/// Seven bytes in blocks of three, where the second and the fifth call fail.
static BLOCKS: [Step; 10] = [
    (None, true, &[10, 20, 30], 0),
    (Some(2), true, &[30], 0),
    (Some(1), true, &[], 0),
    (None, false, &[], 1),
    (None, true, &[40, 50, 60], 1),
    (Some(3), true, &[], 1),
    (None, true, &[70], 1),
    (Some(1), true, &[], 1),
    (None, false, &[], 2),
    (None, true, &[], 2),
];

#[test]
fn a_source_in_memory_gives_what_is_left(rt: HostRuntime) {
    let bytes = Octets::of(rt.alloc(), &[10, 20, 30, 40, 50, 60, 70]).expect(&rt, OTHERWISE);
    let mut source = MemorySource::new(bytes, 3, calls(&rt, rt.alloc(), &[5, 2, 99]));
    for step in &BLOCKS {
        assert!(rt; goes(&mut source, step));
    }
}

/// Whether so many bytes of a piece are taken, and so many faults there were then.
fn takes<K: Sink>(sink: &mut K, piece: &[u8], count: Option<usize>, faults: u64) -> bool {
    sink.put(piece).ok() == count && sink.faults() == faults
}

/// The piece, how many of its bytes are taken, what is held then, and how many faults there were.
static PUTS: [(&[u8], Option<usize>, &[u8], u64); 6] = [
    (b"abcd", Some(4), b"abcd", 0),
    (b"e", None, b"abcd", 1),
    (b"efg", Some(2), b"abcdef", 1),
    (b"g", None, b"abcdef", 2),
    (b"", Some(0), b"abcdef", 2),
    (b"", None, b"abcdef", 3),
];

#[test]
fn a_sink_in_memory_takes_what_fits(rt: HostRuntime) {
    let fails = calls(&rt, rt.alloc(), &[6, 2]);
    let mut sink = MemorySink::new(rt.alloc(), 6, fails).expect(&rt, OTHERWISE);
    for (piece, taken, held, faults) in &PUTS {
        assert!(rt; takes(&mut sink, piece, *taken, *faults));
        assert!(rt; sink.as_slice() == *held);
    }
}

/// Gives or takes one byte in its first call, fails in the second, and does nothing in each later one.
#[derive(Drop)]
struct Halting {
    calls: u8,
}

impl Halting {
    fn turn(&mut self, room: usize) -> io::Result<usize> {
        self.calls = self.calls.saturating_add(1);
        match self.calls {
            1 => Ok(room.min(1)),
            2 => Err(io::ErrorKind::WouldBlock.into()),
            _ => Ok(0),
        }
    }
}

impl Read for Halting {
    fn read(&mut self, buf: &mut [u8]) -> io::Result<usize> {
        let count = self.turn(buf.len())?.min(buf.len());
        buf[..count].fill(b'x');
        Ok(count)
    }
}

impl Write for Halting {
    fn write(&mut self, buf: &[u8]) -> io::Result<usize> {
        Ok(self.turn(buf.len())?.min(buf.len()))
    }

    fn flush(&mut self) -> io::Result<()> {
        Ok(())
    }
}

/// A reader of `abc`.
static TEXT: [Step; 4] = [
    (None, true, b"abc", 0),
    (Some(2), true, b"c", 0),
    (Some(1), true, b"", 0),
    (None, true, b"", 0),
];

/// A reader that halts.
static HALTS: [Step; 4] = [
    (None, true, b"x", 0),
    (Some(1), true, b"", 0),
    (None, false, b"", 1),
    (None, true, b"", 1),
];

#[test]
fn a_reader_is_a_source(rt: HostRuntime) {
    let mut source = StdinSource::new(rt.alloc(), b"abc".as_slice()).expect(&rt, OTHERWISE);
    for step in &TEXT {
        assert!(rt; goes(&mut source, step));
    }
}

#[test]
fn a_reader_that_halts_is_a_source(rt: HostRuntime) {
    let reader = Halting { calls: 0 };
    let mut source = StdinSource::new(rt.alloc(), reader).expect(&rt, OTHERWISE);
    for step in &HALTS {
        assert!(rt; goes(&mut source, step));
    }
}

/// Pieces of a text.
static PIECES: [&[u8]; 3] = [b"ab", b"", b"c"];

/// To take nothing of a piece is a fault, and of no piece is none: the piece, how many of its bytes are taken, and how many
/// faults there were.
static HALTED: [(&[u8], Option<usize>, u64); 4] = [
    (b"ab", Some(1), 0),
    (b"b", None, 1),
    (b"b", None, 2),
    (b"", Some(0), 2),
];

#[test]
fn a_writer_is_a_sink(rt: HostRuntime) {
    let mut bytes = Vec::new(rt.alloc());
    let mut sink = StdoutSink::new(&mut bytes);
    for piece in &PIECES {
        assert!(rt; takes(&mut sink, piece, Some(piece.len()), 0));
    }
    assert!(rt; bytes.as_slice() == b"abc".as_slice());
}

#[test]
fn a_writer_that_halts_is_a_sink(rt: HostRuntime) {
    let mut sink = StdoutSink::new(Halting { calls: 0 });
    for (piece, count, faults) in &HALTED {
        assert!(rt; takes(&mut sink, piece, *count, *faults));
    }
}
