//! How far a long `put` or `get` is, where a person sees standard error.

use std::cell::Cell;
use std::io::{self, Read, Write};

/// How many bytes there are between two reports.
const STEP: u64 = 16 << 20;

/// How many bytes were read or written so far, which standard error shows each `STEP` bytes.
#[derive(Drop)]
pub struct Progress<'a> {
    rt: &'a HostRuntime,
    is_shown: bool,
    bytes: Cell<u64>,
}

impl<'a> Progress<'a> {
    /// The progress of what begins.
    pub fn new(rt: &'a HostRuntime, is_shown: bool) -> Progress<'a> {
        Progress {
            rt,
            is_shown,
            bytes: Cell::new(0),
        }
    }

    /// Adds bytes.
    fn add(&self, count: usize) {
        if !self.is_shown {
            return;
        }
        let before = self.bytes.get();
        let after = before.saturating_add(count as u64);
        self.bytes.set(after);
        if before / STEP != after / STEP {
            let mebibytes = after >> 20;
            let _written = eprint!(self.rt; "\rxtfs: {mebibytes} MiB");
        }
    }

    /// Ends the line that was shown, if any.
    pub fn end(&self) {
        if self.is_shown && self.bytes.get() >= STEP {
            let _written = eprintln!(self.rt);
        }
    }
}

/// A reader or a writer whose bytes are counted.
#[derive(Drop)]
pub struct Counted<'a, T: Drop> {
    progress: &'a Progress<'a>,
    inner: T,
}

impl<'a, T: Drop> Counted<'a, T> {
    /// A reader or a writer of which nothing was counted yet.
    pub fn new(progress: &'a Progress<'a>, inner: T) -> Counted<'a, T> {
        Counted { progress, inner }
    }
}

impl<T: Read + Drop> Read for Counted<'_, T> {
    ghost remaining = { λ c. T.remaining c.inner };

    fn read(&mut self, buf: &mut [u8]) -> io::Result<usize> {
        match self.inner.read(buf) {
            Ok(count) => {
                self.progress.add(count);
                Ok(count)
            }
            Err(error) => Err(error),
        }
    }
}

impl<T: Write + Drop> Write for Counted<'_, T> {
    ghost contents = { λ c. T.contents c.inner };

    fn write(&mut self, buf: &[u8]) -> io::Result<usize> {
        match self.inner.write(buf) {
            Ok(count) => {
                self.progress.add(count);
                Ok(count)
            }
            Err(error) => Err(error),
        }
    }

    fn flush(&mut self) -> io::Result<()> {
        self.inner.flush()
    }
}
