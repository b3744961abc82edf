//! A node's standard output, of which its line `ready N` is told on standard error, too.

use crate::moment::log;
use std::alloc::Global;
use std::io::{self, Write};

/// The beginning of the line of a node that is ready.
const READY: &[u8] = b"ready ";

/// How many bytes of a line are kept: enough for the line of a node that is ready.
const KEPT: usize = 32;

/// A writer whose lines are heard: when a node says in one that it is ready, standard error is told.
#[derive(Drop)]
pub struct Hearing<'a, W: Write + Drop> {
    rt: &'a HostRuntime,
    writer: W,
    /// What is told of a node that is ready; none if this is no node's output.
    ready: Option<&'a str>,
    /// The first bytes of the line that isn't at its end yet.
    line: Vec<u8>,
}

impl<'a, W: Write + Drop> Hearing<'a, W> {
    /// A writer of which nothing was heard yet.
    pub fn new(
        rt: &'a HostRuntime,
        alloc: Global,
        ready: Option<&'a str>,
        writer: W,
    ) -> Hearing<'a, W> {
        Hearing {
            rt,
            writer,
            ready,
            line: Vec::new(alloc),
        }
    }
}

/// Hears bytes of a line, or of several.
fn hear(rt: &HostRuntime, ready: &str, line: &mut Vec<u8>, bytes: &[u8]) {
    for byte in bytes {
        if *byte == b'\n' {
            if line.as_slice().starts_with(READY) {
                // What can't be written to standard error is lost.
                let _written = log(rt, ready);
            }
            line.clear();
        } else if line.len() < KEPT {
            // Without memory the line isn't told.
            let _kept = line.push(*byte);
        }
    }
}

impl<W: Write + Drop> Write for Hearing<'_, W> {
    ghost contents = { λ h. W.contents h.writer };

    fn write(&mut self, buf: &[u8]) -> io::Result<usize> {
        match self.writer.write(buf) {
            Ok(count) => {
                if let Some(ready) = self.ready {
                    hear(self.rt, ready, &mut self.line, &buf[..count]);
                }
                Ok(count)
            }
            Err(error) => Err(error),
        }
    }

    fn flush(&mut self) -> io::Result<()> {
        self.writer.flush()
    }
}
