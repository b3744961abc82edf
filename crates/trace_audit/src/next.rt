ghost use Rattle.std.specs.Prelude.{◌≤◌, ◌+◌};
ghost use Rattle.trace_audit.specs.NextEntry.{IsEntryOf, IsNextEntry, CountsFaults};

use crate::TRACE_BYTES;
use node_links::Source;
use schedule_lines::{RawLine, read_raw};
use schedule_text::{LineErr, read_entry};
use std::alloc::Global;
use time_line::{Entry, LINE_BYTES};
use xt_messages::{Limited, Status};

/// The next entry of a trace, or why there is none.
#[derive(Drop)]
pub enum NextEntry {
    Entry(Entry),
    /// The source is at its end.
    End,
    Stopped(Status),
}

/// What the bytes of a line are read as.
fn entry_of(alloc: Global, text: &[u8], before: u64) -> NextEntry
    requires { before ≤ TRACE_BYTES }
    ensures { IsEntryOf before text.now result }
{
    match read_entry(alloc, text, before == 0) {
        Ok(entry) => NextEntry::Entry(entry),
        Err(LineErr::Malformed) => NextEntry::Stopped(Status::Malformed { line: before + 1 }),
        Err(LineErr::OutOfMemory) => NextEntry::Stopped(Status::OutOfMemory),
    }
}

/// Reads the next entry, the one after `before` others, of a trace that may have `room` bytes more. `raw` is room for the bytes of
/// its line. A line that is too long is refused first, then one that makes the trace too long, then one that is no entry.
pub fn next_entry<S: Source>(
    alloc: Global,
    src: &mut S,
    raw: &mut Vec<u8>,
    before: u64,
    room: u64,
) -> NextEntry
    requires { before ≤ TRACE_BYTES }
    ensures reading { IsNextEntry before room (S.left src.old) (S.left src.new) raw.new.items
        result }
    ensures faults { CountsFaults (S.fault_count src.old) (S.fault_count src.new) result }
{
    match read_raw(src, raw) {
        RawLine::End => NextEntry::End,
        RawLine::Whole if (raw.len() as u64) < room => entry_of(alloc, raw.as_slice(), before),
        RawLine::Unended if raw.len() as u64 <= room => {
            NextEntry::Stopped(Status::Malformed { line: before + 1 })
        }
        RawLine::Whole => NextEntry::Stopped(Status::Limit {
            what: Limited::Bytes,
            limit: TRACE_BYTES,
        }),
        RawLine::Unended => NextEntry::Stopped(Status::Limit {
            what: Limited::Bytes,
            limit: TRACE_BYTES,
        }),
        RawLine::TooLong => NextEntry::Stopped(Status::Limit {
            what: Limited::Line,
            limit: LINE_BYTES,
        }),
        RawLine::Failed => NextEntry::Stopped(Status::SourceFault {
            count: src.faults(),
        }),
        RawLine::OutOfMemory => NextEntry::Stopped(Status::OutOfMemory),
    }
}
