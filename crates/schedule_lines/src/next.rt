ghost use Rattle.std.specs.Prelude.{◌<◌, ◌≡◌};
ghost use Rattle.schedule_lines.specs.NextLine.{IsReading, CountsFaults, IsLineOf};

use crate::reading::{RawLine, read_raw};
use node_links::Source;
use schedule_text::{LineErr, read_line};
use std::alloc::Global;
use time_line::{LINE_BYTES, LINES, Line};
use xt_messages::{Limited, Status};

/// The next line of a schedule, or why there is none.
#[derive(Drop)]
pub enum NextLine {
    Line(Line),
    /// The source is at its end.
    End,
    Stopped(Status),
}

/// What the bytes of a line are read as.
fn line_of(alloc: Global, text: &[u8], before: u64) -> NextLine
    requires { before < LINES }
    ensures { IsLineOf before text.now result }
{
    match read_line(alloc, text, before == 0) {
        Ok(line) => NextLine::Line(line),
        Err(LineErr::Malformed) => NextLine::Stopped(Status::Malformed { line: before + 1 }),
        Err(LineErr::OutOfMemory) => NextLine::Stopped(Status::OutOfMemory),
    }
}

/// Reads the next line, the one after `before` others. `raw` is room for its bytes.
pub fn next_line<S: Source>(alloc: Global, src: &mut S, raw: &mut Vec<u8>, before: u64) -> NextLine
    requires { before < LINES }
    ensures reading { IsReading before (S.left src.old) (S.left src.new) result }
    ensures faults { CountsFaults (S.fault_count src.old) (S.fault_count src.new) result }
{
    match read_raw(src, raw) {
        RawLine::End => NextLine::End,
        RawLine::Whole => line_of(alloc, raw.as_slice(), before),
        RawLine::Unended => NextLine::Stopped(Status::Malformed { line: before + 1 }),
        RawLine::TooLong => NextLine::Stopped(Status::Limit {
            what: Limited::Line,
            limit: LINE_BYTES,
        }),
        RawLine::Failed => NextLine::Stopped(Status::SourceFault {
            count: src.faults(),
        }),
        RawLine::OutOfMemory => NextLine::Stopped(Status::OutOfMemory),
    }
}
