//! What the program does, over any source and sink.

ghost use Rattle.std.specs.Prelude.{◌≡◌, List, ℕ, [], OnOk};
ghost use Rattle.node_links.specs.Streams.{Puts};
ghost use Rattle.schedule_lines.specs.Causes.{CausesEnd, HasCause};
ghost use Rattle.trace_picture.specs.Asked.{only_of};
ghost use Rattle.trace_picture.specs.Pictured.{refusal_of, IsDrawn, IsPictured, IsRun};

use crate::words::{Asked, read_words};
use node_links::{Sink, Source};
use schedule_lines::put_all;
use schedule_text::print_status;
use std::alloc::Global;
use time_line::Entry;
use trace_audit::read_trace;
use trace_drawing::{DrawErr, ENTRIES, NODES, draw};
use xt_base::{Failed, Name};
use xt_messages::{Limited, Status};

/// The file that is to be drawn alone, if one is.
fn only(asked: Asked) -> Option<u64>
    ensures { result ≡ only_of asked }
{
    match asked {
        Asked::All => None,
        Asked::One(file) => Some(file),
    }
}

/// Why no picture is drawn.
fn refusal(error: DrawErr) -> Status
    ensures { result ≡ refusal_of error }
{
    match error {
        DrawErr::TooManyEntries => Status::Limit {
            what: Limited::Lines,
            limit: ENTRIES as u64,
        },
        DrawErr::TooManyNodes => Status::Limit {
            what: Limited::Nodes,
            limit: NODES as u64,
        },
        DrawErr::OutOfMemory => Status::OutOfMemory,
    }
}

/// Draws a trace and puts its picture.
fn put_picture<K: Sink>(alloc: Global, entries: &[Entry], only: Option<u64>, out: &mut K) -> Status
    ensures drawn { IsDrawn entries.now (K.held out.old) (K.held out.new) result }
    ensures cause { CausesEnd (K.fault_count out.old) (K.fault_count out.new) result }
{
    let text = match draw(alloc, entries, only) {
        Ok(text) => text,
        Err(error) => return refusal(error),
    };
    match put_all(out, text.as_slice()) {
        Ok(()) => Status::Done,
        Err(Failed) => Status::SinkFault {
            count: out.faults(),
        },
    }
}

/// Reads the trace of the source and puts its picture.
fn picture<S: Source, K: Sink>(alloc: Global, asked: Asked, src: &mut S, out: &mut K) -> Status
    ensures pictured { IsPictured (S.left src.old) (S.left src.new) (K.held out.old)
        (K.held out.new) result }
    ensures cause { HasCause (S.fault_count src.old) (S.fault_count src.new) (K.fault_count out.old)
        (K.fault_count out.new) result }
{
    match read_trace(alloc, src) {
        Ok(entries) => put_picture(alloc, entries.as_slice(), only(asked), out),
        Err(status) => status,
    }
}

/// Does what the words ask for: it reads the trace that the source gives, and puts its picture.
pub(crate) fn run<S: Source, K: Sink>(
    alloc: Global,
    words: &[Name],
    src: &mut S,
    out: &mut K,
) -> Status
    // What was taken and put, and why it ended.
    ensures run { IsRun words.now (S.left src.old) (S.left src.new) (K.held out.old)
        (K.held out.new) result }
    // A fault ends the run and is reported, where its object's count rose; with any other status no count did.
    ensures cause { HasCause (S.fault_count src.old) (S.fault_count src.new) (K.fault_count out.old)
        (K.fault_count out.new) result }
{
    match read_words(words) {
        Some(asked) => picture(alloc, asked, src, out),
        None => Status::Usage,
    }
}

/// Puts the last line of a status, if memory and the sink allow it: the status stands, whether or not it can be reported.
pub(crate) fn tell<K: Sink>(alloc: Global, out: &mut K, status: &Status) {
    if let Ok(text) = print_status(alloc, status) {
        let _told = put_all(out, text.as_slice());
    }
}
