ghost use Rattle.schedule_text.specs.EntryText.{trace_text};
ghost use Rattle.schedule_lines.specs.Putting.{IsPut, IsFinished, IsNoSinkFault};
ghost use Rattle.schedule_lines.specs.Causes.{CausesPut, CausesEnd};

use crate::writing::put_all;
use node_links::Sink;
use schedule_text::{print_entries, print_status};
use std::alloc::Global;
use time_line::Entry;
use xt_base::Failed;
use xt_messages::Status;

/// Puts the text. A status comes where the sink failed.
fn put_text<K: Sink>(out: &mut K, text: &[u8]) -> Option<Status>
    ensures put { IsPut (K.held out.old) (K.held out.new) text.now result }
    ensures cause { CausesPut (K.fault_count out.old) (K.fault_count out.new) result }
{
    match put_all(out, text) {
        Ok(()) => None,
        Err(Failed) => Some(Status::SinkFault {
            count: out.faults(),
        }),
    }
}

/// Puts the text of these entries. A status comes where the sink failed or memory ran out.
pub fn put_entries<K: Sink>(alloc: Global, out: &mut K, entries: &[Entry]) -> Option<Status>
    ensures put { IsPut (K.held out.old) (K.held out.new) (trace_text entries.now) result }
    ensures cause { CausesPut (K.fault_count out.old) (K.fault_count out.new) result }
{
    match print_entries(alloc, entries) {
        Ok(text) => put_text(out, text.as_slice()),
        Err(_) => Some(Status::OutOfMemory),
    }
}

/// Puts the last line of a status, and gives the status, or the one that came of the putting.
pub fn finish<K: Sink>(alloc: Global, out: &mut K, status: Status) -> Status
    requires { IsNoSinkFault status }
    ensures finished { IsFinished (K.held out.old) (K.held out.new) status result }
    ensures cause { CausesEnd (K.fault_count out.old) (K.fault_count out.new) result }
{
    match print_status(alloc, &status) {
        Ok(text) => match put_text(out, text.as_slice()) {
            None => status,
            Some(failed) => failed,
        },
        Err(_) => Status::OutOfMemory,
    }
}
