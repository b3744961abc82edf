ghost use Rattle.std.specs.Prelude.{◌≡◌, MatchResult};
ghost use Rattle.trace_audit.specs.Audit.{IsWhole, IsReadTo};
ghost use Rattle.trace_audit.specs.NextEntry.{CountsStop};

use crate::TRACE_BYTES;
use crate::next::{NextEntry, next_entry};
use node_links::Source;
use std::alloc::Global;
use time_line::Entry;
use xt_messages::Status;

/// The entries of the trace that the source gives, to its end; else the status with which its reading ends.
pub fn read_trace<S: Source>(alloc: Global, src: &mut S) -> Result<Vec<Entry>, Status>
    ensures trace { MatchResult result
        (λ entries. IsWhole (S.left src.old) (S.left src.new) entries.items)
        (λ s. IsReadTo (S.left src.old) (S.left src.new) s) }
    ensures faults { MatchResult result
        (λ entries. S.fault_count src.new ≡ S.fault_count src.old)
        (λ s. CountsStop (S.fault_count src.old) (S.fault_count src.new) s) }
{
    let mut raw = Vec::new(alloc);
    let mut entries = Vec::new(alloc);
    let mut room = TRACE_BYTES;
    loop {
        match next_entry(alloc, src, &mut raw, entries.len() as u64, room) {
            NextEntry::Entry(entry) => match entries.push(entry) {
                Ok(()) => room -= raw.len() as u64 + 1,
                Err(_) => return Err(Status::OutOfMemory),
            },
            NextEntry::End => return Ok(entries),
            NextEntry::Stopped(status) => return Err(status),
        }
    }
}
