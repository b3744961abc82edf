ghost use Rattle.std.specs.Prelude.{ℕ};
ghost use Rattle.xt_messages.specs.declared.status.Status.TheVariants as status;
ghost use Rattle.xt_base.specs.Faults.{Rose};
ghost use Rattle.schedule_lines.specs.Causes.{CausesEnd, HasCause};
ghost use Rattle.schedule_lines.specs.Putting.{IsNoSinkFault};
ghost use Rattle.trace_audit.specs.Audit.{AreOfTrace, Completes, IsAudit, IsFound, IsSaid, IsTold};

use crate::reading::read_trace;
use crate::verdict::audit_halves;
use node_links::{Sink, Source};
use par_halves::Gate;
use schedule_lines::{finish, put_all};
use std::alloc::Global;
use std::thread::Threads;
use time_line::Entry;
use trace_judge::Verdict;
use xt_base::Failed;
use xt_messages::Status;

/// What is put where the trace is safe.
const SAFE: &[u8] = b"safe\n";

/// The status of the verdict on these entries, or out of memory.
fn judged<R: Threads + Sync, G: Gate>(rt: &R, alloc: Global, entries: &[Entry], gate: &G) -> Status
    requires { AreOfTrace 0 entries.now }
    ensures { IsSaid entries.now result }
{
    match audit_halves(rt, alloc, entries, gate) {
        Ok(Verdict::Safe) => Status::Done,
        Ok(Verdict::Broken { clause, entry }) => Status::Broken { clause, entry },
        Err(_) => Status::OutOfMemory,
    }
}

/// Reads the trace of the source and judges it.
fn found<R: Threads + Sync, S: Source, G: Gate>(
    rt: &R,
    alloc: Global,
    src: &mut S,
    gate: &G,
) -> Status
    ensures found { IsFound (S.left src.old) (S.left src.new) result }
    ensures cause { (sink : ℕ) →
        HasCause (S.fault_count src.old) (S.fault_count src.new) sink sink result }
    ensures unput { IsNoSinkFault result }
{
    match read_trace(alloc, src) {
        Ok(entries) => judged(rt, alloc, entries.as_slice(), gate),
        Err(status) => status,
    }
}

/// Puts that the trace is safe.
fn tell_safe<K: Sink>(out: &mut K) -> Status
    ensures told { IsTold (K.held out.old) (K.held out.new) status.Done result }
    ensures cause { CausesEnd (K.fault_count out.old) (K.fault_count out.new) result }
{
    match put_all(out, SAFE) {
        Ok(()) => Status::Done,
        Err(Failed) => Status::SinkFault {
            count: out.faults(),
        },
    }
}

/// Puts what a status of an audit says, and gives the status, or the one that came of the putting.
fn tell<K: Sink>(alloc: Global, out: &mut K, said: Status) -> Status
    requires { IsNoSinkFault said }
    ensures told { IsTold (K.held out.old) (K.held out.new) said result }
    ensures cause { CausesEnd (K.fault_count out.old) (K.fault_count out.new) result }
{
    if matches!(&said, Status::Done) {
        return tell_safe(out);
    }
    finish(alloc, out, said)
}

/// Audits the trace that the source gives: all that the command `audit` does. Its files are judged beside each other, and each gate
/// lets the same verdict come. It puts `safe`, or the last line of its status.
pub fn audit_text<R: Threads + Sync, S: Source, K: Sink, G: Gate>(
    rt: &R,
    alloc: Global,
    src: &mut S,
    out: &mut K,
    gate: &G,
) -> Status
    // The trace is that of the lines that were taken, and what is put is the verdict on it, or why there is none.
    ensures audit { IsAudit (S.left src.old) (S.left src.new) (K.held out.old) (K.held out.new)
        result }
    // A fault ends the audit and is reported, where its object's count rose; with any other status no count did.
    ensures cause { HasCause (S.fault_count src.old) (S.fault_count src.new) (K.fault_count out.old)
        (K.fault_count out.new) result }
    // A trace within the limits is judged, where neither the source nor the sink fails, unless memory runs out.
    ensures complete { (Rose (S.fault_count src.old) (S.fault_count src.new) → ⊥) →
        (Rose (K.fault_count out.old) (K.fault_count out.new) → ⊥) →
        Completes (S.left src.old) (K.held out.old) (K.held out.new) result }
{
    let said = found(rt, alloc, src, gate);
    tell(alloc, out, said)
}
