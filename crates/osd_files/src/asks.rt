ghost use Rattle.std.specs.Prelude.{◌≡◌, ◌<◌, ◌^◌, ◌+◌, ◌/◌, ℕ, List, Bool, true, false, Option, Some, None, IfOk, IsTrue, IfSome, OnErr, is_some, ◌&&◌};
ghost use Rattle.xt_messages.specs.Limits.{FitsOp, FitsStripe};
ghost use Rattle.xt_messages.specs.declared.file.Capability.{Capability};
ghost use Rattle.xt_messages.specs.declared.file.FileHead.{FileHead};
ghost use Rattle.xt_messages.specs.declared.file.ObjectVersion.{ObjectVersion};
ghost use Rattle.xt_messages.specs.declared.record.Record.{Record};
ghost use Rattle.xt_protocol.specs.LeaseRows.{Proposer, free};
ghost use Rattle.xt_protocol.specs.SeenBodies.{body_by};
ghost use Rattle.flease.specs.Moves.{IsSettled, is_free, turn_of};
ghost use Rattle.object_versions.specs.KeptBodies.{fault_of, ReadsOnly};
ghost use Rattle.osd_files.specs.Serves.{ground_at};
ghost use Rattle.osd_invariants.specs.Sound.{IsStored};
ghost use Rattle.xt_protocol.specs.FileStates.{Site};
ghost use Rattle.xt_protocol.specs.Primaries.{Ground, is_active};
ghost use Rattle.xt_protocol.specs.Serving.{reads};
ghost use Rattle.xt_protocol.specs.Asks.{is_read, read_answer};
ghost use Rattle.xt_protocol.specs.AskRows as rows;
ghost use Rattle.osd_files.specs.Answers.{HasTurn};
ghost use Rattle.osd_files.specs.Asking.{asks_once_done};
ghost use Rattle.osd_files.specs.Views.{shown, site_at};
ghost use Rattle.osd_files.specs.Rows.{IsStep, IsRow, IsRowBy};

use crate::joining::{both, join_rest};
use crate::lead::Lead;
use crate::parts::Parts;
use crate::waking::reads_of;
use flease::FileLease;
use object_versions::{Bodies, StepErr};
use osd_decisions::{is_read, refusal_of};
use osd_requests::OpenAsks;
use std::alloc::Global;
use xt_base::{Copies, FileId, Lease, NodeId, OpId, OutOfMemory, Times};
use xt_messages::{Capability, Op, Reply};
use xt_protocol::{Turned, WaitingAsk, answers, keeps, quiet, tells};

/// Read served: the reply, and its mark.
fn read_answer(
    alloc: Global,
    node: NodeId,
    file: &FileId,
    id: OpId,
    answer: Option<Reply>,
) -> Result<Turned, OutOfMemory>
    ensures { IfOk result (λ turned. (g : Ground) → g.place.node ≡ node → g.place.file ≡ file.now →
        turned ≡ read_answer g id answer) }
{
    match answer {
        Some(Reply::Ok { count, mark, bytes }) => {
            answers(alloc, node, file, id, count, mark, bytes)
        }
        _ => Ok(quiet(alloc)),
    }
}

/// A read in a turn of the primary. The file stays as it is.
pub fn serve_read<B: Bodies>(
    file: &Parts,
    bodies: &mut B,
    now: u64,
    ask: &WaitingAsk,
) -> Result<Turned, StepErr>
    requires clock { now < 2 ^ 62 }
    requires turn { HasTurn file.now.lease now }
    ensures turned { IfOk result (λ turned. (records : List Record) → B.agrees bodies.new records →
        (own : FileHead) (held : List ObjectVersion) →
        turned ≡ read_answer (ground_at (shown file.now) records own held) ask.now.id
        (reads (ground_at (shown file.now) records own held) file.now.lead.primary ask.now.op)) }
    ensures reads { ReadsOnly B.agrees B.fault_count bodies.old bodies.new (fault_of result) }
{
    let Some(turn) = file.lease.turn(now) else {
        unreachable!()
    };
    let (alloc, node, id) = (file.alloc, file.awake.node(), file.replica.file());
    let answer = file.lead.read(&turn, bodies, &ask.op)?;
    Ok(read_answer(alloc, node, &id, ask.id, answer)?)
}

/// The ask of an update that was just issued, where one is and none was before.
pub fn mark_issued(asks: &mut OpenAsks, issued: bool, ask: WaitingAsk)
    ensures { asks.new ≡ asks_once_done asks.old issued ask }
{
    if !asks.has_issued() && issued {
        asks.issue(ask);
    }
}

/// The own register has accepted another node's lease, which isn't over: the ask is sent there.
fn elsewhere(node: NodeId, now: u64, accepted: Option<Lease>) -> Option<Reply>
    ensures { (site : Site) → site.node ≡ node → site.now ≡ now →
        result ≡ rows.elsewhere site accepted }
{
    let lease = accepted?;
    if lease.node.0 != node.0 && now < lease.end {
        Some(Reply::Elsewhere {
            node: lease.node,
            end: lease.end,
        })
    } else {
        None
    }
}

/// Waits. Where memory runs out, the file is as it was.
fn ask_waits(file: &mut Parts, ask: WaitingAsk) -> Result<Turned, OutOfMemory>
    ensures row { IfOk result (λ turned. (now : ℕ) →
        IsRow (λ site s. rows.ask_waits s ask) now (shown file.old) (shown file.new) turned) }
    ensures same { OnErr result (shown file.new ≡ shown file.old) }
{
    file.asks.wait(ask)?;
    Ok(quiet(file.alloc))
}

/// Round starts: the ask waits for it; without a count left nothing comes of the ask. Where memory runs out, the file is as it
/// was.
fn round_for(file: &mut Parts, now: u64, ask: WaitingAsk) -> Result<Turned, OutOfMemory>
    requires clock { now < 2 ^ 62 }
    requires stored { IsStored file.old.lead.location }
    ensures row { IfOk result (λ turned. (p : Proposer) → file.old.lease ≡ free p →
        IsRow (λ site s. rows.round_for site s p ask) now (shown file.old) (shown file.new)
        turned) }
    ensures same { OnErr result (shown file.new ≡ shown file.old) }
{
    let Some(location) = file.lead.location() else {
        unreachable!()
    };
    let mut lease = file.lease.same();
    let Some(ballot) = lease.ask(now, &location.members) else {
        return Ok(quiet(file.alloc));
    };
    let (alloc, node, id) = (file.alloc, file.awake.node(), file.replica.file());
    let reads = reads_of(alloc, node, id, &location.members, ballot)?;
    let (reads, ()) = both(reads, file.asks.wait(ask))?;
    file.lease = lease;
    Ok(reads)
}

/// An ask where there is neither a lease nor a round. Where memory runs out, the file is as it was.
fn ask_without_lease(file: &mut Parts, now: u64, ask: WaitingAsk) -> Result<Turned, OutOfMemory>
    requires clock { now < 2 ^ 62 }
    requires stored { IsStored file.old.lead.location }
    ensures row { IfOk result (λ turned. (p : Proposer) → file.old.lease ≡ free p →
        IsRow (λ site s. rows.ask_under site s (free p) ask) now (shown file.old) (shown file.new)
        turned) }
    ensures same { OnErr result (shown file.new ≡ shown file.old) }
{
    let (alloc, node, id) = (file.alloc, file.awake.node(), file.replica.file());
    match elsewhere(node, now, file.acceptor.lease()) {
        Some(reply) => tells(alloc, node, &id, ask.id, reply),
        None => round_for(file, now, ask),
    }
}

/// A write or truncation in a turn of the primary; one that meets an issued one waits. After an error the file is as it was.
fn serve_write<B: Bodies>(
    file: &mut Parts,
    bodies: &mut B,
    now: u64,
    ask: WaitingAsk,
) -> Result<Turned, StepErr>
    requires clock { now < 2 ^ 62 }
    requires turn { HasTurn file.old.lease now }
    requires stored { IsStored file.old.lead.location }
    requires fits { FitsOp ask.op }
    ensures row { IfOk result (λ turned. (records : List Record) → B.agrees bodies.new records →
        is_read ask.op ≡ false →
        IsRowBy (λ site s. rows.serve_ask site s ask) now (body_by records) (shown file.old)
        (shown file.new) turned) }
    ensures same { OnErr result (shown file.new ≡ shown file.old) }
    ensures reads { ReadsOnly B.agrees B.fault_count bodies.old bodies.new (fault_of result) }
{
    let Some(turn) = file.lease.turn(now) else {
        unreachable!()
    };
    let led = file.lead.issue(&turn, bodies, ask.id, ask.epoch, &ask.op)?;
    match led {
        Some(turned) => {
            mark_issued(&mut file.asks, file.lead.has_issued(), ask);
            Ok(turned)
        }
        None => Ok(ask_waits(file, ask)?),
    }
}

/// Read served, or the rows for writes; a write that meets an issued one waits. After an error the file is as it was.
fn serve_ask<B: Bodies>(
    file: &mut Parts,
    bodies: &mut B,
    now: u64,
    ask: WaitingAsk,
) -> Result<Turned, StepErr>
    requires clock { now < 2 ^ 62 }
    requires turn { HasTurn file.old.lease now }
    requires stored { IsStored file.old.lead.location }
    requires fits { FitsOp ask.op }
    ensures row { IfOk result (λ turned. (records : List Record) → B.agrees bodies.new records →
        IsRowBy (λ site s. rows.serve_ask site s ask) now (body_by records) (shown file.old)
        (shown file.new) turned) }
    ensures same { OnErr result (shown file.new ≡ shown file.old) }
    ensures reads { ReadsOnly B.agrees B.fault_count bodies.old bodies.new (fault_of result) }
{
    if !is_read(&ask.op) {
        return serve_write(file, bodies, now, ask);
    }
    serve_read(file, bodies, now, &ask)
}

/// Whether the node holds the lease, and its primary is active.
fn may_serve(lease: &FileLease, lead: &Lead, now: u64) -> bool
    requires { now < 2 ^ 62 }
    ensures { result ≡ (is_some (turn_of lease.now now) && is_active lead.now.primary.tenure) }
{
    lease.turn(now).is_some() && lead.is_active()
}

/// Asked already; or an ask by the lease: served while the primary is active; else it waits for the primary or the round; else it
/// is sent elsewhere, or a round starts. After an error the file is as it was.
fn ask_rows<B: Bodies>(
    file: &mut Parts,
    bodies: &mut B,
    now: u64,
    ask: WaitingAsk,
) -> Result<Turned, StepErr>
    requires clock { now < 2 ^ 62 }
    requires settled { IsSettled file.old.lease now }
    requires stored { IsStored file.old.lead.location }
    requires fits { FitsOp ask.op }
    ensures row { IfOk result (λ turned. (records : List Record) → B.agrees bodies.new records →
        IsRowBy (λ site s. rows.ask_rows site s ask) now (body_by records) (shown file.old)
        (shown file.new) turned) }
    ensures same { OnErr result (shown file.new ≡ shown file.old) }
    ensures reads { ReadsOnly B.agrees B.fault_count bodies.old bodies.new (fault_of result) }
{
    if file.asks.has(ask.id) {
        return Ok(quiet(file.alloc));
    }
    if file.lease.is_free() {
        return Ok(ask_without_lease(file, now, ask)?);
    }
    if may_serve(&file.lease, &file.lead, now) {
        return serve_ask(file, bodies, now, ask);
    }
    Ok(ask_waits(file, ask)?)
}

/// An ask that is let in, as it may wait: for half the lease length.
fn waiting_ask(times: Times, now: u64, id: OpId, epoch: u64, op: Op) -> WaitingAsk
    requires { now < 2 ^ 62 }
    ensures row { (site : Site) → site.now ≡ now → site.times ≡ times →
        result ≡ rows.waiting_ask site id epoch op }
    ensures op { result.op ≡ op }
{
    let _lease = times.lease();
    WaitingAsk {
        id,
        epoch,
        op,
        deadline: now + times.wait(),
    }
}

/// An ask that is let in counts as a use, and goes by the rows. After an error the file is as it was.
fn ask_counts<B: Bodies>(
    file: &mut Parts,
    bodies: &mut B,
    now: u64,
    ask: WaitingAsk,
) -> Result<Turned, StepErr>
    requires clock { now < 2 ^ 62 }
    requires settled { IsSettled file.old.lease now }
    requires stored { IsStored file.old.lead.location }
    requires fits { FitsOp ask.op }
    ensures row { IfOk result (λ turned. (records : List Record) → B.agrees bodies.new records →
        IsRowBy (λ site s. rows.ask_rows site (record s { used = site.now }) ask) now
        (body_by records) (shown file.old) (shown file.new) turned) }
    ensures same { OnErr result (shown file.new ≡ shown file.old) }
    ensures reads { ReadsOnly B.agrees B.fault_count bodies.old bodies.new (fault_of result) }
{
    let used = file.used;
    file.used = now;
    let rest = ask_rows(file, bodies, now, ask);
    if rest.is_err() {
        file.used = used;
    }
    rest
}

/// An ask that is let in: the first one's list is stored, and it counts as a use. After an error a file whose list was stored
/// is as it was.
fn let_in<B: Bodies>(
    file: &mut Parts,
    bodies: &mut B,
    now: u64,
    id: OpId,
    capability: &Capability,
    op: &Op,
) -> Result<Turned, StepErr>
    requires clock { now < 2 ^ 62 }
    requires settled { IsSettled file.old.lease now }
    requires stripe { FitsStripe capability.now.location.stripe }
    requires fits { FitsOp op.now }
    ensures row { IfOk result (λ turned. (records : List Record) → B.agrees bodies.new records →
        IsRowBy (λ site s. rows.ask_let_in site s id capability.now op.now None) now
        (body_by records) (shown file.old) (shown file.new) turned) }
    ensures same { OnErr result (IsStored file.old.lead.location →
        shown file.new ≡ shown file.old) }
    ensures reads { ReadsOnly B.agrees B.fault_count bodies.old bodies.new (fault_of result) }
{
    let asked = op.copy(file.alloc)?;
    let ask = waiting_ask(file.awake.times(), now, id, capability.epoch, asked);
    if file.lead.location().is_some() {
        return ask_counts(file, bodies, now, ask);
    }
    let kept = keeps(file.alloc, file.lead.list_once(&capability.location))?;
    let rest = ask_counts(file, bodies, now, ask);
    join_rest(kept, rest)
}

/// An ask on a replicated file, where `sealed` says whether the capability's tag is the key's: it is refused, or let in. After an
/// error a file whose list was stored is as it was.
pub fn handle_ask<B: Bodies>(
    file: &mut Parts,
    bodies: &mut B,
    now: u64,
    sealed: bool,
    id: OpId,
    capability: &Capability,
    op: &Op,
) -> Result<Turned, StepErr>
    requires clock { now < 2 ^ 62 }
    requires settled { IsSettled file.old.lease now }
    requires stripe { FitsStripe capability.now.location.stripe }
    requires fits { FitsOp op.now }
    ensures row { IfOk result (λ turned. (records : List Record) → B.agrees bodies.new records →
        (test : Capability → Bool) → test capability.now ≡ sealed →
        IsStep (λ site s. rows.handle_ask site s id capability.now op.now)
        (site_at file.old.awake now test (body_by records)) (shown file.old) (shown file.new)
        turned) }
    ensures same { OnErr result (IsStored file.old.lead.location →
        shown file.new ≡ shown file.old) }
    ensures reads { ReadsOnly B.agrees B.fault_count bodies.old bodies.new (fault_of result) }
{
    let (alloc, node, own) = (file.alloc, file.awake.node(), file.replica.file());
    let stored = file.lead.location();
    match refusal_of(node, now, sealed, &stored, capability, op) {
        Some(reply) => Ok(tells(alloc, node, &own, id, reply)?),
        None => let_in(file, bodies, now, id, capability, op),
    }
}
