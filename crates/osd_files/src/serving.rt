ghost use Rattle.std.specs.Prelude.{◌≡◌, ◌<◌, ◌^◌, ◌&&◌, List, false, true, not, IfOk, is_some};
ghost use Rattle.std.specs.List.{AllByRecursion};
ghost use Rattle.xt_messages.specs.Limits.{FitsOp};
ghost use Rattle.xt_messages.specs.declared.record.Record.{Record};
ghost use Rattle.object_versions.specs.KeptBodies.{fault_of, ReadsOnly};
ghost use Rattle.osd_invariants.specs.Sound.{IsStored};
ghost use Rattle.osd_invariants.specs.OpenAsks.{IsWithinLimits};
ghost use Rattle.xt_protocol.specs.Asks.{is_read};
ghost use Rattle.xt_protocol.specs.Primaries.{is_ready};
ghost use Rattle.xt_protocol.specs.Turns.{quiet};
ghost use Rattle.osd_files.specs.Answers.{HasTurn};
ghost use Rattle.osd_files.specs.Light.{asks_rest};
ghost use Rattle.osd_files.specs.Serves.{AsksFollow, AsksWait, ServesAll, ServesNext, ServesOne};
ghost use Rattle.osd_files.specs.Views.{shown};

use crate::asks::{mark_issued, serve_read};
use crate::joining::join_rest;
use crate::lead::Lead;
use crate::parts::Parts;
use object_versions::{Bodies, StepErr};
use osd_decisions::is_read;
use xt_base::OutOfMemory;
use xt_protocol::{Turned, WaitingAsk, quiet};

/// A waiting write, where no other one is issued: it is answered, refused or issued; else it stays.
fn serve_waiting_write<B: Bodies>(
    file: &mut Parts,
    bodies: &mut B,
    now: u64,
    ask: WaitingAsk,
) -> Result<Turned, StepErr>
    requires clock { now < 2 ^ 62 }
    requires turn { HasTurn file.old.lease now }
    requires stored { IsStored file.old.lead.location }
    requires fits { FitsOp ask.op }
    ensures served { IfOk result (λ turned. (records : List Record) → B.agrees bodies.new records →
        is_read ask.op ≡ false → is_some file.old.asks.issued ≡ false →
        ServesOne ask records (shown file.old) (shown file.new) turned) }
    ensures reads { ReadsOnly B.agrees B.fault_count bodies.old bodies.new (fault_of result) }
{
    let Some(turn) = file.lease.turn(now) else {
        unreachable!()
    };
    let led = file.lead.issue(&turn, bodies, ask.id, ask.epoch, &ask.op)?;
    match led {
        Some(turned) => {
            mark_issued(&mut file.asks, file.lead.has_issued(), ask);
            Ok(turned)
        }
        None => {
            file.asks.stay(ask)?;
            Ok(quiet(file.alloc))
        }
    }
}

/// A waiting ask in a turn of the primary: once an update is issued, a write stays as it is.
fn serve_one<B: Bodies>(
    file: &mut Parts,
    bodies: &mut B,
    now: u64,
    ask: WaitingAsk,
) -> Result<Turned, StepErr>
    requires clock { now < 2 ^ 62 }
    requires turn { HasTurn file.old.lease now }
    requires stored { IsStored file.old.lead.location }
    requires fits { FitsOp ask.op }
    ensures served { IfOk result (λ turned. (records : List Record) → B.agrees bodies.new records →
        ServesOne ask records (shown file.old) (shown file.new) turned) }
    ensures reads { ReadsOnly B.agrees B.fault_count bodies.old bodies.new (fault_of result) }
{
    if is_read(&ask.op) {
        return serve_read(file, bodies, now, &ask);
    }
    if file.asks.has_issued() {
        file.asks.stay(ask)?;
        return Ok(quiet(file.alloc));
    }
    serve_waiting_write(file, bodies, now, ask)
}

/// What was given, and then what comes of one waiting ask more.
fn serve_next<B: Bodies>(
    file: &mut Parts,
    bodies: &mut B,
    now: u64,
    served: Turned,
    ask: WaitingAsk,
) -> Result<Turned, StepErr>
    requires clock { now < 2 ^ 62 }
    requires turn { HasTurn file.old.lease now }
    requires stored { IsStored file.old.lead.location }
    requires fits { FitsOp ask.op }
    ensures served { IfOk result (λ turned. (records : List Record) → B.agrees bodies.new records →
        ServesNext ask served records (shown file.old) (shown file.new) turned) }
    ensures reads { ReadsOnly B.agrees B.fault_count bodies.old bodies.new (fault_of result) }
{
    let one = serve_one(file, bodies, now, ask);
    join_rest(served, one)
}

/// All waiting asks, in order, in turns of the primary.
fn serve_all<B: Bodies>(file: &mut Parts, bodies: &mut B, now: u64) -> Result<Turned, StepErr>
    requires clock { now < 2 ^ 62 }
    requires turn { HasTurn file.old.lease now }
    requires stored { IsStored file.old.lead.location }
    requires fits { AllByRecursion IsWithinLimits file.old.asks.waiting }
    ensures served { IfOk result (λ turned. (records : List Record) → B.agrees bodies.new records →
        ServesAll records (shown file.old) (shown file.new) turned) }
    ensures reads { ReadsOnly B.agrees B.fault_count bodies.old bodies.new (fault_of result) }
{
    let waiting = file.asks.take_waiting(file.alloc);
    let mut served = quiet(file.alloc);
    for ask in waiting.items {
        served = serve_next(file, bodies, now, served, ask)?;
    }
    Ok(served)
}

/// The asks after a primary that hasn't become ready: where it isn't active, the issued one comes back.
fn asks_wait(file: &mut Parts) -> Result<Turned, OutOfMemory>
    ensures { IfOk result (λ turned. AsksWait (shown file.old) (shown file.new) turned) }
{
    if file.lead.is_active() {
        return Ok(quiet(file.alloc));
    }
    file.asks.come_back()?;
    Ok(quiet(file.alloc))
}

/// Whether a primary that was ready before, or wasn't, has become ready.
fn becomes_ready(lead: &Lead, was_ready: bool) -> bool
    ensures { result ≡ (is_ready lead.now.primary.tenure && not was_ready) }
{
    lead.is_ready() && !was_ready
}

/// What a row of the primary means for asks that rest: when it has become ready, that of the update that was committed is gone. It
/// takes no memory.
pub fn asks_settle(file: &mut Parts, was_ready: bool)
    requires { asks_rest (shown file.old).state ≡ true }
    ensures { (records : List Record) →
        AsksFollow was_ready records (shown file.old) (shown file.new) quiet }
{
    if becomes_ready(&file.lead, was_ready) {
        file.asks.forget_issued();
    }
}

/// What a row of the primary means for the asks, where it was ready before or wasn't: when it has become ready they are served.
pub fn asks_follow<B: Bodies>(
    file: &mut Parts,
    bodies: &mut B,
    now: u64,
    was_ready: bool,
) -> Result<Turned, StepErr>
    requires clock { now < 2 ^ 62 }
    requires turn { HasTurn file.old.lease now }
    requires stored { IsStored file.old.lead.location }
    requires fits { AllByRecursion IsWithinLimits file.old.asks.waiting }
    ensures followed { IfOk result (λ turned. (records : List Record) → B.agrees bodies.new records →
        AsksFollow was_ready records (shown file.old) (shown file.new) turned) }
    ensures reads { ReadsOnly B.agrees B.fault_count bodies.old bodies.new (fault_of result) }
{
    if becomes_ready(&file.lead, was_ready) {
        return serve_all(file, bodies, now);
    }
    Ok(asks_wait(file)?)
}
