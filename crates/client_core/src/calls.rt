//! How the last call starts, goes on and ends, on the parts of a client.
ghost use Rattle.std.specs.Prelude.{◌≡◌, ◌<◌, ◌+◌, ◌^◌, max, Some, IsSome, IfOk, OnOk, OnErr};
ghost use Rattle.client_rows.specs.declared.requests.MadeCall.{MadeCall};
ghost use Rattle.client_rows.specs.Requests.{first_stage};
ghost use Rattle.client_rows.specs.Rows as rows;
ghost use Rattle.client_core.specs.Views.{Starts};

use crate::ends::outcome_of;
use crate::holding::HeldFiles;
use crate::requests::{asks, begin, first_asked};
use client_rows::{CallResult, Learnt, MadeCall, Next, Request, Stage};
use replica_client::{ReplicaClient, gives};
use std::alloc::Global;
use xt_base::{Copies, NodeId, OutOfMemory, Seq, SizeMark};
use xt_messages::{Call, Event, Mark, Marks, Msgs, Outcome, Payload, Reply};
use xt_protocol::{Turned, one, sends};

/// The mark of an Ok that comes; with any other event, epoch 0 and size 0.
pub fn mark_told(ev: &Event) -> SizeMark
    ensures { result ≡ rows.mark_told ev.now }
{
    match ev {
        Event::Deliver(msg) => mark_in(&msg.payload),
        Event::Wake | Event::Call(_) => SizeMark { epoch: 0, size: 0 },
    }
}

/// The mark of an Ok.
fn mark_in(payload: &Payload) -> SizeMark
    ensures { result ≡ rows.mark_in payload.now }
{
    match payload {
        Payload::Reply { reply, .. } => mark_of(reply),
        _ => SizeMark { epoch: 0, size: 0 },
    }
}

/// The mark of an Ok.
fn mark_of(reply: &Reply) -> SizeMark
    ensures { result ≡ rows.mark_of reply.now }
{
    match reply {
        Reply::Ok { mark, .. } => *mark,
        _ => SizeMark { epoch: 0, size: 0 },
    }
}

/// This is the last call from now on.
pub fn put_made(made: &mut Option<MadeCall>, call: MadeCall)
    ensures { made.new ≡ Some call }
{
    *made = Some(call);
}

/// The last call is so far.
pub fn set_stage(made: &mut Option<MadeCall>, stage: Stage)
    requires { IsSome made.old }
    ensures { (call : MadeCall) → made.old ≡ Some call →
        made.new ≡ Some (record call { stage = stage }) }
{
    let Some(call) = made else { unreachable!() };
    call.stage = stage;
}

/// The last call goes on so. A node that is asked has until the deadline to answer.
pub fn go_on(made: &mut Option<MadeCall>, next: Next, deadline: u64)
    requires { IsSome made.old }
    ensures { (call : MadeCall) → made.old ≡ Some call →
        made.new ≡ Some (record call { stage = rows.stage_after deadline call.stage next }) }
{
    match next {
        Next::Wait => {}
        Next::Ask { target } => set_stage(made, Stage::Waiting { target, deadline }),
        Next::End { how } => set_stage(made, Stage::Ended { result: how }),
    }
}

/// What a call sends that goes on so.
fn sent(alloc: Global, node: NodeId, made: &MadeCall, next: &Next) -> Result<Msgs, OutOfMemory>
    ensures { IfOk result (λ outs. outs ≡ rows.sent node made.now next.now) }
{
    match next {
        Next::Ask { target } => asks(alloc, node, made.number, &made.request, *target),
        Next::Wait | Next::End { .. } => Ok(Seq::new(alloc)),
    }
}

/// The marks of a call that goes on so.
fn marks_of(alloc: Global, made: &MadeCall, next: &Next) -> Result<Marks, OutOfMemory>
    ensures { IfOk result (λ marks. marks ≡ rows.marks_of made.now next.now) }
{
    match next {
        Next::End { how } => {
            let outcome = outcome_of(alloc, how)?;
            let number = made.number;
            one(alloc, Mark::Done { number, outcome })
        }
        Next::Wait | Next::Ask { .. } => Ok(Seq::new(alloc)),
    }
}

/// Holds what is learnt.
fn learn(
    replicas: &mut ReplicaClient,
    held: &mut HeldFiles,
    learnt: &Learnt,
) -> Result<(), OutOfMemory>
    ensures known { OnOk result (replicas.new ≡
        record replicas.old { state = rows.knows_learnt replicas.old.state learnt.now }) }
    ensures held { OnOk result (held.new ≡ rows.holds_learnt held.old learnt.now) }
    ensures err { OnErr result ((replicas.new ≡ replicas.old) × (held.new ≡ held.old)) }
{
    match learnt {
        Learnt::Nothing => Ok(()),
        Learnt::Mark { file, mark } => {
            held.join(*file, *mark);
            Ok(())
        }
        Learnt::Capability { capability, mark } => held.hold(capability, *mark),
        Learnt::Epoch { file, epoch } => replicas.raise(file, *epoch),
    }
}

/// What a call gives that goes on so, once what is learnt is held.
pub fn given(
    alloc: Global,
    replicas: &mut ReplicaClient,
    held: &mut HeldFiles,
    made: &MadeCall,
    learnt: &Learnt,
    next: &Next,
) -> Result<Turned, OutOfMemory>
    ensures given { IfOk result (λ turned. turned ≡
        rows.given replicas.old.node made.now next.now) }
    ensures known { OnOk result (replicas.new ≡
        record replicas.old { state = rows.knows_learnt replicas.old.state learnt.now }) }
    ensures held { OnOk result (held.new ≡ rows.holds_learnt held.old learnt.now) }
    ensures err { OnErr result ((replicas.new ≡ replicas.old) × (held.new ≡ held.old)) }
{
    let outs = sent(alloc, replicas.node(), made, next)?;
    let marks = marks_of(alloc, made, next)?;
    learn(replicas, held, learnt)?;
    Ok(gives(outs, marks))
}

/// How far a call is that has asked its first node. A node that is asked has as long as a lease to answer.
pub fn first_stage(replicas: &ReplicaClient, now: u64, request: &Request) -> Stage
    requires { now < 2 ^ 62 }
    ensures { result ≡
        first_stage (max now replicas.now.state.last + replicas.now.times.lease) request.now }
{
    match request {
        Request::Replicated { .. } => Stage::OnReplicas,
        Request::Striped { .. } | Request::Meta { .. } | Request::Registry { .. } => {
            Stage::Waiting {
                target: first_asked(request),
                deadline: replicas.deadline(replicas.clock(now)),
            }
        }
    }
}

/// A call that asks this takes the next number, is marked, and asks its first node.
pub fn start(
    alloc: Global,
    replicas: &mut ReplicaClient,
    now: u64,
    call: &Call,
    request: &Request,
) -> Result<Turned, OutOfMemory>
    requires clock { now < 2 ^ 62 }
    requires left { replicas.old.state.next < 2 ^ 62 }
    ensures step { IfOk result (λ turned.
        Starts (rows.starts replicas.old.node replicas.old.times replicas.old.state now call.now
        request.now)
        replicas.old replicas.new turned) }
    ensures err { OnErr result (replicas.new ≡ replicas.old) }
{
    let Request::Replicated { capability, op } = request else {
        let turned = begin(alloc, replicas.node(), replicas.next(), call, request)?;
        let clock = replicas.clock(now);
        replicas.pass(clock);
        replicas.take_number();
        return Ok(turned);
    };
    let op = op.copy(alloc)?;
    replicas.call(now, *capability, call, op)
}

/// A call asks its first node once more, under the number that it has.
pub fn start_again(
    alloc: Global,
    replicas: &mut ReplicaClient,
    now: u64,
    made: &MadeCall,
) -> Result<Turned, OutOfMemory>
    requires { now < 2 ^ 62 }
    ensures step { IfOk result (λ turned.
        Starts
        (rows.starts_again replicas.old.node replicas.old.times replicas.old.state now
        made.now.number made.now.request)
        replicas.old replicas.new turned) }
    ensures err { OnErr result (replicas.new ≡ replicas.old) }
{
    let Request::Replicated { capability, op } = &made.request else {
        let target = first_asked(&made.request);
        let outs = asks(alloc, replicas.node(), made.number, &made.request, target)?;
        let clock = replicas.clock(now);
        replicas.pass(clock);
        return Ok(sends(alloc, outs));
    };
    let op = op.copy(alloc)?;
    replicas.again(now, made.number, *capability, op)
}

/// How a call on a replicated file ended, by its outcome. The mark of an Ok is joined.
pub fn result_of(
    held: &mut HeldFiles,
    file: u64,
    told: SizeMark,
    outcome: Outcome,
) -> Option<CallResult>
    ensures how { result ≡ rows.result_behind held.old file told outcome }
    ensures held { held.new ≡ rows.held_behind held.old file told outcome }
{
    match outcome {
        Outcome::Ok { count, bytes } => {
            let mark = held.mark_with(file, told);
            held.join(file, told);
            Some(CallResult::Ok { count, mark, bytes })
        }
        Outcome::Retry { answers } => Some(CallResult::Retry { answers }),
        Outcome::Refused { refusal } => Some(CallResult::Refused { reply: refusal }),
        Outcome::Meta { .. } | Outcome::Registry { .. } => None,
    }
}
