//! Whom a call asks, and what it sends.
ghost use Rattle.std.specs.Prelude.{◌≡◌, ◌∷◌, [], IfOk, IsSome, Some};
ghost use Rattle.xt_messages.specs.declared.message.Payload.TheVariants as payload;
ghost use Rattle.xt_messages.specs.declared.event.Mark.TheVariants as mark;
ghost use Rattle.xt_protocol.specs.Turns as turns;
ghost use Rattle.client_rows.specs.Clients as rows;

use client_rows::{RunningCall, Tried};
use std::alloc::Global;
use xt_base::{Copies, Members, NodeId, OptionalBox, OutOfMemory, Seq};
use xt_messages::{Call, Capability, Mark, Marks, Msgs, Op, Outcome, Payload};
use xt_protocol::{Turned, message, one};

/// The first member.
pub fn first_member(members: &Members) -> NodeId
    ensures { result ≡ rows.first_member members.now }
{
    match members.as_slice().first() {
        Some(member) => *member,
        None => NodeId(0),
    }
}

/// The first target: the member that was aimed at or has answered last, else the first one.
pub fn first_target(members: &Members, target: Option<NodeId>) -> NodeId
    ensures { result ≡ rows.first_target members.now target }
{
    match target {
        Some(node) if members.contains(node) => node,
        _ => first_member(members),
    }
}

/// A call's operation is asked of this member.
pub fn asks(
    alloc: Global,
    node: NodeId,
    target: NodeId,
    number: u64,
    capability: &Capability,
    op: &Op,
) -> Result<Msgs, OutOfMemory>
    ensures { IfOk result (λ outs. outs ≡
        turns.message node target (payload.Ask number capability.now op.now) ∷ []) }
{
    let op = op.copy(alloc)?;
    let payload = Payload::Ask {
        number,
        capability: *capability,
        op,
    };
    one(alloc, message(node, target, payload))
}

/// A call is marked as begun.
pub fn begins(alloc: Global, number: u64, call: &Call) -> Result<Marks, OutOfMemory>
    ensures { IfOk result (λ marks. marks ≡ mark.Begin number call.now ∷ []) }
{
    let call = call.copy(alloc)?;
    one(alloc, Mark::Begin { number, call })
}

/// A call is marked as ended.
pub fn ends(alloc: Global, number: u64, outcome: &Outcome) -> Result<Marks, OutOfMemory>
    ensures { IfOk result (λ marks. marks ≡ mark.Done number outcome.now ∷ []) }
{
    let outcome = outcome.copy(alloc)?;
    one(alloc, Mark::Done { number, outcome })
}

/// What a step gives that keeps no record.
pub fn gives(outs: Msgs, marks: Marks) -> Turned
    ensures { result ≡ record { rec = None; outs = outs; marks = marks } }
{
    Turned {
        rec: OptionalBox::none(),
        outs,
        marks,
    }
}

/// This call runs, in place of one that ran.
pub fn run(running: &mut Option<RunningCall>, call: RunningCall)
    ensures { running.new ≡ Some call }
{
    *running = Some(call);
}

/// The running call asks this member, which has until the deadline to answer.
pub fn turn_to(running: &mut Option<RunningCall>, target: NodeId, deadline: u64, tried: Seq<Tried>)
    requires { IsSome running.old }
    ensures { (call : RunningCall) → running.old ≡ Some call →
        running.new ≡ Some (record call { target = target; deadline = deadline; tried = tried }) }
{
    let Some(call) = running else { unreachable!() };
    call.target = target;
    call.deadline = deadline;
    call.tried = tried;
}
