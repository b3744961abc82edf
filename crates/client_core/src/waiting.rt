//! What comes of an event while a call waits for a node.
ghost use Rattle.std.specs.Prelude.{◌≡◌, IfOk};
ghost use Rattle.client_rows.specs.Waiting as rows;

use crate::holding::HeldFiles;
use crate::progress::{ends, waits_on};
use crate::striped::{bytes_shown, next_asked, was_asked};
use client_rows::{CallResult, Learnt, MadeCall, Next, Progress, Request};
use std::alloc::Global;
use xt_base::{Copies, NodeId, Octets, OutOfMemory, SizeMark};
use xt_messages::{
    Answered, AskRefusal, Capability, Event, MetaAnswer, Op, Payload, RegistryAnswer, Reply, Retry,
};
use xt_protocol::one;

/// The node that is asked doesn't do it, and nobody else may.
fn give_up(alloc: Global, target: NodeId, how: Retry) -> Result<Progress, OutOfMemory>
    ensures { IfOk result (λ comes. comes ≡ rows.gives_up target how) }
{
    let answered = Answered {
        node: target,
        outcome: how,
    };
    let answers = one(alloc, answered)?;
    Ok(ends(CallResult::Retry { answers }))
}

/// The present target of an operation on a striped file turns it away; others do nothing.
fn turn_away(
    alloc: Global,
    target: NodeId,
    from: NodeId,
    how: Retry,
) -> Result<Progress, OutOfMemory>
    ensures { IfOk result (λ comes. comes ≡ rows.striped_away target from how) }
{
    if from.0 == target.0 {
        return give_up(alloc, target, how);
    }
    Ok(waits_on())
}

/// An operation on a striped file is refused by a member that was asked, whose refusal may report something; others do nothing.
fn refuse(
    learnt: Learnt,
    capability: &Capability,
    op: &Op,
    target: NodeId,
    from: NodeId,
    why: AskRefusal,
) -> Progress
    ensures { result ≡ rows.striped_refused learnt capability.now op.now target from why }
{
    if !was_asked(&capability.location.members, op, target, from) {
        return waits_on();
    }
    Progress {
        learnt,
        next: Next::End {
            how: CallResult::Refused { reply: why },
        },
    }
}

/// The next member is asked, if there is one; else the call ends so.
fn ask_or_end(next: Option<NodeId>, how: CallResult) -> Next
    ensures { result ≡ rows.asks_or_ends next how }
{
    match next {
        Some(target) => Next::Ask { target },
        None => Next::End { how },
    }
}

/// Ok from the present target of an operation on a striped file.
fn serve(
    alloc: Global,
    held: &HeldFiles,
    capability: &Capability,
    op: &Op,
    target: NodeId,
    count: u64,
    mark: SizeMark,
    bytes: &Octets,
) -> Result<Progress, OutOfMemory>
    ensures { IfOk result (λ comes. comes ≡
        rows.served held.now capability.now op.now target count mark bytes.now) }
{
    let file = capability.file.number;
    let location = &capability.location;
    let all = held.mark_with(file, mark);
    let bytes = bytes_shown(alloc, all.size, location.stripe, op, bytes.as_slice())?;
    let how = CallResult::Ok {
        count,
        mark: all,
        bytes,
    };
    Ok(Progress {
        learnt: Learnt::Mark { file, mark },
        next: ask_or_end(next_asked(&location.members, op, target), how),
    })
}

/// A reply to an operation on a striped file.
fn take_reply(
    alloc: Global,
    held: &HeldFiles,
    capability: &Capability,
    op: &Op,
    target: NodeId,
    from: NodeId,
    reply: &Reply,
) -> Result<Progress, OutOfMemory>
    ensures { IfOk result (λ comes. comes ≡
        rows.reply_comes held.now capability.now op.now target from reply.now) }
{
    match reply {
        Reply::Ok { count, mark, bytes } => {
            if from.0 != target.0 {
                return Ok(waits_on());
            }
            serve(alloc, held, capability, op, target, *count, *mark, bytes)
        }
        Reply::NoLease { end } => turn_away(alloc, target, from, Retry::NoLease { end: *end }),
        Reply::NoMajority { have, need } => {
            let how = Retry::NoMajority {
                have: *have,
                need: *need,
            };
            turn_away(alloc, target, from, how)
        }
        Reply::Elsewhere { node, end } => {
            let how = Retry::Elsewhere {
                node: *node,
                end: *end,
            };
            turn_away(alloc, target, from, how)
        }
        Reply::Denied { rule } => {
            let why = AskRefusal::Denied { rule: *rule };
            Ok(refuse(Learnt::Nothing, capability, op, target, from, why))
        }
        Reply::OldList { version } => {
            let why = AskRefusal::OldList { version: *version };
            Ok(refuse(Learnt::Nothing, capability, op, target, from, why))
        }
        Reply::OldEpoch { epoch } => {
            let learnt = Learnt::Epoch {
                file: capability.file,
                epoch: *epoch,
            };
            let why = AskRefusal::OldEpoch { epoch: *epoch };
            Ok(refuse(learnt, capability, op, target, from, why))
        }
        Reply::TooFar { object } => {
            let why = AskRefusal::TooFar { object: *object };
            Ok(refuse(Learnt::Nothing, capability, op, target, from, why))
        }
        Reply::ClientsFull => {
            let why = AskRefusal::ClientsFull;
            Ok(refuse(Learnt::Nothing, capability, op, target, from, why))
        }
    }
}

/// A reply of a file's member comes, to a call of this number.
fn hear_reply(
    alloc: Global,
    held: &HeldFiles,
    made: &MadeCall,
    target: NodeId,
    from: NodeId,
    number: u64,
    reply: &Reply,
) -> Result<Progress, OutOfMemory>
    ensures { IfOk result (λ comes. comes ≡
        rows.reply_heard held.now made.now target from number reply.now) }
{
    if number != made.number {
        return Ok(waits_on());
    }
    let Request::Striped { capability, op } = &made.request else {
        return Ok(waits_on());
    };
    take_reply(alloc, held, capability, op, target, from, reply)
}

/// What an answer of the metadata server says of a file.
fn granted(answer: &MetaAnswer) -> Learnt
    ensures { result ≡ rows.granted answer.now }
{
    match answer {
        MetaAnswer::Granted { capability, mark } => Learnt::Capability {
            capability: *capability,
            mark: *mark,
        },
        MetaAnswer::Done
        | MetaAnswer::Refused { .. }
        | MetaAnswer::Names { .. }
        | MetaAnswer::Row { .. }
        | MetaAnswer::Located { .. } => Learnt::Nothing,
    }
}

/// An answer of the metadata server comes, to a call of this number.
fn hear_meta(
    alloc: Global,
    made: &MadeCall,
    target: NodeId,
    from: NodeId,
    number: u64,
    answer: &MetaAnswer,
) -> Result<Progress, OutOfMemory>
    ensures { IfOk result (λ comes. comes ≡
        rows.meta_heard made.now target from number answer.now) }
{
    if number != made.number || from.0 != target.0 {
        return Ok(waits_on());
    }
    let Request::Meta { .. } = &made.request else {
        return Ok(waits_on());
    };
    let how = CallResult::Meta {
        answer: answer.copy(alloc)?,
    };
    Ok(Progress {
        learnt: granted(answer),
        next: Next::End { how },
    })
}

/// An answer of the directory service comes, to a call of this number.
fn hear_registry(
    alloc: Global,
    made: &MadeCall,
    target: NodeId,
    from: NodeId,
    number: u64,
    answer: &RegistryAnswer,
) -> Result<Progress, OutOfMemory>
    ensures { IfOk result (λ comes. comes ≡
        rows.registry_heard made.now target from number answer.now) }
{
    if number != made.number || from.0 != target.0 {
        return Ok(waits_on());
    }
    let Request::Registry { .. } = &made.request else {
        return Ok(waits_on());
    };
    let how = CallResult::Registry {
        answer: answer.copy(alloc)?,
    };
    Ok(ends(how))
}

/// A message comes.
fn hear(
    alloc: Global,
    held: &HeldFiles,
    made: &MadeCall,
    target: NodeId,
    from: NodeId,
    payload: &Payload,
) -> Result<Progress, OutOfMemory>
    ensures { IfOk result (λ comes. comes ≡
        rows.message_comes held.now made.now target from payload.now) }
{
    match payload {
        Payload::Reply { number, reply, .. } => {
            hear_reply(alloc, held, made, target, from, *number, reply)
        }
        Payload::MetaReply { number, answer } => {
            hear_meta(alloc, made, target, from, *number, answer)
        }
        Payload::RegistryReply { number, answer } => {
            hear_registry(alloc, made, target, from, *number, answer)
        }
        _ => Ok(waits_on()),
    }
}

/// What comes of an event at a clock while a call waits for the target until the deadline.
pub fn handle(
    alloc: Global,
    now: u64,
    held: &HeldFiles,
    made: &MadeCall,
    target: NodeId,
    deadline: u64,
    ev: &Event,
) -> Result<Progress, OutOfMemory>
    ensures { IfOk result (λ comes. comes ≡
        rows.event_comes now held.now made.now target deadline ev.now) }
{
    match ev {
        Event::Deliver(msg) => hear(alloc, held, made, target, msg.from, &msg.payload),
        Event::Wake if deadline <= now => give_up(alloc, target, Retry::Silent),
        Event::Wake | Event::Call(_) => Ok(waits_on()),
    }
}
