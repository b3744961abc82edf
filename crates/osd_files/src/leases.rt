ghost use Rattle.std.specs.Prelude.{◌≡◌, ◌<◌, ◌^◌, ℕ, List, Bool, true, IfOk, map, if◌then◌else◌};
ghost use Rattle.xt_base.specs.declared.ids.NodeId.{NodeId};
ghost use Rattle.xt_base.specs.declared.ids.Boot.{Boot};
ghost use Rattle.xt_messages.specs.declared.message.Payload.TheVariants as payload;
ghost use Rattle.xt_protocol.specs.LeaseRows.{renewal_takes_under, running_round};
ghost use Rattle.flease.specs.Moves.{IsSettled};
ghost use Rattle.osd_invariants.specs.Sound.{IsStored, ListUnder};
ghost use Rattle.xt_protocol.specs.Turns.{message, sends};
ghost use Rattle.xt_protocol.specs.FileLeases as rows;
ghost use Rattle.xt_protocol.specs.FileSteps.{message_comes};
ghost use Rattle.osd_files.specs.Answers.{read_answer, write_answer, answered_write, news_of, HasTurn, HoldBy};
ghost use Rattle.osd_files.specs.Views.{shown};
ghost use Rattle.osd_files.specs.Kinds.{is_for_lease};
ghost use Rattle.osd_files.specs.Rows.{IsRow};

use crate::joining::join_next;
use crate::noting::noted;
use crate::parts::Parts;
use flease::{FileLease, News, ReadAnswer, WriteAnswer};
use std::alloc::Global;
use xt_base::{Ballot, Boot, FileId, Lease, NodeId, OutOfMemory, Seq};
use xt_messages::{Mark, Payload, Reply};
use xt_protocol::{Turned, message, quiet, sends, sends_one, shows};

/// The message that answers a Read.
fn answer_to_read(file: FileId, boot: Boot, ballot: Ballot, answer: ReadAnswer) -> Payload
    ensures { result ≡ rows.answer_to_read file boot ballot (read_answer answer) }
{
    match answer {
        ReadAnswer::Promise { report } => Payload::Promise {
            file,
            ballot,
            boot,
            report,
        },
        ReadAnswer::Refused { seen } => Payload::Outrun { file, ballot, seen },
    }
}

/// A Read comes: promised, or outrun.
#[tactic(auto, unfolding(xt_protocol::specs::FileLeases::read_comes), using(crate::proofs::News::read_back))]
fn read_comes(file: &mut Parts, from: NodeId, ballot: Ballot) -> Result<Turned, OutOfMemory>
    ensures { IfOk result (λ turned. (now : ℕ) →
        IsRow (λ site s. rows.read_comes site s from ballot) now (shown file.old) (shown file.new)
        turned) }
{
    let (alloc, node, id) = (file.alloc, file.awake.node(), file.replica.file());
    let boot = file.acceptor.boot();
    let answer = file.acceptor.on_read(ballot);
    let content = answer_to_read(id, boot, ballot, answer);
    sends_one(alloc, message(node, from, content))
}

/// The messages that answer a Write: one for another boot gets none.
fn answers_to_write(
    alloc: Global,
    node: NodeId,
    file: FileId,
    from: NodeId,
    ballot: Ballot,
    boot: Boot,
    answer: WriteAnswer,
) -> Result<Turned, OutOfMemory>
    ensures { IfOk result (λ turned. turned ≡
        answered_write node file from ballot boot (write_answer answer)) }
{
    match answer {
        WriteAnswer::Accepted => {
            let content = Payload::Accepted { file, ballot, boot };
            sends_one(alloc, message(node, from, content))
        }
        WriteAnswer::Refused { seen } => {
            let content = Payload::Outrun { file, ballot, seen };
            sends_one(alloc, message(node, from, content))
        }
        WriteAnswer::OtherBoot => Ok(quiet(alloc)),
    }
}

/// The end that was met last: that of an accepted lease is.
fn end_after_write(end: u64, lease: Lease, answer: WriteAnswer) -> u64
    ensures { result ≡ rows.end_after_write end lease (write_answer answer) }
{
    match answer {
        WriteAnswer::Accepted => lease.end,
        _ => end,
    }
}

/// A Write comes: accepted, outrun, or for another boot.
#[tactic(auto, unfolding(xt_protocol::specs::FileLeases::write_comes), using(crate::proofs::News::write_back))]
fn write_comes(
    file: &mut Parts,
    from: NodeId,
    ballot: Ballot,
    boot: Boot,
    lease: Lease,
) -> Result<Turned, OutOfMemory>
    ensures { IfOk result (λ turned. (now : ℕ) →
        IsRow (λ site s. rows.write_comes site s from ballot boot lease) now (shown file.old)
        (shown file.new) turned) }
{
    let (alloc, node, id) = (file.alloc, file.awake.node(), file.replica.file());
    let answer = file.acceptor.on_write(ballot, boot, lease);
    file.last_end = end_after_write(file.last_end, lease, answer);
    answers_to_write(alloc, node, id, from, ballot, boot, answer)
}

/// The asks that wait get this answer.
fn answer_waiting(file: &mut Parts, reply: &Reply) -> Result<Turned, OutOfMemory>
    ensures { IfOk result (λ turned. (now : ℕ) →
        IsRow (λ site s. rows.answer_waiting site s reply.now) now (shown file.old) (shown file.new)
        turned) }
{
    let (alloc, node, id) = (file.alloc, file.awake.node(), file.replica.file());
    let outs = file.asks.told_waiting(alloc, node, &id, reply)?;
    file.asks.drop_waiting();
    Ok(sends(alloc, outs))
}

/// Live report: the asks are sent to its holder; where that is an earlier boot of this node there is no lease.
fn live_lease(file: &mut Parts, lease: Lease) -> Result<Turned, OutOfMemory>
    ensures { IfOk result (λ turned. (now : ℕ) →
        IsRow (λ site s. rows.live_lease site s lease) now (shown file.old) (shown file.new)
        turned) }
{
    if lease.node.0 == file.awake.node().0 {
        let reply = Reply::NoLease { end: file.last_end };
        return answer_waiting(file, &reply);
    }
    let reply = Reply::Elsewhere {
        node: lease.node,
        end: lease.end,
    };
    answer_waiting(file, &reply)
}

/// A Write of the lease to each of these.
fn writes_to(
    alloc: Global,
    node: NodeId,
    file: &FileId,
    ballot: Ballot,
    lease: Lease,
    targets: &[(NodeId, Boot)],
) -> Result<Turned, OutOfMemory>
    ensures { IfOk result (λ turned. turned ≡
        sends (map (λ (target : NodeId × Boot).
        message node target.0 (payload.Write file.now ballot target.1 lease)) targets.now)) }
{
    let mut outs = Seq::new(alloc);
    for target in targets {
        let content = Payload::Write {
            file: *file,
            ballot,
            boot: target.1,
            lease,
        };
        outs.push(message(node, target.0, content))?;
    }
    Ok(sends(alloc, outs))
}

/// The number of a node has 32 bits.
pub fn stay_in_range(node: NodeId)
    ensures { node.0 < 2 ^ 32 }
{
    let _number = node.0;
}

/// An idle primary draws an epoch when the lease is held.
fn led_on(file: &mut Parts, now: u64) -> Result<Turned, OutOfMemory>
    requires clock { now < 2 ^ 62 }
    requires turn { HasTurn file.old.lease now }
    requires stored { IsStored file.old.lead.location }
    ensures { IfOk result (λ turned.
        IsRow (λ site s. rows.led_on site s s.primary.tenure) now (shown file.old) (shown file.new)
        turned) }
{
    if !file.lead.is_idle() {
        return Ok(quiet(file.alloc));
    }
    stay_in_range(file.awake.node());
    let Some(turn) = file.lease.turn(now) else {
        unreachable!()
    };
    file.searches.clear();
    let turned = file.lead.begin(&turn, file.replica.head())?;
    noted(
        &mut file.replica,
        &mut file.staged,
        &mut file.searches,
        turned,
    )
}

/// Lease won, or renewed: it is marked, and an idle primary draws its epoch.
fn lease_held(file: &mut Parts, now: u64, end: u64) -> Result<Turned, OutOfMemory>
    requires clock { now < 2 ^ 62 }
    requires turn { HasTurn file.old.lease now }
    requires stored { IsStored file.old.lead.location }
    ensures { IfOk result (λ turned.
        IsRow (λ site s. rows.lease_held site s end) now (shown file.old) (shown file.new) turned) }
{
    let number = file.replica.file().number;
    let marked = shows(file.alloc, Mark::Held { file: number, end })?;
    let led = led_on(file, now);
    join_next(marked, led)
}

/// What the news of a round mean for the file.
fn lease_news(file: &mut Parts, now: u64, news: News) -> Result<Turned, OutOfMemory>
    requires clock { now < 2 ^ 62 }
    requires hold { HoldBy news file.old.lease now file.old.lead.location }
    ensures { IfOk result (λ turned.
        IsRow (λ site s. rows.lease_news site s (news_of news)) now (shown file.old)
        (shown file.new) turned) }
{
    match news {
        News::Nothing => Ok(quiet(file.alloc)),
        News::Writes {
            ballot,
            lease,
            targets,
        } => {
            let (alloc, node, id) = (file.alloc, file.awake.node(), file.replica.file());
            writes_to(alloc, node, &id, ballot, lease, targets.as_slice())
        }
        News::Holds { end } => {
            file.last_end = end;
            lease_held(file, now, end)
        }
        News::Finds { lease } => live_lease(file, lease),
        News::Ends => {
            let reply = Reply::NoLease { end: file.last_end };
            answer_waiting(file, &reply)
        }
    }
}

/// The end of the lease that a promise reports.
fn reported_end(end: u64, content: &Payload) -> u64
    ensures { result ≡ rows.reported_end end content.now }
{
    match content {
        Payload::Promise {
            report: Some(lease),
            ..
        } => lease.end,
        _ => end,
    }
}

/// The end that was met last: that of a report is, where the promise is taken.
fn end_after_answer(lease: &FileLease, end: u64, now: u64, from: NodeId, content: &Payload) -> u64
    ensures { result ≡
        (if renewal_takes_under (running_round lease.now) now from content.now
        then rows.reported_end end content.now else end) }
{
    if lease.takes(now, from, content) {
        reported_end(end, content)
    } else {
        end
    }
}

/// An answer to a round comes.
fn answer_comes(
    file: &mut Parts,
    now: u64,
    from: NodeId,
    content: &Payload,
) -> Result<Turned, OutOfMemory>
    requires clock { now < 2 ^ 62 }
    requires settled { IsSettled file.old.lease now }
    requires stored { ListUnder file.old.lease file.old.lead.location }
    ensures { IfOk result (λ turned.
        IsRow (λ site s. rows.answer_comes site s from content.now) now (shown file.old)
        (shown file.new) turned) }
{
    file.last_end = end_after_answer(&file.lease, file.last_end, now, from, content);
    let news = file.lease.answer(now, from, content);
    lease_news(file, now, news)
}

/// A message of the lease comes: to its register, or an answer to a round.
pub fn lease_comes(
    file: &mut Parts,
    now: u64,
    from: NodeId,
    content: &Payload,
) -> Result<Turned, OutOfMemory>
    requires clock { now < 2 ^ 62 }
    requires settled { IsSettled file.old.lease now }
    requires stored { ListUnder file.old.lease file.old.lead.location }
    ensures { IfOk result (λ turned. is_for_lease content.now ≡ true →
        IsRow (λ site s. message_comes site s from content.now) now (shown file.old)
        (shown file.new) turned) }
{
    match content {
        Payload::Read { ballot, .. } => read_comes(file, from, *ballot),
        Payload::Write {
            ballot,
            boot,
            lease,
            ..
        } => write_comes(file, from, *ballot, *boot, *lease),
        _ => answer_comes(file, now, from, content),
    }
}
