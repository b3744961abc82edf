ghost use Rattle.std.specs.Prelude.{◌≡◌, ◌∷◌, ◌++◌, ◌≤◌, ◌&&◌, ◌==◌, not, [], ℕ, List, None, Some, IfOk, OnOk};
ghost use Rattle.xt_messages.specs.declared.file.ObjectVersion.{ObjectVersion};
ghost use Rattle.xt_messages.specs.declared.file.FileHead.{FileHead};
ghost use Rattle.xt_messages.specs.declared.record.Record.{Record};
ghost use Rattle.xt_messages.specs.declared.event.Mark.TheVariants as mark;
ghost use Rattle.xt_messages.specs.declared.message.Payload.TheVariants as payload;
ghost use Rattle.xt_messages.specs.Limits.{FitsOp};
ghost use Rattle.xt_protocol.specs.declared.states.Progress.TheVariants as progress;
ghost use Rattle.xt_protocol.specs.Turns.{message, to_each};
ghost use Rattle.xt_protocol.specs.Writes.{standing};
ghost use Rattle.xt_protocol.specs.PrimaryRows.{goes_on};
ghost use Rattle.xt_protocol.specs.Primaries.{is_current};
ghost use Rattle.xt_protocol.specs.Serving as rows;
ghost use Rattle.object_versions.specs.KeptBodies.{fault_of, ReadsOnly};
ghost use Rattle.object_versions.specs.Rising.{HeadRises};
ghost use Rattle.osd_decisions.specs.Committed.{CommittedRises, CommittedUnder};
ghost use Rattle.osd_decisions.specs.Near.{IsNear};
ghost use Rattle.replica_primary.specs.Moves.{peers_under};
ghost use Rattle.replica_primary.specs.Written.{ground, tenure_after, led_of, led_under, with_issued, under_issued};

use crate::moving::put;
use object_versions::{Bodies, StepErr};
use osd_decisions::{WriteStanding, standing_of, update_of};
use std::alloc::Global;
use xt_base::{COUNTS, Copies, NodeId, OBJECTS, Octets, OpId, OutOfMemory, Seq, Stamp};
use xt_messages::{FileHead, Mark, Msgs, Op, Payload, Update};
use xt_protocol::{
    IssuedUpdate, Nodes, Peer, PeerState, Place, PrimaryState, Progress, Tenure, Turned, answers,
    join, message, one, quiet, sends, shows, tells,
};

/// What comes of a write: the update that it issues, if it issues one, and what is sent then.
#[derive(Drop)]
pub struct Written {
    pub issued: Option<Update>,
    pub turned: Turned,
}

/// Whether an update goes to this peer besides the own node.
fn is_current_other(node: NodeId, peer: &Peer) -> bool
    ensures { result ≡ (is_current peer.now.state && not (peer.now.node.0 == node.0)) }
{
    match peer.state {
        PeerState::Current => peer.node.0 != node.0,
        _ => false,
    }
}

/// To whom an update goes: the node itself, and then each current peer.
fn receivers(alloc: Global, place: &Place, peers: &[Peer]) -> Result<Nodes, OutOfMemory>
    ensures { IfOk result (λ nodes. nodes ≡
        place.now.node ∷ rows.current_others place.now peers.now) }
{
    let mut nodes = one(alloc, place.node)?;
    for peer in peers {
        if is_current_other(place.node, peer) {
            nodes.push(peer.node)?;
        }
    }
    Ok(nodes)
}

/// Puts the update to a node after the other messages.
pub fn send_update(
    alloc: Global,
    outs: &mut Msgs,
    place: &Place,
    to: NodeId,
    update: &Update,
) -> Result<(), OutOfMemory>
    ensures { OnOk result (outs.new ≡ outs.old
        ++ message place.now.node to (payload.Update place.now.file update.now) ∷ []) }
{
    let content = Payload::Update {
        file: place.file,
        update: update.copy(alloc)?,
    };
    outs.push(message(place.node, to, content))
}

/// The update to each of these nodes, in order.
fn update_to_each(
    alloc: Global,
    place: &Place,
    nodes: &[NodeId],
    update: &Update,
) -> Result<Msgs, OutOfMemory>
    ensures { IfOk result (λ outs. outs ≡
        to_each place.now.node nodes.now (payload.Update place.now.file update.now)) }
{
    let mut outs = Seq::new(alloc);
    for to in nodes {
        send_update(alloc, &mut outs, place, *to, update)?;
    }
    Ok(outs)
}

/// The update to the node itself, and then to each current peer.
fn send_issue(
    alloc: Global,
    place: &Place,
    peers: &[Peer],
    update: &Update,
) -> Result<Msgs, OutOfMemory>
    ensures { IfOk result (λ outs. outs ≡
        to_each place.now.node (place.now.node ∷ rows.current_others place.now peers.now)
        (payload.Update place.now.file update.now)) }
{
    let nodes = receivers(alloc, place, peers)?;
    update_to_each(alloc, place, nodes.as_slice(), update)
}

/// What is sent and marked when an update is issued.
fn report_issue(
    alloc: Global,
    place: &Place,
    peers: &[Peer],
    update: &Update,
) -> Result<Turned, OutOfMemory>
    ensures { IfOk result (λ turned. turned ≡
        record {
          rec = None;
          outs = to_each place.now.node (place.now.node ∷ rows.current_others place.now peers.now)
              (payload.Update place.now.file update.now);
          marks = mark.Issue place.now.file.number update.now.stamp.count update.now.id ∷ [];
        }) }
{
    let mark = Mark::Issue {
        file: place.file.number,
        count: update.stamp.count,
        id: update.id,
    };
    let marked = shows(alloc, mark)?;
    let sent = sends(alloc, send_issue(alloc, place, peers, update)?);
    join(marked, sent)
}

/// The next update, where there is a count left.
fn next_update<B: Bodies>(
    bodies: &mut B,
    alloc: Global,
    place: &Place,
    tenure: &Tenure,
    head: &FileHead,
    id: OpId,
    epoch: u64,
    op: &Op,
) -> Result<Option<Update>, StepErr>
    requires some { 1024 ≤ place.now.stripe }
    requires fits { FitsOp op.now }
    requires near { IsNear op.now }
    requires rising { HeadRises head.now }
    ensures value { IfOk result (λ update. (records : List Record) → B.agrees bodies.new records →
        (own : FileHead) (held : List ObjectVersion) →
        update ≡ rows.next_update_of (ground place.now records own held) tenure.now head.now id
        epoch op.now) }
    ensures reads { ReadsOnly B.agrees B.fault_count bodies.old bodies.new (fault_of result) }
{
    if head.stamp.count >= COUNTS - 1 {
        return Ok(None);
    }
    let stamp = Stamp {
        epoch: tenure.epoch,
        count: head.stamp.count + 1,
    };
    update_of(
        bodies,
        alloc,
        &place.file,
        place.stripe,
        head,
        stamp,
        id,
        epoch,
        op,
    )
}

/// Issued: the update goes to the node itself, and then to each current peer.
fn issues(
    alloc: Global,
    place: &Place,
    tenure: &Tenure,
    update: Option<Update>,
) -> Result<Written, OutOfMemory>
    ensures { IfOk result (λ written.
        (records : List Record) (learnt : ℕ) (own head : FileHead) (held : List ObjectVersion) →
        tenure.now.progress ≡ progress.Active head None →
        goes_on learnt (tenure_after tenure.now written.issued) written.turned ≡
        rows.issues (ground place.now records own held) learnt tenure.now head update) }
{
    match update {
        None => Ok(Written {
            issued: None,
            turned: quiet(alloc),
        }),
        Some(update) => {
            let turned = report_issue(alloc, place, tenure.peers.as_slice(), &update)?;
            Ok(Written {
                issued: Some(update),
                turned,
            })
        }
    }
}

/// What a client is answered where nothing changes.
fn told(turned: Turned) -> Written
    ensures { result ≡ record { issued = None; turned = turned } }
{
    Written {
        issued: None,
        turned,
    }
}

/// A fresh write is issued, unless another one is.
fn fresh_write<B: Bodies>(
    bodies: &mut B,
    alloc: Global,
    place: &Place,
    tenure: &Tenure,
    head: &FileHead,
    issued: &Option<IssuedUpdate>,
    id: OpId,
    epoch: u64,
    op: &Op,
) -> Result<Option<Written>, StepErr>
    requires some { 1024 ≤ place.now.stripe }
    requires fits { FitsOp op.now }
    requires near { IsNear op.now }
    requires rising { HeadRises head.now }
    requires active { tenure.now.progress ≡ progress.Active head.now issued.now }
    ensures value { IfOk result (λ written. (records : List Record) → B.agrees bodies.new records →
        (learnt : ℕ) (own : FileHead) (held : List ObjectVersion) →
        led_of learnt tenure.now written ≡
        rows.issues_unless (ground place.now records own held) learnt tenure.now head.now issued.now
        id epoch op.now) }
    ensures reads { ReadsOnly B.agrees B.fault_count bodies.old bodies.new (fault_of result) }
{
    if issued.is_some() {
        return Ok(None);
    }
    let update = next_update(bodies, alloc, place, tenure, head, id, epoch, op)?;
    Ok(Some(issues(alloc, place, tenure, update)?))
}

/// A write by how it stands to the committed head: repeated, older, refused, or issued; none where another one is issued.
fn write_stands<B: Bodies>(
    bodies: &mut B,
    alloc: Global,
    place: &Place,
    tenure: &Tenure,
    head: &FileHead,
    issued: &Option<IssuedUpdate>,
    id: OpId,
    epoch: u64,
    op: &Op,
) -> Result<Option<Written>, StepErr>
    requires some { 1024 ≤ place.now.stripe }
    requires fits { FitsOp op.now }
    requires rising { HeadRises head.now }
    requires active { tenure.now.progress ≡ progress.Active head.now issued.now }
    ensures value { IfOk result (λ written. (records : List Record) → B.agrees bodies.new records →
        (learnt : ℕ) (own : FileHead) (held : List ObjectVersion) →
        led_of learnt tenure.now written ≡
        rows.write_stands (ground place.now records own held) learnt tenure.now head.now issued.now
        id epoch op.now
        (standing OBJECTS place.now.stripe head.now id epoch op.now)) }
    ensures reads { ReadsOnly B.agrees B.fault_count bodies.old bodies.new (fault_of result) }
{
    let (node, file) = (place.node, &place.file);
    match standing_of(OBJECTS, place.stripe, head, id, epoch, op) {
        WriteStanding::Repeated { count } => {
            let none = Octets::new(alloc);
            let turned = answers(alloc, node, file, id, count, head.mark, none)?;
            Ok(Some(told(turned)))
        }
        WriteStanding::Older => Ok(Some(told(quiet(alloc)))),
        WriteStanding::TurnedAway { reply } => Ok(Some(told(tells(alloc, node, file, id, reply)?))),
        WriteStanding::Fresh => {
            fresh_write(bodies, alloc, place, tenure, head, issued, id, epoch, op)
        }
    }
}

/// What a write gives; none where the primary isn't active, and where another one is issued.
#[tactic(auto, unfolding(xt_protocol::specs::Serving::writes))]
pub fn writes<B: Bodies>(
    bodies: &mut B,
    alloc: Global,
    place: &Place,
    primary: &PrimaryState,
    id: OpId,
    epoch: u64,
    op: &Op,
) -> Result<Option<Written>, StepErr>
    requires some { 1024 ≤ place.now.stripe }
    requires fits { FitsOp op.now }
    requires rising { CommittedUnder primary.now.tenure }
    ensures value { IfOk result (λ written. (records : List Record) → B.agrees bodies.new records →
        (own : FileHead) (held : List ObjectVersion) →
        led_under primary.now.learnt primary.now.tenure written ≡
        rows.writes (ground place.now records own held) primary.now id epoch op.now) }
    ensures reads { ReadsOnly B.agrees B.fault_count bodies.old bodies.new (fault_of result) }
{
    let Some(tenure) = &primary.tenure else {
        return Ok(None);
    };
    match &tenure.progress {
        Progress::Active { committed, issued } => write_stands(
            bodies, alloc, place, tenure, committed, issued, id, epoch, op,
        ),
        _ => Ok(None),
    }
}

/// An update is issued, where there is one and the primary is active.
fn put_in_progress(alloc: Global, progress: &mut Progress, update: Update)
    ensures value { progress.new ≡ with_issued progress.old update }
    ensures rises { CommittedRises progress.old → CommittedRises progress.new }
{
    if let Progress::Active { issued, .. } = progress {
        let fresh = IssuedUpdate {
            update,
            acked: Seq::new(alloc),
        };
        put(issued, Some(fresh));
    }
}

/// An update is issued in the tenure, where there is one.
pub fn put_issued(alloc: Global, tenure: &mut Option<Tenure>, update: Option<Update>)
    ensures value { tenure.new ≡ under_issued tenure.old update }
    ensures peers { peers_under tenure.new ≡ peers_under tenure.old }
    ensures rises { CommittedUnder tenure.old → CommittedUnder tenure.new }
{
    if let Some(update) = update {
        if let Some(tenure) = tenure {
            put_in_progress(alloc, &mut tenure.progress, update);
        }
    }
}
