ghost use Rattle.std.specs.Prelude.{◌≡◌, ◌∷◌, if◌then◌else◌, [], ℕ, List, None, Some, MatchOption, IfOk, IsTrue, OnErr, OnOk};
ghost use Rattle.xt_messages.specs.declared.file.ObjectVersion.{ObjectVersion};
ghost use Rattle.xt_base.specs.declared.ids.Stamp.{Stamp};
ghost use Rattle.xt_messages.specs.declared.message.Payload.TheVariants as payload;
ghost use Rattle.xt_messages.specs.declared.record.Record.{Record};
ghost use Rattle.xt_protocol.specs.declared.states.Progress.TheVariants as progress;
ghost use Rattle.xt_protocol.specs.Turns.{message, quiet, sends};
ghost use Rattle.xt_protocol.specs.Primaries.{carries, is_active_in, issued_in, with_node};
ghost use Rattle.xt_protocol.specs.PrimaryRows as rows;
ghost use Rattle.xt_protocol.specs.PrimaryRows.{goes_on};
ghost use Rattle.replica_primary.specs.Written.{ground};
ghost use Rattle.replica_primary.specs.Acks.{acked_by, acked_in, report_majority, report_commit, is_installing, peers_after, current_after, with_ack};

use crate::known::add_node;
use crate::moving::advance;
use crate::peers::set_peer;
use crate::serving::send_update;
use object_versions::is_below;
use osd_decisions::{carries, is_majority};
use std::alloc::Global;
use xt_base::{Copies, NodeId, Octets, OutOfMemory, Seq, Stamp, has_node};
use xt_messages::{FileHead, Mark, Update};
use xt_protocol::{
    IssuedUpdate, PeerState, Peers, Place, Progress, Tenure, Turned, answers, join, quiet, sends,
    shows,
};

/// Whether an acknowledgement makes the peer current: it isn't below the head that was sent to it, or it is the own node's.
pub fn makes_current(place: &Place, from: NodeId, state: &PeerState, stamp: Stamp) -> bool
    ensures { result ≡ rows.makes_current place.now from state.now stamp }
{
    match state {
        PeerState::Heading { head, .. } => {
            from.0 == place.node.0 || !is_below(stamp, head.stamp)
        }
        _ => from.0 == place.node.0,
    }
}

/// Who has acknowledged the head that is installed, or the update that is issued.
fn acked_in(progress: &Progress) -> &[NodeId]
    ensures { result.now ≡ acked_in progress.now }
{
    match progress {
        Progress::Installing { acked, .. } => acked.as_slice(),
        Progress::Active {
            issued: Some(issued),
            ..
        } => issued.acked.as_slice(),
        _ => &[],
    }
}

/// A node has acknowledged the head that is installed, or the update that is issued.
fn count_ack(progress: &mut Progress, node: NodeId) -> Result<(), OutOfMemory>
    ensures ok { OnOk result (progress.new ≡ with_ack progress.old node) }
    ensures err { OnErr result (progress.new ≡ progress.old) }
{
    match progress {
        Progress::Installing { acked, .. } => add_node(acked, node),
        Progress::Active {
            issued: Some(issued),
            ..
        } => add_node(&mut issued.acked, node),
        _ => Ok(()),
    }
}

/// Whether a majority has acknowledged once this node has, the own node among it.
fn is_carried_by(place: &Place, tenure: &Tenure, node: NodeId) -> bool
    ensures { result ≡
        carries place.now tenure.now.peers (with_node (acked_in tenure.now.progress) node) }
{
    let (own, peers) = (place.node, tenure.peers.as_slice());
    let acked = acked_in(&tenure.progress);
    if has_node(acked, node) {
        return carries(own, peers, acked);
    }
    is_majority(peers, acked.len() + 1) && (has_node(acked, own) || node.0 == own.0)
}

/// A commit of this update: its mark, and the answer to its client.
fn report_commit(alloc: Global, place: &Place, update: &Update) -> Result<Turned, OutOfMemory>
    ensures { IfOk result (λ turned. turned ≡ report_commit place.now update.now) }
{
    let (file, id, count) = (&place.file, update.id, update.stamp.count);
    let mark = Mark::Commit {
        file: file.number,
        count,
        id,
    };
    let marked = shows(alloc, mark)?;
    let none = Octets::new(alloc);
    let answered = answers(alloc, place.node, file, id, count, update.mark, none)?;
    join(marked, answered)
}

/// What is reported when a majority has acknowledged: that the issued update is committed, or that the primary is active.
fn report_majority(
    alloc: Global,
    place: &Place,
    own: &FileHead,
    progress: &Progress,
) -> Result<Turned, OutOfMemory>
    ensures { IfOk result (λ turned. turned ≡ report_majority place.now own.now progress.now) }
{
    if let Progress::Active {
        issued: Some(issued),
        ..
    } = progress
    {
        return report_commit(alloc, place, &issued.update);
    }
    let mark = Mark::Active {
        file: place.file.number,
        count: own.stamp.count,
        id: own.last,
    };
    shows(alloc, mark)
}

/// The primary is active from this head, with nothing issued.
fn serve_from(tenure: &mut Tenure, committed: FileHead)
    ensures { tenure.new ≡ record tenure.old { progress = progress.Active committed None } }
{
    advance(
        tenure,
        Progress::Active {
            committed,
            issued: None,
        },
    );
}

/// A node has acknowledged the head that is installed, or the issued update. Once a majority has it, the own node among it, the
/// primary is activated, or the update is committed. Where memory runs out, the tenure is as it was.
fn acked_by(
    alloc: Global,
    place: &Place,
    tenure: &mut Tenure,
    own: &FileHead,
    from: NodeId,
) -> Result<Turned, OutOfMemory>
    ensures value { IfOk result (λ turned. (learnt : ℕ) →
        goes_on learnt tenure.new turned ≡ acked_by place.now own.now learnt tenure.old from) }
    ensures same { OnErr result (tenure.new ≡ tenure.old) }
{
    if !is_carried_by(place, tenure, from) {
        count_ack(&mut tenure.progress, from)?;
        return Ok(quiet(alloc));
    }
    let committed = own.copy(alloc)?;
    let told = report_majority(alloc, place, own, &tenure.progress)?;
    serve_from(tenure, committed);
    Ok(told)
}

/// The peers after an acknowledgement, which may have made its sender current.
fn make_current(peers: &mut Peers, from: NodeId, newly: bool)
    ensures { peers.new ≡ peers_after peers.old from newly }
{
    if newly {
        set_peer(peers, from, PeerState::Current);
    }
}

/// The update to a peer that has just become current; nothing to one that was.
fn send_to_new_peer(
    alloc: Global,
    place: &Place,
    from: NodeId,
    newly: bool,
    update: &Update,
) -> Result<Turned, OutOfMemory>
    ensures { IfOk result (λ turned. turned ≡
        (if newly then sends (message place.now.node from (payload.Update place.now.file update.now)
        ∷ []) else quiet)) }
{
    if !newly {
        return Ok(quiet(alloc));
    }
    let mut outs = Seq::new(alloc);
    send_update(alloc, &mut outs, place, from, update)?;
    Ok(sends(alloc, outs))
}

/// The update that is issued, if one is.
fn issued_in(progress: &Progress) -> Option<&IssuedUpdate>
    ensures { MatchOption result (issued_in progress.now ≡ None) (λ issued. issued_in progress.now ≡
        Some issued.now) }
{
    match progress {
        Progress::Active {
            issued: Some(issued),
            ..
        } => Some(issued),
        _ => None,
    }
}

/// Peer acknowledged, while the primary is active: the issued update is acknowledged, or sent to a peer that has just become
/// current. That this one is current is still to be put. Where memory runs out, the tenure is as it was.
fn ack_issued(
    alloc: Global,
    place: &Place,
    tenure: &mut Tenure,
    own: &FileHead,
    from: NodeId,
    newly: bool,
    stamp: Stamp,
) -> Result<Turned, OutOfMemory>
    requires { IsTrue (is_active_in tenure.old.progress) }
    ensures value { IfOk result (λ turned.
        (learnt : ℕ) (records : List Record) (held : List ObjectVersion) →
        goes_on learnt (current_after tenure.new from newly) turned ≡
        rows.hears_ack (ground place.now records own.now held) learnt tenure.old tenure.old.progress
        from newly stamp) }
    ensures same { OnErr result (tenure.new ≡ tenure.old) }
{
    let Some(issued) = issued_in(&tenure.progress) else {
        return Ok(quiet(alloc));
    };
    if is_below(stamp, issued.update.stamp) {
        return send_to_new_peer(alloc, place, from, newly, &issued.update);
    }
    acked_by(alloc, place, tenure, own, from)
}

/// Peer acknowledged, while the primary is active. Where memory runs out, the tenure is as it was.
fn ack_active(
    alloc: Global,
    place: &Place,
    tenure: &mut Tenure,
    own: &FileHead,
    from: NodeId,
    newly: bool,
    stamp: Stamp,
) -> Result<Turned, OutOfMemory>
    requires { IsTrue (is_active_in tenure.old.progress) }
    ensures value { IfOk result (λ turned.
        (learnt : ℕ) (records : List Record) (held : List ObjectVersion) →
        goes_on learnt tenure.new turned ≡
        rows.hears_ack (ground place.now records own.now held) learnt tenure.old tenure.old.progress
        from newly stamp) }
    ensures same { OnErr result (tenure.new ≡ tenure.old) }
{
    let turned = ack_issued(alloc, place, tenure, own, from, newly, stamp)?;
    make_current(&mut tenure.peers, from, newly);
    Ok(turned)
}

/// Peer acknowledged, while the head is installed. Where memory runs out, the tenure is as it was.
fn ack_installing(
    alloc: Global,
    place: &Place,
    tenure: &mut Tenure,
    own: &FileHead,
    from: NodeId,
    newly: bool,
) -> Result<Turned, OutOfMemory>
    requires { IsTrue (is_installing tenure.old.progress) }
    ensures value { IfOk result (λ turned.
        (learnt : ℕ) (records : List Record) (held : List ObjectVersion) (stamp : Stamp) →
        goes_on learnt tenure.new turned ≡
        rows.hears_ack (ground place.now records own.now held) learnt tenure.old tenure.old.progress
        from newly stamp) }
    ensures same { OnErr result (tenure.new ≡ tenure.old) }
{
    if !newly {
        return Ok(quiet(alloc));
    }
    let turned = acked_by(alloc, place, tenure, own, from)?;
    set_peer(&mut tenure.peers, from, PeerState::Current);
    Ok(turned)
}

/// Peer acknowledged. `newly` says whether that makes the peer current. Where memory runs out, the tenure is as it was.
pub fn hears_ack(
    alloc: Global,
    place: &Place,
    tenure: &mut Tenure,
    own: &FileHead,
    from: NodeId,
    newly: bool,
    stamp: Stamp,
) -> Result<Turned, OutOfMemory>
    ensures value { IfOk result (λ turned.
        (learnt : ℕ) (records : List Record) (held : List ObjectVersion) →
        goes_on learnt tenure.new turned ≡
        rows.hears_ack (ground place.now records own.now held) learnt tenure.old tenure.old.progress
        from newly stamp) }
    ensures same { OnErr result (tenure.new ≡ tenure.old) }
{
    match &tenure.progress {
        Progress::Installing { .. } => { ack_installing(alloc, place, tenure, own, from, newly) }
        Progress::Active { .. } => ack_active(alloc, place, tenure, own, from, newly, stamp),
        _ => Ok(quiet(alloc)),
    }
}
