ghost use Rattle.std.specs.Prelude.{◌≡◌, ◌∷◌, ◌++◌, [], ℕ, List, None, Some, IfOk, OnOk, reverse};
ghost use Rattle.xt_base.specs.declared.ids.FileId.{FileId};
ghost use Rattle.xt_messages.specs.declared.file.ObjectVersion.{ObjectVersion};
ghost use Rattle.xt_messages.specs.declared.file.FileHead.{FileHead};
ghost use Rattle.xt_messages.specs.declared.message.Payload.TheVariants as payload;
ghost use Rattle.xt_messages.specs.declared.record.Record.{Record};
ghost use Rattle.xt_base.specs.declared.ids.NodeId.{NodeId};
ghost use Rattle.xt_protocol.specs.declared.states.Progress.{Progress};
ghost use Rattle.xt_protocol.specs.declared.states.PeerState.TheVariants as peer;
ghost use Rattle.xt_protocol.specs.Choice.{difference};
ghost use Rattle.xt_protocol.specs.Primaries.{known_of_report, last_to_each, report_of, reports_of, target_of, with_peer};
ghost use Rattle.xt_protocol.specs.PrimaryRows as rows;
ghost use Rattle.xt_protocol.specs.PrimaryRows.{after_keeping, goes_on};
ghost use Rattle.xt_protocol.specs.Turns.{message, sends};
ghost use Rattle.object_versions.specs.KeptBodies.{fault_of, ReadsOnly};
ghost use Rattle.replica_primary.specs.Shown.{shown_progress, shown_tenure};
ghost use Rattle.replica_primary.specs.Written.{ground};
ghost use Rattle.replica_primary.specs.Moves.{IsSplit, any_report, ground_beyond, is_to_feed, kept_of, next_of};

use crate::feeding::{Target, fed, target_of};
use crate::moving::{FetchedBody, Next, advance, after_keeping, kept_of, put, unmoved};
use crate::peers::set_peer;
use crate::sending::last_to_each;
use object_versions::{Bodies, StepErr, held_from, holds};
use osd_decisions::{choose, is_majority, statuses_counted};
use peer_searches::first_unknown;
use std::alloc::Global;
use xt_base::{Copies, Epoch, NodeId, OutOfMemory, Seq};
use xt_messages::{FileHead, HeldSet, ObjectVersion, Payload, Versions};
use xt_protocol::{
    Peer, PeerState, Peers, Place, Progress, Tenure, Turned, join, message, sends, sends_one,
};

/// The head that a peer has reported.
fn report_of(alloc: Global, peer: &Peer) -> Result<Option<(NodeId, FileHead)>, OutOfMemory>
    ensures { IfOk result (λ report. report ≡ report_of peer.now.node peer.now.state) }
{
    match &peer.state {
        PeerState::Reported { head } => Ok(Some((peer.node, head.copy(alloc)?))),
        _ => Ok(None),
    }
}

/// Puts a report after the others, where there is one.
fn put_any(
    reports: &mut Seq<(NodeId, FileHead)>,
    report: Option<(NodeId, FileHead)>,
) -> Result<(), OutOfMemory>
    ensures { OnOk result (reports.new ≡ reports.old ++ any_report report) }
{
    match report {
        Some(report) => reports.push(report),
        None => Ok(()),
    }
}

/// The reports that are counted, in list order.
fn reports_of(alloc: Global, peers: &[Peer]) -> Result<Seq<(NodeId, FileHead)>, OutOfMemory>
    ensures { IfOk result (λ reports. reports ≡ reports_of peers.now) }
{
    let mut reports = Seq::new(alloc);
    for peer in peers {
        let report = report_of(alloc, peer)?;
        put_any(&mut reports, report)?;
    }
    Ok(reports)
}

/// Whether this is another peer than the own node, and has reported.
fn is_to_feed(place: &Place, peer: &Peer) -> bool
    ensures { result ≡ is_to_feed place.now peer.now }
{
    match peer.state {
        PeerState::Reported { .. } => peer.node.0 != place.node.0,
        _ => false,
    }
}

/// What is known of a peer that has reported.
fn known_of_report(alloc: Global, state: &PeerState) -> Result<HeldSet, OutOfMemory>
    ensures { IfOk result (λ known. (head : FileHead) → state.now ≡ peer.Reported head →
        known ≡ known_of_report head) }
{
    match state {
        PeerState::Reported { head } => held_from(alloc, head.versions.as_slice()),
        _ => Ok(HeldSet::new(alloc)),
    }
}

/// A peer that has reported is fed; the own node gets the head itself.
fn feed_peer<B: Bodies>(
    bodies: &mut B,
    alloc: Global,
    place: &Place,
    fetched: &Option<FetchedBody>,
    target: &FileHead,
    peer: &mut Peer,
) -> Result<(), StepErr>
    ensures value { OnOk result ((records : List Record) → B.agrees bodies.new records →
        (own : FileHead) (held : List ObjectVersion) →
        peer.new ≡ record {
          node = peer.old.node;
          state = rows.feed_peer (ground_beyond place.now records fetched.now own held) target.now
              peer.old.node peer.old.state;
        }) }
    ensures reads { ReadsOnly B.agrees B.fault_count bodies.old bodies.new (fault_of result) }
{
    if !is_to_feed(place, peer) {
        return Ok(());
    }
    let known = known_of_report(alloc, &peer.state)?;
    let target = Target::Whole { head: target };
    let found = first_unknown(&known, target.versions(), 0);
    let state = fed(bodies, alloc, &place.file, fetched, &target, known, found)?;
    put(&mut peer.state, state);
    Ok(())
}

/// Each of these that has reported is fed; the own node gets the head itself.
fn feed_each<B: Bodies>(
    bodies: &mut B,
    alloc: Global,
    place: &Place,
    fetched: &Option<FetchedBody>,
    target: &FileHead,
    peers: &mut [Peer],
) -> Result<(), StepErr>
    ensures value { OnOk result ((records : List Record) → B.agrees bodies.new records →
        peers.new ≡
        rows.feed_peers (ground_beyond place.now records fetched.now target.now []) target.now
        peers.old) }
    ensures reads { ReadsOnly B.agrees B.fault_count bodies.old bodies.new (fault_of result) }
{
    for peer in peers.iter_mut() {
        feed_peer(bodies, alloc, place, fetched, target, peer)?;
    }
    Ok(())
}

/// Each peer that has reported is fed; the own node gets the head itself.
fn feed_peers<B: Bodies>(
    bodies: &mut B,
    alloc: Global,
    place: &Place,
    fetched: &Option<FetchedBody>,
    target: &FileHead,
    peers: &mut Peers,
) -> Result<(), StepErr>
    ensures value { OnOk result ((records : List Record) → B.agrees bodies.new records →
        peers.new ≡
        rows.feed_peers (ground_beyond place.now records fetched.now target.now []) target.now
        peers.old) }
    ensures reads { ReadsOnly B.agrees B.fault_count bodies.old bodies.new (fault_of result) }
{
    let peers = peers.items.as_mut_slice();
    feed_each(bodies, alloc, place, fetched, target, peers)
}

/// The head goes to the node itself.
fn send_head(
    alloc: Global,
    place: &Place,
    epoch: Epoch,
    head: FileHead,
) -> Result<Turned, OutOfMemory>
    ensures { IfOk result (λ turned. turned ≡
        sends (message place.now.node place.now.node (payload.Head place.now.file epoch head)
        ∷ [])) }
{
    let content = Payload::Head {
        file: place.file,
        epoch,
        head,
    };
    sends_one(alloc, message(place.node, place.node, content))
}

/// The head to the node itself, and to each peer that is brought up to date what was sent to it last.
fn send_install(
    alloc: Global,
    place: &Place,
    epoch: Epoch,
    target: FileHead,
    peers: &[Peer],
) -> Result<Turned, OutOfMemory>
    ensures { IfOk result (λ turned. turned ≡
        sends (message place.now.node place.now.node (payload.Head place.now.file epoch target)
        ∷ last_to_each place.now epoch peers.now)) }
{
    let others = last_to_each(alloc, place.node, &place.file, epoch, peers)?;
    let own = send_head(alloc, place, epoch, target)?;
    join(own, sends(alloc, others))
}

/// Installed: the head goes to the node itself, and each other peer that has reported is fed, in list order.
fn installs<B: Bodies>(
    bodies: &mut B,
    alloc: Global,
    place: &Place,
    fetched: &Option<FetchedBody>,
    tenure: &mut Tenure,
    own: &FileHead,
    chosen: FileHead,
) -> Result<Turned, StepErr>
    ensures value { IfOk result (λ turned. (records : List Record) → B.agrees bodies.new records →
        (learnt : ℕ) (held : List ObjectVersion) →
        goes_on learnt tenure.new turned ≡
        rows.installs (ground_beyond place.now records fetched.now own.now held) learnt tenure.old
        chosen) }
    ensures reads { ReadsOnly B.agrees B.fault_count bodies.old bodies.new (fault_of result) }
{
    let target = target_of(own, tenure.epoch, &chosen).copy(alloc)?;
    let acked = Seq::new(alloc);
    advance(tenure, Progress::Installing { chosen, acked });
    feed_peers(bodies, alloc, place, fetched, &target, &mut tenure.peers)?;
    Ok(send_install(alloc, place, tenure.epoch, target, tenure.peers.as_slice())?)
}

/// The next of the wanted versions, which stand last first, and the others.
fn split(wanted: Versions) -> Option<(ObjectVersion, Versions)>
    ensures { IsSplit wanted result }
{
    let mut wanted = wanted;
    match wanted.items.pop() {
        Some(next) => Some((next, wanted)),
        None => None,
    }
}

/// The head is installed, and the body is kept that was just fetched for it, if one was.
pub fn install_and_keep<B: Bodies>(
    bodies: &mut B,
    alloc: Global,
    place: &Place,
    tenure: &mut Tenure,
    own: &FileHead,
    chosen: FileHead,
    fetched: Option<FetchedBody>,
) -> Result<Turned, StepErr>
    ensures value { IfOk result (λ turned. (records : List Record) → B.agrees bodies.new records →
        (learnt : ℕ) (held : List ObjectVersion) →
        goes_on learnt tenure.new turned ≡
        after_keeping (kept_of place.now.file fetched)
        (rows.installs (ground_beyond place.now records fetched own.now held) learnt tenure.old
        chosen)) }
    ensures reads { ReadsOnly B.agrees B.fault_count bodies.old bodies.new (fault_of result) }
{
    let turned = installs(bodies, alloc, place, &fetched, tenure, own, chosen)?;
    let rec = kept_of(&place.file, fetched);
    let next = after_keeping(alloc, rec, turned)?;
    Ok(next)
}

/// A body is asked for, and the one is kept that was just fetched, if one was.
fn send_fetch(
    alloc: Global,
    place: &Place,
    epoch: Epoch,
    source: NodeId,
    asked: ObjectVersion,
    fetched: Option<FetchedBody>,
) -> Result<Turned, OutOfMemory>
    ensures { IfOk result (λ turned. turned ≡
        record {
          rec = kept_of place.now.file fetched;
          outs = message place.now.node source
              (payload.Fetch place.now.file epoch asked.object asked.version) ∷ [];
          marks = [];
        }) }
{
    let fetch = Payload::Fetch {
        file: place.file,
        epoch,
        object: asked.object,
        version: asked.version,
    };
    let rec = kept_of(&place.file, fetched);
    after_keeping(
        alloc,
        rec,
        sends_one(alloc, message(place.node, source, fetch))?,
    )
}

/// The next of the wanted bodies, which stand last first, is asked for, and with none left the head is installed. The body is kept
/// that was just fetched, if one was.
pub fn fetches(
    alloc: Global,
    place: &Place,
    tenure: &mut Tenure,
    chosen: FileHead,
    source: NodeId,
    wanted: Versions,
    fetched: Option<FetchedBody>,
) -> Result<Next, OutOfMemory>
    ensures { IfOk result (λ next.
        (learnt : ℕ) (from : NodeId) (records : List Record) (own : FileHead)
        (held : List ObjectVersion) →
        next_of (ground place.now records own held) learnt from (shown_tenure tenure.new) next ≡
        after_keeping (kept_of place.now.file fetched)
        (rows.fetches (ground_beyond place.now records fetched own held) learnt
        (shown_tenure tenure.old) chosen source (reverse wanted))) }
{
    let Some((asked, later)) = split(wanted) else {
        return Ok(Next::Installs { chosen, fetched });
    };
    advance(
        tenure,
        Progress::Fetching {
            chosen,
            source,
            asked,
            later,
        },
    );
    let turned = send_fetch(alloc, place, tenure.epoch, source, asked, fetched)?;
    Ok(Next::Gives { turned })
}

/// The versions that are wanted and not held, in the order of those wanted.
#[tactic(auto, unfolding(xt_protocol::specs::Choice::difference))]
fn unheld(alloc: Global, held: &HeldSet, want: &Versions) -> Result<Versions, OutOfMemory>
    ensures { IfOk result (λ missing. missing ≡ difference held.now want.now) }
{
    let mut missing = Seq::new(alloc);
    for version in want.as_slice() {
        if !holds(held, *version) {
            missing.push(*version)?;
        }
    }
    Ok(missing)
}

/// These versions, the last one first.
fn last_first(versions: Versions) -> Versions
    ensures { result ≡ reverse versions }
{
    let mut versions = versions;
    versions.items.as_mut_slice().reverse();
    versions
}

/// Head chosen: the own one is installed; of another one the bodies are fetched that are wanted.
fn choose_head(
    alloc: Global,
    place: &Place,
    tenure: &mut Tenure,
    held: &HeldSet,
    source: NodeId,
    chosen: FileHead,
) -> Result<Next, OutOfMemory>
    ensures { IfOk result (λ next.
        (learnt : ℕ) (from : NodeId) (records : List Record) (own : FileHead) →
        next_of (ground place.now records own held.now) learnt from (shown_tenure tenure.new)
        next ≡
        rows.choose_head (ground place.now records own held.now) learnt (shown_tenure tenure.old)
        (source, chosen)) }
{
    if source.0 == place.node.0 {
        return Ok(Next::Installs {
            chosen,
            fetched: None,
        });
    }
    let wanted = last_first(unheld(alloc, held, &chosen.versions)?);
    fetches(alloc, place, tenure, chosen, source, wanted, None)
}

/// The best of the reports is chosen, if there is one.
fn chooses(
    alloc: Global,
    place: &Place,
    tenure: &mut Tenure,
    held: &HeldSet,
    reports: &[(NodeId, FileHead)],
) -> Result<Next, OutOfMemory>
    ensures { IfOk result (λ next.
        (learnt : ℕ) (from : NodeId) (records : List Record) (own : FileHead) →
        next_of (ground place.now records own held.now) learnt from (shown_tenure tenure.new)
        next ≡
        rows.chooses (ground place.now records own held.now) learnt (shown_tenure tenure.old)
        reports.now) }
{
    if reports.is_empty() {
        return Ok(unmoved(alloc));
    }
    let (source, chosen) = &reports[choose(place.node, reports)];
    let chosen = chosen.copy(alloc)?;
    choose_head(alloc, place, tenure, held, *source, chosen)
}

/// Status counted: at a majority a head is chosen.
fn status_counted(
    alloc: Global,
    place: &Place,
    tenure: &mut Tenure,
    held: &HeldSet,
) -> Result<Next, OutOfMemory>
    ensures { IfOk result (λ next.
        (learnt : ℕ) (from : NodeId) (records : List Record) (own : FileHead) →
        next_of (ground place.now records own held.now) learnt from (shown_tenure tenure.new)
        next ≡
        rows.status_counted (ground place.now records own held.now) learnt
        (shown_tenure tenure.old)) }
{
    let peers = tenure.peers.as_slice();
    if !is_majority(peers, statuses_counted(peers)) {
        return Ok(unmoved(alloc));
    }
    let reports = reports_of(alloc, peers)?;
    chooses(alloc, place, tenure, held, reports.as_slice())
}

/// A status of an unknown peer is counted, or kept until the head is installed.
fn status_kept(
    alloc: Global,
    peers: &mut Peers,
    from: NodeId,
    head: &FileHead,
) -> Result<(), OutOfMemory>
    ensures { OnOk result (peers.new ≡ with_peer peers.old from (peer.Reported head.now)) }
{
    let head = head.copy(alloc)?;
    set_peer(peers, from, PeerState::Reported { head });
    Ok(())
}

/// A status of an unknown peer: counted, kept until the head is installed, or late, and then the peer is fed.
pub fn take_status(
    alloc: Global,
    place: &Place,
    tenure: &mut Tenure,
    held: &HeldSet,
    from: NodeId,
    head: &FileHead,
) -> Result<Next, OutOfMemory>
    ensures { IfOk result (λ next. (learnt : ℕ) (records : List Record) (own : FileHead) →
        next_of (ground place.now records own held.now) learnt from (shown_tenure tenure.new)
        next ≡
        rows.take_status (ground place.now records own held.now) learnt (shown_tenure tenure.old)
        (shown_progress tenure.old.progress) from head.now) }
{
    match &tenure.progress {
        Progress::Gathering => {
            status_kept(alloc, &mut tenure.peers, from, head)?;
            status_counted(alloc, place, tenure, held)
        }
        Progress::Fetching { .. } => {
            status_kept(alloc, &mut tenure.peers, from, head)?;
            Ok(unmoved(alloc))
        }
        Progress::Installing { .. } | Progress::Active { .. } => Ok(Next::Feeds {
            known: held_from(alloc, head.versions.as_slice())?,
        }),
    }
}
