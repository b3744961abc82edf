ghost use Rattle.std.specs.Prelude.{◌≡◌, ◌∷◌, [], ℕ, List, Some, IfOk, IsFalse, OnErr, OnOk, true};
ghost use Rattle.xt_messages.specs.declared.file.ObjectVersion.{ObjectVersion};
ghost use Rattle.xt_messages.specs.declared.file.FileHead.{FileHead};
ghost use Rattle.xt_messages.specs.declared.message.Payload.TheVariants as payload;
ghost use Rattle.xt_messages.specs.declared.record.Record.{Record};
ghost use Rattle.xt_protocol.specs.Folds.{body_of};
ghost use Rattle.xt_protocol.specs.declared.states.PeerState.{PeerState};
ghost use Rattle.xt_protocol.specs.Primaries.{is_reported, is_unknown, nodes_of, peer_in, with_peer};
ghost use Rattle.xt_protocol.specs.PrimaryRows as rows;
ghost use Rattle.xt_protocol.specs.PrimaryRows.{goes_on};
ghost use Rattle.xt_protocol.specs.Turns.{message, quiet, sends};
ghost use Rattle.object_versions.specs.KeptBodies.{fault_of, ReadsOnly};
ghost use Rattle.object_versions.specs.Rising.{HeadRises};
ghost use Rattle.osd_decisions.specs.Committed.{CommittedUnder};
ghost use Rattle.replica_primary.specs.declared.moving.Heard.TheVariants as heard;
ghost use Rattle.replica_primary.specs.Shown.{shown_state, shown_tenure};
ghost use Rattle.replica_primary.specs.Written.{ground};
ghost use Rattle.peer_searches.specs.Sound.{AreSound};
ghost use Rattle.replica_primary.specs.Moves.{IsHeardOf, is_apart, is_light_led, led_by, next_of, outpromised, peers_under};

use crate::acking::{hears_ack, makes_current};
use crate::drawing::redrawn;
use crate::feeding::{body_missed, feeds_on};
use crate::fetching::{hears_missing, hears_object};
use crate::gathering::{install_and_keep, take_status};
use crate::moving::{Heard, Next, put, unmoved};
use crate::peers::{peer_in, set_peer};
use crate::staging::body_staged;
use object_versions::{Bodies, StepErr, is_earlier, is_epoch};
use peer_searches::Searches;
use std::alloc::Global;
use xt_base::{Epoch, NodeId, OutOfMemory, Stamp};
use xt_messages::{FileHead, HeldSet, ObjectVersion, Payload};
use xt_protocol::{
    Peer, PeerState, Peers, Place, PrimaryState, Tenure, Turned, message, quiet, sends_one,
};

/// Whether nothing is known of this peer.
fn is_unknown(peers: &[Peer], from: NodeId) -> bool
    ensures { (state : PeerState) → peer_in peers.now from ≡ Some state →
        result ≡ is_unknown state }
{
    match peer_in(peers, from) {
        Some(PeerState::Unknown) => true,
        _ => false,
    }
}

/// A second status does nothing.
fn hears_status(
    alloc: Global,
    place: &Place,
    tenure: &mut Tenure,
    held: &HeldSet,
    from: NodeId,
    head: &FileHead,
) -> Result<Next, OutOfMemory>
    ensures { IfOk result (λ next. (learnt : ℕ) (records : List Record) (own : FileHead)
        (state : PeerState) → peer_in tenure.old.peers from ≡ Some state →
        next_of (ground place.now records own held.now) learnt from (shown_tenure tenure.new)
        next ≡
        rows.hears_status (ground place.now records own held.now) learnt (shown_tenure tenure.old)
        from state head.now) }
{
    if !is_unknown(tenure.peers.as_slice(), from) {
        return Ok(unmoved(alloc));
    }
    take_status(alloc, place, tenure, held, from, head)
}

/// Whether an acknowledgement makes this peer current.
fn newly_current(place: &Place, peers: &[Peer], from: NodeId, stamp: Stamp) -> bool
    ensures { (state : PeerState) → peer_in peers.now from ≡ Some state →
        result ≡ rows.makes_current place.now from state stamp }
{
    match peer_in(peers, from) {
        Some(state) => makes_current(place, from, state, stamp),
        None => false,
    }
}

/// Whether this peer has reported, and is still to be fed.
fn is_reported(peers: &[Peer], from: NodeId) -> bool
    ensures { (state : PeerState) → peer_in peers.now from ≡ Some state →
        result ≡ is_reported state }
{
    match peer_in(peers, from) {
        Some(PeerState::Reported { .. }) => true,
        _ => false,
    }
}

/// Of a peer nothing is known any more; one that is still to be fed stays reported.
fn forget(peers: &mut Peers, from: NodeId)
    ensures { (state : PeerState) → peer_in peers.old from ≡ Some state →
        peers.new ≡ with_peer peers.old from (rows.forgotten state) }
{
    if is_reported(peers.as_slice(), from) {
        return;
    }
    set_peer(peers, from, PeerState::Unknown);
}

/// Peer behind: it is asked again.
fn peer_behind(
    alloc: Global,
    place: &Place,
    tenure: &mut Tenure,
    from: NodeId,
) -> Result<Turned, OutOfMemory>
    ensures { IfOk result (λ turned.
        (learnt : ℕ) (records : List Record) (own : FileHead) (held : List ObjectVersion)
        (state : PeerState) → peer_in tenure.old.peers from ≡ Some state →
        goes_on learnt tenure.new turned ≡
        rows.peer_behind (ground place.now records own held) learnt tenure.old from state) }
{
    forget(&mut tenure.peers, from);
    let gather = Payload::Gather {
        file: place.file,
        epoch: tenure.epoch,
    };
    sends_one(alloc, message(place.node, from, gather))
}

/// Nothing comes of a message, and the tenure goes on.
fn unheard(alloc: Global) -> Heard
    ensures { result ≡ heard.Counts quiet }
{
    Heard::Counts {
        turned: quiet(alloc),
    }
}

/// Outpromised: the higher number is learnt, and a new epoch drawn.
fn outpromised(alloc: Global, learnt: u64, epoch: Epoch, promised: Epoch) -> Heard
    ensures { result ≡ outpromised learnt epoch promised }
{
    if !is_earlier(epoch, promised) {
        return unheard(alloc);
    }
    Heard::Redraws {
        above: learnt.max(promised.number),
    }
}

/// The epoch of a message to a primary.
fn message_epoch(payload: &Payload) -> Option<Epoch>
    ensures { result ≡ rows.message_epoch payload.now }
{
    match payload {
        Payload::Status { epoch, .. }
        | Payload::Object { epoch, .. }
        | Payload::Staged { epoch, .. }
        | Payload::Missing { epoch, .. }
        | Payload::Behind { epoch, .. }
        | Payload::Refused { epoch, .. } => Some(*epoch),
        Payload::Ack { stamp, .. } => Some(stamp.epoch),
        _ => None,
    }
}

/// A version of an object.
fn version_of(object: u64, version: Stamp) -> ObjectVersion
    ensures { result ≡ body_of object version }
{
    ObjectVersion { object, version }
}

/// A message of the primary's epoch, from a peer, that doesn't report what became of a body that was sent, is no acknowledgement, and
/// after which the tenure goes on.
fn hear_in_tenure(
    alloc: Global,
    place: &Place,
    tenure: &mut Tenure,
    own: &FileHead,
    held: &HeldSet,
    from: NodeId,
    payload: &Payload,
) -> Result<Next, OutOfMemory>
    requires { IsFalse (is_apart payload.now) }
    ensures { IfOk result (λ next. (learnt : ℕ) (records : List Record) (state : PeerState) →
        peer_in tenure.old.peers from ≡ Some state →
        next_of (ground place.now records own.now held.now) learnt from (shown_tenure tenure.new)
        next ≡
        rows.hears_peer (ground place.now records own.now held.now) learnt
        (shown_tenure tenure.old) from state payload.now) }
{
    match payload {
        Payload::Status { head, .. } => hears_status(alloc, place, tenure, held, from, head),
        Payload::Object {
            object,
            version,
            bytes,
            ..
        } => {
            let version = version_of(*object, *version);
            hears_object(alloc, place, tenure, held, from, version, bytes)
        }
        Payload::Behind { .. } => {
            let turned = peer_behind(alloc, place, tenure, from)?;
            Ok(Next::Gives { turned })
        }
        _ => Ok(unmoved(alloc)),
    }
}

/// A message of the primary's epoch, from a peer.
fn hears_peer(
    alloc: Global,
    place: &Place,
    learnt: u64,
    tenure: &mut Tenure,
    own: &FileHead,
    held: &HeldSet,
    from: NodeId,
    payload: &Payload,
) -> Result<Heard, OutOfMemory>
    ensures row { IfOk result (λ heard. (records : List Record) (state : PeerState) →
        peer_in tenure.old.peers from ≡ Some state →
        led_by (ground place.now records own.now held.now) learnt from (shown_tenure tenure.new)
        heard ≡
        rows.hears_peer (ground place.now records own.now held.now) learnt
        (shown_tenure tenure.old) from state payload.now) }
    ensures heard { IfOk result (IsHeardOf payload.now tenure.old tenure.new) }
    ensures same { OnErr result (is_light_led payload.now ≡ true → tenure.new ≡ tenure.old) }
{
    match payload {
        Payload::Staged {
            object,
            version,
            ..
        } => {
            let version = version_of(*object, *version);
            Ok(Heard::Staged { version })
        }
        Payload::Missing {
            object,
            version,
            ..
        } => {
            let version = version_of(*object, *version);
            Ok(hears_missing(alloc, learnt, tenure, from, version))
        }
        Payload::Ack { stamp, .. } => {
            let newly = newly_current(place, tenure.peers.as_slice(), from, *stamp);
            let turned = hears_ack(alloc, place, tenure, own, from, newly, *stamp)?;
            Ok(Heard::Counts { turned })
        }
        Payload::Refused { promised, .. } => {
            Ok(outpromised(alloc, learnt, tenure.epoch, *promised))
        }
        _ => {
            let next = hear_in_tenure(alloc, place, tenure, own, held, from, payload)?;
            Ok(Heard::GoesOn { next })
        }
    }
}

/// A message to a primary in a tenure. It counts in its own epoch alone, and only from a member.
fn hears_in(
    alloc: Global,
    place: &Place,
    learnt: u64,
    tenure: &mut Tenure,
    own: &FileHead,
    held: &HeldSet,
    from: NodeId,
    payload: &Payload,
) -> Result<Heard, OutOfMemory>
    ensures row { IfOk result (λ heard. (records : List Record) →
        led_by (ground place.now records own.now held.now) learnt from (shown_tenure tenure.new)
        heard ≡
        rows.hears_in (ground place.now records own.now held.now) learnt
        (Some (shown_tenure tenure.old)) from payload.now) }
    ensures heard { IfOk result (IsHeardOf payload.now tenure.old tenure.new) }
    ensures same { OnErr result (is_light_led payload.now ≡ true → tenure.new ≡ tenure.old) }
{
    let Some(epoch) = message_epoch(payload) else {
        return Ok(unheard(alloc));
    };
    if !is_epoch(epoch, tenure.epoch) {
        return Ok(unheard(alloc));
    }
    match peer_in(tenure.peers.as_slice(), from) {
        None => Ok(unheard(alloc)),
        Some(_) => hears_peer(alloc, place, learnt, tenure, own, held, from, payload),
    }
}

/// The tenure goes on as a message has it. The searches for what peers lack begin again.
fn proceeds<B: Bodies>(
    bodies: &mut B,
    alloc: Global,
    place: &Place,
    tenure: &mut Tenure,
    searches: &mut Searches,
    own: &FileHead,
    from: NodeId,
    next: Next,
) -> Result<Turned, StepErr>
    ensures value { IfOk result (λ turned. (records : List Record) → B.agrees bodies.new records →
        (learnt : ℕ) (held : List ObjectVersion) →
        goes_on learnt tenure.new turned ≡
        next_of (ground place.now records own.now held) learnt from tenure.old next) }
    ensures sound { OnOk result (AreSound own.now.versions tenure.new.peers searches.new) }
    ensures reads { ReadsOnly B.agrees B.fault_count bodies.old bodies.new (fault_of result) }
{
    searches.clear();
    match next {
        Next::Gives { turned } => Ok(turned),
        Next::Feeds { known } => {
            feeds_on(bodies, alloc, place, tenure, searches, own, from, known)
        }
        Next::Installs { chosen, fetched } => {
            install_and_keep(bodies, alloc, place, tenure, own, chosen, fetched)
        }
    }
}

/// The peers in a tenure, if there is one.
fn peers_under(tenure: &Option<Tenure>) -> &[Peer]
    ensures { result.now ≡ peers_under tenure.now }
{
    match tenure {
        Some(tenure) => tenure.peers.as_slice(),
        None => &[],
    }
}

/// A new epoch is drawn above this number, and the same members are asked.
fn redraws(
    alloc: Global,
    place: &Place,
    primary: &mut PrimaryState,
    own: &FileHead,
    above: u64,
) -> Result<Turned, OutOfMemory>
    ensures row { IfOk result (λ turned. record { primary = primary.new; turned = turned } ≡
        rows.draw_epoch place.now above own.now (nodes_of (peers_under primary.old.tenure))) }
    ensures kept { OnErr result (primary.new ≡ primary.old) }
{
    let drawn = redrawn(alloc, place, above, own, peers_under(&primary.tenure))?;
    primary.learnt = above;
    put(&mut primary.tenure, drawn.tenure);
    Ok(drawn.turned)
}

/// A message to a primary. Where it can't be taken, an acknowledgement and the report of a staged body leave the primary as it was; of
/// any other one what was learnt goes on, and the tenure isn't to be used again.
#[tactic(auto, unfolding(xt_protocol::specs::PrimaryRows::hears))]
pub fn hears<B: Bodies>(
    bodies: &mut B,
    alloc: Global,
    place: &Place,
    primary: &mut PrimaryState,
    searches: &mut Searches,
    own: &FileHead,
    held: &HeldSet,
    from: NodeId,
    payload: &Payload,
) -> Result<Turned, StepErr>
    requires { AreSound own.now.versions (peers_under primary.old.tenure) searches.old }
    ensures row { IfOk result (λ turned. (records : List Record) → B.agrees bodies.new records →
        record { primary = shown_state primary.new; turned = turned } ≡
        rows.hears (ground place.now records own.now held.now) (shown_state primary.old) from
        payload.now) }
    ensures rises { OnOk result (HeadRises own.now → CommittedUnder primary.old.tenure →
        CommittedUnder primary.new.tenure) }
    ensures sound { OnOk result (AreSound own.now.versions (peers_under primary.new.tenure)
        searches.new) }
    ensures kept { OnErr result (primary.new.learnt ≡ primary.old.learnt) }
    ensures same { OnErr result (is_light_led payload.now ≡ true → primary.new ≡ primary.old) }
    ensures sound_still { OnErr result (is_light_led payload.now ≡ true →
        AreSound own.now.versions (peers_under primary.new.tenure) searches.new) }
    ensures reads { ReadsOnly B.agrees B.fault_count bodies.old bodies.new (fault_of result) }
{
    let Some(tenure) = &mut primary.tenure else {
        return Ok(quiet(alloc));
    };
    let heard = hears_in(
        alloc,
        place,
        primary.learnt,
        tenure,
        own,
        held,
        from,
        payload,
    )?;
    match heard {
        Heard::GoesOn { next } => {
            proceeds(bodies, alloc, place, tenure, searches, own, from, next)
        }
        Heard::Counts { turned } => Ok(turned),
        Heard::Staged { version } => {
            body_staged(bodies, alloc, place, tenure, searches, own, from, version)
        }
        Heard::Missed { version } => {
            searches.clear();
            body_missed(bodies, alloc, place, tenure, searches, own, from, version)
        }
        Heard::Redraws { above } => {
            searches.clear();
            Ok(redraws(alloc, place, primary, own, above)?)
        }
    }
}
