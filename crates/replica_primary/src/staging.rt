ghost use Rattle.std.specs.Prelude.{◌≡◌, ℕ, List, None, Some, MatchOption, [], IfOk, IsTrue, OnErr, OnOk, is_some, slice_get, take};
ghost use Rattle.xt_messages.specs.declared.file.ObjectVersion.{ObjectVersion};
ghost use Rattle.xt_messages.specs.declared.record.Record.{Record};
ghost use Rattle.xt_protocol.specs.declared.states.Peer.{Peer};
ghost use Rattle.xt_protocol.specs.declared.states.PeerState.TheVariants as peer;
ghost use Rattle.xt_protocol.specs.Primaries as rows;
ghost use Rattle.xt_protocol.specs.PrimaryRows.{goes_on};
ghost use Rattle.xt_protocol.specs.ReplicaRows.{first_missing};
ghost use Rattle.xt_protocol.specs.Stamps.{has_version, with_held};
ghost use Rattle.xt_protocol.specs.Turns.{sends};
ghost use Rattle.object_versions.specs.KeptBodies.{fault_of, ReadsOnly};
ghost use Rattle.peer_searches.specs.Sound.{AreSound, known_in, known_of, with_search};
ghost use Rattle.replica_primary.specs.Written.{ground};
ghost use Rattle.replica_primary.specs.Moves.{body_seen, stages_in};
ghost use Rattle.replica_primary.specs.Feeding.{head_of, with_known};

use crate::feeding::{Target, known_of, next_state, sent_to, target_in};
use crate::peers::{peer_in, set_peer, swap_state};
use object_versions::{Bodies, StepErr, hold, holds, is_version};
use peer_searches::{Search, Searches};
use std::alloc::Global;
use xt_base::{Epoch, NodeId, OutOfMemory};
use xt_messages::{FileHead, HeldSet, ObjectVersion};
use xt_protocol::{Peer, PeerState, Peers, Place, Tenure, Turned, quiet};

/// What is known of a peer that was sent a body or a head.
fn known_at(peers: &[Peer], node: NodeId) -> Option<&HeldSet>
    ensures { MatchOption result (known_in (rows.peer_in peers.now node) ≡ None) (λ known.
        known_in (rows.peer_in peers.now node) ≡ Some known.now) }
{
    match peer_in(peers, node) {
        Some(PeerState::Feeding { known, .. } | PeerState::Heading { known, .. }) => Some(known),
        _ => None,
    }
}

/// Whether this version is known of a peer of which these and the staged one are.
fn is_known_with(known: &HeldSet, staged: ObjectVersion, version: ObjectVersion) -> bool
    ensures { result ≡ has_version (with_held known.now staged) version }
{
    is_version(version, staged) || holds(known, version)
}

/// The place of the first version that isn't known of a peer of which these and the staged one are, or how many there are where each
/// is known. The first `passed` of them are known, and aren't looked up again.
fn first_unknown_with(
    known: &HeldSet,
    staged: ObjectVersion,
    versions: &[ObjectVersion],
    passed: usize,
) -> usize
    requires { first_missing (with_held known.now staged) (take passed versions.now) ≡ None }
    ensures found { slice_get versions.now result ≡
        first_missing (with_held known.now staged) versions.now }
    ensures passed { first_missing (with_held known.now staged) (take result versions.now) ≡ None }
{
    for place in passed..versions.len() {
        let version = versions[place];
        if !is_known_with(known, staged, version) {
            return place;
        }
    }
    versions.len()
}

/// What a peer is sent next, and its state then. What is known of it is still to be put there.
#[derive(Drop)]
struct Sending {
    state: PeerState,
    turned: Turned,
}

/// A peer is sent the body of the version of this head at `found`, and where none stands there, the head.
fn sends_at<B: Bodies>(
    bodies: &mut B,
    alloc: Global,
    place: &Place,
    epoch: Epoch,
    target: &Target<'_>,
    node: NodeId,
    found: usize,
) -> Result<Sending, StepErr>
    ensures state { IfOk result (λ sending. (records : List Record) → B.agrees bodies.new records →
        sending.state ≡ rows.fed_next (body_seen records place.now.file None)
        (head_of target.now) [] (slice_get (head_of target.now).versions found)) }
    ensures turned { IfOk result (λ sending. sending.turned ≡
        sends (rows.if_any place.now.node node
        (rows.last_sent place.now.file epoch sending.state))) }
    ensures reads { ReadsOnly B.agrees B.fault_count bodies.old bodies.new (fault_of result) }
{
    let unknown = HeldSet::new(alloc);
    let state = next_state(bodies, alloc, &place.file, &None, target, unknown, found)?;
    let turned = sent_to(alloc, place, epoch, node, &state)?;
    Ok(Sending { state, turned })
}

/// A version more is known of a peer in this state. Where memory runs out, the state is as it was.
fn hold_in(state: &mut PeerState, version: ObjectVersion) -> Result<(), OutOfMemory>
    ensures held { OnOk result ((known : List ObjectVersion) → known_of state.old ≡ Some known →
        known_of state.new ≡ Some (with_held known version)) }
    ensures same { OnErr result (state.new ≡ state.old) }
{
    match state {
        PeerState::Feeding { known, .. } => hold(known, version),
        PeerState::Heading { known, .. } => hold(known, version),
        _ => Ok(()),
    }
}

/// Takes out what is known of a peer that was sent a body or a head, with this version. The peer's state is to be set again then.
/// Where memory runs out, the peers are as they were.
fn take_known_with(
    peers: &mut Peers,
    node: NodeId,
    version: ObjectVersion,
) -> Result<HeldSet, OutOfMemory>
    requires { IsTrue (is_some (known_in (rows.peer_in peers.old node))) }
    ensures known { IfOk result (λ known. (before : List ObjectVersion) →
        known_in (rows.peer_in peers.old node) ≡ Some before → known ≡ with_held before version) }
    ensures set { OnOk result (peers.new ≡ rows.with_peer peers.old node peer.Unknown) }
    ensures same { OnErr result (peers.new ≡ peers.old) }
{
    let Some(mut state) = swap_state(peers, node, PeerState::Unknown) else {
        unreachable!()
    };
    if let Err(error) = hold_in(&mut state, version) {
        set_peer(peers, node, state);
        return Err(error);
    }
    let Some(known) = known_of(state) else {
        unreachable!()
    };
    Ok(known)
}

/// A peer's state with these versions in place of those that were known.
fn with_known(state: PeerState, known: HeldSet) -> PeerState
    ensures { result ≡ with_known state known }
{
    match state {
        PeerState::Feeding {
            known: before,
            object,
            version,
            body,
        } => {
            drop(before);
            PeerState::Feeding {
                known,
                object,
                version,
                body,
            }
        }
        PeerState::Heading {
            known: before,
            head,
        } => {
            drop(before);
            PeerState::Heading { known, head }
        }
        other => {
            drop(known);
            other
        }
    }
}

/// A search has come this far. Where memory is out, each begins again.
fn come_to(searches: &mut Searches, search: Search)
    ensures { (versions : List ObjectVersion) (peers : List Peer) →
        AreSound versions peers (with_search searches.old search) →
        AreSound versions peers searches.new }
{
    if let Err(_) = searches.put(search) {
        searches.clear();
    }
}

/// Body staged: it is known of the peer, which is fed on. The search for what it lacks goes on where it ended. Where memory runs out or
/// a body can't be read, the tenure is as it was.
pub fn body_staged<B: Bodies>(
    bodies: &mut B,
    alloc: Global,
    place: &Place,
    tenure: &mut Tenure,
    searches: &mut Searches,
    own: &FileHead,
    from: NodeId,
    version: ObjectVersion,
) -> Result<Turned, StepErr>
    requires { AreSound own.now.versions tenure.old.peers searches.old }
    ensures value { IfOk result (λ turned. (records : List Record) → B.agrees bodies.new records →
        (learnt : ℕ) (held : List ObjectVersion) →
        goes_on learnt tenure.new turned ≡
        stages_in (ground place.now records own.now held) learnt tenure.old from
        (rows.peer_in tenure.old.peers from) version) }
    ensures same { OnErr result (tenure.new ≡ tenure.old) }
    ensures sound { AreSound own.now.versions tenure.new.peers searches.new }
    ensures reads { ReadsOnly B.agrees B.fault_count bodies.old bodies.new (fault_of result) }
{
    let Some(target) = target_in(own, tenure.epoch, &tenure.progress) else {
        return Ok(quiet(alloc));
    };
    let Some(known) = known_at(tenure.peers.as_slice(), from) else {
        return Ok(quiet(alloc));
    };
    let passed = target.of_own(searches.passed(from));
    let found = first_unknown_with(known, version, target.versions(), passed);
    let Sending { state, turned } = sends_at(
        bodies,
        alloc,
        place,
        tenure.epoch,
        &target,
        from,
        found,
    )?;
    let known = take_known_with(&mut tenure.peers, from, version)?;
    set_peer(&mut tenure.peers, from, with_known(state, known));
    come_to(
        searches,
        Search {
            node: from,
            passed: target.of_own(found),
        },
    );
    Ok(turned)
}
