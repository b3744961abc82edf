ghost use Rattle.std.specs.Prelude.{◌≡◌, ℕ, List, None, Some, IfOk, IfSome, IsTrue, OnOk, is_some, option_map, slice_get};
ghost use Rattle.xt_messages.specs.declared.file.FileHead.{FileHead};
ghost use Rattle.xt_protocol.specs.declared.states.Peer.{Peer};
ghost use Rattle.xt_messages.specs.declared.file.ObjectVersion.{ObjectVersion};
ghost use Rattle.xt_messages.specs.declared.record.Record.{Record};
ghost use Rattle.xt_protocol.specs.declared.states.PeerState.TheVariants as peer;
ghost use Rattle.xt_protocol.specs.Primaries as rows;
ghost use Rattle.xt_protocol.specs.PrimaryRows.{goes_on, target_in, with_state};
ghost use Rattle.xt_protocol.specs.ReplicaRows.{first_missing};
ghost use Rattle.xt_protocol.specs.Turns.{sends};
ghost use Rattle.object_versions.specs.KeptBodies.{fault_of, ReadsOnly};
ghost use Rattle.peer_searches.specs.Sound.{AreSound, known_in, known_of};
ghost use Rattle.replica_primary.specs.Written.{ground};
ghost use Rattle.replica_primary.specs.Moves.{body_seen, feeds_any, misses_in};
ghost use Rattle.replica_primary.specs.Feeding.{IsOfOwn, head_of, is_at_head, of_own};

use crate::moving::FetchedBody;
use crate::peers::{peer_in, set_peer, swap_state};
use crate::sending::{last_sent, send_any};
use object_versions::{Bodies, StepErr, is_epoch, is_stamp, let_go, seen};
use peer_searches::{Search, Searches, first_unknown};
use std::alloc::Global;
use xt_base::{Copies, Epoch, FileId, NodeId, Octets, OutOfMemory, Seq, Stamp};
use xt_messages::{FileHead, HeldSet, ObjectVersion};
use xt_protocol::{Peer, PeerState, Peers, Place, Progress, Tenure, Turned, quiet, sends};

/// A body as a row sees it: the one that was just fetched, else the one that is kept.
fn body_seen<B: Bodies>(
    bodies: &mut B,
    alloc: Global,
    file: &FileId,
    fetched: &Option<FetchedBody>,
    object: u64,
    version: &Stamp,
) -> Result<Octets, StepErr>
    ensures value { IfOk result (λ bytes. (records : List Record) → B.agrees bodies.new records →
        bytes ≡ body_seen records file.now fetched.now object version.now) }
    ensures reads { ReadsOnly B.agrees B.fault_count bodies.old bodies.new (fault_of result) }
{
    match fetched {
        Some(body) if body.object == object && is_stamp(body.version, *version) => {
            Ok(body.bytes.copy(alloc)?)
        }
        _ => seen(bodies, alloc, file, object, version),
    }
}

/// A head to which peers are brought.
#[derive(Drop)]
pub enum Target<'a> {
    /// This one as it is.
    Whole { head: &'a FileHead },
    /// This one under this epoch.
    Under { head: &'a FileHead, epoch: Epoch },
}

impl<'a> Target<'a> {
    /// The versions that the peers are to have.
    pub fn versions(&self) -> &[ObjectVersion]
        ensures { result.now ≡ (head_of self.now).versions }
    {
        match self {
            Target::Whole { head } | Target::Under { head, .. } => head.versions.as_slice(),
        }
    }

    /// How many of the versions that a search has passed are the own head's, of which all searches are; none where peers are brought to
    /// another one.
    pub fn of_own(&self, passed: usize) -> usize
        ensures { result ≡ of_own self.now passed }
    {
        match self {
            Target::Whole { .. } => passed,
            Target::Under { .. } => 0,
        }
    }

    /// The head itself.
    pub fn copy(&self, alloc: Global) -> Result<FileHead, OutOfMemory>
        ensures { IfOk result (λ head. head ≡ head_of self.now) }
    {
        match self {
            Target::Whole { head } => head.copy(alloc),
            Target::Under { head, epoch } => {
                let mut under = head.copy(alloc)?;
                under.promised = *epoch;
                under.stamp.epoch = *epoch;
                Ok(under)
            }
        }
    }
}

/// The next state of a peer of which these versions are known, on its way to this head: it is sent the body of the version at `found`,
/// and where none stands there, the head.
pub fn next_state<B: Bodies>(
    bodies: &mut B,
    alloc: Global,
    file: &FileId,
    fetched: &Option<FetchedBody>,
    target: &Target<'_>,
    known: HeldSet,
    found: usize,
) -> Result<PeerState, StepErr>
    ensures value { IfOk result (λ state. (records : List Record) → B.agrees bodies.new records →
        state ≡ rows.fed_next (body_seen records file.now fetched.now) (head_of target.now) known
        (slice_get (head_of target.now).versions found)) }
    ensures reads { ReadsOnly B.agrees B.fault_count bodies.old bodies.new (fault_of result) }
{
    match target.versions().get(found).copied() {
        Some(ObjectVersion { object, version }) => Ok(PeerState::Feeding {
            known,
            object,
            version,
            body: body_seen(bodies, alloc, file, fetched, object, &version)?,
        }),
        None => Ok(PeerState::Heading {
            known,
            head: target.copy(alloc)?,
        }),
    }
}

/// Fed: a peer of which these versions are known, on its way to this head. At `found` stands the first of its versions that isn't.
pub fn fed<B: Bodies>(
    bodies: &mut B,
    alloc: Global,
    file: &FileId,
    fetched: &Option<FetchedBody>,
    target: &Target<'_>,
    known: HeldSet,
    found: usize,
) -> Result<PeerState, StepErr>
    requires { slice_get (head_of target.now).versions found ≡
        first_missing known (head_of target.now).versions }
    ensures value { IfOk result (λ state. (records : List Record) → B.agrees bodies.new records →
        state ≡ rows.fed (body_seen records file.now fetched.now) (head_of target.now) known) }
    ensures reads { ReadsOnly B.agrees B.fault_count bodies.old bodies.new (fault_of result) }
{
    next_state(bodies, alloc, file, fetched, target, known, found)
}

/// The head to which peers are brought: the own one once it is of the epoch, and before that the chosen one under the epoch.
pub fn target_of<'a>(own: &'a FileHead, epoch: Epoch, chosen: &'a FileHead) -> Target<'a>
    ensures head { head_of result ≡ rows.target_of own.now epoch chosen.now }
    ensures own { IsOfOwn own.now result }
{
    if is_epoch(own.stamp.epoch, epoch) {
        return Target::Whole { head: own };
    }
    Target::Under {
        head: chosen,
        epoch,
    }
}

/// The head to which peers are brought, if there is one so far.
pub fn target_in<'a>(own: &'a FileHead, epoch: Epoch, progress: &'a Progress) -> Option<Target<'a>>
    ensures head { option_map head_of result ≡ target_in own.now epoch progress.now }
    ensures own { IfSome result (IsOfOwn own.now) }
{
    match progress {
        Progress::Installing { chosen, .. } => Some(target_of(own, epoch, chosen)),
        Progress::Active { .. } => Some(Target::Whole { head: own }),
        _ => None,
    }
}

/// What leads a peer to this state: a body, a head, or nothing.
pub fn sent_to(
    alloc: Global,
    place: &Place,
    epoch: Epoch,
    node: NodeId,
    state: &PeerState,
) -> Result<Turned, OutOfMemory>
    ensures { IfOk result (λ turned. turned ≡
        sends (rows.if_any place.now.node node (rows.last_sent place.now.file epoch state.now))) }
{
    let content = last_sent(alloc, &place.file, epoch, state)?;
    let mut outs = Seq::new(alloc);
    send_any(&mut outs, place.node, node, content)?;
    Ok(sends(alloc, outs))
}

/// A peer gets this state, and the message that leads to it.
fn send_to_peer(
    alloc: Global,
    place: &Place,
    tenure: &mut Tenure,
    node: NodeId,
    state: PeerState,
) -> Result<Turned, OutOfMemory>
    ensures state { tenure.new ≡ with_state tenure.old node state }
    ensures sent { IfOk result (λ turned. turned ≡
        sends (rows.if_any place.now.node node
        (rows.last_sent place.now.file tenure.old.epoch state))) }
{
    let sent = sent_to(alloc, place, tenure.epoch, node, &state);
    set_peer(&mut tenure.peers, node, state);
    sent
}

/// The next state of a peer of which these versions are known. The search for what it lacks begins, and comes as far as that.
fn fed_on<B: Bodies>(
    bodies: &mut B,
    alloc: Global,
    file: &FileId,
    searches: &mut Searches,
    target: &Target<'_>,
    node: NodeId,
    known: HeldSet,
) -> Result<PeerState, StepErr>
    ensures value { IfOk result (λ state. (records : List Record) → B.agrees bodies.new records →
        state ≡ rows.fed (body_seen records file.now None) (head_of target.now) known) }
    ensures sound { IfOk result (λ state. (own : FileHead) (peers : List Peer) →
        IsOfOwn own target.now → AreSound own.versions peers searches.old →
        AreSound own.versions (rows.with_peer peers node state) searches.new) }
    ensures reads { ReadsOnly B.agrees B.fault_count bodies.old bodies.new (fault_of result) }
{
    let found = first_unknown(&known, target.versions(), 0);
    searches.put(Search {
        node,
        passed: target.of_own(found),
    })?;
    fed(bodies, alloc, file, &None, target, known, found)
}

/// A peer of which these versions are known is fed on, where there is a head to which peers are brought. The search for what it lacks
/// begins.
pub fn feeds_on<B: Bodies>(
    bodies: &mut B,
    alloc: Global,
    place: &Place,
    tenure: &mut Tenure,
    searches: &mut Searches,
    own: &FileHead,
    from: NodeId,
    known: HeldSet,
) -> Result<Turned, StepErr>
    requires { AreSound own.now.versions tenure.old.peers searches.old }
    ensures value { IfOk result (λ turned. (records : List Record) → B.agrees bodies.new records →
        (learnt : ℕ) (held : List ObjectVersion) →
        goes_on learnt tenure.new turned ≡
        feeds_any (ground place.now records own.now held) learnt tenure.old
        (target_in own.now tenure.old.epoch tenure.old.progress) from (Some known)) }
    ensures sound { OnOk result (AreSound own.now.versions tenure.new.peers searches.new) }
    ensures reads { ReadsOnly B.agrees B.fault_count bodies.old bodies.new (fault_of result) }
{
    let Some(target) = target_in(own, tenure.epoch, &tenure.progress) else {
        return Ok(quiet(alloc));
    };
    let state = fed_on(bodies, alloc, &place.file, searches, &target, from, known)?;
    Ok(send_to_peer(alloc, place, tenure, from, state)?)
}

/// What is known of a peer that was sent a body or a head.
pub fn known_of(state: PeerState) -> Option<HeldSet>
    ensures { result ≡ known_of state }
{
    match state {
        PeerState::Feeding { known, body, .. } => {
            drop(body);
            Some(known)
        }
        PeerState::Heading { known, head } => {
            drop(head);
            Some(known)
        }
        other => {
            drop(other);
            None
        }
    }
}

/// Takes out what is known of a peer that was sent a body or a head. The peer's state is to be set again then.
fn take_known(peers: &mut Peers, node: NodeId) -> HeldSet
    requires { IsTrue (is_some (known_in (rows.peer_in peers.old node))) }
    ensures known { Some result ≡ known_in (rows.peer_in peers.old node) }
    ensures set { peers.new ≡ rows.with_peer peers.old node peer.Unknown }
{
    let Some(before) = swap_state(peers, node, PeerState::Unknown) else {
        unreachable!()
    };
    let Some(known) = known_of(before) else {
        unreachable!()
    };
    known
}

/// Whether a peer was sent a head last.
fn is_at_head(peers: &[Peer], node: NodeId) -> bool
    ensures { result ≡ is_at_head (rows.peer_in peers.now node) }
{
    match peer_in(peers, node) {
        Some(PeerState::Heading { .. }) => true,
        _ => false,
    }
}

/// Body missed: it is no longer known of the peer, which is fed on. The search for what it lacks begins again.
pub fn body_missed<B: Bodies>(
    bodies: &mut B,
    alloc: Global,
    place: &Place,
    tenure: &mut Tenure,
    searches: &mut Searches,
    own: &FileHead,
    from: NodeId,
    version: ObjectVersion,
) -> Result<Turned, StepErr>
    requires { AreSound own.now.versions tenure.old.peers searches.old }
    ensures value { IfOk result (λ turned. (records : List Record) → B.agrees bodies.new records →
        (learnt : ℕ) (held : List ObjectVersion) →
        goes_on learnt tenure.new turned ≡
        misses_in (ground place.now records own.now held) learnt tenure.old from
        (rows.peer_in tenure.old.peers from) version) }
    ensures sound { OnOk result (AreSound own.now.versions tenure.new.peers searches.new) }
    ensures reads { ReadsOnly B.agrees B.fault_count bodies.old bodies.new (fault_of result) }
{
    let Some(target) = target_in(own, tenure.epoch, &tenure.progress) else {
        return Ok(quiet(alloc));
    };
    if !is_at_head(tenure.peers.as_slice(), from) {
        return Ok(quiet(alloc));
    }
    let mut known = take_known(&mut tenure.peers, from);
    let_go(&mut known, version);
    let state = fed_on(bodies, alloc, &place.file, searches, &target, from, known)?;
    Ok(send_to_peer(alloc, place, tenure, from, state)?)
}
