ghost use Rattle.std.specs.Prelude.{◌≡◌, IfOk};
ghost use Rattle.xt_protocol.specs.declared.states.PeerState.TheVariants as state;
ghost use Rattle.xt_protocol.specs.declared.states.Progress.TheVariants as progress;

use std::alloc::Global;
use xt_base::{Copies, NodeId, Octets, OutOfMemory, Seq};
use xt_messages::{FileHead, HeldSet, ObjectVersion, Versions};
use xt_protocol::{IssuedUpdate, Nodes, Peer, PeerState, Peers, PrimaryState, Progress, Tenure};

/// An equal set of versions.
fn copy_held(held: &HeldSet) -> Result<HeldSet, OutOfMemory>
    ensures { IfOk result (λ made. made ≡ held.now) }
{
    Ok(HeldSet {
        versions: held.versions.clone()?,
    })
}

/// The state of a peer that was sent this body last.
fn copy_feeding(
    alloc: Global,
    known: &HeldSet,
    version: ObjectVersion,
    body: &Octets,
) -> Result<PeerState, OutOfMemory>
    ensures { IfOk result (λ made. made ≡
        state.Feeding known.now version.object version.version body.now) }
{
    let known = copy_held(known)?;
    let body = body.copy(alloc)?;
    Ok(PeerState::Feeding {
        known,
        object: version.object,
        version: version.version,
        body,
    })
}

/// The state of a peer that was sent this head last.
fn copy_heading(alloc: Global, known: &HeldSet, head: &FileHead) -> Result<PeerState, OutOfMemory>
    ensures { IfOk result (λ made. made ≡ state.Heading known.now head.now) }
{
    let known = copy_held(known)?;
    let head = head.copy(alloc)?;
    Ok(PeerState::Heading { known, head })
}

/// An equal state of a peer.
fn copy_peer_state(alloc: Global, state: &PeerState) -> Result<PeerState, OutOfMemory>
    ensures { IfOk result (λ made. made ≡ state.now) }
{
    match state {
        PeerState::Unknown => Ok(PeerState::Unknown),
        PeerState::Reported { head } => Ok(PeerState::Reported {
            head: head.copy(alloc)?,
        }),
        PeerState::Feeding {
            known,
            object,
            version,
            body,
        } => {
            let version = ObjectVersion {
                object: *object,
                version: *version,
            };
            copy_feeding(alloc, known, version, body)
        }
        PeerState::Heading { known, head } => copy_heading(alloc, known, head),
        PeerState::Current => Ok(PeerState::Current),
    }
}

/// An equal peer.
fn copy_peer(alloc: Global, peer: &Peer) -> Result<Peer, OutOfMemory>
    ensures { IfOk result (λ made. made ≡ peer.now) }
{
    Ok(Peer {
        node: peer.node,
        state: copy_peer_state(alloc, &peer.state)?,
    })
}

/// Equal peers, in order.
fn copy_peers(alloc: Global, peers: &[Peer]) -> Result<Peers, OutOfMemory>
    ensures { IfOk result (λ made. made ≡ peers.now) }
{
    let mut made = Seq::new(alloc);
    for peer in peers {
        made.push(copy_peer(alloc, peer)?)?;
    }
    Ok(made)
}

/// An equal issued update.
fn copy_issued(alloc: Global, issued: &IssuedUpdate) -> Result<IssuedUpdate, OutOfMemory>
    ensures { IfOk result (λ made. made ≡ issued.now) }
{
    let update = issued.update.copy(alloc)?;
    let acked = issued.acked.copy(alloc)?;
    Ok(IssuedUpdate { update, acked })
}

/// An equal issued update, where there is one.
fn copy_any_issued(
    alloc: Global,
    issued: &Option<IssuedUpdate>,
) -> Result<Option<IssuedUpdate>, OutOfMemory>
    ensures { IfOk result (λ made. made ≡ issued.now) }
{
    match issued {
        Some(issued) => Ok(Some(copy_issued(alloc, issued)?)),
        None => Ok(None),
    }
}

/// How far a primary is that fetches bodies.
fn copy_fetching(
    alloc: Global,
    chosen: &FileHead,
    source: NodeId,
    asked: ObjectVersion,
    later: &Versions,
) -> Result<Progress, OutOfMemory>
    ensures { IfOk result (λ made. made ≡ progress.Fetching chosen.now source asked later.now) }
{
    let chosen = chosen.copy(alloc)?;
    let later = later.copy(alloc)?;
    Ok(Progress::Fetching {
        chosen,
        source,
        asked,
        later,
    })
}

/// How far a primary is that installs a head.
fn copy_installing(alloc: Global, chosen: &FileHead, acked: &Nodes) -> Result<Progress, OutOfMemory>
    ensures { IfOk result (λ made. made ≡ progress.Installing chosen.now acked.now) }
{
    let chosen = chosen.copy(alloc)?;
    let acked = acked.copy(alloc)?;
    Ok(Progress::Installing { chosen, acked })
}

/// How far a primary is that is active.
fn copy_active(
    alloc: Global,
    committed: &FileHead,
    issued: &Option<IssuedUpdate>,
) -> Result<Progress, OutOfMemory>
    ensures { IfOk result (λ made. made ≡ progress.Active committed.now issued.now) }
{
    let committed = committed.copy(alloc)?;
    let issued = copy_any_issued(alloc, issued)?;
    Ok(Progress::Active { committed, issued })
}

/// How far a primary is, once more.
fn copy_progress(alloc: Global, progress: &Progress) -> Result<Progress, OutOfMemory>
    ensures { IfOk result (λ made. made ≡ progress.now) }
{
    match progress {
        Progress::Gathering => Ok(Progress::Gathering),
        Progress::Fetching {
            chosen,
            source,
            asked,
            later,
        } => copy_fetching(alloc, chosen, *source, *asked, later),
        Progress::Installing { chosen, acked } => copy_installing(alloc, chosen, acked),
        Progress::Active { committed, issued } => copy_active(alloc, committed, issued),
    }
}

/// An equal tenure.
fn copy_tenure(alloc: Global, tenure: &Tenure) -> Result<Tenure, OutOfMemory>
    ensures { IfOk result (λ made. made ≡ tenure.now) }
{
    let peers = copy_peers(alloc, tenure.peers.as_slice())?;
    let progress = copy_progress(alloc, &tenure.progress)?;
    Ok(Tenure {
        epoch: tenure.epoch,
        peers,
        progress,
    })
}

/// An equal state of a primary.
pub fn copy_state(alloc: Global, state: &PrimaryState) -> Result<PrimaryState, OutOfMemory>
    ensures { IfOk result (λ made. made ≡ state.now) }
{
    let tenure = match &state.tenure {
        Some(tenure) => Some(copy_tenure(alloc, tenure)?),
        None => None,
    };
    Ok(PrimaryState {
        learnt: state.learnt,
        tenure,
    })
}
