ghost use Rattle.std.specs.Prelude.{◌≡◌, IfOk, flat_map};
ghost use Rattle.xt_protocol.specs.Primaries.{if_any};
ghost use Rattle.xt_protocol.specs.Serving as rows;
ghost use Rattle.xt_protocol.specs.Turns.{sends};

use crate::sending::{last_sent, send_any};
use std::alloc::Global;
use xt_base::{Copies, Epoch, FileId, NodeId, OutOfMemory, Seq, has_node};
use xt_messages::Payload;
use xt_protocol::{
    IssuedUpdate, Peer, PeerState, Place, PrimaryState, Progress, Tenure, Turned, message, quiet,
    sends, sends_one,
};

/// An unknown peer is asked again.
fn gather_unknown(place: &Place, epoch: Epoch, peer: &Peer) -> Option<Payload>
    ensures { result ≡ rows.gather_unknown place.now epoch peer.now.node peer.now.state }
{
    match peer.state {
        PeerState::Unknown => Some(Payload::Gather {
            file: place.file,
            epoch,
        }),
        _ => None,
    }
}

/// The update for a peer that hasn't acknowledged it.
fn unacked(
    alloc: Global,
    file: &FileId,
    node: NodeId,
    issued: &Option<IssuedUpdate>,
) -> Result<Option<Payload>, OutOfMemory>
    ensures { IfOk result (λ content. content ≡ rows.unacked file.now node issued.now) }
{
    let Some(issued) = issued else {
        return Ok(None);
    };
    if has_node(issued.acked.as_slice(), node) {
        return Ok(None);
    }
    Ok(Some(Payload::Update {
        file: *file,
        update: issued.update.copy(alloc)?,
    }))
}

/// What a peer is sent again once a head was chosen.
fn resend(
    alloc: Global,
    place: &Place,
    epoch: Epoch,
    issued: &Option<IssuedUpdate>,
    peer: &Peer,
) -> Result<Option<Payload>, OutOfMemory>
    ensures { IfOk result (λ content. content ≡
        rows.resend place.now epoch issued.now peer.now.node peer.now.state) }
{
    match &peer.state {
        PeerState::Unknown => Ok(Some(Payload::Gather {
            file: place.file,
            epoch,
        })),
        PeerState::Current => unacked(alloc, &place.file, peer.node, issued),
        state => last_sent(alloc, &place.file, epoch, state),
    }
}

/// Gather to each unknown peer, in list order.
fn gathers(
    alloc: Global,
    place: &Place,
    epoch: Epoch,
    peers: &[Peer],
) -> Result<Turned, OutOfMemory>
    ensures { IfOk result (λ turned. turned ≡
        sends
        (flat_map (λ p.
        if_any place.now.node p.node (rows.gather_unknown place.now epoch p.node p.state))
        peers.now)) }
{
    let mut outs = Seq::new(alloc);
    for peer in peers {
        let content = gather_unknown(place, epoch, peer);
        send_any(&mut outs, place.node, peer.node, content)?;
    }
    Ok(sends(alloc, outs))
}

/// To each peer what it is sent again once a head was chosen, in list order.
fn again_to_each(
    alloc: Global,
    place: &Place,
    epoch: Epoch,
    issued: &Option<IssuedUpdate>,
    peers: &[Peer],
) -> Result<Turned, OutOfMemory>
    ensures { IfOk result (λ turned. turned ≡
        sends
        (flat_map (λ p.
        if_any place.now.node p.node (rows.resend place.now epoch issued.now p.node p.state))
        peers.now)) }
{
    let mut outs = Seq::new(alloc);
    for peer in peers {
        let content = resend(alloc, place, epoch, issued, peer)?;
        send_any(&mut outs, place.node, peer.node, content)?;
    }
    Ok(sends(alloc, outs))
}

/// What a primary in a tenure sends again.
fn wakes_in(alloc: Global, place: &Place, tenure: &Tenure) -> Result<Turned, OutOfMemory>
    ensures { IfOk result (λ turned. turned ≡
        rows.wakes_in place.now tenure.now tenure.now.progress) }
{
    let (epoch, peers) = (tenure.epoch, tenure.peers.as_slice());
    match &tenure.progress {
        Progress::Gathering => gathers(alloc, place, epoch, peers),
        Progress::Fetching { source, asked, .. } => {
            let fetch = Payload::Fetch {
                file: place.file,
                epoch,
                object: asked.object,
                version: asked.version,
            };
            sends_one(alloc, message(place.node, *source, fetch))
        }
        Progress::Installing { .. } => again_to_each(alloc, place, epoch, &None, peers),
        Progress::Active { issued, .. } => again_to_each(alloc, place, epoch, issued, peers),
    }
}

/// Wakes: who hasn't answered is sent the same again.
#[tactic(auto, unfolding(xt_protocol::specs::Serving::wakes))]
pub fn wakes(alloc: Global, place: &Place, primary: &PrimaryState) -> Result<Turned, OutOfMemory>
    ensures { IfOk result (λ turned. turned ≡ rows.wakes place.now primary.now) }
{
    match &primary.tenure {
        None => Ok(quiet(alloc)),
        Some(tenure) => wakes_in(alloc, place, tenure),
    }
}
