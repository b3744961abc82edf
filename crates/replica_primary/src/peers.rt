ghost use Rattle.std.specs.Prelude.{◌≡◌, ◌∷◌, ◌++◌, [], None, Some, MatchOption, IfOk, map};
ghost use Rattle.xt_protocol.specs.Primaries as rows;
ghost use Rattle.replica_primary.specs.Places.{IsPeerPlace};

use std::alloc::Global;
use std::mem;
use xt_base::{NodeId, OutOfMemory, Seq};
use xt_protocol::{Peer, PeerState, Peers};

/// How far a node is, where it is a peer.
#[tactic(auto, unfolding(xt_protocol::specs::Primaries::peer_in))]
pub fn peer_in(peers: &[Peer], node: NodeId) -> Option<&PeerState>
    ensures { MatchOption result (rows.peer_in peers.now node ≡ None) (λ state.
        rows.peer_in peers.now node ≡ Some state.now) }
{
    for peer in peers {
        if peer.node == node {
            return Some(&peer.state);
        }
    }
    None
}

/// Where a node is among the peers.
fn place_of(peers: &[Peer], node: NodeId) -> Option<usize>
    ensures { IsPeerPlace peers.now node result }
{
    for (place, peer) in peers.iter().enumerate() {
        if peer.node.0 == node.0 {
            return Some(place);
        }
    }
    None
}

/// A peer gets this state, and the one before is given. A node that is no peer changes nothing.
pub fn swap_state(peers: &mut Peers, node: NodeId, state: PeerState) -> Option<PeerState>
    ensures before { result ≡ rows.peer_in peers.old node }
    ensures after { peers.new ≡ rows.with_peer peers.old node state }
{
    let Some(place) = place_of(peers.as_slice(), node) else {
        return None;
    };
    let before = mem::replace(&mut peers.items[place], Peer { node, state });
    let Peer { node: _, state } = before;
    Some(state)
}

/// A peer gets this state. A node that is no peer changes nothing.
pub fn set_peer(peers: &mut Peers, node: NodeId, state: PeerState)
    ensures { peers.new ≡ rows.with_peer peers.old node state }
{
    if let Some(place) = place_of(peers.as_slice(), node) {
        peers.items[place] = Peer { node, state };
    }
}

/// Peers of which nothing is known, one for each of these nodes, in order.
pub fn unknown_peers(alloc: Global, nodes: &[NodeId]) -> Result<Peers, OutOfMemory>
    ensures { IfOk result (λ peers. peers ≡ map rows.unknown_peer nodes.now) }
{
    let mut peers = Seq::new(alloc);
    for node in nodes {
        peers.push(Peer {
            node: *node,
            state: PeerState::Unknown,
        })?;
    }
    Ok(peers)
}
