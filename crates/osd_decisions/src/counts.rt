ghost use Rattle.std.specs.Prelude.{◌≡◌, ◌≤◌, length, nat_le, ◌&&◌};
ghost use Rattle.xt_base.specs.MemberList.{has_node};
ghost use Rattle.xt_protocol.specs.Primaries as rows;

use xt_base::{NodeId, has_node};
use xt_protocol::{Peer, PeerState};

/// Whether so many are more than half of the members.
pub fn is_majority(peers: &[Peer], count: usize) -> bool
    ensures { result ≡ nat_le (rows.majority_among peers.now) count }
{
    count > peers.len() / 2
}

/// How many statuses are counted: those of the peers that have reported.
pub fn statuses_counted(peers: &[Peer]) -> usize
    ensures counted { result ≡ rows.statuses_counted peers.now }
    ensures few { result ≤ length peers.now }
{
    let mut count = 0;
    for peer in peers {
        if let PeerState::Reported { .. } = peer.state {
            count += 1;
        }
    }
    count
}

/// Whether these are a majority of the members, the own node among them.
pub fn carries(own: NodeId, peers: &[Peer], acked: &[NodeId]) -> bool
    ensures { result ≡
        (nat_le (rows.majority_among peers.now) (length acked.now) && has_node acked.now own.0) }
{
    is_majority(peers, acked.len()) && has_node(acked, own)
}
