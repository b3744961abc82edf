ghost use Rattle.std.specs.Prelude.{◌≡◌, ◌++◌, IfOk, OnOk, flat_map};
ghost use Rattle.xt_protocol.specs.Primaries as rows;

use std::alloc::Global;
use xt_base::{Copies, Epoch, FileId, NodeId, OutOfMemory, Seq};
use xt_messages::{Msgs, Payload};
use xt_protocol::{Peer, PeerState, message};

/// What was sent last to a peer that is brought up to date: a body or a head.
pub fn last_sent(
    alloc: Global,
    file: &FileId,
    epoch: Epoch,
    state: &PeerState,
) -> Result<Option<Payload>, OutOfMemory>
    ensures { IfOk result (λ sent. sent ≡ rows.last_sent file.now epoch state.now) }
{
    Ok(match state {
        PeerState::Feeding {
            object,
            version,
            body,
            ..
        } => Some(Payload::Stage {
            file: *file,
            epoch,
            object: *object,
            version: *version,
            bytes: body.copy(alloc)?,
        }),
        PeerState::Heading { head, .. } => Some(Payload::Head {
            file: *file,
            epoch,
            head: head.copy(alloc)?,
        }),
        PeerState::Unknown | PeerState::Reported { .. } | PeerState::Current => None,
    })
}

/// Puts the message to a peer after the others, where there is one.
pub fn send_any(
    outs: &mut Msgs,
    from: NodeId,
    to: NodeId,
    content: Option<Payload>,
) -> Result<(), OutOfMemory>
    ensures { OnOk result (outs.new ≡ outs.old ++ rows.if_any from to content) }
{
    match content {
        Some(content) => outs.push(message(from, to, content)),
        None => Ok(()),
    }
}

/// To each peer that is brought up to date what was sent to it last, in list order.
pub fn last_to_each(
    alloc: Global,
    node: NodeId,
    file: &FileId,
    epoch: Epoch,
    peers: &[Peer],
) -> Result<Msgs, OutOfMemory>
    ensures { IfOk result (λ outs. outs ≡
        flat_map (λ p. rows.if_any node p.node (rows.last_sent file.now epoch p.state)) peers.now) }
{
    let mut outs = Seq::new(alloc);
    for peer in peers {
        let content = last_sent(alloc, file, epoch, &peer.state)?;
        send_any(&mut outs, node, peer.node, content)?;
    }
    Ok(outs)
}
