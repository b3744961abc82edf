ghost use Rattle.std.specs.Prelude.{◌≡◌, IfOk};
ghost use Rattle.xt_messages.specs.declared.message.Payload.TheVariants as payload;
ghost use Rattle.xt_protocol.specs.Primaries.{nodes_of};
ghost use Rattle.xt_protocol.specs.PrimaryRows as rows;
ghost use Rattle.xt_protocol.specs.Turns.{to_each};
ghost use Rattle.osd_decisions.specs.Committed.{CommittedUnder};

use crate::peers::unknown_peers;
use std::alloc::Global;
use xt_base::{COUNTS, Epoch, NodeId, OptionalBox, OutOfMemory, Seq};
use xt_messages::{FileHead, Msgs, Payload, Record};
use xt_protocol::{Nodes, Peer, Place, Progress, Tenure, Turned, quiet, to_each};

/// A tenure that begins, none where no number is left, and what is sent then.
#[derive(Drop)]
pub struct Drawn {
    pub tenure: Option<Tenure>,
    pub turned: Turned,
}

/// Each of these nodes is asked what it has.
fn gathers(
    alloc: Global,
    place: &Place,
    epoch: Epoch,
    nodes: &[NodeId],
) -> Result<Msgs, OutOfMemory>
    ensures { IfOk result (λ outs. outs ≡
        to_each place.now.node nodes.now (payload.Gather place.now.file epoch)) }
{
    let gather = Payload::Gather {
        file: place.file,
        epoch,
    };
    to_each(alloc, place.node, nodes, &gather)
}

/// Epoch drawn: the own promise is kept, and all are asked. Without a number left the primary is idle.
#[tactic(auto, unfolding(xt_protocol::specs::PrimaryRows::draw_epoch))]
pub fn draw_epoch(
    alloc: Global,
    place: &Place,
    learnt: u64,
    own: &FileHead,
    members: &[NodeId],
) -> Result<Drawn, OutOfMemory>
    ensures row { IfOk result (λ drawn.
        record {
          primary = record { learnt = learnt; tenure = drawn.tenure };
          turned = drawn.turned;
        } ≡ rows.draw_epoch place.now learnt own.now members.now) }
    ensures rises { IfOk result (λ drawn. CommittedUnder drawn.tenure) }
{
    let greatest = own.promised.number.max(learnt);
    if greatest >= COUNTS - 1 {
        return Ok(Drawn {
            tenure: None,
            turned: quiet(alloc),
        });
    }
    let epoch = Epoch {
        number: 1 + greatest,
        node: place.node,
    };
    let peers = unknown_peers(alloc, members)?;
    let outs = gathers(alloc, place, epoch, members)?;
    let promise = Record::Promise {
        file: place.file,
        epoch,
    };
    let rec = OptionalBox::some(alloc, promise)?;
    Ok(Drawn {
        tenure: Some(Tenure {
            epoch,
            peers,
            progress: Progress::Gathering,
        }),
        turned: Turned {
            rec,
            outs,
            marks: Seq::new(alloc),
        },
    })
}

/// The nodes of these peers, in order.
fn nodes_of(alloc: Global, peers: &[Peer]) -> Result<Nodes, OutOfMemory>
    ensures { IfOk result (λ nodes. nodes ≡ nodes_of peers.now) }
{
    let mut nodes = Seq::new(alloc);
    for peer in peers {
        nodes.push(peer.node)?;
    }
    Ok(nodes)
}

/// A new epoch is drawn, and the same members are asked.
pub fn redrawn(
    alloc: Global,
    place: &Place,
    learnt: u64,
    own: &FileHead,
    peers: &[Peer],
) -> Result<Drawn, OutOfMemory>
    ensures { IfOk result (λ drawn.
        record {
          primary = record { learnt = learnt; tenure = drawn.tenure };
          turned = drawn.turned;
        } ≡ rows.draw_epoch place.now learnt own.now (nodes_of peers.now)) }
{
    let nodes = nodes_of(alloc, peers)?;
    draw_epoch(alloc, place, learnt, own, nodes.as_slice())
}
