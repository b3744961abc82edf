ghost use Rattle.std.specs.Prelude.{◌≡◌, ◌<◌, ◌^◌, IfOk, IfErr, IsTrue, false, true};
ghost use Rattle.std.specs.List.{All};
ghost use Rattle.xt_messages.specs.Limits.{FitsNode, FitsMessage};
ghost use Rattle.client_rows.specs.Requests.{is_ready};
ghost use Rattle.client_rows.specs.Rows as rows;
ghost use Rattle.client_limits.specs.Fits.{FitsCall, FitsClient};
ghost use Rattle.client_loop.specs.declared.course.Handed.TheVariants as handed_to;
ghost use Rattle.client_loop.specs.Carrying.{step_of, FitsHanded};

use crate::course::Handed;
use crate::errors::DriveErr;
use client_core::{CallErr, Client};
use xt_messages::{Call, Msgs};
use xt_protocol::Turned;

/// What a step sends. A client keeps no record, and nobody reads its marks here.
fn outs_of(turned: Turned) -> Msgs
    ensures { result ≡ turned.outs }
{
    let (_, outs, _) = turned.into_parts();
    outs
}

/// Makes a call, and gives what the client sends.
pub fn make(client: &mut Client, call: &Call, now: u64) -> Result<Msgs, DriveErr>
    requires clock { now < 2 ^ 62 }
    requires idle { rows.is_busy client.old.state.made ≡ false }
    requires held { IsTrue (is_ready client.old.state.held call.now) }
    requires node { FitsNode client.old.node }
    requires fits { FitsClient client.old.state }
    requires call { FitsCall call.now }
    ensures step { IfOk result (λ outs.
        let step = rows.called client.old.node client.old.times client.old.state now call.now in
        (client.new ≡ record client.old { state = step.state }) × (outs ≡ step.turned.outs)) }
    ensures fits { IfOk result (λ outs. All FitsMessage outs × FitsClient client.new.state) }
    ensures none { IfErr result (λ error. (error ≡ DriveErr.OutOfMemory)
        × (client.new ≡ client.old)) }
{
    match client.call(now, call) {
        Ok(turned) => Ok(outs_of(turned)),
        Err(CallErr::OutOfMemory) => Err(DriveErr::OutOfMemory),
        Err(CallErr::Busy | CallErr::NoCall) => unreachable!(),
    }
}

/// Hands something to a client, and gives what it sends.
pub fn give(client: &mut Client, handed: &Handed, now: u64) -> Result<Msgs, DriveErr>
    requires clock { now < 2 ^ 62 }
    requires node { FitsNode client.old.node }
    requires fits { FitsClient client.old.state }
    requires handed { FitsHanded handed.now }
    requires again { handed.now ≡ handed_to.Again → rows.may_repeat client.old.state.made ≡ true }
    ensures step { IfOk result (λ outs.
        let step = step_of client.old now handed.now in
        (client.new ≡ record client.old { state = step.state }) × (outs ≡ step.turned.outs)) }
    ensures fits { IfOk result (λ outs. All FitsMessage outs × FitsClient client.new.state) }
    ensures none { IfErr result (λ error. (error ≡ DriveErr.OutOfMemory)
        × (client.new ≡ client.old)) }
{
    match handed {
        Handed::Again => match client.again(now) {
            Ok(turned) => Ok(outs_of(turned)),
            Err(CallErr::OutOfMemory) => Err(DriveErr::OutOfMemory),
            Err(CallErr::Busy | CallErr::NoCall) => unreachable!(),
        },
        Handed::Event { event } => match client.step(now, event) {
            Ok(turned) => Ok(outs_of(turned)),
            Err(_) => Err(DriveErr::OutOfMemory),
        },
    }
}
