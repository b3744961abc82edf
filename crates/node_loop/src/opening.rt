ghost use Rattle.std.specs.Prelude.{◌≡◌, ◌≤◌, ◌<◌, ◌^◌, ◌∷◌, [], length, IfOk, IfErr};
ghost use Rattle.xt_base.specs.Faults.{Rose};
ghost use Rattle.node_runs.specs.Links.{Reads};
ghost use Rattle.node_runs.specs.Serving.{HasServeCause};
ghost use Rattle.std.specs.Option.{IfSome, IfNone};
ghost use Rattle.node_loop.specs.Turns.{Opened, HasBegun, CannotBegin, IsWithin, turn_of};

use node_links::{Clock, Got, Link};
use xt_base::{Address, Failed};
use xt_messages::Status;

/// What a turn begins with.
#[derive(Clone, Copy)]
pub enum Opening {
    /// No time was left to the next Wake, so that nothing was received.
    NoTimeLeft,
    /// The link had nothing to give.
    NothingCame,
    /// A datagram of this length, at the front of the buffer, and where it came from.
    Piece { from: Address, len: usize },
}

/// Receives a datagram, if some time is left to the next Wake. Where something waits to be put, it doesn't wait for one: None then, where no
/// datagram is there or no time is left.
fn receive<L: Link>(
    link: &mut L,
    left: u64,
    waits: bool,
    buf: &mut [u8],
) -> Result<Option<Opening>, Failed>
    requires room { 65536 ≤ length buf.old }
    ensures long { length buf.new ≡ length buf.old }
    ensures opened { IfOk result (λ opening. IfSome opening (Opened left (L.given link.old) (L.given link.new) buf.new)) }
    ensures nothing { IfOk result (λ opening. IfNone opening (L.given link.new ≡ L.given link.old)) }
    ensures sent { (L.sent link.new ≡ L.sent link.old)
        × (L.loss_count link.new ≡ L.loss_count link.old) }
    ensures faults { IfOk result (λ opening. L.fault_count link.new ≡ L.fault_count link.old) }
    ensures failed { IfErr result (λ failed. (0 < left) × (L.given link.new ≡ L.given link.old)
        × Rose (L.fault_count link.old) (L.fault_count link.new)) }
{
    if left == 0 {
        return Ok(if waits {
            None
        } else {
            Some(Opening::NoTimeLeft)
        });
    }
    let most = if waits { 0 } else { left };
    match link.receive(most, buf)? {
        Got::Piece { from, len } => Ok(Some(Opening::Piece { from, len })),
        Got::NothingYet => Ok(if waits {
            None
        } else {
            Some(Opening::NothingCame)
        }),
    }
}

/// Reads the clock, with what contracts know of it in the form that a turn needs.
fn read<C: Clock>(clock: &mut C) -> Result<u64, Failed>
    ensures limit { IfOk result (λ reading. reading < 2 ^ 62) }
    ensures reads { IfOk result (λ reading. Reads (C.readings clock.old) (C.readings clock.new)
        (reading ∷ [])) }
    ensures faults { IfOk result (λ reading. C.fault_count clock.new ≡ C.fault_count clock.old) }
    ensures failed { IfErr result (λ failed. (C.readings clock.new ≡ C.readings clock.old)
        × Rose (C.fault_count clock.old) (C.fault_count clock.new)) }
{
    clock.now()
}

/// Begins a turn: a receive, if some time is left to the next Wake, and after it a reading of the clock. A receive can wait for longer
/// than the drift, so a node that read the clock first could act on a lease that is over.
///
/// Where something waits to be put, only a datagram that is there already begins a turn: None where none is, or no time is left.
#[tactic(auto, using(crate::proofs::Beginning::has_begun, crate::proofs::Beginning::is_within, crate::proofs::Beginning::unread, crate::proofs::Beginning::given))]
pub fn begin<L: Link, C: Clock>(
    link: &mut L,
    clock: &mut C,
    left: u64,
    waits: bool,
    buf: &mut [u8],
) -> Result<Option<(Opening, u64)>, Status>
    requires room { 65536 ≤ length buf.old }
    ensures long { length buf.new ≡ length buf.old }
    ensures sent { (L.sent link.new ≡ L.sent link.old)
        × (L.loss_count link.new ≡ L.loss_count link.old) }
    ensures begun { IfOk result (λ begun. IfSome begun (λ begun. HasBegun left (L.given link.old) (L.given link.new)
        (C.readings clock.old) (C.readings clock.new) (turn_of buf.new begun.0 begun.1))) }
    ensures nothing { IfOk result (λ begun. IfNone begun ((L.given link.new ≡ L.given link.old)
        × (C.readings clock.new ≡ C.readings clock.old))) }
    ensures within { IfOk result (λ begun. IfSome begun (λ begun. IsWithin buf.new begun.0 × (begun.1 < 2 ^ 62))) }
    ensures faults { IfOk result (λ begun. (L.fault_count link.new ≡ L.fault_count link.old)
        × (C.fault_count clock.new ≡ C.fault_count clock.old)) }
    ensures cannot { IfErr result (CannotBegin left (L.given link.old) (L.given link.new)
        (C.readings clock.old) (C.readings clock.new)) }
    ensures cause { IfErr result (HasServeCause (L.fault_count link.old) (L.fault_count link.new)
        (C.fault_count clock.old) (C.fault_count clock.new)) }
{
    let Ok(opening) = receive(link, left, waits, buf) else {
        return Err(Status::LinkFault {
            count: link.faults(),
        });
    };
    let Some(opening) = opening else {
        return Ok(None);
    };
    match read(clock) {
        Ok(reading) => Ok(Some((opening, reading))),
        Err(_) => Err(Status::ClockFault {
            count: clock.faults(),
        }),
    }
}
