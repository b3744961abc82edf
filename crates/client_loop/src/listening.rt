ghost use Rattle.std.specs.Prelude.{◌≡◌, ◌≤◌, ◌<◌, ◌^◌, length, IfOk, IfErr, Some};
ghost use Rattle.xt_messages.specs.Limits.{FitsMessage};
ghost use Rattle.client_loop.specs.Listening.{HasReceived, CannotReceive, HasLooked, CannotLook, HasDriveCause, heard_as, FitsListened, MayLook};
ghost use Rattle.node_runs.specs.Hearing.{hears};

use crate::errors::{DriveErr, read};
use node_links::{Clock, Got, Link};
use node_mail::Ears;
use xt_base::{Address, NodeId};
use xt_messages::Msg;

/// What a client hears its link by: which node it is, what it has heard, and how many receives it has made of those that it may make.
#[derive(Drop)]
pub struct Listener {
    pub node: NodeId,
    pub ears: Ears,
    pub turns: u64,
    pub spent: u64,
}

/// What a look for messages came to.
#[derive(Drop)]
pub enum Listened {
    /// The clock reads the end of the wait, or more. Nothing was received.
    Late { reading: u64 },
    /// No message is whole.
    Nothing,
    Heard { msg: Msg },
}

impl Listener {
    /// Hears a datagram.
    fn hear(&mut self, from: Address, part: &[u8]) -> Result<Listened, DriveErr>
        ensures heard { IfOk result (λ made.
            let heard = hears self.old.node self.old.ears (record { peer = from; bytes = part.now }) in
            (self.new ≡ record self.old { ears = heard.ears }) × (made ≡ heard_as heard.message)) }
        ensures fits { IfOk result FitsListened }
        ensures memory { IfErr result (λ error. error ≡ DriveErr.OutOfMemory) }
        ensures same { (self.new.node ≡ self.old.node) × (self.new.turns ≡ self.old.turns)
            × (self.new.spent ≡ self.old.spent) }
    {
        match self.ears.hear(self.node, from, part) {
            Ok(Some(msg)) => Ok(Listened::Heard { msg }),
            Ok(None) => Ok(Listened::Nothing),
            Err(_) => Err(DriveErr::OutOfMemory),
        }
    }

    /// Receives, for so many milliseconds at most.
    #[tactic(auto, using(crate::proofs::Looking::nothing_came, crate::proofs::Looking::one_came, crate::proofs::Looking::no_memory))]
    fn receive<L: Link>(
        &mut self,
        left: u64,
        buf: &mut [u8],
        link: &mut L,
    ) -> Result<Listened, DriveErr>
        requires room { 65536 ≤ length buf.old }
        requires spent { (self.old.spent < self.old.turns) × (self.old.turns < 2 ^ 62) }
        ensures long { length buf.new ≡ length buf.old }
        ensures sent { (L.sent link.new ≡ L.sent link.old)
            × (L.loss_count link.new ≡ L.loss_count link.old) }
        ensures received { IfOk result (HasReceived self.old (L.given link.old) (L.given link.new)
            self.new) }
        ensures fits { IfOk result FitsListened }
        ensures cannot { IfErr result (CannotReceive (L.given link.old) (L.given link.new)) }
        ensures cause { (clock : _) → IfErr result (HasDriveCause (L.fault_count link.old)
            (L.fault_count link.new) clock clock) }
        ensures faults { IfOk result (λ made. L.fault_count link.new ≡ L.fault_count link.old) }
        ensures same { (self.new.node ≡ self.old.node) × (self.new.turns ≡ self.old.turns)
            × (self.new.spent ≤ self.new.turns) }
    {
        let Ok(got) = link.receive(left, buf) else {
            return Err(DriveErr::Link {
                count: link.faults(),
            });
        };
        self.spent += 1;
        match got {
            Got::NothingYet => Ok(Listened::Nothing),
            Got::Piece { from, len } => self.hear(from, &buf[..len]),
        }
    }

    /// Looks for a message until this time: reads the clock, and where it isn't late, receives for what is left.
    #[tactic(auto)]
    pub fn look<L: Link, C: Clock>(
        &mut self,
        until: u64,
        buf: &mut [u8],
        link: &mut L,
        clock: &mut C,
    ) -> Result<Listened, DriveErr>
        requires room { 65536 ≤ length buf.old }
        requires spent { (self.old.spent ≤ self.old.turns) × (self.old.turns < 2 ^ 62) }
        ensures long { length buf.new ≡ length buf.old }
        ensures sent { (L.sent link.new ≡ L.sent link.old)
            × (L.loss_count link.new ≡ L.loss_count link.old) }
        ensures looked { IfOk result (HasLooked until self.old (L.given link.old) (L.given link.new)
            (C.readings clock.old) (C.readings clock.new) self.new) }
        ensures fits { IfOk result FitsListened }
        ensures cannot { IfErr result (CannotLook until self.old (L.given link.old)
            (L.given link.new) (C.readings clock.old) (C.readings clock.new)) }
        ensures cause { IfErr result (HasDriveCause (L.fault_count link.old) (L.fault_count link.new)
            (C.fault_count clock.old) (C.fault_count clock.new)) }
        ensures faults { IfOk result (λ made. (L.fault_count link.new ≡ L.fault_count link.old)
            × (C.fault_count clock.new ≡ C.fault_count clock.old)) }
        ensures same { (self.new.node ≡ self.old.node) × (self.new.turns ≡ self.old.turns)
            × (self.new.spent ≤ self.new.turns) }
    {
        let reading = match read(clock) {
            Ok(reading) => reading,
            Err(error) => return Err(error),
        };
        if until <= reading {
            return Ok(Listened::Late { reading });
        }
        if self.spent == self.turns {
            return Err(DriveErr::TurnsSpent { turns: self.turns });
        }
        self.receive(until - reading, buf, link)
    }
}
