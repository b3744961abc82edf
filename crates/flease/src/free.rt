ghost use Rattle.std.specs.Prelude.{◌≡◌, ◌<◌, ◌-◌, ◌^◌, ◌↔◌, IsTrue};
ghost use Rattle.xt_protocol.specs.LeaseRows as protocol;

use crate::asking::Asking;
use crate::proposer::Proposer;
use crate::silent::Awake;
use std::marker::Model;
use xt_base::Members;

/// Neither a lease nor a round. Contracts see who asks, and the greatest count known.
#[derive(Drop)]
pub struct Free {
    proposer: Proposer,
}

impl Model for Free {
    ghost use Rattle.xt_protocol.specs.LeaseRows as protocol;

    ghost Value = { protocol.Proposer };

    ghost view = { λ f. f.proposer };

    ghost inverse = { λ p. record { proposer = p } };
}

impl Free {
    /// No count is known.
    pub fn new(awake: Awake) -> Free
        ensures { result ≡ protocol.new_proposer awake }
    {
        Free {
            proposer: Proposer::new(awake),
        }
    }

    /// A round that is over.
    pub(crate) fn of(proposer: Proposer) -> Free
        ensures { result ≡ proposer }
    {
        Free { proposer }
    }

    /// Another one in the same state.
    pub fn same(&self) -> Free
        ensures { result ≡ self.now }
    {
        Free {
            proposer: self.proposer,
        }
    }

    /// Whether the greatest count known is below the last one, 2^62 - 1.
    pub fn can_ask(&self) -> bool
        ensures value { result ≡ protocol.can_ask self.now }
        ensures exact { IsTrue result ↔ (self.now.known < 2 ^ 62 - 1) }
    {
        self.proposer.can_ask()
    }

    /// Starts a round at the clock `now`, below 2^62. A Read is to go to all members.
    pub fn ask(self, now: u64, members: &Members) -> Asking
        requires count { IsTrue (protocol.can_ask self) }
        requires clock { now < 2 ^ 62 }
        ensures { result ≡ protocol.round_starts self now members.now }
    {
        Asking::of(self.proposer.ask(now, members))
    }
}
