ghost use Rattle.std.specs.Prelude.{◌≡◌};
ghost use Rattle.xt_protocol.specs.Register.{takes_promise};
ghost use Rattle.xt_protocol.specs.LeaseRows as protocol;
ghost use Rattle.flease.specs.Answers.{shown_asked};

use crate::free::Free;
use crate::proposer::{Proposer, has_run_out};
use crate::round::{Round, Took};
use crate::targets::Targets;
use crate::writing::Writing;
use std::marker::Model;
use xt_base::{Ballot, Boot, Lease, NodeId};

/// A round whose Write isn't sent. Contracts see the round.
#[derive(Drop)]
pub struct Asking {
    round: Round,
}

impl Model for Asking {
    ghost use Rattle.xt_protocol.specs.Register as protocol;

    ghost Value = { protocol.Round };

    ghost view = { λ a. a.round };

    ghost inverse = { λ r. record { round = r } };
}

/// What a promise made of a round that asks.
#[derive(Drop)]
pub enum Asked {
    Still(Asking),
    /// A Write goes to these.
    Write(Writing, Targets),
    /// Another's lease lives, and the round is over.
    Found(Free, Lease),
}

impl Asking {
    /// This round.
    pub(crate) fn of(round: Round) -> Asking
        ensures { result ≡ round }
    {
        Asking { round }
    }

    /// Another round in the same state.
    pub fn same(&self) -> Asking
        ensures { result ≡ self.now }
    {
        Asking { round: self.round }
    }

    /// Takes a promise of this round, at the clock `now`.
    pub fn promise(self, now: u64, from: NodeId, boot: Boot, report: Option<Lease>) -> Asked
        ensures { result ≡ shown_asked (protocol.asking_promised self now from boot report) }
    {
        let mut round = self.round;
        match round.promise(now, from, boot, report) {
            Took::Ignored | Took::Counted => Asked::Still(Asking { round }),
            Took::WriteTo { targets } => Asked::Write(Writing::of(round), targets),
            Took::Alive { lease } => Asked::Found(Free::of(Proposer::after(&round)), lease),
        }
    }

    /// Whether a promise of this node is taken: it is counted, or its report ends the round.
    pub fn takes(&self, now: u64, from: NodeId, report: Option<Lease>) -> bool
        ensures { result ≡ takes_promise self.now now from report }
    {
        self.round.takes(now, from, report)
    }

    /// The round was outrun by this ballot.
    pub fn outrun(self, seen: Ballot) -> Free
        ensures { result ≡ protocol.outrun_learnt (protocol.round_over self) seen }
    {
        Free::of(Proposer::after(&self.round).outrun(seen))
    }

    /// The round is over.
    pub fn give_up(self) -> Free
        ensures { result ≡ protocol.round_over self }
    {
        Free::of(Proposer::after(&self.round))
    }

    /// Whether half the lease length has passed since the round's start.
    pub fn has_run_out(&self, now: u64) -> bool
        ensures { result ≡ protocol.has_run_out self.now now }
    {
        has_run_out(&self.round, now)
    }

    /// The round's number.
    pub fn ballot(&self) -> Ballot
        ensures { result ≡ self.now.ballot }
    {
        self.round.ballot()
    }

    /// The clock at the round's start.
    pub fn start(&self) -> u64
        ensures { result ≡ self.now.start }
    {
        self.round.began()
    }
}
