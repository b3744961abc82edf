ghost use Rattle.std.specs.Prelude.{◌≡◌, ◌<◌, ◌^◌};
ghost use Rattle.xt_protocol.specs.Register.{on_promise, takes_promise, lease_of};
ghost use Rattle.xt_protocol.specs.LeaseRows as protocol;
ghost use Rattle.flease.specs.Answers.{shown_written};

use crate::free::Free;
use crate::held::Held;
use crate::proposer::{Proposer, has_run_out, is_inside};
use crate::round::{Round, Took};
use crate::targets::Targets;
use std::marker::Model;
use xt_base::{Ballot, Boot, Lease, NodeId};

/// A round whose Write is sent. Contracts see the round.
#[derive(Drop)]
pub struct Writing {
    round: Round,
}

impl Model for Writing {
    ghost use Rattle.xt_protocol.specs.Register as protocol;

    ghost Value = { protocol.Round };

    ghost view = { λ w. w.round };

    ghost inverse = { λ r. record { round = r } };
}

/// What an acceptance made of a round that writes.
#[derive(Drop)]
pub enum Written {
    Still(Writing),
    Won(Held),
    /// A majority has accepted, but the lease is as good as over.
    Late(Free),
}

impl Writing {
    /// This round.
    pub(crate) fn of(round: Round) -> Writing
        ensures { result ≡ round }
    {
        Writing { round }
    }

    /// Another round in the same state.
    pub fn same(&self) -> Writing
        ensures { result ≡ self.now }
    {
        Writing { round: self.round }
    }

    /// Takes a promise of this round, at the clock `now`. A Write goes to those named.
    pub fn promise(
        self,
        now: u64,
        from: NodeId,
        boot: Boot,
        report: Option<Lease>,
    ) -> (Writing, Option<Targets>)
        ensures round { result.0 ≡ (on_promise self now from boot report).round }
        ensures targets { result.1 ≡
            protocol.targets_of (on_promise self now from boot report).took }
    {
        let mut round = self.round;
        let targets = match round.promise(now, from, boot, report) {
            Took::WriteTo { targets } => Some(targets),
            Took::Ignored | Took::Counted | Took::Alive { .. } => None,
        };
        (Writing { round }, targets)
    }

    /// Whether a promise of this node is taken.
    pub fn takes(&self, now: u64, from: NodeId, report: Option<Lease>) -> bool
        ensures { result ≡ takes_promise self.now now from report }
    {
        self.round.takes(now, from, report)
    }

    /// Takes an acceptance of this round, at the clock `now`, below 2^62.
    pub fn accepted(self, now: u64, from: NodeId, boot: Boot) -> Written
        requires { now < 2 ^ 62 }
        ensures { result ≡ shown_written (protocol.writing_accepted self now from boot) }
    {
        let mut round = self.round;
        if !round.accepted(from, boot) {
            return Written::Still(Writing { round });
        }
        if is_inside(round.lease().end, &round.times(), now) {
            Written::Won(Held::of(Proposer::after(&round), round.lease().end))
        } else {
            Written::Late(Free::of(Proposer::after(&round)))
        }
    }

    /// The round was outrun by this ballot.
    pub fn outrun(self, seen: Ballot) -> Free
        ensures { result ≡ protocol.outrun_learnt (protocol.round_over self) seen }
    {
        Free::of(Proposer::after(&self.round).outrun(seen))
    }

    /// The round is over.
    pub fn give_up(self) -> Free
        ensures { result ≡ protocol.round_over self }
    {
        Free::of(Proposer::after(&self.round))
    }

    /// Whether half the lease length has passed since the round's start.
    pub fn has_run_out(&self, now: u64) -> bool
        ensures { result ≡ protocol.has_run_out self.now now }
    {
        has_run_out(&self.round, now)
    }

    /// The round's number.
    pub fn ballot(&self) -> Ballot
        ensures { result ≡ self.now.ballot }
    {
        self.round.ballot()
    }

    /// The clock at the round's start.
    pub fn start(&self) -> u64
        ensures { result ≡ self.now.start }
    {
        self.round.began()
    }

    /// The lease that it writes.
    pub fn lease(&self) -> Lease
        ensures { result ≡ lease_of self.now }
    {
        self.round.lease()
    }
}
