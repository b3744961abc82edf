ghost use Rattle.std.specs.Prelude.{◌≡◌, ◌<◌, ◌^◌, IsTrue};
ghost use Rattle.xt_protocol.specs.LeaseRows as protocol;

use crate::round::Round;
use crate::silent::Awake;
use std::marker::Model;
use xt_base::{Ballot, Boot, Members, NodeId, Times};

/// Who asks for a file's lease, and the greatest count of a ballot that it knows.
#[derive(Clone, Copy)]
pub struct Proposer {
    node: NodeId,
    boot: Boot,
    times: Times,
    known: u64,
}

impl Model for Proposer {
    ghost use Rattle.xt_protocol.specs.LeaseRows as protocol;

    ghost Value = { protocol.Proposer };

    ghost view = { λ p. record { node = p.node; boot = p.boot; times = p.times; known = p.known } };

    ghost inverse = { λ p.
        record { node = p.node; boot = p.boot; times = p.times; known = p.known } };
}

/// The greatest count that a ballot may have.
const LAST_COUNT: u64 = (1 << 62) - 1;

impl Proposer {
    /// One that knows no count.
    pub fn new(awake: Awake) -> Proposer
        ensures { result ≡ protocol.new_proposer awake }
    {
        Proposer {
            node: awake.node(),
            boot: awake.boot(),
            times: awake.times(),
            known: 0,
        }
    }

    /// The one whose round is over.
    pub fn after(round: &Round) -> Proposer
        ensures { result ≡ protocol.round_over round.now }
    {
        let ballot = round.ballot();
        Proposer {
            node: ballot.node,
            boot: ballot.boot,
            times: round.times(),
            known: ballot.count,
        }
    }

    /// Whether there is a count for one more round.
    pub fn can_ask(&self) -> bool
        ensures { result ≡ protocol.can_ask self.now }
    {
        self.known < LAST_COUNT
    }

    /// Its next round, which begins at the clock `now`.
    pub fn ask(&self, now: u64, members: &Members) -> Round
        requires count { IsTrue (protocol.can_ask self.now) }
        requires clock { now < 2 ^ 62 }
        ensures { result ≡ protocol.round_starts self.now now members.now }
    {
        Round::start(
            self.node,
            self.boot,
            self.known + 1,
            now,
            members,
            &self.times,
        )
    }

    /// It with the count of a round that it started.
    pub fn counted(self, ballot: Ballot) -> Proposer
        ensures { result ≡ record self { known = ballot.count } }
    {
        Proposer {
            known: ballot.count,
            ..self
        }
    }

    /// It with the count of the ballot that outran its round.
    pub fn outrun(self, seen: Ballot) -> Proposer
        ensures { result ≡ protocol.outrun_learnt self seen }
    {
        Proposer {
            known: self.known.max(seen.count),
            ..self
        }
    }

    /// The node.
    pub fn node(&self) -> NodeId
        ensures { result ≡ self.now.node }
    {
        self.node
    }

    /// The times that it goes by.
    pub fn times(&self) -> Times
        ensures { result ≡ self.now.times }
    {
        self.times
    }
}

/// Whether a node may act at the clock `now` until a lease's end.
pub fn is_inside(end: u64, times: &Times, now: u64) -> bool
    requires { now < 2 ^ 62 }
    ensures { result ≡ protocol.is_inside end times.now now }
{
    now + times.drift() < end
}

/// Whether half the lease length has passed since a round's start.
pub fn has_run_out(round: &Round, now: u64) -> bool
    ensures { result ≡ protocol.has_run_out round.now now }
{
    round.began() + round.times().wait() <= now
}
