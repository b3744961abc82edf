ghost use Rattle.std.specs.Prelude.{◌≡◌, ◌<◌, ◌^◌};
ghost use Rattle.xt_protocol.specs.Register as protocol;
ghost use Rattle.flease.specs.Answers.{shown_took};

use crate::seats::Seats;
use crate::targets::Targets;
use std::marker::Model;
use xt_base::{Ballot, Boot, Lease, Members, NodeId, Times, majority};

/// A round of a proposer: a Read to all members, and once a majority has promised, a Write to those that did.
#[derive(Clone, Copy)]
pub struct Round {
    ballot: Ballot,
    start: u64,
    times: Times,
    seats: Seats,
    written: bool,
}

impl Model for Round {
    ghost use Rattle.xt_protocol.specs.Register as protocol;

    ghost Value = { protocol.Round };

    ghost use Rattle.flease.specs.Rounds.{seen, inside, StartsInTime};

    ghost view = { seen };

    ghost invariant = { StartsInTime };

    ghost inverse = { inside };
}

/// What a promise did.
#[derive(Clone, Copy)]
pub enum Took {
    /// Nothing: its sender is no member or was counted, or its report lives and Write was sent.
    Ignored,
    Counted,
    /// A Write goes to these.
    WriteTo { targets: Targets },
    /// The round is over: another's lease lives.
    Alive { lease: Lease },
}

impl Round {
    /// A round that begins at the clock `now`, below 2^62.
    pub fn start(
        node: NodeId,
        boot: Boot,
        count: u64,
        now: u64,
        members: &Members,
        times: &Times,
    ) -> Round
        requires { now < 2 ^ 62 }
        ensures { result ≡ protocol.new_round node boot count now members.now times.now }
    {
        Round {
            ballot: Ballot { count, node, boot },
            start: now,
            times: *times,
            seats: Seats::new(members),
            written: false,
        }
    }

    /// Takes a promise of this round, given by a boot of a member at the proposer's clock `now`.
    pub fn promise(&mut self, now: u64, from: NodeId, boot: Boot, report: Option<Lease>) -> Took
        ensures state { self.new ≡ (protocol.on_promise self.old now from boot report).round }
        ensures took { result ≡
            shown_took (protocol.on_promise self.old now from boot report).took }
    {
        if !self.seats.await_promise(from) {
            return Took::Ignored;
        }
        if let Some(lease) = report
            && self.is_barred_by(now, lease)
        {
            return if self.written {
                Took::Ignored
            } else {
                Took::Alive { lease }
            };
        }
        self.seats.promise(from, boot);
        if self.written {
            let mut targets = Targets::new();
            targets.push(from, boot);
            return Took::WriteTo { targets };
        }
        if self.seats.promises() < majority(self.seats.len()) as usize {
            return Took::Counted;
        }
        self.written = true;
        Took::WriteTo {
            targets: self.seats.pairs(),
        }
    }

    /// Whether a promise of this node is taken: it is counted, or its report ends the round.
    pub fn takes(&self, now: u64, from: NodeId, report: Option<Lease>) -> bool
        ensures { result ≡ protocol.takes_promise self.now now from report }
    {
        self.seats.await_promise(from)
            && !report.is_some_and(|lease| self.is_barred_by(now, lease) && self.written)
    }

    /// Whether a reported lease is of another node or boot, and not over by the proposer's clock.
    fn is_barred_by(&self, now: u64, lease: Lease) -> bool
        ensures { result ≡ protocol.bars self.now now lease }
    {
        now < lease.end && !(lease.node == self.ballot.node && lease.boot == self.ballot.boot)
    }

    /// Takes an acceptance of this round by a boot of a member. Whether it makes the majority.
    pub fn accepted(&mut self, from: NodeId, boot: Boot) -> bool
        ensures state { self.new ≡ (protocol.on_acceptance self.old from boot).round }
        ensures wins { result ≡ (protocol.on_acceptance self.old from boot).wins }
    {
        let awaited = self.seats.await_acceptance(from, boot);
        self.seats.accept(from, boot);
        awaited && self.seats.acceptances() == majority(self.seats.len()) as usize
    }

    /// The round's number.
    pub fn ballot(&self) -> Ballot
        ensures { result ≡ self.now.ballot }
    {
        self.ballot
    }

    /// The clock at which it began, below 2^62.
    pub fn began(&self) -> u64
        ensures value { result ≡ self.now.start }
        ensures small { result < 2 ^ 62 }
    {
        self.start
    }

    /// The times that it goes by.
    pub fn times(&self) -> Times
        ensures { result ≡ self.now.times }
    {
        self.times
    }

    /// The lease that it writes. It ends the lease length after the round's start.
    pub fn lease(&self) -> Lease
        ensures { result ≡ protocol.lease_of self.now }
    {
        Lease {
            node: self.ballot.node,
            boot: self.ballot.boot,
            end: self.start + self.times.lease(),
        }
    }
}
