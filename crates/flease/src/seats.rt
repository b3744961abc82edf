ghost use Rattle.std.specs.Prelude.{◌≡◌, ◌<◌, ◌≤◌, ◌++◌, ◌∷◌, [], length, map, count_by};
ghost use Rattle.std.specs.List.{list_any};
ghost use Rattle.xt_protocol.specs.Register as protocol;

use crate::targets::Targets;
use std::marker::Model;
use xt_base::{Boot, Members, NodeId};

/// A member in a round.
#[derive(Clone, Copy)]
pub struct Seat {
    node: NodeId,
    counted: Option<Boot>,
    accepted: bool,
}

impl Model for Seat {
    ghost use Rattle.xt_protocol.specs.Register as protocol;

    ghost Value = { protocol.Seat };

    ghost view = { λ s. record { node = s.node; counted = s.counted; accepted = s.accepted } };

    ghost inverse = { λ s. record { node = s.node; counted = s.counted; accepted = s.accepted } };
}

impl Seat {
    /// The seat of a member that has answered nothing.
    fn empty(node: NodeId) -> Seat
        ensures { result ≡ protocol.empty_seat node }
    {
        Seat {
            node,
            counted: None,
            accepted: false,
        }
    }

    /// Whether a promise of this node is to be counted here.
    fn awaits_promise(&self, from: NodeId) -> bool
        ensures { result ≡ protocol.awaits_promise from self.now }
    {
        self.node == from && self.counted.is_none()
    }

    /// Whether an acceptance by this node and boot is to be counted here.
    fn awaits_acceptance(&self, from: NodeId, boot: Boot) -> bool
        ensures { result ≡ protocol.awaits_acceptance from boot self.now }
    {
        self.node == from && self.counted == Some(boot) && !self.accepted
    }

    /// The seat once this promise is counted.
    fn with_promise(self, from: NodeId, boot: Boot) -> Seat
        ensures { result ≡ protocol.with_promise from boot self }
    {
        if self.awaits_promise(from) {
            Seat {
                counted: Some(boot),
                ..self
            }
        } else {
            self
        }
    }

    /// The seat once this acceptance is counted.
    fn with_acceptance(self, from: NodeId, boot: Boot) -> Seat
        ensures { result ≡ protocol.with_acceptance from boot self }
    {
        if self.awaits_acceptance(from, boot) {
            Seat {
                accepted: true,
                ..self
            }
        } else {
            self
        }
    }
}

/// Counts a promise.
fn count_promise(seats: &mut [Seat], from: NodeId, boot: Boot)
    ensures { seats.new ≡ map (protocol.with_promise from boot) seats.old }
{
    for seat in seats.iter_mut() {
        *seat = seat.with_promise(from, boot);
    }
}

/// Counts an acceptance.
fn count_acceptance(seats: &mut [Seat], from: NodeId, boot: Boot)
    ensures { seats.new ≡ map (protocol.with_acceptance from boot) seats.old }
{
    for seat in seats.iter_mut() {
        *seat = seat.with_acceptance(from, boot);
    }
}

/// A seat for each member of a round, in list order. Contracts see the list.
#[derive(Clone, Copy)]
pub struct Seats {
    places: [Seat; 9],
    count: usize,
}

impl Model for Seats {
    ghost use Rattle.std.specs.Prelude.{List};
    ghost use Rattle.xt_protocol.specs.Register as protocol;

    ghost Value = { List protocol.Seat };

    ghost use Rattle.flease.specs.SeatList.{seen, filled, IsFilled};

    ghost view = { seen };

    ghost invariant = { IsFilled };

    ghost inverse = { filled };

    ghost inverse_ok = { λ a h. h.1 };
}

impl Seats {
    /// An empty seat for each member.
    pub fn new(members: &Members) -> Seats
        ensures { result ≡ map protocol.empty_seat members.now }
    {
        let mut seats = Seats {
            places: [Seat::empty(NodeId(0)); 9],
            count: 0,
        };
        for node in members.as_slice() {
            seats.push(Seat::empty(*node));
        }
        seats
    }

    /// One more seat.
    fn push(&mut self, seat: Seat)
        requires { length self.old < 9 }
        ensures { self.new ≡ self.old ++ seat ∷ [] }
    {
        self.places[self.count] = seat;
        self.count += 1;
    }

    /// The seats in order.
    fn as_slice(&self) -> &[Seat]
        ensures list { result.now ≡ self.now }
        ensures few { length result.now ≤ 9 }
    {
        &self.places[..self.count]
    }

    /// How many there are.
    pub fn len(&self) -> u8
        ensures { result ≡ length self.now }
    {
        self.as_slice().len() as u8
    }

    /// Whether a promise of this node is to be counted.
    pub fn await_promise(&self, from: NodeId) -> bool
        ensures { result ≡ list_any (protocol.awaits_promise from) self.now }
    {
        self.as_slice().iter().any(|seat| seat.awaits_promise(from))
    }

    /// Whether an acceptance by this node and boot is to be counted.
    pub fn await_acceptance(&self, from: NodeId, boot: Boot) -> bool
        ensures { result ≡ list_any (protocol.awaits_acceptance from boot) self.now }
    {
        self.as_slice()
            .iter()
            .any(|seat| seat.awaits_acceptance(from, boot))
    }

    /// Counts a promise.
    pub fn promise(&mut self, from: NodeId, boot: Boot)
        ensures { self.new ≡ map (protocol.with_promise from boot) self.old }
    {
        count_promise(&mut self.places[..self.count], from, boot);
    }

    /// Counts an acceptance.
    pub fn accept(&mut self, from: NodeId, boot: Boot)
        ensures { self.new ≡ map (protocol.with_acceptance from boot) self.old }
    {
        count_acceptance(&mut self.places[..self.count], from, boot);
    }

    /// How many promises were counted.
    pub fn promises(&self) -> usize
        ensures { result ≡ count_by protocol.has_promise self.now }
    {
        self.as_slice()
            .iter()
            .filter(|seat| seat.counted.is_some())
            .count()
    }

    /// How many acceptances were counted.
    pub fn acceptances(&self) -> usize
        ensures { result ≡ count_by protocol.has_accepted self.now }
    {
        self.as_slice().iter().filter(|seat| seat.accepted).count()
    }

    /// The counted pairs, in list order.
    pub fn pairs(&self) -> Targets
        ensures { result ≡ protocol.counted_pairs self.now }
    {
        let mut targets = Targets::new();
        for seat in self.as_slice() {
            if let Some(boot) = seat.counted {
                targets.push(seat.node, boot);
            }
        }
        targets
    }
}
