//! The members of a new list, each with a note of whether it has installed the chosen head.
ghost use Rattle.std.specs.Prelude.{◌≡◌, ◌<◌, ◌≤◌, ◌++◌, ◌∷◌, [], length, map, count_by, filter, not, IfOk};
ghost use Rattle.std.specs.List.{list_any};
ghost use Rattle.change_rows.specs.Changes as rows;

use std::alloc::Global;
use std::marker::Model;
use xt_base::{Members, NodeId, OutOfMemory, Seq};

/// A member of a new list.
#[derive(Clone, Copy)]
pub struct Seat {
    node: NodeId,
    installed: bool,
}

impl Model for Seat {
    ghost use Rattle.change_rows.specs.Changes as rows;

    ghost Value = { rows.Seat };

    ghost view = { λ s. record { node = s.node; installed = s.installed } };

    ghost inverse = { λ s. record { node = s.node; installed = s.installed } };
}

impl Seat {
    /// The seat of a member that has answered nothing.
    fn empty(node: NodeId) -> Seat
        ensures { result ≡ rows.empty_seat node }
    {
        Seat {
            node,
            installed: false,
        }
    }

    /// Whether an installation by this node is to be counted here.
    fn awaits(&self, from: NodeId) -> bool
        ensures { result ≡ rows.awaits from self.now }
    {
        self.node == from && !self.installed
    }

    /// The seat once this installation is counted.
    fn with_installation(self, from: NodeId) -> Seat
        ensures { result ≡ rows.with_installation from self }
    {
        if self.awaits(from) {
            Seat {
                installed: true,
                ..self
            }
        } else {
            self
        }
    }
}

/// Counts an installation.
fn count_installation(seats: &mut [Seat], from: NodeId)
    ensures { seats.new ≡ map (rows.with_installation from) seats.old }
{
    for seat in seats.iter_mut() {
        *seat = seat.with_installation(from);
    }
}

/// A seat for each member of a new list, in its order. Contracts see the list.
#[derive(Clone, Copy)]
pub struct Seats {
    places: [Seat; 9],
    count: usize,
}

impl Model for Seats {
    ghost use Rattle.std.specs.Prelude.{List};
    ghost use Rattle.change_rows.specs.Changes as rows;

    ghost Value = { List rows.Seat };

    ghost use Rattle.view_change.specs.SeatList.{seen, filled, IsFilled};

    ghost view = { seen };

    ghost invariant = { IsFilled };

    ghost inverse = { filled };

    ghost inverse_ok = { λ a h. h.1 };
}

impl Seats {
    /// An empty seat for each member.
    pub fn new(members: &Members) -> Seats
        ensures { result ≡ map rows.empty_seat members.now }
    {
        let mut seats = Seats {
            places: [Seat::empty(NodeId(0)); 9],
            count: 0,
        };
        for node in members.as_slice() {
            seats.push(Seat::empty(*node));
        }
        seats
    }

    /// One more seat.
    fn push(&mut self, seat: Seat)
        requires { length self.old < 9 }
        ensures { self.new ≡ self.old ++ seat ∷ [] }
    {
        self.places[self.count] = seat;
        self.count += 1;
    }

    /// The seats in order.
    fn as_slice(&self) -> &[Seat]
        ensures list { result.now ≡ self.now }
        ensures few { length result.now ≤ 9 }
    {
        &self.places[..self.count]
    }

    /// How many there are.
    pub fn len(&self) -> usize
        ensures { result ≡ length self.now }
    {
        self.as_slice().len()
    }

    /// Whether an installation by this node is to be counted.
    pub fn await_installation(&self, from: NodeId) -> bool
        ensures { result ≡ list_any (rows.awaits from) self.now }
    {
        self.as_slice().iter().any(|seat| seat.awaits(from))
    }

    /// The members that haven't answered, in their order.
    pub fn waiting(&self, alloc: Global) -> Result<Seq<NodeId>, OutOfMemory>
        ensures { IfOk result (λ nodes. nodes ≡
            map rows.node_of (filter (λ seat. not (rows.has_installed seat)) self.now)) }
    {
        let mut nodes = Vec::new(alloc);
        for seat in self.as_slice() {
            if !seat.installed {
                nodes.push(seat.node)?;
            }
        }
        Ok(Seq { items: nodes })
    }

    /// Counts an installation.
    pub fn install(&mut self, from: NodeId)
        ensures { self.new ≡ map (rows.with_installation from) self.old }
    {
        count_installation(&mut self.places[..self.count], from);
    }

    /// How many installations were counted.
    pub fn installations(&self) -> usize
        ensures { result ≡ count_by rows.has_installed self.now }
    {
        self.as_slice().iter().filter(|seat| seat.installed).count()
    }
}
