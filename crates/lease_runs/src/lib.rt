//! The lease of one file among nodes that run its rows, and how the step of an OSD shows in the lease of each of its files.
//!
//! Nodes start and stop, clocks advance, leases expire, nodes ask and messages come, in any order. In each world that such moves lead
//! to at most one node holds the lease, as it was reported, and a node that may act on the lease that it has holds it: each world is
//! one of an abstract history of `lease_safety`. An OSD's steps are such moves, file by file, and it acts as a primary only under a
//! lease.
#![tactic(auto)]

ghost use Rattle.std.specs.Prelude.{◌≡◌, ◌≤◌, ◌+◌, ℕ, true};
ghost use Rattle.lease_runs.specs.LeaseWorld.{LeaseSetting, LeaseWorld, IsReached, IsHolding, HasTurn, start_lease_world};
ghost use Rattle.lease_runs.specs.Sample.{alone, one_takes_it, trio, one_wins, worlds_after};
ghost use Rattle.lease_runs.specs.LeaseView.{ShowsLeases};
ghost use Rattle.lease_runs.specs.OsdView.{OsdShowsLeases};
ghost use Rattle.lease_runs.specs.OutsView.{SendsByFile};
ghost use Rattle.lease_runs.specs.ActsView.{ShowsActs};

/// In each world that moves lead to at most one node holds the lease, as it was reported.
pub fn one_node_holds()
    ensures { (g : LeaseSetting) (w : LeaseWorld) (a b : ℕ) → IsReached g w →
        IsHolding g (w.node a) → IsHolding g (w.node b) → a ≡ b }
{}

/// A node that may act on the lease that it has holds it, as it was reported.
pub fn a_turn_is_held()
    ensures { (g : LeaseSetting) (w : LeaseWorld) (n : ℕ) → IsReached g w →
        HasTurn (w.node n) (w.node n).row.lease → IsHolding g (w.node n) }
{}

/// The clocks of nodes that run are within the drift of each other.
pub fn clocks_are_close()
    ensures { (g : LeaseSetting) (w : LeaseWorld) (a b : ℕ) → IsReached g w →
        (w.node a).runs ≡ true → (w.node b).runs ≡ true →
        (w.node a).clock ≤ (w.node b).clock + g.times.drift }
{}

/// There are worlds in which a node holds the lease: of a file of one member, and of a file of three, two of which take part.
pub fn a_lease_is_held()
    ensures alone { IsReached alone (worlds_after alone (start_lease_world alone) one_takes_it) }
    ensures held_alone { IsHolding alone
        ((worlds_after alone (start_lease_world alone) one_takes_it).node 1) }
    ensures trio { IsReached trio (worlds_after trio (start_lease_world trio) one_wins) }
    ensures held_by_two { IsHolding trio
        ((worlds_after trio (start_lease_world trio) one_wins).node 1) }
{}

/// The steps of a file show in its lease as rows of the lease.
pub fn leases_are_shown()
    ensures { ShowsLeases }
{}

/// The steps of an OSD show in the lease of each file: a message in that of the file that it concerns, a Wake in each.
pub fn leases_are_shown_by_file()
    ensures { OsdShowsLeases }
{}

/// What a step of a file sends about leases is about the lease of that file.
pub fn leases_are_sent_by_file()
    ensures { SendsByFile }
{}

/// A step of a file marks that a lease was won, or acts of its primary, and these only where the lease is held; its record
/// isn't of a start, and stores a list only as an ask names it. A Wake marks and records nothing.
pub fn acts_are_shown()
    ensures { ShowsActs }
{}
