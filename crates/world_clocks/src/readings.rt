//! The clocks of running nodes, as the rules on them see them.
ghost use Rattle.std.specs.Prelude.{◌≡◌, ℕ};
ghost use Rattle.world_host.specs.Hosts.{Stored};
ghost use Rattle.world_spec.specs.Rules.{are_apart, least_where, lesser, reading_where};
ghost use Rattle.world_clocks.specs.Hosts.{nodes_of};
ghost use Rattle.world_clocks.specs.Clocks.{reading_of, test_of};

use world_host::{Host, NodeCore};
use xt_base::{COUNTS, NodeId};

/// A running node, and what its clock reads.
#[derive(Clone, Copy)]
pub struct Reading {
    pub node: NodeId,
    pub clock: u64,
}

/// Of which clocks is asked.
#[derive(Clone, Copy)]
pub enum ClockTest {
    /// Those of other nodes that differ from this node's new clock by more than the drift.
    Apart {
        node: NodeId,
        clock: u64,
        drift: u64,
    },
    /// Those that would reach the end after so many milliseconds.
    Ends {
        count: u64,
    },
}

/// Whether two clocks differ by more than the drift.
fn are_apart(drift: u64, a: u64, b: u64) -> bool
    ensures { result ≡ are_apart drift a b }
{
    a.saturating_add(drift) < b || b.saturating_add(drift) < a
}

impl ClockTest {
    fn holds(&self, node: NodeId, read: u64) -> bool
        ensures { result ≡ test_of self.now node read }
    {
        match self {
            ClockTest::Apart {
                node: own,
                clock,
                drift,
            } => node.0 != own.0 && are_apart(*drift, *clock, read),
            ClockTest::Ends { count } => read.saturating_add(*count) >= COUNTS,
        }
    }
}

/// The one of the lesser id.
fn lesser(a: Option<Reading>, b: Option<Reading>) -> Option<Reading>
    ensures { reading_of result ≡ lesser (reading_of a) (reading_of b) }
{
    match (a, b) {
        (None, b) => b,
        (a, None) => a,
        (Some(a), Some(b)) if b.node.0 < a.node.0 => Some(b),
        (a, Some(_)) => a,
    }
}

/// The clock of a node, where it runs and the test holds of it.
fn reading_where<C: NodeCore>(host: &Host<C>, test: &ClockTest) -> Option<Reading>
    ensures { reading_of result ≡ reading_where (test_of test.now) host.now.id host.now.up }
{
    let node = host.id();
    let clock = host.moment()?.clock;
    if test.holds(node, clock) {
        Some(Reading { node, clock })
    } else {
        None
    }
}

/// The clock of the least running node of which the test holds.
#[tactic(auto, unfolding(world_spec::specs::Rules::least_where))]
pub fn least_where<C: NodeCore>(hosts: &[Host<C>], test: &ClockTest) -> Option<Reading>
    ensures { (stored : ℕ → Stored) →
        reading_of result ≡ least_where (test_of test.now) (nodes_of stored hosts.now) }
{
    let (first, rest) = hosts.split_first()?;
    lesser(reading_where(first, test), least_where(rest, test))
}
