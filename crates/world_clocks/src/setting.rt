//! What sets the clocks of nodes.
ghost use Rattle.std.specs.Prelude.{◌≡◌, ◌<◌, length, map};
ghost use Rattle.std.specs.List.{AllByRecursion};
ghost use Rattle.world_host.specs.Hosts.{host_ticked};
ghost use Rattle.world_clocks.specs.Hosts.{MayTick, SetsClock};

use world_host::{Host, NodeCore};

/// The clock of the node at a place is set.
pub fn set_clock<C: NodeCore>(hosts: &mut Vec<Host<C>>, place: usize, clock: u64)
    requires { place < length hosts.old.items }
    ensures { SetsClock hosts.old.items place clock hosts.new.items }
{
    hosts[place].set_clock(clock);
}

/// Every running clock advances.
pub fn tick<C: NodeCore>(hosts: &mut [Host<C>], count: u64)
    requires { AllByRecursion (MayTick count) hosts.old }
    ensures { hosts.new ≡ map (host_ticked count) hosts.old }
{
    if let Some((first, rest)) = hosts.split_first_mut() {
        first.tick(count);
        tick(rest, count);
    }
}
