//! What changes the declared nodes.
ghost use Rattle.std.specs.Prelude.{◌≡◌, ◌<◌, ◌^◌, ◌++◌, ◌∷◌, [], true, false, Some, None, IfOk, IfSome, OnOk, OnErr, length, map};
ghost use Rattle.world_spec.specs.World.{Node, client, node_in};
ghost use Rattle.world_spec.specs.declared.Role.TheVariants as role;
ghost use Rattle.world_spec.specs.Rules.{clock_ends, has_call, may_go_again};
ghost use Rattle.world_spec.specs.Lines.{runs, first_boot, crashes, cuts, never_started, reads_clock, ticked, whole_client};
ghost use Rattle.world_host.specs.Calls.{IsUsable, targets};
ghost use Rattle.world_host.specs.Turns.{Handles};
ghost use Rattle.xt_messages.specs.Limits.{FitsEvent};
ghost use Rattle.world_nodes.specs.Nodes.{IsAt, Changes, ChangesUp, NodeHandles, NodeCalls, NodeCallsAgain};

use crate::nodes::Nodes;
use disk_model::Stop;
use std::alloc::Global;
use world_clocks::{set_clock, tick};
use world_host::{Host, HullBodies, NodeCore};
use world_hull::Hull;
use world_spec::{PlacedFile, Role};
use xt_base::{NodeId, OutOfMemory};
use xt_messages::{Call, Event};
use xt_protocol::Turned;

impl<C: NodeCore, H: Hull> Nodes<C, H> {
    /// Declares a node of this role, of an id of its own, which doesn't run.
    pub fn declare(&mut self, id: NodeId, role: Role) -> Result<(), OutOfMemory>
        requires { node_in self.old.nodes id.0 ≡ None }
        ensures { OnOk result (self.new ≡
            record self.old { nodes = self.old.nodes ++ never_started id role ∷ [] }) }
    {
        self.hosts.push(Host::resting(id, role, self.times))?;
        Ok(())
    }

    /// Declares a client of an id of its own, which runs for good.
    pub fn declare_client(
        &mut self,
        alloc: Global,
        id: NodeId,
        clock: u64,
    ) -> Result<(), OutOfMemory>
        requires own { node_in self.old.nodes id.0 ≡ None }
        requires clock { clock < 2 ^ 62 }
        ensures { OnOk result (self.new ≡
            record self.old {
              nodes = self.old.nodes
                  ++ record {
                    id = id;
                    role = role.Client;
                    kept = [];
                    past = [];
                    up = Some (runs first_boot clock (client (whole_client clock)));
                  } ∷ [];
            }) }
    {
        self.hosts.push(Host::client(alloc, id, self.times, clock))?;
        Ok(())
    }

    /// The node at a place stops.
    pub fn stop(&mut self, place: usize)
        requires { place < length self.old.nodes }
        ensures { Changes self.old place (λ node. record node { up = None }) self.new }
    {
        self.hosts[place].stop();
    }

    /// The next append of the node at a place stops so.
    pub fn plan_crash(&mut self, place: usize, stop: Stop)
        requires { place < length self.old.nodes }
        ensures { ChangesUp self.old place (crashes stop.call stop.fill) self.new }
    {
        self.hosts[place].plan_crash(stop);
    }

    /// The next step of the node at a place that sends stops after so many messages.
    pub fn plan_cut(&mut self, place: usize, count: u128)
        requires { place < length self.old.nodes }
        ensures { ChangesUp self.old place (cuts count) self.new }
    {
        self.hosts[place].plan_cut(count);
    }

    /// The clock of the node at a place is set.
    pub fn set_clock(&mut self, place: usize, clock: u64)
        requires { place < length self.old.nodes }
        ensures { ChangesUp self.old place (reads_clock clock) self.new }
    {
        set_clock(&mut self.hosts, place, clock);
    }

    /// The first target of the client at a place for the file of a number is this member. The file is `declared`, if a schedule declares
    /// it, or else the one that the client holds; where there is none nothing changes.
    pub fn aim(
        &mut self,
        place: usize,
        number: u64,
        declared: Option<PlacedFile>,
        node: NodeId,
    ) -> Result<(), OutOfMemory>
        requires { place < length self.old.nodes }
        ensures { OnOk result (ChangesUp self.old place (targets declared number node) self.new) }
    {
        self.hosts[place].aim(number, declared, node)
    }

    /// Every running clock advances.
    pub fn tick(&mut self, count: u64)
        requires { clock_ends count self.old.nodes ≡ None }
        ensures { self.new ≡ record self.old { nodes = map (ticked count) self.old.nodes } }
    {
        tick(&mut self.hosts, count);
    }

    /// An event comes to the node at a place. None where it doesn't run.
    pub fn handle(&mut self, place: usize, ev: &Event) -> Result<Option<Turned>, OutOfMemory>
        requires inside { place < length self.old.nodes }
        requires running { (node : Node) → IsAt self.old.nodes place node →
            IfSome node.up (λ running. running.clock < 2 ^ 62) }
        requires fits { FitsEvent ev.now }
        ensures { IfOk result (λ turned. (node : Node) → IsAt self.old.nodes place node →
            NodeHandles ev.now self.old node self.new turned) }
    {
        handle(&mut self.hosts[place], &self.hull, ev)
    }

    /// The client at a place makes a call. None where no client runs. `declared` is the file of the call, if a schedule declares it.
    /// What the call uses is declared or held, and no call runs.
    pub fn call(
        &mut self,
        place: usize,
        call: &Call,
        declared: Option<PlacedFile>,
    ) -> Result<Option<Turned>, OutOfMemory>
        requires inside { place < length self.old.nodes }
        requires running { (node : Node) → IsAt self.old.nodes place node →
            IfSome node.up (λ running. running.clock < 2 ^ 62) }
        requires free { (node : Node) → IsAt self.old.nodes place node →
            has_call node.up ≡ false }
        requires held { (node : Node) → IsAt self.old.nodes place node →
            IfSome node.up (λ running. IsUsable declared call.now running.core) }
        ensures { IfOk result (λ turned. (node : Node) → IsAt self.old.nodes place node →
            NodeCalls call.now declared self.old node self.new turned) }
    {
        self.hosts[place].call(call, declared)
    }

    /// The client at a place makes its last call again, which ended as one that may be. None where no client runs.
    pub fn again(&mut self, place: usize) -> Result<Option<Turned>, OutOfMemory>
        requires inside { place < length self.old.nodes }
        requires running { (node : Node) → IsAt self.old.nodes place node →
            IfSome node.up (λ running. running.clock < 2 ^ 62) }
        requires free { (node : Node) → IsAt self.old.nodes place node →
            has_call node.up ≡ false }
        requires may { (node : Node) → IsAt self.old.nodes place node →
            may_go_again node.up ≡ true }
        ensures { IfOk result (λ turned. (node : Node) → IsAt self.old.nodes place node →
            NodeCallsAgain self.old node self.new turned) }
    {
        self.hosts[place].again()
    }
}

/// An event comes to a node, whose bodies are those that the hull keeps for it. None where it doesn't run.
fn handle<C: NodeCore, H: Hull>(
    host: &mut Host<C>,
    hull: &H,
    ev: &Event,
) -> Result<Option<Turned>, OutOfMemory>
    requires running { IfSome host.old.up (λ running. running.clock < 2 ^ 62) }
    requires fits { FitsEvent ev.now }
    ensures handled { IfOk result (λ turned.
        Handles (H.kept hull.now host.old.id.0) ev.now host.old host.new turned) }
    ensures err { OnErr result (host.new ≡ record host.old { up = None }) }
{
    let node = host.id();
    let mut bodies = HullBodies { hull, node };
    host.handle(&mut bodies, ev)
}
