ghost use Rattle.std.specs.Prelude.{◌≡◌, ◌<◌, [], Some, None, is_some, length};
ghost use Rattle.std.specs.Option.{option_map};
ghost use Rattle.world_spec.specs.World.{Node, node_in};
ghost use Rattle.world_host.specs.Turns.{moment_of};
ghost use Rattle.world_nodes.specs.Nodes.{NodesView, IsAt, IsPlace, IsHostPlace};

mod changes;
mod records;
mod rules;

use std::alloc::Global;
use std::marker::Model;
use world_host::{Host, Moment, NodeCore};
use world_hull::Hull;
use xt_base::{NodeId, Times};

/// The declared nodes over a hull, which keeps their records. Contracts see the times and the nodes of a world.
#[derive(Drop)]
pub struct Nodes<C: NodeCore, H: Hull> {
    times: Times,
    hosts: Vec<Host<C>>,
    hull: H,
}

impl<C: NodeCore, H: Hull> Model for Nodes<C, H> {
    ghost use Rattle.world_host.specs.Hosts.{stored_in};
    ghost use Rattle.world_clocks.specs.Hosts.{nodes_of};
    ghost use Rattle.world_nodes.specs.Nodes.{NodesView, AreHosts};

    ghost Value = { NodesView };

    ghost view = { λ n. record {
      times = n.times;
      nodes = nodes_of (stored_in H.kept H.past n.hull) n.hosts.items;
    } };

    ghost invariant = { λ n.
        AreHosts (stored_in H.kept H.past n.hull) n.times n.hosts.items };
}

impl<C: NodeCore, H: Hull> Nodes<C, H> {
    /// No node is declared, over a hull that keeps no record.
    pub fn new(alloc: Global, hull: H) -> Nodes<C, H>
        requires kept { H.kept hull ≡ λ _. [] }
        requires past { H.past hull ≡ λ _. [] }
        ensures { result ≡ record { times = record { lease = 14000; drift = 1000 }; nodes = [] } }
    {
        Nodes {
            times: Times::new(Times::DEFAULT_LEASE, Times::DEFAULT_DRIFT).unwrap(),
            hosts: Vec::new(alloc),
            hull,
        }
    }

    /// How many there are.
    pub fn len(&self) -> usize
        ensures { result ≡ length self.now.nodes }
    {
        self.hosts.len()
    }

    /// Sets the lease length and the drift, before a node is declared.
    pub fn set_times(&mut self, times: Times)
        requires { self.old.nodes ≡ [] }
        ensures { self.new ≡ record self.old { times = times } }
    {
        self.times = times;
    }

    /// Where the node of this id stands.
    pub fn find(&self, id: NodeId) -> Option<usize>
        ensures { IsPlace self.now.nodes id result }
    {
        place_of(self.hosts.as_slice(), id)
    }

    /// Whether a node of this id is declared.
    pub fn is_declared(&self, id: NodeId) -> bool
        ensures { result ≡ is_some (node_in self.now.nodes id.0) }
    {
        self.find(id).is_some()
    }

    /// The id of the node at a place.
    pub fn id(&self, place: usize) -> NodeId
        requires { place < length self.now.nodes }
        ensures id { (node : Node) → IsAt self.now.nodes place node → result ≡ node.id }
        ensures there { (node : Node) × IsAt self.now.nodes place node }
    {
        self.hosts[place].id()
    }

    /// What the clock of the node at a place reads, and what is planned for it, where it runs.
    pub fn moment(&self, place: usize) -> Option<Moment>
        requires { place < length self.now.nodes }
        ensures moment { (node : Node) → IsAt self.now.nodes place node →
            result ≡ option_map moment_of node.up }
        ensures there { (node : Node) × IsAt self.now.nodes place node }
    {
        self.hosts[place].moment()
    }
}

/// Where the first of these nodes that has this id stands.
fn place_of<C: NodeCore>(hosts: &[Host<C>], id: NodeId) -> Option<usize>
    ensures { IsHostPlace hosts.now id result }
{
    for (place, host) in hosts.iter().enumerate() {
        if host.id().0 == id.0 {
            return Some(place);
        }
    }
    None
}
