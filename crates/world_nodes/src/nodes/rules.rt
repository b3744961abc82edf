//! The rules about the declared nodes that a line may break.
ghost use Rattle.std.specs.Prelude.{◌≡◌, ◌<◌, Some, None};
ghost use Rattle.std.specs.Option.{option_map};
ghost use Rattle.world_spec.specs.World.{client, node_in, up_of};
ghost use Rattle.world_spec.specs.Rules.{no_osd, no_server, no_client, no_node, node_twice, runs_already, runs_not, first_stranger, goes_back, clock_ends, busy, no_call, drifts, held_in, file_held};
ghost use Rattle.client_rows.specs.Holding.{held_of};
ghost use Rattle.world_nodes.specs.Nodes.{bare};

use crate::nodes::Nodes;
use world_clocks::{ClockTest, least_where};
use world_host::NodeCore;
use world_hull::Hull;
use world_spec::PlacedFile;
use xt_base::NodeId;
use xt_messages::Rule;

impl<C: NodeCore, H: Hull> Nodes<C, H> {
    /// There is no such OSD.
    pub fn no_osd(&self, id: NodeId) -> Option<Rule>
        ensures { result ≡ no_osd self.now.nodes id }
    {
        match self.find(id) {
            Some(place) if self.hosts[place].is_osd() => None,
            _ => Some(Rule::NoSuchNode { node: id }),
        }
    }

    /// There is no such node that starts and stops.
    pub fn no_server(&self, id: NodeId) -> Option<Rule>
        ensures { result ≡ no_server self.now.nodes id }
    {
        match self.find(id) {
            Some(place) if self.hosts[place].is_server() => None,
            _ => Some(Rule::NoSuchNode { node: id }),
        }
    }

    /// There is no such client.
    pub fn no_client(&self, id: NodeId) -> Option<Rule>
        ensures { result ≡ no_client self.now.nodes id }
    {
        match self.find(id) {
            Some(place) if self.hosts[place].is_client() => None,
            _ => Some(Rule::NoSuchNode { node: id }),
        }
    }

    /// There is no such node.
    pub fn no_node(&self, id: NodeId) -> Option<Rule>
        ensures { result ≡ no_node self.now.nodes id }
    {
        match self.find(id) {
            Some(_) => None,
            None => Some(Rule::NoSuchNode { node: id }),
        }
    }

    /// There is such a node already.
    pub fn twice(&self, id: NodeId) -> Option<Rule>
        ensures { result ≡ node_twice self.now.nodes id }
    {
        match self.find(id) {
            Some(_) => Some(Rule::Declared {
                number: u64::from(id.0),
            }),
            None => None,
        }
    }

    /// What the clock of the node of this id reads, where it runs.
    fn clock_of(&self, id: NodeId) -> Option<u64>
        ensures { result ≡
            option_map (λ running. running.clock) (up_of (node_in self.now.nodes id.0)) }
    {
        let place = self.find(id)?;
        Some(self.moment(place)?.clock)
    }

    /// It runs already.
    pub fn runs_already(&self, id: NodeId) -> Option<Rule>
        ensures { result ≡ runs_already self.now.nodes id }
    {
        match self.clock_of(id) {
            Some(_) => Some(Rule::Running { node: id }),
            None => None,
        }
    }

    /// It doesn't run.
    pub fn runs_not(&self, id: NodeId) -> Option<Rule>
        ensures { result ≡ runs_not self.now.nodes id }
    {
        match self.clock_of(id) {
            Some(_) => None,
            None => Some(Rule::NotRunning { node: id }),
        }
    }

    /// Its running clock reads more.
    pub fn goes_back(&self, id: NodeId, clock: u64) -> Option<Rule>
        ensures { result ≡ goes_back clock (up_of (node_in self.now.nodes id.0)) }
    {
        match self.clock_of(id) {
            Some(last) if clock < last => Some(Rule::ClockBack { last }),
            _ => None,
        }
    }

    /// A call of the client runs.
    pub fn busy(&self, id: NodeId) -> Option<Rule>
        ensures { result ≡ busy self.now.nodes id }
    {
        match self.find(id) {
            Some(place) if self.hosts[place].has_call() => Some(Rule::ClientBusy { client: id }),
            _ => None,
        }
    }

    /// The client's last call didn't end as one that may be made again.
    pub fn no_call(&self, id: NodeId) -> Option<Rule>
        ensures { result ≡ no_call self.now.nodes id }
    {
        match self.find(id) {
            Some(place) if self.hosts[place].may_repeat() => None,
            _ => Some(Rule::NoCall { client: id }),
        }
    }

    /// The file of this number, if the client of this id runs and holds a capability of it.
    pub fn held(&self, id: NodeId, number: u64) -> Option<PlacedFile>
        ensures { result ≡
            file_held (held_of (held_in (up_of (node_in self.now.nodes id.0))) number) }
    {
        let place = self.find(id)?;
        self.hosts[place].held(number)
    }

    /// The first of the members that isn't a declared OSD.
    #[tactic(auto, unfolding(world_spec::specs::Rules::first_stranger))]
    pub fn first_stranger(&self, members: &[NodeId]) -> Option<Rule>
        ensures { result ≡ first_stranger self.now.nodes members.now }
    {
        let (first, rest) = members.split_first()?;
        match self.no_osd(*first) {
            Some(rule) => Some(rule),
            None => self.first_stranger(rest),
        }
    }

    /// The new clock of a node is apart from that of another running node.
    pub fn drifts(&self, id: NodeId, clock: u64) -> Option<Rule>
        ensures { result ≡ drifts (bare self.now) id clock }
    {
        let test = ClockTest::Apart {
            node: id,
            clock,
            drift: self.times.drift(),
        };
        let other = least_where(self.hosts.as_slice(), &test)?;
        Some(Rule::Drift {
            a: clock,
            b: other.clock,
        })
    }

    /// A running clock would reach the end.
    pub fn clock_ends(&self, count: u64) -> Option<Rule>
        ensures { result ≡ clock_ends count self.now.nodes }
    {
        let found = least_where(self.hosts.as_slice(), &ClockTest::Ends { count })?;
        Some(Rule::ClockEnd { node: found.node })
    }
}
