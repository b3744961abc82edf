//! The rules that a line may break.
ghost use Rattle.std.specs.Prelude.{◌≡◌, ◌*◌, ◌<◌, Some, None, length};
ghost use Rattle.std.specs.Option.{option_or};
ghost use Rattle.world_spec.specs.Rules.{refusal, file_twice, first_stranger, usable_at, unless_usable, no_called_file, no_member, no_message, drifts_inside};
ghost use Rattle.client_rows.specs.Called.{called_file};

use crate::state::State;
use time_line::Line;
use world_host::{NodeCore, called_file};
use world_hull::Hull;
use world_spec::{NODES, PlacedFile};
use world_tables::SentMessages;
use xt_base::{DIR_NODE, MRC_NODE, NodeId};
use xt_messages::{Call, Location, Rule};

/// A message that was never sent.
fn no_message(sent: &SentMessages, number: u128) -> Option<Rule>
    ensures { result ≡ no_message (length sent.now) number }
{
    if number >= 1 && number <= u128::from(sent.len()) {
        None
    } else {
        Some(Rule::NoSuchMessage { number })
    }
}

impl<C: NodeCore, H: Hull> State<C, H> {
    /// A file that is declared already, or not of declared OSDs.
    fn file_rule(&self, number: u64, location: &Location) -> Option<Rule>
        ensures { result ≡
            option_or (file_twice self.now.doing.world.files number)
            (first_stranger self.now.doing.world.nodes location.now.members) }
    {
        match self.files.find(number) {
            Some(_) => Some(Rule::Declared { number }),
            None => self
                .stepper
                .nodes
                .first_stranger(location.members.as_slice()),
        }
    }

    /// The file of this number that a client may use: a declared one, or else one that it holds.
    fn usable(&self, client: NodeId, number: u64) -> Option<PlacedFile>
        ensures { result ≡ usable_at self.now.doing.world client number }
    {
        match self.files.find(number) {
            Some(file) => Some(file),
            None => self.stepper.nodes.held(client, number),
        }
    }

    /// A call on a file that the client may not use.
    fn no_called_file(&self, client: NodeId, call: &Call) -> Option<Rule>
        ensures { result ≡ no_called_file self.now.doing.world client (called_file call.now) }
    {
        let number = called_file(call)?;
        match self.usable(client, number) {
            Some(_) => None,
            None => Some(Rule::NoSuchFile { number }),
        }
    }

    /// A first target that isn't of the file's list, or a file that the client may not use.
    fn aim_rule(&self, client: NodeId, number: u64, node: NodeId) -> Option<Rule>
        ensures { let w = self.now.doing.world in
            let found = usable_at w client number in
            result ≡ option_or (unless_usable found number) (no_member found node) }
    {
        match self.usable(client, number) {
            None => Some(Rule::NoSuchFile { number }),
            Some(found) if found.location.members.contains(node) => None,
            Some(_) => Some(Rule::NoSuchNode { node }),
        }
    }

    /// A new client's clock that is apart from another one, where there is room for the client.
    fn drifts_inside(&self, node: NodeId, clock: u64) -> Option<Rule>
        ensures { result ≡ drifts_inside self.now.doing.world node clock }
    {
        if (self.stepper.nodes.len() as u64) < NODES {
            self.stepper.nodes.drifts(node, clock)
        } else {
            None
        }
    }

    /// The rule that the line breaks, the first of them.
    #[tactic(auto, unfolding(world_spec::specs::Rules::refusal))]
    pub fn refusal(&self, line: &Line) -> Option<Rule>
        ensures { result ≡ refusal self.now.doing.world line.now }
    {
        let nodes = &self.stepper.nodes;
        match line {
            Line::Times { .. } | Line::Settle { .. } => None,
            Line::Osd { node } => nodes.twice(*node),
            Line::Mrc => nodes.twice(MRC_NODE),
            Line::Dir => nodes.twice(DIR_NODE),
            Line::Client { node, clock } => {
                nodes.twice(*node).or(self.drifts_inside(*node, *clock))
            }
            Line::File { number, location } => self.file_rule(*number, location),
            Line::Start { node, clock } => {
                let close = nodes.drifts(*node, *clock);
                nodes
                    .no_server(*node)
                    .or(nodes.runs_already(*node).or(close))
            }
            Line::Stop { node } | Line::Crash { node, .. } | Line::Cut { node, .. } => {
                nodes.no_server(*node).or(nodes.runs_not(*node))
            }
            Line::Clock { node, clock } => {
                let close = nodes.drifts(*node, *clock);
                let rises = nodes.goes_back(*node, *clock).or(close);
                nodes.no_node(*node).or(nodes.runs_not(*node).or(rises))
            }
            Line::Tick { count } => nodes.clock_ends(*count),
            Line::Wake { node } => nodes.no_node(*node).or(nodes.runs_not(*node)),
            Line::Call { client, call } => {
                let free = self.no_called_file(*client, call).or(nodes.busy(*client));
                nodes.no_client(*client).or(free)
            }
            Line::Again { client } => {
                let ended = nodes.busy(*client).or(nodes.no_call(*client));
                nodes.no_client(*client).or(ended)
            }
            Line::Aim { client, file, node } => {
                nodes
                    .no_client(*client)
                    .or(self.aim_rule(*client, *file, *node))
            }
            Line::Deliver { number } | Line::Drop { number } => no_message(
                &self.stepper.sent,
                *number,
            ),
        }
    }
}
