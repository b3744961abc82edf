//! The messages of a node to itself that wait: they are handled first in first out, before anything else, and are lost with it.
#![tactic(auto)]

ghost use Rattle.std.specs.Prelude.{◌≡◌, ◌++◌, [], OnOk};
ghost use Rattle.world_spec.specs.NodeSteps.{to_itself};
ghost use Rattle.own_messages.specs.Own.{IsNext};

use std::alloc::Global;
use std::collections::VecDeque;
use std::marker::Model;
use xt_base::{NodeId, OutOfMemory};
use xt_messages::{Msg, Msgs};

/// The messages of a node to itself that it hasn't handled. Contracts see the list, the next one first.
#[derive(Drop)]
pub struct OwnMessages {
    list: VecDeque<Msg>,
}

impl Model for OwnMessages {
    ghost use Rattle.std.specs.Prelude.{List};
    ghost use Rattle.xt_messages.specs.declared.message.Msg.{Msg};

    ghost Value = { List Msg };

    ghost view = { λ own. own.list.items };
}

/// Those of a node's messages that are to itself.
fn own_of(node: NodeId, outs: Msgs) -> Vec<Msg>
    ensures { result.items ≡ to_itself node outs }
{
    let mut own = outs.items;
    own.retain(|message| message.to.0 == node.0);
    own
}

impl OwnMessages {
    /// No message.
    pub fn new(alloc: Global) -> OwnMessages
        ensures { result ≡ [] }
    {
        OwnMessages {
            list: VecDeque::new(alloc),
        }
    }

    /// Those messages of a step that are to its own node come after all others.
    pub fn put(&mut self, node: NodeId, outs: Msgs) -> Result<(), OutOfMemory>
        ensures { OnOk result (self.new ≡ self.old ++ to_itself node outs) }
    {
        let mut own = VecDeque::from_vec(own_of(node, outs));
        self.list.append(&mut own)
    }

    /// Takes the next one.
    pub fn take(&mut self) -> Option<Msg>
        ensures { IsNext self.old self.new result }
    {
        self.list.pop_front()
    }

    /// The node has stopped: they are lost with it.
    pub fn lose(&mut self)
        ensures { self.new ≡ [] }
    {
        self.list.clear();
    }
}
