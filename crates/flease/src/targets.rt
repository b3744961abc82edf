ghost use Rattle.std.specs.Prelude.{◌≡◌, ◌<◌, ◌≤◌, ◌++◌, ◌∷◌, [], length};

use std::marker::Model;
use xt_base::{Boot, NodeId};

/// At most nine boots of nodes, to which a Write goes. Contracts see the list.
#[derive(Clone, Copy)]
pub struct Targets {
    places: [(NodeId, Boot); 9],
    count: usize,
}

impl Model for Targets {
    ghost use Rattle.std.specs.Prelude.{List};
    ghost use Rattle.xt_base.specs.declared.ids.NodeId.{NodeId};
    ghost use Rattle.xt_base.specs.declared.ids.Boot.{Boot};

    ghost Value = { List (NodeId × Boot) };

    ghost use Rattle.flease.specs.Pairs.{seen, filled, IsFilled};

    ghost view = { seen };

    ghost invariant = { IsFilled };

    ghost inverse = { filled };

    ghost inverse_ok = { λ a h. h.1 };
}

impl Targets {
    /// Nobody.
    pub(crate) fn new() -> Targets
        ensures { result ≡ [] }
    {
        Targets {
            places: [(NodeId(0), Boot(0)); 9],
            count: 0,
        }
    }

    /// This one too.
    pub(crate) fn push(&mut self, node: NodeId, boot: Boot)
        requires { length self.old < 9 }
        ensures { self.new ≡ self.old ++ (node, boot) ∷ [] }
    {
        self.places[self.count] = (node, boot);
        self.count += 1;
    }

    /// The pairs in order.
    pub fn as_slice(&self) -> &[(NodeId, Boot)]
        ensures list { result.now ≡ self.now }
        ensures few { length result.now ≤ 9 }
    {
        &self.places[..self.count]
    }
}
