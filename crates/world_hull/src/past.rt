//! What was done to the records of a node: only proofs read it. It takes no memory, and its methods do nothing at run time.
ghost use Rattle.std.specs.Prelude.{◌≡◌, List, [], ◌∷◌, ◌++◌};
ghost use Rattle.std.specs.Borrow.{ftrue};
ghost use Rattle.world_spec.specs.World.{Deed};

use std::marker::Model;
use xt_messages::{Keep, Record};

/// What is done to the records of a node.
#[derive(Clone, Copy)]
pub enum Done<'a> {
    /// This one is put after the others.
    Puts(&'a Record),
    /// They are loaded for a start.
    Loads,
    /// They are rewritten with these bodies.
    Rewrites(&'a Keep),
}

/// A clause reads what was done as `deeds`.
#[derive(Drop)]
pub struct Past {
    pub ghost deeds: { List Deed },
}

impl Model for Past {
    ghost also_owns = { λ _. ftrue };
}

impl Past {
    ghost use Rattle.world_hull.specs.Deeds.{deed_of};

    /// Nothing was done.
    pub fn new() -> Past
        ensures { result.deeds ≡ [] }
    {
        Past {}
    }

    /// This, and then one thing more was done.
    pub fn and(&self, _done: &Done<'_>) -> Past
        ensures { result.deeds ≡ self.now.deeds ++ deed_of _done.now ∷ [] }
    {
        Past {}
    }
}
