//! What the metadata server does with its volumes.
//!
//! `Table` keeps them as a tree of names, which goes down the names of a path alone, and the sizes of each file by its number; contracts
//! see the flat list of rows. The calls of `Tree` equal those on that list; a refusal changes nothing, and neither does running out of
//! memory.
#![tactic(auto)]

mod requests;
mod table;
mod tree;

use std::alloc::AllocError;
pub use tree::Tree;
use xt_messages::MetaRefusal;

/// Why a call on the volumes changes nothing.
#[derive(Drop)]
pub enum TreeErr {
    Refused { why: MetaRefusal },
    OutOfMemory,
}

ghost use Rattle.std.specs.Prelude.{◌≡◌};
ghost use Rattle.volume_tree.specs.declared.TreeErr.TheVariants.{OutOfMemory};

impl From<AllocError> for TreeErr {
    ghost from_gives = { λ _ e. e ≡ OutOfMemory };

    fn from(_e: AllocError) -> TreeErr {
        TreeErr::OutOfMemory
    }
}
