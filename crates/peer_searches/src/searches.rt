ghost use Rattle.std.specs.Prelude.{◌≡◌, [], OnOk};
ghost use Rattle.peer_searches.specs.Sound.{passed_at, with_search};

use std::alloc::Global;
use std::marker::Model;
use xt_base::{NodeId, OutOfMemory};

/// The search for the first version that a peer lacks has passed so many, from the first one on: they are known of it.
#[derive(Clone, Copy)]
pub struct Search {
    pub node: NodeId,
    pub passed: usize,
}

/// The searches for what peers lack, at most one for each. Contracts see the list.
#[derive(Drop)]
pub struct Searches {
    searches: Vec<Search>,
}

impl Model for Searches {
    ghost use Rattle.std.specs.Prelude.{List};
    ghost use Rattle.peer_searches.specs.declared.searches.Search.{Search};

    ghost Value = { List Search };

    ghost view = { λ s. s.searches.items };
}

impl Searches {
    /// No search has begun.
    pub fn new(alloc: Global) -> Searches
        ensures { result ≡ [] }
    {
        Searches {
            searches: Vec::new(alloc),
        }
    }

    /// Each search is to begin again, as where the head's versions have changed. It takes no memory.
    pub fn clear(&mut self)
        ensures { self.new ≡ [] }
    {
        self.searches.clear();
    }

    /// How many versions the search for what this peer lacks has passed, 0 where it hasn't begun.
    pub fn passed(&self, node: NodeId) -> usize
        ensures { result ≡ passed_at self.now node }
    {
        for search in self.searches.as_slice() {
            if search.node.0 == node.0 {
                return search.passed;
            }
        }
        0
    }

    /// A search has come this far.
    pub fn put(&mut self, search: Search) -> Result<(), OutOfMemory>
        ensures { OnOk result (self.new ≡ with_search self.old search) }
    {
        self.searches.retain(|other| other.node.0 != search.node.0);
        self.searches.push(search)?;
        Ok(())
    }
}
