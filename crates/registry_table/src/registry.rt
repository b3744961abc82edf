ghost use Rattle.std.specs.Prelude.{◌≡◌, ◌++◌, ◌∷◌, [], IfOk, OnOk, OnErr};
ghost use Rattle.std.specs.Option.{option_map};
ghost use Rattle.registry_table.specs.Registry.{row_of, with_row, without_row, page_of, version_in, shown};
ghost use Rattle.registry_table.specs.Plans.{applied};
ghost use Rattle.registry_table.specs.Index.{IsFirstListed};

use std::alloc::{AllocError, Global};
use std::collections::{BTreeMap, BTreeSet};
use std::marker::Model;
use std::ops::Bound;
use xt_base::{Copies, Name, NodeId, OutOfMemory, Seq};
use xt_messages::{RegistryRow, RegistryRows};

/// How many rows an answer has at most.
const PAGE: usize = 256;

/// What is registered of a node.
#[derive(Drop)]
pub struct Registered {
    pub kind: u8,
    pub address: Name,
    pub version: u64,
}

/// What a request does to the registry.
#[derive(Drop)]
pub enum Change {
    Stay,
    Put { node: NodeId, row: Registered },
    Remove { node: NodeId },
}

/// The registered nodes, rising, and beside them the nodes of each kind, rising, so that a page of a kind passes by no row of
/// another. Contracts see the list of the rows.
#[derive(Drop)]
pub struct Registry {
    rows: BTreeMap<u32, Registered>,
    kinds: BTreeSet<(u8, u32)>,
}

impl Model for Registry {
    ghost use Rattle.std.specs.Prelude.{List, ℕ};
    ghost use Rattle.registry_table.specs.declared.registry.Registered.{Registered};

    ghost Value = { List (ℕ × Registered) };

    ghost use Rattle.registry_table.specs.Index.{IsIndexed};

    ghost view = { λ r. r.rows.entries };

    ghost invariant = { λ r. IsIndexed r.rows r.kinds };
}

/// A row as it is reported.
fn shown(alloc: Global, node: u32, row: &Registered) -> Result<RegistryRow, OutOfMemory>
    ensures { IfOk result (λ made. made ≡ shown (node, row.now)) }
{
    Ok(RegistryRow {
        node: NodeId(node),
        kind: row.kind,
        address: row.address.copy(alloc)?,
        version: row.version,
    })
}

/// Appends a row to a page, as it is shown.
fn push_shown(
    alloc: Global,
    page: &mut RegistryRows,
    node: u32,
    row: &Registered,
) -> Result<(), OutOfMemory>
    ensures { OnOk result (page.new ≡ page.old ++ shown (node, row.now) ∷ []) }
{
    page.push(shown(alloc, node, row)?)
}

impl Registry {
    /// No rows.
    pub fn new(alloc: Global) -> Registry
        ensures { result ≡ [] }
    {
        Registry {
            rows: BTreeMap::new(alloc),
            kinds: BTreeSet::new(alloc),
        }
    }

    /// The version of a node: 0 where it is absent.
    pub fn version(&self, node: NodeId) -> u64
        ensures { result ≡ version_in (row_of self.now node.0) }
    {
        match self.rows.get(&node.0) {
            Some(row) => row.version,
            None => 0,
        }
    }

    /// A node's row as it is reported, if there is one.
    pub fn row(&self, alloc: Global, node: NodeId) -> Result<Option<RegistryRow>, OutOfMemory>
        ensures { IfOk result (λ made. made ≡
            option_map (λ row. shown (node.0, row)) (row_of self.now node.0)) }
    {
        match self.rows.get(&node.0) {
            Some(row) => Ok(Some(shown(alloc, node.0, row)?)),
            None => Ok(None),
        }
    }

    /// Puts a node's row in its place.
    pub fn put(&mut self, node: NodeId, row: Registered) -> Result<(), OutOfMemory>
        ensures ok { OnOk result (self.new ≡ with_row self.old node.0 row) }
        ensures err { OnErr result (self.new ≡ self.old) }
    {
        let kind = row.kind;
        self.kinds.insert((kind, node.0))?;
        match self.rows.insert(node.0, row) {
            Ok(Some(old)) => {
                if old.kind != kind {
                    self.kinds.remove(&(old.kind, node.0));
                }
                Ok(())
            }
            Ok(None) => Ok(()),
            Err(_) => {
                self.kinds.remove(&(kind, node.0));
                Err(AllocError)
            }
        }
    }

    /// Takes a node's row out.
    pub fn remove(&mut self, node: NodeId)
        ensures { self.new ≡ without_row self.old node.0 }
    {
        if let Some(row) = self.rows.remove(&node.0) {
            self.kinds.remove(&(row.kind, node.0));
        }
    }

    /// The first row of a kind with a node above `after`, if there is one.
    fn next_of(&self, kind: u8, after: u32) -> Option<(u32, &Registered)>
        ensures { IsFirstListed self.now kind after (option_map (λ r. (r.0, r.1.now)) result) }
    {
        let above = (Bound::Excluded((kind, after)), Bound::Unbounded);
        let Some(key) = self.kinds.range(above).next() else {
            return None;
        };
        let (of, node) = *key;
        if of != kind {
            return None;
        }
        match self.rows.get(&node) {
            Some(row) => Some((node, row)),
            None => None,
        }
    }

    /// A page of the rows of a kind, with nodes above `after`. Rows of other kinds cost nothing.
    pub fn page(&self, alloc: Global, kind: u8, after: NodeId) -> Result<RegistryRows, OutOfMemory>
        ensures { IfOk result (λ page. page ≡ page_of self.now kind after.0) }
    {
        let mut page = Seq::new(alloc);
        let mut last = after.0;
        for _count in 0..PAGE {
            let Some((node, row)) = self.next_of(kind, last) else {
                return Ok(page);
            };
            push_shown(alloc, &mut page, node, row)?;
            last = node;
        }
        Ok(page)
    }

    /// Makes a change. Nothing changes if memory runs out.
    pub fn apply(&mut self, change: Change) -> Result<(), OutOfMemory>
        ensures ok { OnOk result (self.new ≡ applied self.old change) }
        ensures err { OnErr result (self.new ≡ self.old) }
    {
        match change {
            Change::Stay => Ok(()),
            Change::Put { node, row } => self.put(node, row),
            Change::Remove { node } => {
                self.remove(node);
                Ok(())
            }
        }
    }
}
