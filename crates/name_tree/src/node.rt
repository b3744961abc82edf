ghost use Rattle.std.specs.Prelude.{◌≡◌, ◌<◌, ◌+◌, [], ◌∷◌, ◌++◌, length, map, false, OnOk, OnErr, IfOk, IfSome, IfNone, IsSome, Some};
ghost use Rattle.volume_rows.specs.Paths.{parent_of, is_within};
ghost use Rattle.volume_rows.specs.Rows.{entry_in, with_row, rows_outside, rows_within, renamed, names_in, page_of};
ghost use Rattle.volume_rows.specs.Rights.{ancestors};
ghost use Rattle.name_tree.specs.Trees.{HasPlace, SameKind, IsTree, under, rows_under, grafted, rows_in, IsMoved};

use std::alloc::Global;
use std::collections::BTreeMap;
use std::marker::Model;
use std::mem::forget;
use std::ops::Bound;
use volume_rows::{Asker, Content, Entry, passes};
use xt_base::{Name, OutOfMemory, Seq};
use xt_messages::{MetaRefusal, Names};

/// How many names an answer has at most.
const PAGE: usize = 512;

/// What keeps a place for what is moved there.
const PLACE: Entry = Entry {
    owner: 0,
    group: 0,
    mode: 0,
    content: Content::Directory,
};

/// A tree of names: an entry, and what is in it under each name. Contracts see the flat list of its rows, each with its path
/// from the tree's top.
#[derive(Drop)]
pub struct Node {
    entry: Entry,
    kids: BTreeMap<String, Node>,
}

impl Model for Node {
    ghost use Rattle.std.specs.Prelude.{List, length};
    ghost use Rattle.volume_rows.specs.Rows.{Row};

    ghost Value = { List Row };

    ghost use Rattle.name_tree.specs.Trees.{flat};

    ghost view = { λ n. flat n.entry n.kids.entries };

    ghost use Rattle.name_tree.specs.Trees.{IsSound};

    ghost invariant = { λ n. IsSound n.entry n.kids.entries };

    ghost size = { length };

    ghost use Rattle.std.proofs.Common.{arith};
    ghost use Rattle.name_tree.specs.Trees.{most_le-length-inside};

    ghost size_decreases = { λ a h. Prim.omega (arith, most_le-length-inside a.kids.entries) };
}

/// Appends a name to a page.
fn push_name(alloc: Global, page: &mut Names, name: &str) -> Result<(), OutOfMemory>
    ensures { OnOk result (page.new ≡ page.old ++ name.now ∷ []) }
{
    page.push(Name::of(alloc, name)?)
}

/// Puts off what is right in a tree, and lets its top go. Where no memory is left for that, the rest stays where it is, unfreed.
fn put_off(pending: &mut Vec<Node>, node: Node)
    ensures { rows_in pending.new.items < rows_in pending.old.items + length node }
{
    let Node { entry: _, kids } = node;
    for (_, kid) in kids {
        if let Err(refused) = pending.push(kid) {
            forget(refused.value);
        }
    }
}

impl Node {
    /// An entry with nothing in it.
    pub fn new(alloc: Global, entry: Entry) -> Node
        ensures { result ≡ record { path = []; entry = entry } ∷ [] }
    {
        Node {
            entry,
            kids: BTreeMap::new(alloc),
        }
    }

    /// The entry itself.
    pub fn own(&self) -> Entry
        ensures { entry_in self.now [] ≡ Some result }
    {
        self.entry
    }

    /// The entry at a path below, if there is one; else nothing is below that path either.
    pub fn find(&self, names: &[&str]) -> Option<Entry>
        ensures entry { result ≡ entry_in self.now (map (λ name. name.now) names.now) }
        ensures none { IfNone result (rows_within (map (λ name. name.now) names.now) self.now ≡
            []) }
    {
        let Some((name, rest)) = names.split_first() else {
            return Some(self.entry);
        };
        match self.kids.get(*name) {
            Some(kid) => kid.find(rest),
            None => None,
        }
    }

    /// Puts an entry at a path below, whose directory is there: in place of the one that is there, or as a new one with nothing
    /// in it.
    pub fn put(&mut self, alloc: Global, names: &[&str], entry: Entry) -> Result<(), OutOfMemory>
        requires place { HasPlace self.old (map (λ name. name.now) names.now) }
        requires kind { SameKind (entry_in self.old (map (λ name. name.now) names.now)) entry }
        ensures ok { OnOk result (self.new ≡
            with_row self.old (record { path = map (λ name. name.now) names.now; entry = entry })) }
        ensures err { OnErr result (self.new ≡ self.old) }
        ensures tree { IsTree self.new }
    {
        let Some((name, rest)) = names.split_first() else {
            self.entry = entry;
            return Ok(());
        };
        if let Some(kid) = self.kids.get_mut(*name) {
            return kid.put(alloc, rest, entry);
        }
        let node = Node::new(alloc, entry);
        self.kids.insert(String::from_str(alloc, name)?, node)?;
        Ok(())
    }

    /// Takes what is at a path below, and below that, out of the tree, if something is there.
    pub fn take(&mut self, names: &[&str]) -> Option<Node>
        requires { 0 < length names.now }
        ensures left { self.new ≡ rows_outside (map (λ name. name.now) names.now) self.old }
        ensures taken { rows_under (map (λ name. name.now) names.now) result ≡
            rows_within (map (λ name. name.now) names.now) self.old }
        ensures tree { IsTree self.new }
        ensures taken_tree { IfSome result (λ node. IsTree node) }
    {
        let Some((name, rest)) = names.split_first() else {
            return None;
        };
        if rest.is_empty() {
            return self.kids.remove(*name);
        }
        if let Some(kid) = self.kids.get_mut(*name) {
            return kid.take(rest);
        }
        None
    }

    /// Puts a tree in the place of what is at a path below, and below that, if something is there.
    pub fn replace(&mut self, names: &[&str], node: Node)
        requires there { IsSome (entry_in self.old (map (λ name. name.now) names.now)) }
        requires tree { IsTree node }
        ensures rows { self.new ≡ grafted self.old (map (λ name. name.now) names.now) node }
        ensures outside { rows_outside (map (λ name. name.now) names.now) self.new ≡
            rows_outside (map (λ name. name.now) names.now) self.old }
        ensures within { rows_within (map (λ name. name.now) names.now) self.new ≡
            map (under (map (λ name. name.now) names.now)) node }
        ensures tree { IsTree self.new }
    {
        let Some((name, rest)) = names.split_first() else {
            *self = node;
            return;
        };
        if let Some(kid) = self.kids.get_mut(*name) {
            return kid.replace(rest, node);
        }
    }

    /// Moves what is at a path below, and below that, to another path, whose directory is there and where nothing is. Only the
    /// place for it needs memory, so that is made first.
    pub fn rename(&mut self, alloc: Global, from: &[&str], to: &[&str]) -> Result<(), OutOfMemory>
        requires there { IsSome (entry_in self.old (map (λ name. name.now) from.now)) }
        requires apart { is_within (map (λ name. name.now) from.now)
            (map (λ name. name.now) to.now) ≡ false }
        requires place { HasPlace self.old (map (λ name. name.now) to.now) }
        requires free { rows_within (map (λ name. name.now) to.now) self.old ≡ [] }
        ensures ok { OnOk result (self.new ≡
            renamed self.old (map (λ name. name.now) from.now) (map (λ name. name.now) to.now)) }
        ensures moved { OnOk result
            (IsMoved self.old self.new (map (λ name. name.now) from.now)
            (map (λ name. name.now) to.now)) }
        ensures err { OnErr result (self.new ≡ self.old) }
        ensures tree { IsTree self.new }
    {
        self.put(alloc, to, PLACE)?;
        let Some(node) = self.take(from) else {
            return Ok(());
        };
        self.replace(to, node);
        Ok(())
    }

    /// Lets a tree go, by a loop: after renames it may be deeper than a stack reaches. Where no memory is left for what is put off,
    /// that stays where it is, unfreed.
    pub fn take_apart(self, alloc: Global) {
        let mut pending = Vec::new(alloc);
        let mut node = self;
        loop {
            put_off(&mut pending, node);
            match pending.pop() {
                Some(next) => node = next,
                None => return,
            }
        }
    }

    /// Why the ancestors of a path below turn an asker away, if they do: the first that fails, from the top down.
    pub fn ancestors(&self, who: Asker, names: &[&str]) -> Option<MetaRefusal>
        ensures { result ≡ ancestors who self.now (map (λ name. name.now) names.now) }
    {
        let Some((name, rest)) = names.split_first() else {
            return None;
        };
        if rest.is_empty() {
            return None;
        }
        let Some(kid) = self.kids.get(*name) else {
            return Some(MetaRefusal::NotFound);
        };
        let refusal = passes(who, kid.own());
        if refusal.is_some() {
            return refusal;
        }
        kid.ancestors(who, rest)
    }

    /// The directory that a path below is in, if it is there.
    pub fn place(&self, names: &[&str]) -> Option<Entry>
        ensures { result ≡ entry_in self.now (parent_of (map (λ name. name.now) names.now)) }
    {
        let Some((name, rest)) = names.split_first() else {
            return Some(self.entry);
        };
        if rest.is_empty() {
            return Some(self.entry);
        }
        match self.kids.get(*name) {
            Some(kid) => kid.place(rest),
            None => None,
        }
    }

    /// How many names are right in the directory at a path below.
    pub fn count(&self, names: &[&str]) -> usize
        ensures { result ≡ length (names_in self.now (map (λ name. name.now) names.now)) }
    {
        let Some((name, rest)) = names.split_first() else {
            return self.kids.len();
        };
        match self.kids.get(*name) {
            Some(kid) => kid.count(rest),
            None => 0,
        }
    }

    /// The names right in the directory at a path below, a page of those above `after`.
    pub fn page(&self, alloc: Global, names: &[&str], after: &str) -> Result<Names, OutOfMemory>
        ensures { IfOk result (λ page. page ≡
            page_of self.now (map (λ name. name.now) names.now) after.now) }
    {
        let Some((name, rest)) = names.split_first() else {
            return self.own_page(alloc, after);
        };
        match self.kids.get(*name) {
            Some(kid) => kid.page(alloc, rest, after),
            None => Ok(Seq::new(alloc)),
        }
    }

    /// A page of the names right in it, above `after`.
    fn own_page(&self, alloc: Global, after: &str) -> Result<Names, OutOfMemory>
        ensures { IfOk result (λ page. page ≡ page_of self.now [] after.now) }
    {
        let after = String::from_str(alloc, after)?;
        let mut page = Seq::new(alloc);
        for (name, _) in self.kids.range((Bound::Excluded(&after), Bound::Unbounded)) {
            if page.len() == PAGE {
                return Ok(page);
            }
            push_name(alloc, &mut page, name.as_str())?;
        }
        Ok(page)
    }
}
