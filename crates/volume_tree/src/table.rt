ghost use Rattle.std.specs.Prelude.{◌≡◌, ◌<◌, ◌≤◌, ◌^◌, [], length, map, false, OnOk, OnErr, IfNone, IfOk, None, IsSome};
ghost use Rattle.volume_rows.specs.Paths.{parent_of, is_within};
ghost use Rattle.volume_rows.specs.Rows.{no_volumes, entry_at, with_row, without_row, rows_within, renamed, names_in, page_of};
ghost use Rattle.volume_rows.specs.Rights.{ancestors, same_volume};
ghost use Rattle.volume_rows.specs.Requests.{new_file};
ghost use Rattle.volume_rows.specs.Grants.{sizes_in, sizes_set};
ghost use Rattle.name_tree.specs.Trees.{IsDirectory};
ghost use Rattle.volume_tree.specs.Tables.{kept_in, content_sized, entry_sized, file_added, SameContent, HasNothing};

use name_tree::Node;
use std::alloc::Global;
use std::collections::BTreeMap;
use std::marker::Model;
use volume_rows::{Asker, Content, Entry, Stored, volume_of};
use xt_base::{FileId, OutOfMemory, SizeMark, VolumeId};
use xt_messages::{Location, MetaRefusal, Names};

/// The number of the first file.
const FIRST: u64 = 1_000_000;

/// The root, in which everybody may do all.
const ROOT: Entry = Entry {
    owner: 0,
    group: 0,
    mode: 0o777,
    content: Content::Directory,
};

/// No size.
const EMPTY: SizeMark = SizeMark { epoch: 0, size: 0 };

/// What changes of a file wherever it is: the truncate epoch that was issued last, and its size as it was reported. Its volume
/// stands beside them.
#[derive(Clone, Copy)]
pub struct Sizes {
    pub volume: VolumeId,
    pub epoch: u64,
    pub mark: SizeMark,
}

/// All volumes. Contracts see the flat list of their rows, and the number that the next file gets. The tree has each file with
/// the sizes that it was made with; those that were reported are kept beside it.
pub struct Table {
    top: Node,
    sizes: BTreeMap<u64, Sizes>,
    next: u64,
    alloc: Global,
}

// After renames directories may be nested deeper than the stack reaches, so they are let go by a loop.
impl Drop for Table {
    fn drop(self) {
        let Table {
            top,
            sizes: _,
            next: _,
            alloc,
        } = self;
        top.take_apart(alloc);
    }
}

impl Model for Table {
    ghost use Rattle.volume_rows.specs.Rows.{Volumes};

    ghost Value = { Volumes };

    ghost use Rattle.volume_tree.specs.Tables.{kept_in, volumes_in, IsTable};

    ghost view = { λ t. volumes_in t.top (kept_in t.sizes) t.next };

    ghost invariant = { λ t. IsTable t.top (kept_in t.sizes) t.next };
}

/// What an entry is, with the sizes that are kept of it if it is a file.
fn content_sized(sizes: &BTreeMap<u64, Sizes>, content: Content) -> Content
    ensures { result ≡ content_sized (kept_in sizes.now) content }
{
    match content {
        Content::Directory => Content::Directory,
        Content::File { stored } => match sizes.get(&stored.number) {
            Some(kept) => Content::File {
                stored: Stored {
                    epoch: kept.epoch,
                    mark: kept.mark,
                    ..stored
                },
            },
            None => Content::File { stored },
        },
    }
}

/// An entry with them.
fn sized(sizes: &BTreeMap<u64, Sizes>, entry: Entry) -> Entry
    ensures { result ≡ entry_sized (kept_in sizes.now) entry }
{
    let Entry {
        owner,
        group,
        mode,
        content,
    } = entry;
    Entry {
        owner,
        group,
        mode,
        content: content_sized(sizes, content),
    }
}

/// What an asker makes of a new file, with nothing issued and no size.
fn new_file(who: Asker, mode: u16, number: u64, location: Location) -> Entry
    ensures { result ≡
        record {
          owner = who.user;
          group = who.group;
          mode = mode;
          content = new_file number location;
        } }
{
    Entry {
        owner: who.user,
        group: who.group,
        mode,
        content: Content::File {
            stored: Stored {
                number,
                location,
                epoch: 0,
                mark: EMPTY,
            },
        },
    }
}

impl Table {
    /// No volumes.
    pub fn new(alloc: Global) -> Table
        ensures { result ≡ no_volumes }
    {
        Table {
            top: Node::new(alloc, ROOT),
            sizes: BTreeMap::new(alloc),
            next: FIRST,
            alloc,
        }
    }

    /// The number that the next file gets.
    pub fn next(&self) -> u64
        ensures { result ≡ self.now.next }
    {
        self.next
    }

    /// The entry at a path, the root's too. Where none is, nothing is below the path either.
    pub fn find(&self, names: &[&str]) -> Option<Entry>
        ensures entry { result ≡ entry_at self.now.rows (map (λ name. name.now) names.now) }
        ensures none { IfNone result (rows_within (map (λ name. name.now) names.now) self.now.rows ≡
            []) }
    {
        match self.top.find(names) {
            Some(entry) => Some(sized(&self.sizes, entry)),
            None => None,
        }
    }

    /// The directory that a path is in, if it is there.
    pub fn place(&self, names: &[&str]) -> Option<Entry>
        ensures { result ≡ entry_at self.now.rows (parent_of (map (λ name. name.now) names.now)) }
    {
        match self.top.place(names) {
            Some(entry) => Some(sized(&self.sizes, entry)),
            None => None,
        }
    }

    /// Why the ancestors of a path turn an asker away, if they do.
    pub fn ancestors(&self, who: Asker, names: &[&str]) -> Option<MetaRefusal>
        ensures { result ≡ ancestors who self.now.rows (map (λ name. name.now) names.now) }
    {
        self.top.ancestors(who, names)
    }

    /// How many names are right in the directory at a path.
    pub fn count(&self, names: &[&str]) -> usize
        ensures { result ≡ length (names_in self.now.rows (map (λ name. name.now) names.now)) }
    {
        self.top.count(names)
    }

    /// A page of the names right in the directory at a path: the first 512 above `after`.
    pub fn page(&self, names: &[&str], after: &str) -> Result<Names, OutOfMemory>
        ensures { IfOk result (λ page. page ≡
            page_of self.now.rows (map (λ name. name.now) names.now) after.now) }
    {
        self.top.page(self.alloc, names, after)
    }

    /// Puts an entry at a path, whose directory is there: a new directory, or one with the content of what is there. Nothing
    /// changes if memory runs out.
    pub fn put(&mut self, names: &[&str], entry: Entry) -> Result<(), OutOfMemory>
        requires below { 0 < length names.now }
        requires place { IsDirectory
            (entry_at self.old.rows (parent_of (map (λ name. name.now) names.now))) }
        requires content { SameContent (entry_at self.old.rows (map (λ name. name.now) names.now))
            entry }
        ensures ok { OnOk result (self.new ≡
            record self.old {
              rows = with_row self.old.rows
                  (record { path = map (λ name. name.now) names.now; entry = entry });
            }) }
        ensures err { OnErr result (self.new ≡ self.old) }
    {
        self.top.put(self.alloc, names, entry)
    }

    /// Adds a file at a path, whose directory is there and where nothing is, under the next number. Nothing changes if memory
    /// runs out.
    pub fn add(
        &mut self,
        who: Asker,
        mode: u16,
        location: Location,
        names: &[&str],
    ) -> Result<(), OutOfMemory>
        requires below { 0 < length names.now }
        requires place { IsDirectory
            (entry_at self.old.rows (parent_of (map (λ name. name.now) names.now))) }
        requires free { entry_at self.old.rows (map (λ name. name.now) names.now) ≡ None }
        requires number { self.old.next < 2 ^ 62 }
        ensures ok { OnOk result (self.new ≡
            file_added self.old who mode location (map (λ name. name.now) names.now)) }
        ensures err { OnErr result (self.new ≡ self.old) }
    {
        let number = self.next;
        let sizes = Sizes {
            volume: volume_of(names),
            epoch: 0,
            mark: EMPTY,
        };
        self.sizes.insert(number, sizes)?;
        let entry = new_file(who, mode, number, location);
        if let Err(why) = self.top.put(self.alloc, names, entry) {
            self.sizes.remove(&number);
            return Err(why);
        }
        self.next = number + 1;
        Ok(())
    }

    /// Takes out what is at a path, which has nothing below it.
    pub fn cut(&mut self, names: &[&str])
        requires below { 0 < length names.now }
        requires bare { let path = map (λ name. name.now) names.now in
            HasNothing (entry_at self.old.rows path) (names_in self.old.rows path) }
        ensures { self.new ≡
            record self.old
            { rows = without_row self.old.rows (map (λ name. name.now) names.now) } }
    {
        let Some(node) = self.top.take(names) else {
            return;
        };
        match node.own().content {
            Content::Directory => {}
            Content::File { stored } => {
                self.sizes.remove(&stored.number);
            }
        }
    }

    /// Moves what is at a path, and below it, to another path of the volume, whose directory is there and where nothing is.
    /// Nothing changes if memory runs out.
    pub fn rename(&mut self, from: &[&str], to: &[&str]) -> Result<(), OutOfMemory>
        requires there { IsSome (entry_at self.old.rows (map (λ name. name.now) from.now)) }
        requires volume { same_volume (map (λ name. name.now) from.now)
            (map (λ name. name.now) to.now) ≡ None }
        requires apart { is_within (map (λ name. name.now) from.now)
            (map (λ name. name.now) to.now) ≡ false }
        requires place { IsDirectory
            (entry_at self.old.rows (parent_of (map (λ name. name.now) to.now))) }
        requires free { rows_within (map (λ name. name.now) to.now) self.old.rows ≡ [] }
        ensures ok { OnOk result (self.new ≡
            record self.old {
              rows = renamed self.old.rows (map (λ name. name.now) from.now)
                  (map (λ name. name.now) to.now);
            }) }
        ensures err { OnErr result (self.new ≡ self.old) }
    {
        self.top.rename(self.alloc, from, to)
    }

    /// The truncate epoch that was issued last of a file, and its mark, if there is such a file. There is no scan for it.
    pub fn sizes(&self, file: &FileId) -> Option<(u64, SizeMark)>
        ensures { result ≡ sizes_in self.now.rows file.now }
    {
        match self.sizes.get(&file.number) {
            Some(kept) if kept.volume == file.volume => Some((kept.epoch, kept.mark)),
            _ => None,
        }
    }

    /// Sets them, of a file that is there.
    pub fn set_sizes(&mut self, file: &FileId, epoch: u64, mark: SizeMark)
        requires { IsSome (sizes_in self.old.rows file.now) }
        ensures { self.new ≡
            record self.old { rows = sizes_set file.now epoch mark self.old.rows } }
    {
        let Some(kept) = self.sizes.get_mut(&file.number) else {
            return;
        };
        kept.epoch = epoch;
        kept.mark = mark;
    }
}
