//! The bodies that a scrub checks.

ghost use Rattle.std.specs.Prelude.{◌≡◌, ◌++◌, List, IfOk, OnOk};
ghost use Rattle.xt_messages.specs.declared.record.Record.{Record};
ghost use Rattle.body_digests.specs.Digests.{AreDigestsIn};
ghost use Rattle.scrub.specs.Items.{item_of, items_of_row, items_of};

use body_digests::{BodyDigest, Digests};
use std::alloc::Global;
use xt_base::{FileId, OutOfMemory, Stamp};
use xt_messages::{FileRow, Folded, ObjectVersion, Record};

/// A body that a scrub checks: a version that a file's head names, and the last digest that was kept of it, if there is one.
#[derive(Clone, Copy)]
pub struct Item {
    pub file: FileId,
    pub object: u64,
    pub version: Stamp,
    pub seal: Option<BodyDigest>,
}

/// The item of a version that the head of a file names.
fn item_of(digests: &Digests, file: &FileId, version: &ObjectVersion) -> Item
    ensures { (records : List Record) → AreDigestsIn digests.now records →
        result ≡ item_of records file.now version.now }
{
    let seal = digests.of_version(file, version).last().copied();
    Item {
        file: *file,
        object: version.object,
        version: version.version,
        seal,
    }
}

/// Puts the items of a file after the others, by object.
fn put_items(list: &mut Vec<Item>, digests: &Digests, row: &FileRow) -> Result<(), OutOfMemory>
    ensures { OnOk result ((records : List Record) → AreDigestsIn digests.now records →
        list.new.items ≡ list.old.items ++ items_of_row records row.now) }
{
    for version in row.head.versions.as_slice() {
        list.push(item_of(digests, &row.file, version))?;
    }
    Ok(())
}

/// The bodies that a scrub of these records checks, which say this: one for each version that a head names, by file and object. The last
/// digest of a version counts.
///
/// It goes through the records once, and finds the digests by their versions.
#[tactic(auto, unfolding(crate::specs::Items::items_of))]
pub fn items(alloc: Global, folded: &Folded, records: &[Record]) -> Result<Vec<Item>, OutOfMemory>
    ensures { IfOk result (λ list. list.items ≡ items_of folded.now records.now) }
{
    let digests = Digests::of(alloc, records)?;
    let mut list = Vec::new(alloc);
    for row in folded.files.as_slice() {
        put_items(&mut list, &digests, row)?;
    }
    Ok(list)
}
