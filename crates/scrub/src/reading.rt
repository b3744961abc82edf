//! Items with their bodies.
ghost use Rattle.std.specs.Prelude.{◌≡◌, ◌+◌, ◌<◌, ◌^◌, ◌++◌, ◌∷◌, [], List, length, IfOk, IfErr, OnOk};
ghost use Rattle.xt_messages.specs.declared.record.Record.{Record};
ghost use Rattle.scrub.specs.declared.reading.ScrubErr.TheVariants as error;
ghost use Rattle.scrub.specs.Reading.{ReadsOne, HaveBeenRead, CannotRead};

use crate::listing::Item;
use object_versions::{Bodies, BodyErr};
use std::alloc::{AllocError, Global};
use xt_base::{Octets, OutOfMemory};

/// Why a scrub ends before it has checked all items.
#[derive(Clone, Copy)]
pub enum ScrubErr {
    OutOfMemory,
    /// A body couldn't be read. `count` is the number of reads that have failed in all.
    BodyFault { count: u64 },
    /// The body of the item at this index is in no record, and those of the items before it are in some.
    NoBody { index: usize },
}

impl From<AllocError> for ScrubErr {
    ghost from_gives = { λ _ made. made ≡ error.OutOfMemory };

    fn from(_: AllocError) -> ScrubErr {
        ScrubErr::OutOfMemory
    }
}

/// An item with its body.
#[derive(Drop)]
pub struct ReadItem {
    pub item: Item,
    pub bytes: Octets,
}

/// Reads the body of an item, which has this index.
fn read_item<B: Bodies>(
    alloc: Global,
    bodies: &mut B,
    item: &Item,
    index: usize,
) -> Result<ReadItem, ScrubErr>
    ensures later { (records : List Record) → B.agrees bodies.new records →
        B.agrees bodies.old records }
    ensures ends { ReadsOne (B.agrees bodies.new) (B.fault_count bodies.old)
        (B.fault_count bodies.new) item.now index result }
{
    match bodies.body(alloc, &item.file, item.object, &item.version) {
        Ok(bytes) => Ok(ReadItem { item: *item, bytes }),
        Err(BodyErr::NoSuchVersion) => Err(ScrubErr::NoBody { index }),
        Err(BodyErr::Failed { count }) => Err(ScrubErr::BodyFault { count }),
        Err(BodyErr::OutOfMemory) => Err(ScrubErr::OutOfMemory),
    }
}

/// Puts an item after the others.
fn put(read: &mut Vec<ReadItem>, item: ReadItem) -> Result<(), OutOfMemory>
    ensures { OnOk result (read.new.items ≡ read.old.items ++ item ∷ []) }
{
    read.push(item)?;
    Ok(())
}

/// Reads the bodies of these items, of which the first has this index.
pub(crate) fn read_items<B: Bodies>(
    alloc: Global,
    bodies: &mut B,
    items: &[Item],
    first: usize,
) -> Result<Vec<ReadItem>, ScrubErr>
    requires { first + length items.now < 2 ^ 64 }
    ensures later { (records : List Record) → B.agrees bodies.new records →
        B.agrees bodies.old records }
    ensures read { IfOk result (λ read. HaveBeenRead (B.agrees bodies.new) (B.fault_count bodies.old)
        (B.fault_count bodies.new) items.now read.items) }
    ensures cannot { IfErr result (CannotRead (B.agrees bodies.new) (B.fault_count bodies.old)
        (B.fault_count bodies.new) items.now first) }
{
    let mut read = Vec::new(alloc);
    for i in 0..items.len() {
        match read_item(alloc, bodies, &items[i], first + i) {
            Ok(item) => put(&mut read, item)?,
            Err(error) => return Err(error),
        }
    }
    Ok(read)
}
