ghost use Rattle.std.specs.Prelude.{◌≡◌, IfOk};

use crate::calls::Calls;
use crate::places::{Locations, Places, common_places, ticks_before};
use crate::verdict::drift_of;
use std::alloc::{AllocError, Global};
use std::marker::Model;
use time_line::Entry;

/// A trace whose entries are dealt out to its files, so that the pass for a file needn't go through those of the others. Contracts see the
/// entries.
#[derive(Drop)]
pub struct DealtTrace<'a> {
    pub(crate) entries: &'a [Entry],
    /// The drift, in milliseconds.
    pub(crate) drift: u64,
    pub(crate) locations: Locations<'a>,
    /// The places of each file's entries.
    pub(crate) places: Places,
    /// The places of the entries of every file.
    pub(crate) common: Vec<usize>,
    /// How far the running clocks have advanced before each entry, in milliseconds.
    pub(crate) ticks: Vec<u128>,
}

impl<'a> Model for DealtTrace<'a> {
    ghost use Rattle.std.specs.Prelude.{List};
    ghost use Rattle.time_line.specs.declared.entry.Entry.{Entry};

    ghost Value = { List Entry };

    ghost use Rattle.trace_judge.specs.DealtOut.{IsDealtOut};

    ghost view = { λ t. t.entries.now };

    ghost invariant = { IsDealtOut };
}

impl<'a> DealtTrace<'a> {
    /// Deals out a trace. An error means that memory ran out.
    pub fn new(alloc: Global, entries: &'a [Entry]) -> Result<DealtTrace<'a>, AllocError>
        ensures { IfOk result (λ trace. trace ≡ entries.now) }
    {
        let calls = Calls::of(alloc, entries)?;
        let locations = Locations::of(alloc, entries)?;
        let places = Places::of(alloc, entries, &calls)?;
        let common = common_places(alloc, entries)?;
        let ticks = ticks_before(alloc, entries)?;
        Ok(DealtTrace {
            entries,
            drift: drift_of(entries),
            locations,
            places,
            common,
            ticks,
        })
    }
}
