ghost use Rattle.std.specs.Prelude.{◌≡◌, ◌≤◌, ◌<◌, ◌+◌, ◌^◌, MatchOption};
ghost use Rattle.journal_areas.specs.Sites.{area_of, area_by, number_after, fits_below, site, need_for};
ghost use Rattle.journal_areas.specs.Superblocks.{base_of, current};

use crate::superblock::{BASE, Slot, Superblock};

/// The place of a journal's first gate: after its sign (8 bytes) and its layout (4).
const FIRST_GATE: u64 = 8 + 4;

/// An area of a journal.
#[derive(Clone, Copy)]
pub struct Area {
    /// The place of its first gate.
    pub place: u64,
    /// How many bytes it has, its last gate among them.
    pub length: u64,
    /// How many it had when it was written; 0 for the area with which the journal began.
    pub first: u64,
}

/// Where a new area goes.
#[derive(Clone, Copy)]
pub struct Site {
    /// The place of its first gate.
    pub place: u64,
    /// The place after its last gate.
    pub need: u64,
}

/// The area that counts, in a journal that ends at this gate, by its slot.
pub fn area_of(slot: &Option<Slot>, end: u64) -> Area
    requires reached { (area_by end slot.now).place ≤ end }
    requires fits { end + 1 < 2 ^ 64 }
    ensures { result ≡ area_by end slot.now }
{
    match slot {
        None => Area {
            place: FIRST_GATE,
            length: end + 1 - FIRST_GATE,
            first: 0,
        },
        Some(slot) => Area {
            place: slot.place,
            length: end + 1 - slot.place,
            first: slot.first,
        },
    }
}

/// The number of the area after the one that counts; none where numbers of 64 bits are used up.
pub fn next_number(slot: &Option<Slot>) -> Option<u64>
    ensures { MatchOption result (2 ^ 64 ≤ number_after slot.now) (λ n. n ≡ number_after slot.now) }
{
    match slot {
        None => Some(1),
        Some(slot) => slot.number.checked_add(1),
    }
}

/// An area of this size so far after a place; none where it ends past what 64 bits say.
fn site_after(from: u64, gap: u64, size: u64) -> Option<Site>
    ensures { MatchOption result
        (2 ^ 64 ≤ from + gap + size)
        (λ s. (s.place ≡ from + gap) × (s.need ≡ from + gap + size)) }
{
    match from.checked_add(gap) {
        None => None,
        Some(place) => match place.checked_add(size) {
            None => None,
            Some(need) => Some(Site { place, need }),
        },
    }
}

/// Whether an area of this size ends, from the superblock's base on, before the one that counts.
fn is_below(superblock: &Superblock, size: u64) -> bool
    ensures { result ≡ fits_below (base_of superblock.now) (current superblock.now) size }
{
    match superblock.current() {
        None => false,
        Some(slot) => match site_after(superblock.gate, BASE, size) {
            None => false,
            Some(site) => site.need <= slot.place,
        },
    }
}

/// Where an area of this size goes, in a journal that ends at this gate; none where it would end past what 64 bits say.
pub fn site_of(superblock: &Option<Superblock>, end: u64, size: u64) -> Option<Site>
    ensures { MatchOption result
        (2 ^ 64 ≤ need_for superblock.now end size)
        (λ s. (s.place ≡ site superblock.now end size) × (s.need ≡ need_for superblock.now end size)) }
{
    match superblock {
        None => site_after(end, BASE, size),
        Some(superblock) => {
            if is_below(superblock, size) {
                site_after(superblock.gate, BASE, size)
            } else {
                site_after(end, 1, size)
            }
        }
    }
}
