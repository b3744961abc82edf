//! Whether a superblock may be where it is.
ghost use Rattle.std.specs.Prelude.{◌↔◌, ◌≤◌, ◌≡◌, ◌≢◌, IsTrue};
ghost use Rattle.journal_areas.specs.Superblocks.{base_of, IsOpen, IsSite, IsSound};

use crate::superblock::{BASE, Slot, Superblock};
use disk_model::OPEN_GATE;

/// Whether an open slot's area may begin where it says: at the base or after it, and inside a journal of so many bytes.
fn is_placed(superblock: &Superblock, size: u64, slot: &Slot) -> bool
    requires { base_of superblock.now ≤ size }
    ensures { IsTrue result ↔ (IsOpen slot.now → IsSite superblock.now size slot.now) }
{
    slot.gate != OPEN_GATE || (superblock.gate + BASE <= slot.place && slot.place < size)
}

/// Whether two slots aren't both open with one number.
fn are_told_apart(one: &Slot, two: &Slot) -> bool
    ensures { IsTrue result ↔ (IsOpen one.now → IsOpen two.now → one.now.number ≢ two.now.number) }
{
    one.gate != OPEN_GATE || two.gate != OPEN_GATE || one.number != two.number
}

impl Superblock {
    /// Whether what it says can be, in a journal of so many bytes, its own record among them.
    pub fn is_sound(&self, size: u64) -> bool
        requires { base_of self.now ≤ size }
        ensures { IsTrue result ↔ IsSound size self.now }
    {
        is_placed(self, size, &self.one)
            && is_placed(self, size, &self.two)
            && are_told_apart(&self.one, &self.two)
    }
}
