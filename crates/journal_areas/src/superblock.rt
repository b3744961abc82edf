ghost use Rattle.std.specs.Prelude.{◌≡◌, ◌≤◌, ◌+◌, ◌^◌, length};
ghost use Rattle.journal_areas.specs.Sites.{is_second, put, slot_at, slot_place};
ghost use Rattle.journal_areas.specs.Superblocks.{current, slot_in, superblock_in};

use byteorder::{BigEndian, ByteOrder};
use disk_model::OPEN_GATE;

/// The bytes of a slot: its gate (1), and three numbers (8 each).
const SLOT: usize = 1 + 3 * 8;

/// The bytes of a superblock's payload: its kind (1), and two slots.
const PAYLOAD: usize = 1 + 2 * SLOT;

/// How many bytes a superblock's first slot is after its record's gate: that gate (1), the payload's length (4), and the kind (1).
const FIRST_SLOT: u64 = 1 + 4 + 1;

/// How many bytes its second slot is after that gate.
const SECOND_SLOT: u64 = FIRST_SLOT + SLOT as u64;

/// How many bytes its base is after that gate: the gate (1), the length (4), the payload, and the next record's gate (1).
pub(crate) const BASE: u64 = 1 + 4 + PAYLOAD as u64 + 1;

/// Where an area is, as one half of a superblock says.
#[derive(Clone, Copy)]
pub struct Slot {
    /// The slot counts only where this is the open gate.
    pub gate: u8,
    /// Of two open slots the one with the greater number counts.
    pub number: u64,
    /// The place of the area's first gate on the disk.
    pub place: u64,
    /// How long the area was when it was written, its last gate among its bytes.
    pub first: u64,
}

/// The superblock of a journal: where it is, and its two slots.
#[derive(Clone, Copy)]
pub struct Superblock {
    /// The place of its record's gate.
    pub gate: u64,
    pub one: Slot,
    pub two: Slot,
}

/// What the first 25 bytes say.
fn slot_in(bytes: &[u8]) -> Slot
    requires { 25 ≤ length bytes.now }
    ensures { result ≡ slot_in bytes.now }
{
    Slot {
        gate: bytes[0],
        number: BigEndian::read_u64(&bytes[1..]),
        place: BigEndian::read_u64(&bytes[9..]),
        first: BigEndian::read_u64(&bytes[17..]),
    }
}

impl Superblock {
    /// The superblock that a payload of 51 bytes is, whose record's gate is at this place.
    pub fn read(gate: u64, payload: &[u8]) -> Superblock
        requires { length payload.now ≡ 51 }
        ensures { result ≡ superblock_in gate payload.now }
    {
        Superblock {
            gate,
            one: slot_in(&payload[1..]),
            two: slot_in(&payload[1 + SLOT..]),
        }
    }

    /// Whether a new area gets the second slot: the one that doesn't count, the first where none does.
    pub fn is_second(&self) -> bool
        ensures { result ≡ is_second self.now }
    {
        self.one.gate == OPEN_GATE
            && !(self.two.gate == OPEN_GATE && self.one.number < self.two.number)
    }

    /// What is in a slot.
    pub fn slot(&self, second: bool) -> Slot
        ensures { result ≡ slot_at second self.now }
    {
        if second { self.two } else { self.one }
    }

    /// The place of a slot's gate.
    pub fn slot_place(&self, second: bool) -> u64
        requires { self.now.gate + 57 ≤ 2 ^ 64 }
        ensures { result ≡ slot_place second self.now.gate }
    {
        self.gate + if second { SECOND_SLOT } else { FIRST_SLOT }
    }

    /// The superblock with this in one of its slots.
    pub fn put(&self, second: bool, slot: Slot) -> Superblock
        ensures { result ≡ put second self.now slot }
    {
        if second {
            Superblock {
                gate: self.gate,
                one: self.one,
                two: slot,
            }
        } else {
            Superblock {
                gate: self.gate,
                one: slot,
                two: self.two,
            }
        }
    }

    /// The slot that counts: the open one with the greater number.
    pub fn current(&self) -> Option<Slot>
        ensures { result ≡ current self.now }
    {
        match (self.one.gate == OPEN_GATE, self.two.gate == OPEN_GATE) {
            (true, true) if self.one.number < self.two.number => Some(self.two),
            (true, _) => Some(self.one),
            (false, true) => Some(self.two),
            (false, false) => None,
        }
    }
}
