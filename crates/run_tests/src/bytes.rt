//! Bytes, as the formats spell them and with changes.

ghost use Rattle.std.specs.Prelude.{◌<◌, IfSome};

use std::alloc::Global;
use xt_base::{Octets, OutOfMemory};

/// The value of a digit in lower-case hex.
fn digit(byte: u8) -> Option<u8>
    ensures { IfSome result (λ value. value < 16) }
{
    if b'0' <= byte && byte <= b'9' {
        return Some(byte - b'0');
    }
    if b'a' <= byte && byte <= b'f' {
        return Some(byte - b'a' + 10);
    }
    None
}

/// The bytes of a text in lower-case hex. All that isn't a digit is passed over.
pub fn hex(alloc: Global, text: &str) -> Result<Octets, OutOfMemory> {
    let mut bytes = Vec::new(alloc);
    let mut high = None;
    for byte in text.as_bytes() {
        let Some(low) = digit(*byte) else {
            continue;
        };
        match high {
            None => high = Some(low),
            Some(first) => {
                bytes.push(first << 4 | low)?;
                high = None;
            }
        }
    }
    Octets::from_vec(bytes)
}

/// The first of these bytes, so many at most.
pub fn front(bytes: &[u8], count: usize) -> &[u8] {
    &bytes[..count.min(bytes.len())]
}

/// These bytes, and then those.
pub fn joined(alloc: Global, first: &[u8], second: &[u8]) -> Result<Octets, OutOfMemory> {
    let mut bytes = Vec::from_slice(alloc, first)?;
    bytes.extend_from_slice(second)?;
    Octets::from_vec(bytes)
}

/// These bytes with the one at a place changed in the bits of the mask, if there is one.
pub fn changed(alloc: Global, bytes: &[u8], at: usize, mask: u8) -> Result<Octets, OutOfMemory> {
    let mut made = Vec::new(alloc);
    for (place, byte) in bytes.iter().enumerate() {
        made.push(if place == at { *byte ^ mask } else { *byte })?;
    }
    Octets::from_vec(made)
}

/// Numbers that look drawn: the same ones from the same seed.
#[derive(Clone, Copy)]
pub struct Draws {
    state: u64,
}

impl Draws {
    /// The numbers of a seed.
    pub fn new(seed: u64) -> Draws {
        Draws { state: seed }
    }

    /// The next number below 2^32: the upper half of a linear congruential sequence with Knuth's constants.
    fn next(&mut self) -> u64 {
        self.state = self
            .state
            .wrapping_mul(6_364_136_223_846_793_005)
            .wrapping_add(1_442_695_040_888_963_407);
        self.state >> 32
    }

    /// The next number below a bound.
    pub fn below(&mut self, bound: u64) -> u64 {
        if bound == 0 { 0 } else { self.next() % bound }
    }

    /// The next byte.
    pub fn byte(&mut self) -> u8 {
        self.next().to_be_bytes()[7]
    }
}
