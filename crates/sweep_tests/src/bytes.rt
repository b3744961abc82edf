//! Bytes, as the formats spell them.

ghost use Rattle.std.specs.Prelude.{◌<◌, IfSome};

use std::alloc::Global;
use xt_base::{Octets, OutOfMemory};

/// The value of a digit in lower-case hex.
fn digit(byte: u8) -> Option<u8>
    ensures { IfSome result (λ value. value < 16) }
{
    if b'0' <= byte && byte <= b'9' {
        return Some(byte - b'0');
    }
    if b'a' <= byte && byte <= b'f' {
        return Some(byte - b'a' + 10);
    }
    None
}

/// The bytes of a text in lower-case hex. All that isn't a digit is passed over.
pub fn hex(alloc: Global, text: &str) -> Result<Octets, OutOfMemory> {
    let mut bytes = Vec::new(alloc);
    let mut high = None;
    for byte in text.as_bytes() {
        let Some(low) = digit(*byte) else {
            continue;
        };
        match high {
            None => high = Some(low),
            Some(first) => {
                bytes.push(first << 4 | low)?;
                high = None;
            }
        }
    }
    Octets::from_vec(bytes)
}

/// The first of these bytes, without the last of them, and then those.
pub fn continued(alloc: Global, first: &[u8], second: &[u8]) -> Result<Octets, OutOfMemory> {
    let mut bytes = Vec::from_slice(alloc, &first[..first.len().saturating_sub(1)])?;
    bytes.extend_from_slice(second)?;
    Octets::from_vec(bytes)
}
