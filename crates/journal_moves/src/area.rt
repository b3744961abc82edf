ghost use Rattle.std.specs.Prelude.{◌≡◌, ◌≤◌, ◌<◌, ◌+◌, ◌^◌, ◌++◌, [], IfOk, OnOk, MatchOption};
ghost use Rattle.std.specs.Vec.{vec_capacity};
ghost use Rattle.byteorder.specs.Endian.{big_bytes};
ghost use Rattle.journal_areas.specs.Superblocks.{number_bytes};
ghost use Rattle.journal_moves.specs.Gathering.{chunk, longest, size_of_area};

use crate::gathered::Gathered;
use crate::writing::CHUNK;
use byteorder::{BigEndian, ByteOrder};
use journal_areas::Slot;
use std::alloc::Global;
use xt_base::OutOfMemory;

/// How long an area of these payloads is; none where 64 bits don't say it.
pub fn size_of(payloads: &[Gathered]) -> Option<u64>
    requires { longest payloads.now < 2 ^ 32 }
    ensures { MatchOption result (2 ^ 64 ≤ size_of_area payloads.now) (λ n. n ≡ size_of_area payloads.now) }
{
    let mut size: u64 = 1;
    for payload in payloads {
        match size.checked_add(5 + payload.len() as u64) {
            Some(more) => size = more,
            None => return None,
        }
    }
    Some(size)
}

/// An empty buffer through which an area of these payloads can be written with no more memory.
pub fn buffer_for(alloc: Global, payloads: &[Gathered]) -> Result<Vec<u8>, OutOfMemory>
    requires { longest payloads.now < 2 ^ 32 }
    ensures empty { IfOk result (λ buffer. buffer.items ≡ []) }
    ensures room { IfOk result (λ buffer. chunk + 6 + longest payloads.now ≤ vec_capacity buffer) }
{
    let mut longest = 0;
    for payload in payloads {
        longest = payload.len().max(longest);
    }
    Ok(Vec::with_capacity(alloc, CHUNK + 6 + longest)?)
}

/// The bytes of a slot after its gate.
pub fn numbers_of(alloc: Global, slot: &Slot) -> Result<Vec<u8>, OutOfMemory>
    ensures { IfOk result (λ numbers. numbers.items ≡ number_bytes slot.now) }
{
    let mut numbers = Vec::with_capacity(alloc, 24)?;
    put_number(&mut numbers, slot.number)?;
    put_number(&mut numbers, slot.place)?;
    put_number(&mut numbers, slot.first)?;
    Ok(numbers)
}

fn put_number(numbers: &mut Vec<u8>, number: u64) -> Result<(), OutOfMemory>
    ensures { OnOk result (numbers.new.items ≡ numbers.old.items ++ big_bytes 8 number) }
{
    let mut bytes = [0; 8];
    BigEndian::write_u64(&mut bytes, number);
    numbers.extend_from_slice(&bytes)?;
    Ok(())
}
