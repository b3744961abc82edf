//! How a journal on a disk is read, gate by gate. Its payloads aren't read, but for a superblock.
ghost use Rattle.std.specs.Prelude.{◌≡◌, ◌≤◌, ◌<◌, ◌+◌, ◌^◌, ◌++◌, ℕ, List, None, IsTrue, IfOk, IfSome, IfNone, IsErrOf, false, is_err, length};
ghost use Rattle.journal_areas.specs.Areas.{IsUnfit};
ghost use Rattle.journal_areas.specs.Superblocks.{superblock_in, IsSound};
ghost use Rattle.xt_journal.specs.Ahead.{size_of, source_of};
ghost use Rattle.xt_journal.specs.Format.{header};
ghost use Rattle.xt_journal.specs.Located.{IsLocated};
ghost use Rattle.xt_journal.specs.Nexts.{payload_at};
ghost use Rattle.xt_journal.specs.Parsed.{Finds};
ghost use Rattle.xt_journal.specs.Placed.{AreWithin};

use crate::ahead::ReadAhead;
use crate::format::{Found, LAYOUT, SIGN, Trouble};
use crate::next::{Next, next_at};
use byteorder::{BigEndian, ByteOrder};
use disk_model::Disk;
use journal_areas::Superblock;
use journal_moves::Extent;
use std::alloc::Global;
use xt_base::Failed;

/// The first byte of a superblock's payload.
const SUPERBLOCK: u8 = 8;

/// The bytes of a superblock's payload: its kind (1), and two slots of 25.
const SUPERBLOCK_SIZE: usize = 51;

/// Where the payloads that count are on a disk of more than 13 bytes, and where reading ends.
pub fn find<D: Disk>(alloc: Global, disk: &D, len: u64) -> Result<Found, Trouble>
    requires long { 13 < len }
    requires whole { IsTrue D.is_told → len ≡ length (D.kept disk.now).read }
    ensures found { IsTrue D.is_told → Finds (D.kept disk.now).read result }
    ensures located { IfOk result (λ found. IsLocated found.superblock found.end) }
    ensures within { IfOk result (λ found. AreWithin found.end found.extents.items) }
    ensures sure { IsTrue D.is_told → IsErrOf result Trouble.DiskFault → ⊥ }
{
    let mut ahead = ReadAhead::new(alloc, disk, len)?;
    let mut first = [0; 8];
    ahead.read(0, first.as_mut_slice())?;
    if first != SIGN {
        return Err(Trouble::NotOurs { first });
    }
    let mut number = [0; 4];
    ahead.read(8, number.as_mut_slice())?;
    let version = BigEndian::read_u32(&number);
    if version != LAYOUT {
        return Err(Trouble::Layout { version });
    }
    walk(alloc, &mut ahead)
}

/// The same for a disk that begins with the header: each record from the first gate on up to the superblock, and then those after
/// it or those of the area that counts.
fn walk<D: Disk>(alloc: Global, ahead: &mut ReadAhead<'_, D>) -> Result<Found, Trouble>
    requires long { 13 < size_of ahead.old }
    requires small { size_of ahead.old < 2 ^ 64 }
    requires whole { IsTrue D.is_told →
        size_of ahead.old ≡ length (D.kept (source_of ahead.old)).read }
    requires headed { IsTrue D.is_told →
        (later : List ℕ) × ((D.kept (source_of ahead.old)).read ≡ header ++ later) }
    ensures found { IsTrue D.is_told → Finds (D.kept (source_of ahead.old)).read result }
    ensures located { IfOk result (λ found. IsLocated found.superblock found.end) }
    ensures within { IfOk result (λ found. AreWithin found.end found.extents.items) }
    ensures sure { IsTrue D.is_told → IsErrOf result Trouble.DiskFault → ⊥ }
{
    let mut end: u64 = 12;
    let mut superblock: Option<Superblock> = None;
    let mut extents = Vec::new(alloc);
    loop {
        match next_at(ahead, end)? {
            Next::Closed => {
                return Ok(Found {
                    end,
                    superblock,
                    extents,
                });
            }
            Next::CutOff => return Err(Trouble::Damaged { place: end }),
            Next::Record { len, kind } => {
                if kind != SUPERBLOCK {
                    extents.push(Extent { at: end + 5, len })?;
                    end += 5 + len as u64;
                } else {
                    let Some(met) = superblock_at(ahead, &superblock, end, len)? else {
                        return Err(Trouble::Damaged { place: end });
                    };
                    superblock = Some(met);
                    match met.current() {
                        None => end += 5 + SUPERBLOCK_SIZE as u64,
                        Some(slot) => {
                            extents = Vec::new(alloc);
                            end = slot.place;
                        }
                    }
                }
            }
        }
    }
}

/// The superblock that is the payload of a record of its kind, whose gate is at this place and whose payload has so many bytes. `None`
/// where none may be there: beside another one, with another length, or where it isn't sound.
fn superblock_at<D: Disk>(
    ahead: &mut ReadAhead<'_, D>,
    known: &Option<Superblock>,
    gate: u64,
    len: usize,
) -> Result<Option<Superblock>, Failed>
    requires room { gate + (6 + len) ≤ size_of ahead.old }
    requires whole { IsTrue D.is_told →
        size_of ahead.old ≡ length (D.kept (source_of ahead.old)).read }
    ensures fit { IfOk result (λ found. IfSome found (λ met. (known.now ≡ None) × (len ≡ 51)
        × (met.gate ≡ gate) × IsSound (size_of ahead.old) met)) }
    ensures says { IsTrue D.is_told → IfOk result (λ found. IfSome found (λ met.
        met ≡ superblock_in gate (payload_at (D.kept (source_of ahead.old)).read gate len))) }
    ensures unfit { IsTrue D.is_told → IfOk result (λ found. IfNone found
        (IsUnfit known.now (size_of ahead.old) gate
        (payload_at (D.kept (source_of ahead.old)).read gate len))) }
    ensures sure { IsTrue D.is_told → is_err result ≡ false }
    ensures source { source_of ahead.new ≡ source_of ahead.old }
    ensures size { size_of ahead.new ≡ size_of ahead.old }
{
    if known.is_some() || len != SUPERBLOCK_SIZE {
        return Ok(None);
    }
    let mut payload = [0; SUPERBLOCK_SIZE];
    ahead.read(gate + 5, payload.as_mut_slice())?;
    let met = Superblock::read(gate, payload.as_slice());
    if met.is_sound(ahead.size()) {
        Ok(Some(met))
    } else {
        Ok(None)
    }
}
