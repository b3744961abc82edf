ghost use Rattle.std.specs.Prelude.{◌≡◌, ◌≤◌, ◌<◌, ◌+◌, ◌*◌, ◌^◌, [], ℕ, List, Some, None, IsTrue, IsSome, IfOk, OnOk, OnErr, IsErrOf, MatchResult, MatchOption, is_err, length};
ghost use Rattle.std.specs.List.{All};
ghost use Rattle.std.specs.Vec.{vec_capacity};
ghost use Rattle.disk_model.specs.Disk.{LeavesOnly};
ghost use Rattle.journal_records.specs.Calls.{GoesOn};
ghost use Rattle.xt_base.specs.Faults.{fault_count_after};
ghost use Rattle.journal_areas.specs.Format.{AreGiven};
ghost use Rattle.journal_areas.specs.Areas.{end_in};
ghost use Rattle.journal_areas.specs.Kept.{KeepsIn};
ghost use Rattle.journal_areas.specs.Superblocks.{base_of, number_bytes};
ghost use Rattle.journal_areas.specs.Sites.{area_of, area_size, new_slot, need_for, slot_of, superblock_at, with_slot};
ghost use Rattle.journal_moves.specs.Answers.{IsPlaced, full_need, told_need, is_broken, located_after};
ghost use Rattle.journal_moves.specs.Gathering.{IsThere, chunk, gathered, longest, size_of_area, sizes_of};
ghost use Rattle.journal_moves.specs.Writing.{IsIn};
ghost use Rattle.journal_moves.specs.Moves.{Fits, MakesCalls, FailsWithin, move_calls, IsMove, IsEither, IsMoveStopped};

use crate::area::{buffer_for, numbers_of, size_of};
use crate::gathered::Gathered;
use crate::parts::{number_slot, open_slot, ready, write_area};
use disk_model::{Disk, OPEN_GATE};
use journal_areas::{Slot, Superblock, next_number, site_of};
use std::alloc::Global;
use xt_base::{Failed, OutOfMemory};

/// Where the journal on a disk is.
#[derive(Clone, Copy)]
pub struct Located {
    /// Its superblock, if it has one.
    pub superblock: Option<Superblock>,
    /// The place of the gate at which it ends.
    pub end: u64,
}

/// Why a journal doesn't move.
#[derive(Clone, Copy)]
pub enum Refusal {
    /// The disk has failed, as its count of faults shows. It holds what stands for the old payloads, or for the new ones.
    Broken,
    /// That needs so many bytes, at most `u64::MAX`, which pass the limit; or, where this is the limit, the numbers of areas are used
    /// up.
    Full { need: u64 },
    OutOfMemory,
}

/// Moves the journal on a disk to a new area of these payloads, so that it then stands for them alone, and says where it is then.
///
/// Each payload has a length of 1 to `u32::MAX` bytes and doesn't begin with the byte 8. The area is written where nothing counts,
/// through a buffer: memory is taken for about a mebibyte and the longest payload, and all of it before the first device call. What the
/// disk has of a payload is read meanwhile from the area that counts, which stays as it is. Nothing is written where the answer is `Full` or `OutOfMemory`.
pub fn move_to<D: Disk>(
    alloc: Global,
    disk: &mut D,
    at: &Located,
    payloads: &[Gathered],
    limit: u64,
) -> Result<Located, Refusal>
    requires placed { IsPlaced at.now.superblock at.now.end }
    requires there { IsTrue D.is_told →
        All (IsThere (D.kept disk.old).read (area_of at.now.superblock at.now.end)) payloads.now }
    requires given { AreGiven (gathered D.is_told (D.kept disk.old).read payloads.now) }
    ensures located { IfOk result (λ new. new ≡
        located_after at.now.superblock at.now.end
        (area_size (gathered D.is_told (D.kept disk.old).read payloads.now))) }
    ensures ends { IfOk result (λ new. new.end ≡ end_in new.superblock
        (gathered D.is_told (D.kept disk.old).read payloads.now)) }
    ensures placed { IfOk result (λ new. IsPlaced new.superblock new.end) }
    ensures small { IfOk result (λ new. new.end + 1 < 2 ^ 64) }
    ensures done { IsTrue D.is_told → (old : List (List ℕ)) →
        KeepsIn at.now.superblock (D.kept disk.old) old → at.now.end ≡ end_in at.now.superblock old →
        IfOk result (λ new. KeepsIn new.superblock (D.kept disk.new)
        (gathered D.is_told (D.kept disk.old).read payloads.now)) }

    // A crash at any moment leaves what the journal stood for, or the payloads.
    ensures any_moment { IsTrue D.is_told → (old : List (List ℕ)) →
        KeepsIn at.now.superblock (D.kept disk.old) old → at.now.end ≡ end_in at.now.superblock old →
        LeavesOnly D.moment D.left_since disk.old disk.new
        (IsEither old (gathered D.is_told (D.kept disk.old).read payloads.now)) }

    // It breaks only where one of its calls fails, and which one that is decides what a crash leaves.
    ensures made { IsTrue D.is_told → OnOk result
        (MakesCalls (move_calls at.now.superblock at.now.end (sizes_of payloads.now))
        (D.fails disk.old) (D.fails disk.new)) }
    ensures failed { IsTrue D.is_told → IsErrOf result Refusal.Broken →
        FailsWithin (move_calls at.now.superblock at.now.end (sizes_of payloads.now)) (D.fails disk.old) }
    ensures stopped { IsTrue D.is_told → (old : List (List ℕ)) →
        KeepsIn at.now.superblock (D.kept disk.old) old → at.now.end ≡ end_in at.now.superblock old →
        IsErrOf result Refusal.Broken →
        IsMoveStopped (move_calls at.now.superblock at.now.end (sizes_of payloads.now))
        (D.fails disk.old) (D.kept disk.new) old (gathered D.is_told (D.kept disk.old).read payloads.now) }
    ensures no_call { IsTrue D.is_told → IsErrOf result Refusal.OutOfMemory →
        GoesOn 0 0 (D.fails disk.old) (D.fails disk.new) }

    ensures full { told_need result ≡
        full_need at.now.superblock at.now.end
        (area_size (gathered D.is_told (D.kept disk.old).read payloads.now)) limit }
    ensures untouched { IsSome (told_need result) → disk.new ≡ disk.old }
    ensures memory { IsErrOf result Refusal.OutOfMemory → D.kept disk.new ≡ D.kept disk.old }
    ensures count { D.fault_count disk.new ≡
        fault_count_after (is_broken result) (D.fault_count disk.old) }
{
    let slot = match plan(at, payloads, limit) {
        Ok(slot) => slot,
        Err(need) => return Err(Refusal::Full { need }),
    };
    let Ok(Buffers { mut area, numbers }) = buffers_for(alloc, payloads, &slot) else {
        return Err(Refusal::OutOfMemory);
    };
    match write_pieces(disk, at, &slot, payloads, &mut area, numbers.as_slice()) {
        Ok(superblock) => Ok(Located {
            superblock: Some(superblock),
            end: slot.place + (slot.first - 1),
        }),
        Err(why) => Err(why),
    }
}

/// What the slot of a new area of these payloads says; or what that needs and can't have.
fn plan(at: &Located, payloads: &[Gathered], limit: u64) -> Result<Slot, u64>
    requires { longest payloads.now < 2 ^ 32 }
    ensures { MatchResult result
        (λ slot. (slot ≡ new_slot at.now.superblock at.now.end (size_of_area payloads.now))
        × (need_for at.now.superblock at.now.end (size_of_area payloads.now) < 2 ^ 64)
        × Fits slot
        × (full_need at.now.superblock at.now.end (size_of_area payloads.now) limit ≡ None))
        (λ need. full_need at.now.superblock at.now.end (size_of_area payloads.now) limit ≡ Some need) }
{
    let Some(size) = size_of(payloads) else {
        return Err(u64::MAX);
    };
    slot_for(at, size, limit)
}

/// What the slot of a new area of this size says; or what that needs and can't have.
fn slot_for(at: &Located, size: u64, limit: u64) -> Result<Slot, u64>
    ensures { MatchResult result
        (λ slot. (slot ≡ new_slot at.now.superblock at.now.end size)
        × (need_for at.now.superblock at.now.end size < 2 ^ 64)
        × Fits slot
        × (full_need at.now.superblock at.now.end size limit ≡ None))
        (λ need. full_need at.now.superblock at.now.end size limit ≡ Some need) }
{
    let Some(site) = site_of(&at.superblock, at.end, size) else {
        return Err(u64::MAX);
    };
    if limit < site.need {
        return Err(site.need);
    }
    match next_number(&slot_that_counts(at)) {
        Some(number) => Ok(Slot {
            gate: OPEN_GATE,
            number,
            place: site.place,
            first: size,
        }),
        None => Err(limit),
    }
}

/// The slot of the area that counts; none where no compaction made it.
fn slot_that_counts(at: &Located) -> Option<Slot>
    ensures { result ≡ slot_of at.now.superblock }
{
    match &at.superblock {
        Some(superblock) => superblock.current(),
        None => None,
    }
}

/// The memory that a move takes.
#[derive(Drop)]
struct Buffers {
    /// What the area is written through.
    area: Vec<u8>,
    /// The bytes of its slot, after the gate.
    numbers: Vec<u8>,
}

/// All memory that a move to an area of these payloads takes.
fn buffers_for(alloc: Global, payloads: &[Gathered], slot: &Slot) -> Result<Buffers, OutOfMemory>
    requires { longest payloads.now < 2 ^ 32 }
    ensures { IfOk result (λ buffers. (buffers.area.items ≡ [])
        × (chunk + 6 + longest payloads.now ≤ vec_capacity buffers.area)
        × (buffers.numbers.items ≡ number_bytes slot.now)) }
{
    let area = buffer_for(alloc, payloads)?;
    let numbers = numbers_of(alloc, slot)?;
    Ok(Buffers { area, numbers })
}

/// Reserves what the new area needs, and then writes it and opens its slot.
fn write_pieces<D: Disk>(
    disk: &mut D,
    at: &Located,
    slot: &Slot,
    payloads: &[Gathered],
    buffer: &mut Vec<u8>,
    numbers: &[u8],
) -> Result<Superblock, Refusal>
    requires there { IsTrue D.is_told → All (λ p. IsIn (D.kept disk.old).read p.rest) payloads.now }
    requires fit { longest payloads.now < 2 ^ 32 }
    requires empty { buffer.old.items ≡ [] }
    requires buffer { chunk + 6 + longest payloads.now ≤ vec_capacity buffer.old }
    requires base { base_of (superblock_at at.now.superblock at.now.end) ≤ slot.now.place }
    requires fits { slot.now.place + slot.now.first < 2 ^ 64 }
    requires size { size_of_area payloads.now ≡ slot.now.first }
    requires numbers { length numbers.now ≡ 24 }
    ensures is { IfOk result (λ s. s ≡
        with_slot (superblock_at at.now.superblock at.now.end) slot.now) }
    ensures done { IsTrue D.is_told → (old lists : List (List ℕ)) →
        IsMove at.now.superblock (D.kept disk.old) at.now.end old slot.now payloads.now numbers.now lists →
        OnOk result (KeepsIn (Some (with_slot (superblock_at at.now.superblock at.now.end) slot.now))
        (D.kept disk.new) lists) }
    ensures any_moment { IsTrue D.is_told → (old lists : List (List ℕ)) →
        IsMove at.now.superblock (D.kept disk.old) at.now.end old slot.now payloads.now numbers.now lists →
        LeavesOnly D.moment D.left_since disk.old disk.new (IsEither old lists) }
    ensures made { IsTrue D.is_told → OnOk result
        (MakesCalls (move_calls at.now.superblock at.now.end (sizes_of payloads.now))
        (D.fails disk.old) (D.fails disk.new)) }
    ensures failed { IsTrue D.is_told → IsErrOf result Refusal.Broken →
        FailsWithin (move_calls at.now.superblock at.now.end (sizes_of payloads.now)) (D.fails disk.old) }
    ensures stopped { IsTrue D.is_told → (old lists : List (List ℕ)) →
        IsMove at.now.superblock (D.kept disk.old) at.now.end old slot.now payloads.now numbers.now lists →
        IsErrOf result Refusal.Broken →
        IsMoveStopped (move_calls at.now.superblock at.now.end (sizes_of payloads.now))
        (D.fails disk.old) (D.kept disk.new) old lists }
    ensures no_call { IsTrue D.is_told → IsErrOf result Refusal.OutOfMemory →
        GoesOn 0 0 (D.fails disk.old) (D.fails disk.new) }
    ensures not_full { told_need result ≡ None }
    ensures memory { IsErrOf result Refusal.OutOfMemory → D.kept disk.new ≡ D.kept disk.old }
    ensures count { D.fault_count disk.new ≡
        fault_count_after (is_broken result) (D.fault_count disk.old) }
{
    let Ok(()) = disk.reserve(slot.place + slot.first) else {
        return Err(Refusal::OutOfMemory);
    };
    match move_on(disk, at, slot, payloads, buffer, numbers) {
        Ok(superblock) => Ok(superblock),
        Err(Failed) => Err(Refusal::Broken),
    }
}

/// All device calls of a move, part by part.
fn move_on<D: Disk>(
    disk: &mut D,
    at: &Located,
    slot: &Slot,
    payloads: &[Gathered],
    buffer: &mut Vec<u8>,
    numbers: &[u8],
) -> Result<Superblock, Failed>
    requires there { IsTrue D.is_told → All (λ p. IsIn (D.kept disk.old).read p.rest) payloads.now }
    requires fit { longest payloads.now < 2 ^ 32 }
    requires empty { buffer.old.items ≡ [] }
    requires buffer { chunk + 6 + longest payloads.now ≤ vec_capacity buffer.old }
    requires base { base_of (superblock_at at.now.superblock at.now.end) ≤ slot.now.place }
    requires fits { slot.now.place + size_of_area payloads.now < 2 ^ 64 }
    requires inside { slot.now.place + size_of_area payloads.now ≤ D.reserved disk.old }
    requires numbers { length numbers.now ≡ 24 }
    requires noted { 2 * size_of_area payloads.now + 900 ≤ D.room disk.old }
    ensures is { IfOk result (λ s. s ≡
        with_slot (superblock_at at.now.superblock at.now.end) slot.now) }
    ensures done { IsTrue D.is_told → (old lists : List (List ℕ)) →
        IsMove at.now.superblock (D.kept disk.old) at.now.end old slot.now payloads.now numbers.now lists →
        OnOk result (KeepsIn (Some (with_slot (superblock_at at.now.superblock at.now.end) slot.now))
        (D.kept disk.new) lists) }
    ensures any_moment { IsTrue D.is_told → (old lists : List (List ℕ)) →
        IsMove at.now.superblock (D.kept disk.old) at.now.end old slot.now payloads.now numbers.now lists →
        LeavesOnly D.moment D.left_since disk.old disk.new (IsEither old lists) }
    ensures made { IsTrue D.is_told →
        OnOk result (MakesCalls (move_calls at.now.superblock at.now.end (sizes_of payloads.now))
        (D.fails disk.old) (D.fails disk.new)) }
    ensures failed { IsTrue D.is_told → OnErr result
        (FailsWithin (move_calls at.now.superblock at.now.end (sizes_of payloads.now)) (D.fails disk.old)) }
    ensures stopped { IsTrue D.is_told → (old lists : List (List ℕ)) →
        IsMove at.now.superblock (D.kept disk.old) at.now.end old slot.now payloads.now numbers.now lists →
        OnErr result
        (IsMoveStopped (move_calls at.now.superblock at.now.end (sizes_of payloads.now))
        (D.fails disk.old) (D.kept disk.new) old lists) }
    ensures count { D.fault_count disk.new ≡
        fault_count_after (is_err result) (D.fault_count disk.old) }
{
    let superblock = ready(disk, at)?;
    let second = superblock.is_second();
    write_area(disk, &superblock, slot.place, payloads, buffer)?;
    let numbered = number_slot(disk, &superblock, second, slot, numbers)?;
    open_slot(disk, &numbered, second)?;
    Ok(superblock.put(second, *slot))
}
