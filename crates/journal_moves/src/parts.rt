ghost use Rattle.std.specs.Prelude.{◌≡◌, ◌≢◌, ◌≤◌, ◌<◌, ◌+◌, ◌*◌, ◌^◌, ◌++◌, ◌∷◌, [], ℕ, List, Some, None, IsTrue, IfOk, OnOk, OnErr, is_err, length};
ghost use Rattle.std.specs.List.{All};
ghost use Rattle.std.specs.Vec.{vec_capacity};
ghost use Rattle.disk_model.specs.Disk.{LeavesOnly};
ghost use Rattle.xt_base.specs.Faults.{fault_count_after};
ghost use Rattle.journal_areas.specs.Format.{open_gate};
ghost use Rattle.journal_areas.specs.Areas.{StandsFor};
ghost use Rattle.journal_areas.specs.Kept.{KeepsIn};
ghost use Rattle.journal_areas.specs.Superblocks.{base_of, number_bytes};
ghost use Rattle.journal_areas.specs.Sites.{is_second, put, slot_at, superblock_at, with_slot};
ghost use Rattle.journal_moves.specs.Answers.{IsPlaced};
ghost use Rattle.journal_moves.specs.Gathering.{area_calls, chunk, longest, size_of_area, sizes_of};
ghost use Rattle.journal_moves.specs.Writing.{IsIn, StaysOutside};
ghost use Rattle.journal_moves.specs.Moves.{MakesCalls, FailsWithin, ready_calls, shut_calls, IsAt, IsNewArea, Stages, IsNextSlot, Fits, IsMove, IsEither, IsMoveStopped, end_ready, shut_gate, with_shut, numbered};

use crate::gathered::Gathered;
use crate::moving::Located;
use crate::writing::{finish, write_records};
use disk_model::{Disk, OPEN_GATE};
use journal_areas::{Slot, Superblock};
use journal_records::write_synced;
use xt_base::Failed;

/// Appends a superblock whose slots are shut to a journal that has none and ends at this gate. The gate stays closed until the record is
/// synced.
fn add_superblock<D: Disk>(disk: &mut D, end: u64) -> Result<(), Failed>
    requires inside { end + 57 ≤ D.reserved disk.old }
    requires small { end + 57 < 2 ^ 64 }
    requires noted { 313 ≤ D.room disk.old }
    ensures done { IsTrue D.is_told → (old : List (List ℕ)) → IsAt None (D.kept disk.old) end old →
        OnOk result (IsAt (Some (superblock_at None end)) (D.kept disk.new) (end + 56) old) }
    ensures any_moment { IsTrue D.is_told → (old : List (List ℕ)) → IsAt None (D.kept disk.old) end old →
        LeavesOnly D.moment D.left_since disk.old disk.new (λ image. StandsFor image old) }
    ensures stays { IsTrue D.is_told → (old : List (List ℕ)) → IsAt None (D.kept disk.old) end old →
        OnOk result (StaysOutside (D.kept disk.old).read (D.kept disk.new).read end (end + 57)) }
    ensures longer { IsTrue D.is_told →
        OnOk result (length (D.kept disk.old).read ≤ length (D.kept disk.new).read) }
    ensures made { IsTrue D.is_told →
        OnOk result (MakesCalls (4) (D.fails disk.old) (D.fails disk.new)) }
    ensures failed { IsTrue D.is_told → OnErr result (FailsWithin (4) (D.fails disk.old)) }
    ensures reserved { D.reserved disk.new ≡ D.reserved disk.old }
    ensures room { D.room disk.old ≤ D.room disk.new + 313 }
    ensures count { D.fault_count disk.new ≡
        fault_count_after (is_err result) (D.fault_count disk.old) }
{
    write_synced(
        disk,
        end + 1,
        &[
            0, 0, 0, 51, 8, 0, 0, 0, 0, 0, 0, 0, 0, 0, 0, 0, 0, 0, 0, 0, 0, 0, 0, 0, 0, 0, 0, 0, 0,
            0, 0, 0, 0, 0, 0, 0, 0, 0, 0, 0, 0, 0, 0, 0, 0, 0, 0, 0, 0, 0, 0, 0, 0, 0, 0, 0,
        ],
    )?;
    write_synced(disk, end, &[OPEN_GATE])
}

/// The superblock of the journal, which is appended where there is none.
pub fn ready<D: Disk>(disk: &mut D, at: &Located) -> Result<Superblock, Failed>
    requires inside { base_of (superblock_at at.now.superblock at.now.end) ≤ D.reserved disk.old }
    requires small { base_of (superblock_at at.now.superblock at.now.end) < 2 ^ 64 }
    requires noted { 313 ≤ D.room disk.old }
    ensures is { IfOk result (λ s. s ≡ superblock_at at.now.superblock at.now.end) }
    ensures done { IsTrue D.is_told → (old : List (List ℕ)) →
        IsAt at.now.superblock (D.kept disk.old) at.now.end old →
        OnOk result (IsAt (Some (superblock_at at.now.superblock at.now.end)) (D.kept disk.new)
        (end_ready at.now.superblock at.now.end) old) }
    ensures any_moment { IsTrue D.is_told → (old : List (List ℕ)) →
        IsAt at.now.superblock (D.kept disk.old) at.now.end old →
        LeavesOnly D.moment D.left_since disk.old disk.new (λ image. StandsFor image old) }
    ensures stays { IsTrue D.is_told → (old : List (List ℕ)) →
        IsAt at.now.superblock (D.kept disk.old) at.now.end old →
        OnOk result (StaysOutside (D.kept disk.old).read (D.kept disk.new).read at.now.end (at.now.end + 57)) }
    ensures longer { IsTrue D.is_told →
        OnOk result (length (D.kept disk.old).read ≤ length (D.kept disk.new).read) }
    ensures made { IsTrue D.is_told →
        OnOk result (MakesCalls (ready_calls at.now.superblock) (D.fails disk.old) (D.fails disk.new)) }
    ensures failed { IsTrue D.is_told → OnErr result (FailsWithin (ready_calls at.now.superblock) (D.fails disk.old)) }
    ensures reserved { D.reserved disk.new ≡ D.reserved disk.old }
    ensures room { D.room disk.old ≤ D.room disk.new + 313 }
    ensures count { D.fault_count disk.new ≡
        fault_count_after (is_err result) (D.fault_count disk.old) }
{
    match at.superblock {
        Some(superblock) => Ok(superblock),
        None => {
            add_superblock(disk, at.end)?;
            Ok(Superblock {
                gate: at.end,
                one: SHUT,
                two: SHUT,
            })
        }
    }
}

/// What a slot says that no area has had.
const SHUT: Slot = Slot {
    gate: 0,
    number: 0,
    place: 0,
    first: 0,
};

/// Writes an area of these payloads where nothing counts, and syncs it. It begins with an empty buffer.
pub fn write_area<D: Disk>(
    disk: &mut D,
    superblock: &Superblock,
    place: u64,
    payloads: &[Gathered],
    buffer: &mut Vec<u8>,
) -> Result<(), Failed>
    requires there { IsTrue D.is_told → All (λ p. IsIn (D.kept disk.old).read p.rest) payloads.now }
    requires fit { longest payloads.now < 2 ^ 32 }
    requires empty { buffer.old.items ≡ [] }
    requires buffer { chunk + 6 + longest payloads.now ≤ vec_capacity buffer.old }
    requires inside { place + size_of_area payloads.now ≤ D.reserved disk.old }
    requires small { place + size_of_area payloads.now < 2 ^ 64 }
    requires noted { 2 * size_of_area payloads.now + 128 ≤ D.room disk.old }
    ensures done { IsTrue D.is_told → (old lists : List (List ℕ)) →
        IsNewArea superblock.now (D.kept disk.old) old place payloads.now lists →
        OnOk result (Stages superblock.now (D.kept disk.new) old place lists) }
    ensures any_moment { IsTrue D.is_told → (old lists : List (List ℕ)) →
        IsNewArea superblock.now (D.kept disk.old) old place payloads.now lists →
        LeavesOnly D.moment D.left_since disk.old disk.new (λ image. StandsFor image old) }
    ensures made { IsTrue D.is_told → OnOk result
        (MakesCalls (area_calls (sizes_of payloads.now)) (D.fails disk.old) (D.fails disk.new)) }
    ensures failed { IsTrue D.is_told → OnErr result
        (FailsWithin (area_calls (sizes_of payloads.now)) (D.fails disk.old)) }
    ensures reserved { D.reserved disk.new ≡ D.reserved disk.old }
    ensures room { OnOk result (D.room disk.old ≤ D.room disk.new + (2 * size_of_area payloads.now + 128)) }
    ensures count { D.fault_count disk.new ≡
        fault_count_after (is_err result) (D.fault_count disk.old) }
{
    let at = write_records(disk, place, payloads, buffer)?;
    finish(disk, at, buffer)
}

/// Shuts the slot that doesn't count where it is open, since a write after an open gate could make it count in a crash.
fn shut_slot<D: Disk>(
    disk: &mut D,
    superblock: &Superblock,
    second: bool,
) -> Result<Superblock, Failed>
    requires inside { superblock.now.gate + 57 ≤ D.reserved disk.old }
    requires small { superblock.now.gate + 57 ≤ 2 ^ 64 }
    requires noted { 129 ≤ D.room disk.old }
    ensures is { IfOk result (λ s. s ≡ with_shut second superblock.now) }
    ensures done { IsTrue D.is_told → (old payloads : List (List ℕ)) (place : ℕ) →
        Stages superblock.now (D.kept disk.old) old place payloads → second ≡ is_second superblock.now →
        OnOk result (Stages (with_shut second superblock.now) (D.kept disk.new) old place payloads) }
    ensures any_moment { IsTrue D.is_told → (old payloads : List (List ℕ)) (place : ℕ) →
        Stages superblock.now (D.kept disk.old) old place payloads → second ≡ is_second superblock.now →
        LeavesOnly D.moment D.left_since disk.old disk.new (λ image. StandsFor image old) }
    ensures made { IsTrue D.is_told →
        OnOk result (MakesCalls (shut_calls (slot_at second superblock.now).gate) (D.fails disk.old) (D.fails disk.new)) }
    ensures failed { IsTrue D.is_told → OnErr result (FailsWithin (shut_calls (slot_at second superblock.now).gate) (D.fails disk.old)) }
    ensures reserved { D.reserved disk.new ≡ D.reserved disk.old }
    ensures room { D.room disk.old ≤ D.room disk.new + 129 }
    ensures count { D.fault_count disk.new ≡
        fault_count_after (is_err result) (D.fault_count disk.old) }
{
    let slot = superblock.slot(second);
    if slot.gate != OPEN_GATE {
        return Ok(*superblock);
    }
    write_synced(disk, superblock.slot_place(second), &[0])?;
    Ok(superblock.put(
        second,
        Slot {
            gate: 0,
            number: slot.number,
            place: slot.place,
            first: slot.first,
        },
    ))
}

/// Writes the numbers of a slot that is shut, and syncs them.
fn write_numbers<D: Disk>(
    disk: &mut D,
    superblock: &Superblock,
    second: bool,
    slot: &Slot,
    numbers: &[u8],
) -> Result<(), Failed>
    requires inside { superblock.now.gate + 57 ≤ D.reserved disk.old }
    requires small { superblock.now.gate + 57 ≤ 2 ^ 64 }
    requires size { length numbers.now ≡ 24 }
    requires noted { 152 ≤ D.room disk.old }
    ensures done { IsTrue D.is_told → (old payloads : List (List ℕ)) (place : ℕ) →
        Stages superblock.now (D.kept disk.old) old place payloads → second ≡ is_second superblock.now →
        (slot_at second superblock.now).gate ≢ open_gate → numbers.now ≡ number_bytes slot.now → Fits slot.now →
        OnOk result (Stages (put second superblock.now
        (record slot.now { gate = (slot_at second superblock.now).gate }))
        (D.kept disk.new) old place payloads) }
    ensures any_moment { IsTrue D.is_told → (old payloads : List (List ℕ)) (place : ℕ) →
        Stages superblock.now (D.kept disk.old) old place payloads → second ≡ is_second superblock.now →
        (slot_at second superblock.now).gate ≢ open_gate →
        LeavesOnly D.moment D.left_since disk.old disk.new (λ image. StandsFor image old) }
    ensures made { IsTrue D.is_told →
        OnOk result (MakesCalls (2) (D.fails disk.old) (D.fails disk.new)) }
    ensures failed { IsTrue D.is_told → OnErr result (FailsWithin (2) (D.fails disk.old)) }
    ensures reserved { D.reserved disk.new ≡ D.reserved disk.old }
    ensures room { D.room disk.old ≤ D.room disk.new + 152 }
    ensures count { D.fault_count disk.new ≡
        fault_count_after (is_err result) (D.fault_count disk.old) }
{
    write_synced(disk, superblock.slot_place(second) + 1, numbers)
}

/// The slot that doesn't count is shut, and gets the numbers of the new area.
pub fn number_slot<D: Disk>(
    disk: &mut D,
    superblock: &Superblock,
    second: bool,
    slot: &Slot,
    numbers: &[u8],
) -> Result<Superblock, Failed>
    requires inside { superblock.now.gate + 57 ≤ D.reserved disk.old }
    requires small { superblock.now.gate + 57 ≤ 2 ^ 64 }
    requires size { length numbers.now ≡ 24 }
    requires noted { 281 ≤ D.room disk.old }
    ensures is { IfOk result (λ s. s ≡ numbered second superblock.now slot.now) }
    ensures done { IsTrue D.is_told → (old payloads : List (List ℕ)) (place : ℕ) →
        Stages superblock.now (D.kept disk.old) old place payloads → second ≡ is_second superblock.now →
        numbers.now ≡ number_bytes slot.now → Fits slot.now →
        OnOk result (Stages (numbered second superblock.now slot.now) (D.kept disk.new) old place payloads) }
    ensures any_moment { IsTrue D.is_told → (old payloads : List (List ℕ)) (place : ℕ) →
        Stages superblock.now (D.kept disk.old) old place payloads → second ≡ is_second superblock.now →
        LeavesOnly D.moment D.left_since disk.old disk.new (λ image. StandsFor image old) }
    ensures made { IsTrue D.is_told →
        OnOk result (MakesCalls (shut_calls (slot_at second superblock.now).gate + 2) (D.fails disk.old) (D.fails disk.new)) }
    ensures failed { IsTrue D.is_told → OnErr result (FailsWithin (shut_calls (slot_at second superblock.now).gate + 2) (D.fails disk.old)) }
    ensures reserved { D.reserved disk.new ≡ D.reserved disk.old }
    ensures room { D.room disk.old ≤ D.room disk.new + 281 }
    ensures count { D.fault_count disk.new ≡
        fault_count_after (is_err result) (D.fault_count disk.old) }
{
    let shut = shut_slot(disk, superblock, second)?;
    write_numbers(disk, &shut, second, slot, numbers)?;
    let gate = shut.slot(second).gate;
    Ok(superblock.put(
        second,
        Slot {
            gate,
            number: slot.number,
            place: slot.place,
            first: slot.first,
        },
    ))
}

/// Opens the slot of a staged area, which makes it the one that counts.
pub fn open_slot<D: Disk>(disk: &mut D, superblock: &Superblock, second: bool) -> Result<(), Failed>
    requires inside { superblock.now.gate + 57 ≤ D.reserved disk.old }
    requires small { superblock.now.gate + 57 ≤ 2 ^ 64 }
    requires noted { 129 ≤ D.room disk.old }
    ensures done { IsTrue D.is_told → (old payloads : List (List ℕ)) (place : ℕ) →
        Stages superblock.now (D.kept disk.old) old place payloads → second ≡ is_second superblock.now →
        IsNextSlot superblock.now (slot_at second superblock.now) place →
        OnOk result (KeepsIn (Some (put second superblock.now
        (record (slot_at second superblock.now) { gate = open_gate }))) (D.kept disk.new) payloads) }
    ensures any_moment { IsTrue D.is_told → (old payloads : List (List ℕ)) (place : ℕ) →
        Stages superblock.now (D.kept disk.old) old place payloads → second ≡ is_second superblock.now →
        IsNextSlot superblock.now (slot_at second superblock.now) place →
        LeavesOnly D.moment D.left_since disk.old disk.new (IsEither old payloads) }
    ensures made { IsTrue D.is_told →
        OnOk result (MakesCalls (2) (D.fails disk.old) (D.fails disk.new)) }
    ensures failed { IsTrue D.is_told → OnErr result (FailsWithin (2) (D.fails disk.old)) }
    ensures stopped { IsTrue D.is_told → (old payloads : List (List ℕ)) (place : ℕ) →
        Stages superblock.now (D.kept disk.old) old place payloads → second ≡ is_second superblock.now →
        IsNextSlot superblock.now (slot_at second superblock.now) place →
        OnErr result (IsMoveStopped 2 (D.fails disk.old) (D.kept disk.new) old payloads) }
    ensures reserved { D.reserved disk.new ≡ D.reserved disk.old }
    ensures room { D.room disk.old ≤ D.room disk.new + 129 }
    ensures count { D.fault_count disk.new ≡
        fault_count_after (is_err result) (D.fault_count disk.old) }
{
    write_synced(disk, superblock.slot_place(second), &[OPEN_GATE])
}
