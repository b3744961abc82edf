//! The writes of a new area, through a buffer.
ghost use Rattle.std.specs.Prelude.{◌≡◌, ◌≤◌, ◌<◌, ◌+◌, ◌*◌, ◌^◌, ◌++◌, ◌∷◌, ◌⊎◌, [], ℕ, List, true, false, take, drop, IsTrue, IfOk, OnOk, OnErr, is_err, length};
ghost use Rattle.std.specs.List.{All};
ghost use Rattle.std.specs.Vec.{vec_capacity};
ghost use Rattle.disk_model.specs.Disk.{LeavesOnly, Elapses, GoesByPlan, Writes, at_rest};
ghost use Rattle.xt_base.specs.Faults.{fault_count_after};
ghost use Rattle.byteorder.specs.Endian.{big_bytes};
ghost use Rattle.journal_areas.specs.Format.{open_gate, record_of, records};
ghost use Rattle.journal_moves.specs.Gathering.{gathered_in, gathered, size_in, sizes_of, longest, size_of_area, chunk, chunk_calls, held_after, chunks};
ghost use Rattle.journal_moves.specs.Moves.{MakesCalls, FailsWithin};
ghost use Rattle.journal_moves.specs.Writing.{IsApart, IsIn, IsUnderway, IsWritten, StaysOutside};

use crate::gathered::Gathered;
use byteorder::{BigEndian, ByteOrder};
use disk_model::{Disk, OPEN_GATE};
use xt_base::Failed;

/// The buffer is written once it has so many bytes after a whole payload.
pub const CHUNK: usize = 1 << 20;

/// Puts an open gate, a length and these bytes after what a buffer has. There has to be room for them, so this takes no memory.
fn put_front(buffer: &mut Vec<u8>, size: u32, front: &[u8])
    requires { length buffer.old.items + 5 + length front.now ≤ vec_capacity buffer.old }
    ensures is { buffer.new.items ≡ buffer.old.items ++ open_gate ∷ (big_bytes 4 size ++ front.now) }
    ensures size { length buffer.new.items ≡ length buffer.old.items + 5 + length front.now }
    ensures room { vec_capacity buffer.old ≤ vec_capacity buffer.new }
{
    let mut len = [0; 4];
    BigEndian::write_u32(&mut len, size);
    buffer.push(OPEN_GATE).unwrap();
    buffer.extend_from_slice(&len).unwrap();
    buffer.extend_from_slice(front).unwrap();
}

/// Puts as many bytes as the disk has from a place on after what a buffer has, which has room for them.
fn put_rest<D: Disk>(disk: &D, at: u64, len: usize, buffer: &mut Vec<u8>) -> Result<(), Failed>
    requires there { IsTrue D.is_told → (len ≡ 0) ⊎ (at + len ≤ length (D.kept disk.now).read) }
    requires room { length buffer.old.items + len ≤ vec_capacity buffer.old }
    ensures is { IsTrue D.is_told → OnOk result (buffer.new.items ≡
        buffer.old.items ++ take len (drop at (D.kept disk.now).read)) }
    ensures size { length buffer.new.items ≡ length buffer.old.items + len }
    ensures room { vec_capacity buffer.old ≤ vec_capacity buffer.new }
    ensures sure { IsTrue D.is_told → is_err result ≡ false }
{
    if len == 0 {
        return Ok(());
    }
    let start = buffer.len();
    buffer.resize(start + len, 0).unwrap();
    disk.look(at, &mut buffer.as_mut_slice()[start..])
}

/// Puts the record of a payload, with its gate open, after what a buffer has, which has room for it.
fn put_payload<D: Disk>(disk: &D, payload: &Gathered, buffer: &mut Vec<u8>) -> Result<(), Failed>
    requires there { IsTrue D.is_told → IsIn (D.kept disk.now).read payload.now.rest }
    requires fits { size_in payload.now < 2 ^ 32 }
    requires room { length buffer.old.items + 5 + size_in payload.now ≤ vec_capacity buffer.old }
    ensures is { IsTrue D.is_told → OnOk result (buffer.new.items ≡ buffer.old.items
        ++ open_gate ∷ (big_bytes 4 (size_in payload.now) ++ gathered_in true (D.kept disk.now).read payload.now)) }
    ensures size { length buffer.new.items ≡ length buffer.old.items + 5 + size_in payload.now }
    ensures room { vec_capacity buffer.old ≤ vec_capacity buffer.new }
    ensures sure { IsTrue D.is_told → is_err result ≡ false }
{
    put_front(buffer, payload.len() as u32, payload.front.as_slice());
    put_rest(disk, payload.rest.at, payload.rest.len, buffer)
}

/// Writes what a buffer has from a place on, and empties it. Returns the place after what was written.
fn write_out<D: Disk>(disk: &mut D, at: u64, buffer: &mut Vec<u8>) -> Result<u64, Failed>
    requires inside { at + length buffer.old.items ≤ D.reserved disk.old }
    requires small { at + length buffer.old.items < 2 ^ 64 }
    requires noted { length buffer.old.items + 64 ≤ D.room disk.old }
    ensures is { IfOk result (λ next. (next ≡ at + length buffer.old.items) × (buffer.new.items ≡ [])) }
    ensures capacity { vec_capacity buffer.old ≤ vec_capacity buffer.new }
    ensures writes { IsTrue D.is_told →
        Writes at buffer.old.items (D.kept disk.old) (D.kept disk.new) (is_err result) }
    ensures reserved { D.reserved disk.new ≡ D.reserved disk.old }
    ensures room { D.room disk.old ≤ D.room disk.new + (length buffer.old.items + 64) }
    ensures time { IsTrue D.is_told →
        Elapses (D.moment disk.old) (D.moment disk.new) (D.left_since disk.old) (D.left_since disk.new)
        (D.kept disk.new) }
    ensures plan { IsTrue D.is_told → GoesByPlan 0 1 (D.fails disk.old) (D.fails disk.new) (is_err result) }
    ensures count { D.fault_count disk.new ≡
        fault_count_after (is_err result) (D.fault_count disk.old) }
{
    disk.write(at, buffer.as_slice())?;
    let next = at + buffer.len() as u64;
    buffer.clear();
    Ok(next)
}

/// Puts a payload into the buffer, and writes the buffer once it has `CHUNK` bytes. Returns the place where what the buffer has then
/// goes.
fn add<D: Disk>(
    disk: &mut D,
    at: u64,
    payload: &Gathered,
    buffer: &mut Vec<u8>,
) -> Result<u64, Failed>
    requires there { IsTrue D.is_told → IsIn (D.kept disk.old).read payload.now.rest }
    requires fits { size_in payload.now < 2 ^ 32 }
    requires buffer { length buffer.old.items + 5 + size_in payload.now ≤ vec_capacity buffer.old }
    requires inside { at + (length buffer.old.items + (5 + size_in payload.now)) ≤ D.reserved disk.old }
    requires small { at + (length buffer.old.items + (5 + size_in payload.now)) < 2 ^ 64 }
    requires noted { 2 * (length buffer.old.items + (5 + size_in payload.now)) ≤ D.room disk.old }
    ensures held { IfOk result (λ next. length buffer.new.items ≡
        held_after (length buffer.old.items + (5 + size_in payload.now))) }
    ensures next { IfOk result (λ next. (at ≤ next) × (next + length buffer.new.items ≡
        at + (length buffer.old.items + (5 + size_in payload.now)))) }
    ensures capacity { vec_capacity buffer.old ≤ vec_capacity buffer.new }
    ensures underway { IsTrue D.is_told → (bytes so_far : List ℕ) (place end : ℕ) →
        IsUnderway bytes place end (D.kept disk.old) at buffer.old.items so_far →
        IsApart bytes place end payload.now →
        at + (length buffer.old.items + (5 + size_in payload.now)) ≤ end →
        IfOk result (λ next. IsUnderway bytes place end (D.kept disk.new) next buffer.new.items
        (so_far ++ open_gate ∷ record_of (gathered_in true bytes payload.now))) }
    ensures any_moment { IsTrue D.is_told → (bytes so_far : List ℕ) (place end : ℕ) →
        IsUnderway bytes place end (D.kept disk.old) at buffer.old.items so_far →
        at + (length buffer.old.items + (5 + size_in payload.now)) ≤ end →
        LeavesOnly D.moment D.left_since disk.old disk.new (λ image. StaysOutside bytes image place end) }
    ensures longer { IsTrue D.is_told →
        OnOk result (length (D.kept disk.old).read ≤ length (D.kept disk.new).read) }
    ensures made { IsTrue D.is_told → OnOk result
        (MakesCalls (chunk_calls (length buffer.old.items + (5 + size_in payload.now)))
        (D.fails disk.old) (D.fails disk.new)) }
    ensures failed { IsTrue D.is_told → OnErr result (FailsWithin 1 (D.fails disk.old)) }
    ensures reserved { D.reserved disk.new ≡ D.reserved disk.old }
    ensures room { IfOk result (λ next. D.room disk.old + 2 * at ≤ D.room disk.new + 2 * next) }
    ensures count { D.fault_count disk.new ≡
        fault_count_after (is_err result) (D.fault_count disk.old) }
{
    let Ok(()) = put_payload(disk, payload, buffer) else {
        disk.count_fault();
        return Err(Failed);
    };
    if buffer.len() < CHUNK {
        return Ok(at);
    }
    write_out(disk, at, buffer)
}

/// Writes the records of these payloads from a place on, but for the last bytes, which the buffer has then. It begins with an empty
/// buffer, and returns the place where those bytes go.
pub fn write_records<D: Disk>(
    disk: &mut D,
    place: u64,
    payloads: &[Gathered],
    buffer: &mut Vec<u8>,
) -> Result<u64, Failed>
    requires there { IsTrue D.is_told → All (λ p. IsIn (D.kept disk.old).read p.rest) payloads.now }
    requires fit { longest payloads.now < 2 ^ 32 }
    requires empty { buffer.old.items ≡ [] }
    requires buffer { chunk + 6 + longest payloads.now ≤ vec_capacity buffer.old }
    requires inside { place + size_of_area payloads.now ≤ D.reserved disk.old }
    requires small { place + size_of_area payloads.now < 2 ^ 64 }
    requires noted { 2 * size_of_area payloads.now ≤ D.room disk.old }
    ensures ends { IfOk result (λ at. (place ≤ at)
        × (at + (length buffer.new.items + 1) ≡ place + size_of_area payloads.now)) }
    ensures capacity { IfOk result (λ at. length buffer.new.items + 1 ≤ vec_capacity buffer.new) }
    ensures underway { IsTrue D.is_told → D.kept disk.old ≡ at_rest (D.kept disk.old).read →
        All (IsApart (D.kept disk.old).read place (place + size_of_area payloads.now)) payloads.now →
        IfOk result (λ at. IsUnderway (D.kept disk.old).read place (place + size_of_area payloads.now)
        (D.kept disk.new) at buffer.new.items (records (gathered true (D.kept disk.old).read payloads.now))) }
    ensures any_moment { IsTrue D.is_told → D.kept disk.old ≡ at_rest (D.kept disk.old).read →
        All (IsApart (D.kept disk.old).read place (place + size_of_area payloads.now)) payloads.now →
        LeavesOnly D.moment D.left_since disk.old disk.new
        (λ image. StaysOutside (D.kept disk.old).read image place (place + size_of_area payloads.now)) }
    ensures made { IsTrue D.is_told → OnOk result
        (MakesCalls (chunks 0 (sizes_of payloads.now)) (D.fails disk.old) (D.fails disk.new)) }
    ensures failed { IsTrue D.is_told →
        OnErr result (FailsWithin (chunks 0 (sizes_of payloads.now) + 1) (D.fails disk.old)) }
    ensures reserved { D.reserved disk.new ≡ D.reserved disk.old }
    ensures room { IfOk result (λ at. D.room disk.old + 2 * place ≤ D.room disk.new + 2 * at) }
    ensures count { D.fault_count disk.new ≡
        fault_count_after (is_err result) (D.fault_count disk.old) }
{
    let mut at = place;
    for payload in payloads {
        at = add(disk, at, payload, buffer)?;
    }
    Ok(at)
}

/// Puts a closed gate after what a buffer has, which has room for it.
fn put_gate(buffer: &mut Vec<u8>)
    requires { length buffer.old.items + 1 ≤ vec_capacity buffer.old }
    ensures is { buffer.new.items ≡ buffer.old.items ++ 0 ∷ [] }
    ensures size { length buffer.new.items ≡ length buffer.old.items + 1 }
{
    buffer.push(0).unwrap();
}

/// Writes what is left of an area, with a closed gate after it, and syncs the area.
pub fn finish<D: Disk>(disk: &mut D, at: u64, buffer: &mut Vec<u8>) -> Result<(), Failed>
    requires buffer { length buffer.old.items + 1 ≤ vec_capacity buffer.old }
    requires inside { at + (length buffer.old.items + 1) ≤ D.reserved disk.old }
    requires small { at + (length buffer.old.items + 1) < 2 ^ 64 }
    requires noted { length buffer.old.items + 129 ≤ D.room disk.old }
    ensures done { IsTrue D.is_told → (bytes so_far : List ℕ) (place end : ℕ) →
        IsUnderway bytes place end (D.kept disk.old) at buffer.old.items so_far →
        at + (length buffer.old.items + 1) ≤ end →
        OnOk result ((D.kept disk.new ≡ at_rest (D.kept disk.new).read)
        × IsWritten bytes (D.kept disk.new).read place end (so_far ++ 0 ∷ [])) }
    ensures any_moment { IsTrue D.is_told → (bytes so_far : List ℕ) (place end : ℕ) →
        IsUnderway bytes place end (D.kept disk.old) at buffer.old.items so_far →
        at + (length buffer.old.items + 1) ≤ end →
        LeavesOnly D.moment D.left_since disk.old disk.new (λ image. StaysOutside bytes image place end) }
    ensures made { IsTrue D.is_told → OnOk result (MakesCalls 2 (D.fails disk.old) (D.fails disk.new)) }
    ensures failed { IsTrue D.is_told → OnErr result (FailsWithin 2 (D.fails disk.old)) }
    ensures reserved { D.reserved disk.new ≡ D.reserved disk.old }
    ensures room { D.room disk.old ≤ D.room disk.new + (length buffer.old.items + 129) }
    ensures count { D.fault_count disk.new ≡
        fault_count_after (is_err result) (D.fault_count disk.old) }
{
    put_gate(buffer);
    write_out(disk, at, buffer)?;
    disk.sync()
}
