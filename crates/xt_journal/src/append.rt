ghost use Rattle.std.specs.Prelude.{◌≡◌, ◌≤◌, ◌<◌, ◌+◌, ◌-◌, ◌^◌, ◌++◌, ◌∷◌, [], ℕ, List, Option, IsTrue, IfOk, OnOk, OnErr, IsErrOf, MatchResult, is_err, length};
ghost use Rattle.disk_model.specs.Disk.{IsImage, LeavesOnly};
ghost use Rattle.xt_base.specs.Faults.{counted, fault_count_after};
ghost use Rattle.xt_journal.specs.Append.{GoAt, GoesAt, IsRunOf, IsTurn, IsWithAllOrNone, IsWithOrWithout, AreStopped};
ghost use Rattle.xt_journal.specs.Appended.{Appends, AppendsAll, MakesCalls};
ghost use Rattle.journal_records.specs.Calls.{GoesOn, AllSucceed};
ghost use Rattle.journal_areas.specs.declared.superblock.Superblock.{Superblock};
ghost use Rattle.xt_journal.specs.Format.{open_gate, record_of, KeepsIn};
ghost use Rattle.xt_journal.specs.Refused.{is_broken};

use byteorder::{BigEndian, ByteOrder};
use disk_model::{Disk, OPEN_GATE};
use journal_records::write_synced;
use std::alloc::Global;
use xt_base::{Failed, OutOfMemory};

/// How many bytes a journal needs that ends at this place, with a record more; `Err` where they pass the limit, and then
/// at most `u64::MAX`.
pub fn need_of(end: u64, len: usize, limit: u64) -> Result<u64, u64>
    requires { len < 2 ^ 32 }
    ensures { MatchResult result
        (λ need. (need ≡ end + (6 + len)) × (need ≤ limit) × (need < 2 ^ 64))
        (λ need. (need ≡ counted (end + (6 + len))) × (limit < end + (6 + len))) }
{
    need_after(end, 5 + len as u64, limit)
}

/// How many bytes a journal needs that ends at this place, with this many bytes of records more and the next gate; `Err` where they pass the
/// limit, and then at most `u64::MAX`.
pub fn need_after(end: u64, len: u64, limit: u64) -> Result<u64, u64>
    ensures { MatchResult result
        (λ need. (need ≡ end + (1 + len)) × (need ≤ limit) × (need < 2 ^ 64))
        (λ need. (need ≡ counted (end + (1 + len))) × (limit < end + (1 + len))) }
{
    let gate = end.saturating_add(len);
    if gate < limit {
        Ok(gate + 1)
    } else {
        Err(gate.saturating_add(1))
    }
}

/// A payload after its length, and the next gate, closed.
pub fn piece_of(alloc: Global, payload: &[u8]) -> Result<Vec<u8>, OutOfMemory>
    requires { length payload.now < 2 ^ 32 }
    ensures { IfOk result (λ piece. piece.items ≡ record_of payload.now ++ 0 ∷ []) }
{
    let mut piece = Vec::with_capacity(alloc, payload.len() + 5)?;
    let mut len = [0; 4];
    BigEndian::write_u32(&mut len, payload.len() as u32);
    piece.extend_from_slice(&len)?;
    piece.extend_from_slice(payload)?;
    piece.extend_from_slice(&[0])?;
    Ok(piece)
}

/// Adds the record of a payload to these bytes, after an open gate: as it stands in a journal.
pub fn push_record(bytes: &mut Vec<u8>, payload: &[u8]) -> Result<(), OutOfMemory>
    requires { length payload.now < 2 ^ 32 }
    ensures done { OnOk result (bytes.new.items ≡
        bytes.old.items ++ open_gate ∷ record_of payload.now) }
    ensures same { OnErr result (bytes.new.items ≡ bytes.old.items) }
{
    let mut len = [0; 4];
    BigEndian::write_u32(&mut len, payload.len() as u32);
    bytes.reserve(5 + payload.len())?;
    bytes.extend_from_slice(&[OPEN_GATE]).unwrap();
    bytes.extend_from_slice(&len).unwrap();
    bytes.extend_from_slice(payload).unwrap();
    Ok(())
}

/// Why a record isn't appended.
#[derive(Clone, Copy)]
pub enum Refusal {
    Broken,
    OutOfMemory,
}

/// Appends a payload to the journal that ends at this place, which then needs `need` bytes.
pub fn append_to<D: Disk>(
    alloc: Global,
    disk: &mut D,
    end: u64,
    need: u64,
    payload: &[u8],
) -> Result<(), Refusal>
    requires needed { need ≡ end + (6 + length payload.now) }
    requires fits { length payload.now < 2 ^ 32 }
    ensures turn { IsTrue D.is_told → (super : Option Superblock) (payloads : List (List ℕ)) →
        GoesAt super (D.kept disk.old) end payloads payload.now →
        Appends super (D.fails disk.old) (D.kept disk.new) payloads payload.now result }
    ensures any_moment { IsTrue D.is_told →
        (super : Option Superblock) (payloads : List (List ℕ)) →
        GoesAt super (D.kept disk.old) end payloads payload.now →
        LeavesOnly D.moment D.left_since disk.old disk.new (IsWithOrWithout payloads payload.now) }
    ensures calls { IsTrue D.is_told → MakesCalls (D.fails disk.old) (D.fails disk.new) result }
    ensures count { D.fault_count disk.new ≡
        fault_count_after (is_broken result) (D.fault_count disk.old) }
    ensures same { IsErrOf result Refusal.OutOfMemory → D.kept disk.new ≡ D.kept disk.old }
{
    let Ok(()) = disk.reserve(need) else {
        return Err(Refusal::OutOfMemory);
    };
    let Ok(piece) = piece_of(alloc, payload) else {
        return Err(Refusal::OutOfMemory);
    };
    match write_records(disk, end, piece.as_slice()) {
        Ok(()) => Ok(()),
        Err(Failed) => Err(Refusal::Broken),
    }
}

/// Appends payloads at once to the journal that ends at this place, which then needs `need` bytes. `piece` is what comes after the first
/// one's gate.
pub fn append_run<D: Disk>(disk: &mut D, end: u64, need: u64, piece: &[u8]) -> Result<(), Refusal>
    requires needed { need ≡ end + (1 + length piece.now) }
    requires some { 1 ≤ length piece.now }
    ensures turn { IsTrue D.is_told → (super : Option Superblock) (payloads more : List (List ℕ)) →
        GoAt super (D.kept disk.old) end payloads more → IsRunOf piece.now more →
        AppendsAll super (D.fails disk.old) (D.kept disk.new) payloads more result }
    ensures any_moment { IsTrue D.is_told →
        (super : Option Superblock) (payloads more : List (List ℕ)) →
        GoAt super (D.kept disk.old) end payloads more → IsRunOf piece.now more →
        LeavesOnly D.moment D.left_since disk.old disk.new (IsWithAllOrNone payloads more) }
    ensures calls { IsTrue D.is_told → MakesCalls (D.fails disk.old) (D.fails disk.new) result }
    ensures count { D.fault_count disk.new ≡
        fault_count_after (is_broken result) (D.fault_count disk.old) }
    ensures same { IsErrOf result Refusal.OutOfMemory → D.kept disk.new ≡ D.kept disk.old }
{
    let Ok(()) = disk.reserve(need) else {
        return Err(Refusal::OutOfMemory);
    };
    match write_records(disk, end, piece) {
        Ok(()) => Ok(()),
        Err(Failed) => Err(Refusal::Broken),
    }
}

/// Appends records in four device calls: `piece` is what comes after the first one's gate, which stays closed until all of it is synced.
pub fn write_records<D: Disk>(disk: &mut D, end: u64, piece: &[u8]) -> Result<(), Failed>
    requires place { end + (1 + length piece.now) ≤ D.reserved disk.old }
    requires small { end + 1 < 2 ^ 64 }
    requires noted { length piece.now + 300 ≤ D.room disk.old }
    ensures done { IsTrue D.is_told →
        (super : Option Superblock) (payloads : List (List ℕ)) (more : List (List ℕ)) →
        IsTurn super (D.kept disk.old) end piece.now payloads more →
        OnOk result (KeepsIn super (D.kept disk.new) (payloads ++ more)) }
    ensures any_moment { IsTrue D.is_told →
        (super : Option Superblock) (payloads : List (List ℕ)) (more : List (List ℕ)) →
        IsTurn super (D.kept disk.old) end piece.now payloads more →
        LeavesOnly D.moment D.left_since disk.old disk.new (IsWithAllOrNone payloads more) }
    ensures stopped { IsTrue D.is_told →
        (super : Option Superblock) (payloads : List (List ℕ)) (more : List (List ℕ)) →
        IsTurn super (D.kept disk.old) end piece.now payloads more →
        OnErr result (AreStopped super (D.fails disk.old) (D.kept disk.new) payloads more) }
    ensures succeeded { IsTrue D.is_told → OnOk result (AllSucceed (D.fails disk.old) 4) }
    ensures plan { IsTrue D.is_told →
        OnOk result (GoesOn 0 4 (D.fails disk.old) (D.fails disk.new)) }
    ensures count { D.fault_count disk.new ≡
        fault_count_after (is_err result) (D.fault_count disk.old) }
{
    write_synced(disk, end + 1, piece)?;
    write_synced(disk, end, &[OPEN_GATE])
}
