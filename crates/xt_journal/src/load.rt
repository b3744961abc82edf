ghost use Rattle.std.specs.Prelude.{◌≡◌, ◌⊎◌, ◌≤◌, ◌<◌, ◌+◌, [], ℕ, true, false, IsTrue, IfOk, IfErr, IfSome, OnOk, OnErr, IsErrOf, is_err, length};
ghost use Rattle.disk_model.specs.Disk.{IsImage, LeavesOnly, at_rest};
ghost use Rattle.xt_base.specs.Faults.{fault_count_after};
ghost use Rattle.journal_records.specs.Calls.{GoesOn};
ghost use Rattle.xt_journal.specs.Format.{end_in, journal_of, KeepsIn, StandsIn};
ghost use Rattle.xt_journal.specs.Loaded.{LeavesAsBefore, LeavesDisk, TellsFresh, FailedCall, MadeCalls};
ghost use Rattle.xt_journal.specs.Located.{IsLocated};
ghost use Rattle.xt_journal.specs.Parsed.{Gives, is_fault, reading_found};
ghost use Rattle.xt_journal.specs.Placed.{AreWithin, placed_on};
ghost use Rattle.xt_journal.specs.Reading.{IsTheReading, payloads_on};

use crate::format::{FRESH, Found, Trouble};
use crate::walk::find;
use disk_model::Disk;
use journal_records::write_synced;
use std::alloc::Global;
use xt_base::Failed;

/// Syncs a disk, so that a crash leaves what a read gives, and returns its length.
fn settle<D: Disk>(disk: &mut D) -> Result<u64, Failed>
    requires { 64 ≤ D.room disk.old }
    ensures value { IsTrue D.is_told → IfOk result (λ len. len ≡ length (D.kept disk.old).read) }
    ensures rests { IsTrue D.is_told →
        OnOk result (D.kept disk.new ≡ at_rest (D.kept disk.old).read) }
    ensures left { IsTrue D.is_told → OnErr result ((D.kept disk.new ≡ D.kept disk.old)
        ⊎ (D.kept disk.new ≡ at_rest (D.kept disk.old).read)) }
    ensures any_moment { IsTrue D.is_told →
        LeavesOnly D.moment D.left_since disk.old disk.new (IsImage (D.kept disk.old)) }
    ensures reserved { D.reserved disk.new ≡ D.reserved disk.old }
    ensures room { D.room disk.old ≤ D.room disk.new + 64 }
    ensures plan { IsTrue D.is_told →
        OnOk result (GoesOn 1 1 (D.fails disk.old) (D.fails disk.new)) }
    ensures failed { IsTrue D.is_told →
        OnErr result ((l : ℕ) × (l ≤ 1) × (D.fails disk.old l 1 ≡ true)) }
    ensures count { D.fault_count disk.new ≡
        fault_count_after (is_err result) (D.fault_count disk.old) }
{
    disk.sync()?;
    disk.length()
}

/// Reserves what loading writes, and settles a disk. Returns its length.
fn prepare<D: Disk>(disk: &mut D) -> Result<u64, Trouble>
    ensures value { IsTrue D.is_told → IfOk result (λ len. len ≡ length (D.kept disk.old).read) }
    ensures rests { IsTrue D.is_told →
        OnOk result (D.kept disk.new ≡ at_rest (D.kept disk.old).read) }
    ensures left { IsTrue D.is_told → OnErr result ((D.kept disk.new ≡ D.kept disk.old)
        ⊎ (D.kept disk.new ≡ at_rest (D.kept disk.old).read)) }
    ensures any_moment { IsTrue D.is_told →
        LeavesOnly D.moment D.left_since disk.old disk.new (IsImage (D.kept disk.old)) }
    ensures reserved { OnOk result (13 ≤ D.reserved disk.new) }
    ensures room { OnOk result (1000 ≤ D.room disk.new) }
    ensures plan { IsTrue D.is_told →
        OnOk result (GoesOn 1 1 (D.fails disk.old) (D.fails disk.new)) }
    ensures unread { IfErr result (λ trouble.
        (trouble ≡ Trouble.DiskFault) ⊎ (trouble ≡ Trouble.OutOfMemory)) }
    ensures failed { IsTrue D.is_told → IsErrOf result Trouble.DiskFault →
        (l : ℕ) × (l ≤ 1) × (D.fails disk.old l 1 ≡ true) }
    ensures count { D.fault_count disk.new ≡
        fault_count_after (is_fault result) (D.fault_count disk.old) }
{
    match disk.reserve(FRESH.len() as u64) {
        Ok(()) => Ok(settle(disk)?),
        Err(_) => Err(Trouble::OutOfMemory),
    }
}

/// Whether a disk of at most 13 bytes is a journal with no record. It makes no device call.
fn is_fresh<D: Disk>(disk: &D, len: u64) -> Result<bool, Failed>
    requires short { len ≤ 13 }
    requires whole { IsTrue D.is_told → len ≡ length (D.kept disk.now).read }
    ensures value { IsTrue D.is_told → IfOk result (TellsFresh (D.kept disk.now).read) }
    ensures sure { IsTrue D.is_told → is_err result ≡ false }
{
    let mut bytes = [0; FRESH.len()];
    let held = &mut bytes[..len as usize];
    disk.look(0, held)?;
    Ok(&*held == FRESH.as_slice())
}

/// Makes a disk of at most 13 bytes a journal with no record, where it isn't one.
fn make_ready<D: Disk>(disk: &mut D, len: u64) -> Result<(), Failed>
    requires short { len ≤ 13 }
    requires rests { IsTrue D.is_told → D.kept disk.old ≡ at_rest (D.kept disk.old).read }
    requires whole { IsTrue D.is_told → len ≡ length (D.kept disk.old).read }
    requires inside { 13 ≤ D.reserved disk.old }
    requires noted { 200 ≤ D.room disk.old }
    ensures ready { IsTrue D.is_told → OnOk result (D.kept disk.new ≡ at_rest (journal_of [])) }
    ensures left { IsTrue D.is_told →
        OnErr result (LeavesDisk (D.kept disk.old) (D.kept disk.new)) }
    ensures any_moment { IsTrue D.is_told →
        LeavesOnly D.moment D.left_since disk.old disk.new (LeavesAsBefore (D.kept disk.old)) }
    ensures plan { IsTrue D.is_told → OnOk result ((changes : ℕ) × (changes ≤ 2)
        × ((D.kept disk.old).read ≡ journal_of [] → changes ≡ 0)
        × GoesOn 0 changes (D.fails disk.old) (D.fails disk.new)) }
    ensures failed { IsTrue D.is_told → OnErr result ((c : ℕ) × (c ≤ 2)
        × ((D.kept disk.old).read ≡ journal_of [] → c ≡ 0) × (D.fails disk.old 0 c ≡ true)) }
    ensures count { D.fault_count disk.new ≡
        fault_count_after (is_err result) (D.fault_count disk.old) }
{
    match is_fresh(&*disk, len) {
        Ok(true) => Ok(()),
        Ok(false) => write_synced(disk, 0, &FRESH),
        Err(Failed) => {
            let _ = disk.count_fault();
            Err(Failed)
        }
    }
}

/// Reads a disk gate by gate, and makes it a journal where it has at most 13 bytes and isn't one.
pub fn load_from<D: Disk>(alloc: Global, disk: &mut D) -> Result<Found, Trouble>
    ensures gives { IsTrue D.is_told → Gives (D.kept disk.old).read result }
    ensures keeps { IsTrue D.is_told → IfOk result (λ found.
        KeepsIn found.superblock (D.kept disk.new) (payloads_on (D.kept disk.old).read found.extents.items)
        × (found.end ≡ end_in found.superblock (payloads_on (D.kept disk.old).read found.extents.items))) }
    ensures located { IfOk result (λ found. IsLocated found.superblock found.end) }
    ensures within { IfOk result (λ found. AreWithin found.end found.extents.items) }
    ensures stands { IsTrue D.is_told → IfOk result (λ found.
        StandsIn found.superblock (D.kept disk.old).read (payloads_on (D.kept disk.old).read found.extents.items)) }
    ensures stays { IsTrue D.is_told → IfOk result (λ found.
        placed_on true (D.kept disk.new).read found.extents.items
        ≡ placed_on true (D.kept disk.old).read found.extents.items) }
    ensures fresh { IsTrue D.is_told → length (D.kept disk.old).read ≤ 13 →
        OnOk result (D.kept disk.new ≡ at_rest (journal_of [])) }
    ensures same { IsTrue D.is_told → 13 < length (D.kept disk.old).read →
        (D.kept disk.new).read ≡ (D.kept disk.old).read }
    ensures left { IsTrue D.is_told →
        OnErr result (LeavesDisk (D.kept disk.old) (D.kept disk.new)) }
    ensures any_moment { IsTrue D.is_told →
        LeavesOnly D.moment D.left_since disk.old disk.new (LeavesAsBefore (D.kept disk.old)) }
    ensures plan { IsTrue D.is_told →
        OnOk result (MadeCalls (D.fails disk.old) (D.fails disk.new) (D.kept disk.old).read) }
    ensures failed { IsTrue D.is_told → IsErrOf result Trouble.DiskFault →
        FailedCall (D.fails disk.old) (D.kept disk.old).read }
    ensures count { D.fault_count disk.new ≡
        fault_count_after (is_fault result) (D.fault_count disk.old) }
{
    match prepare(disk) {
        Ok(len) if len > FRESH.len() as u64 => read_long(alloc, disk, len),
        Ok(len) => match make_ready(disk, len) {
            Ok(()) => Ok(Found {
                end: 12,
                superblock: None,
                extents: Vec::new(alloc),
            }),
            Err(Failed) => Err(Trouble::DiskFault),
        },
        Err(trouble) => Err(trouble),
    }
}

/// Reads a disk of more than 13 bytes gate by gate.
fn read_long<D: Disk>(alloc: Global, disk: &mut D, len: u64) -> Result<Found, Trouble>
    requires long { 13 < len }
    requires rests { IsTrue D.is_told → D.kept disk.old ≡ at_rest (D.kept disk.old).read }
    requires whole { IsTrue D.is_told → len ≡ length (D.kept disk.old).read }
    ensures gives { IsTrue D.is_told → Gives (D.kept disk.old).read result }
    ensures keeps { IsTrue D.is_told → IfOk result (λ found.
        KeepsIn found.superblock (D.kept disk.new) (payloads_on (D.kept disk.old).read found.extents.items)
        × (found.end ≡ end_in found.superblock (payloads_on (D.kept disk.old).read found.extents.items))) }
    ensures located { IfOk result (λ found. IsLocated found.superblock found.end) }
    ensures within { IfOk result (λ found. AreWithin found.end found.extents.items) }
    ensures stands { IsTrue D.is_told → IfOk result (λ found.
        StandsIn found.superblock (D.kept disk.old).read (payloads_on (D.kept disk.old).read found.extents.items)) }
    ensures same { D.kept disk.new ≡ D.kept disk.old }
    ensures any_moment { IsTrue D.is_told →
        LeavesOnly D.moment D.left_since disk.old disk.new (IsImage (D.kept disk.old)) }
    ensures plan { IsTrue D.is_told →
        OnOk result (GoesOn 0 0 (D.fails disk.old) (D.fails disk.new)) }
    ensures sure { IsTrue D.is_told → IsErrOf result Trouble.DiskFault → ⊥ }
    ensures count { D.fault_count disk.new ≡
        fault_count_after (is_fault result) (D.fault_count disk.old) }
{
    match find(alloc, &*disk, len) {
        Err(Trouble::DiskFault) => {
            let _ = disk.count_fault();
            Err(Trouble::DiskFault)
        }
        answer => answer,
    }
}
