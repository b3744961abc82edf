ghost use Rattle.std.specs.Prelude.{◌≡◌, ◌≤◌, ◌+◌, ℕ, IsTrue, OnOk, OnErr, is_err, length};
ghost use Rattle.disk_model.specs.Disk.{at_rest, LeavesOnly};
ghost use Rattle.xt_base.specs.Overlay.{overlay};
ghost use Rattle.xt_base.specs.Faults.{fault_count_after};
ghost use Rattle.journal_records.specs.Calls.{GoesOn, IsFirstFailure, AllSucceed, MayBeTorn, IsTornAt};

use disk_model::Disk;
use xt_base::Failed;

/// Writes a piece and syncs it.
pub fn write_synced<D: Disk>(disk: &mut D, at: u64, piece: &[u8]) -> Result<(), Failed>
    requires inside { at + length piece.now ≤ D.reserved disk.old }
    requires noted { length piece.now + 128 ≤ D.room disk.old }
    ensures done { IsTrue D.is_told → D.kept disk.old ≡ at_rest (D.kept disk.old).read →
        OnOk result (D.kept disk.new ≡ at_rest (overlay (D.kept disk.old).read at piece.now)) }
    ensures longer { IsTrue D.is_told →
        OnOk result (length (D.kept disk.old).read ≤ length (D.kept disk.new).read) }
    ensures torn { IsTrue D.is_told → D.kept disk.old ≡ at_rest (D.kept disk.old).read →
        OnErr result (IsTornAt at piece.now (D.kept disk.old).read (D.kept disk.new)) }
    ensures any_moment { IsTrue D.is_told → D.kept disk.old ≡ at_rest (D.kept disk.old).read →
        LeavesOnly D.moment D.left_since disk.old disk.new
        (MayBeTorn at piece.now (D.kept disk.old).read) }
    ensures reserved { D.reserved disk.new ≡ D.reserved disk.old }
    ensures room { D.room disk.old ≤ D.room disk.new + (length piece.now + 128) }
    ensures count { D.fault_count disk.new ≡
        fault_count_after (is_err result) (D.fault_count disk.old) }
    ensures plan { IsTrue D.is_told →
        OnOk result (GoesOn 0 2 (D.fails disk.old) (D.fails disk.new)) }
    ensures succeeded { IsTrue D.is_told → OnOk result (AllSucceed (D.fails disk.old) 2) }
    ensures failed { IsTrue D.is_told → OnErr result
        ((call : ℕ) × (1 ≤ call) × (call ≤ 2) × IsFirstFailure (D.fails disk.old) call) }
{
    disk.write(at, piece)?;
    disk.sync()
}
