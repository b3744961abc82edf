ghost use Rattle.std.specs.Prelude.{◌≡◌, ◌≤◌, ◌+◌, ◌*◌, max, ℕ, List, Bool, true, false, length, take, drop, IsTrue, IfOk, OnOk, OnErr, is_err};
ghost use Rattle.disk_model.specs.Disk.{Kept, IsImage, Writes, Syncs, Elapses, GoesByPlan};
ghost use Rattle.xt_base.specs.Faults.{fault_count_after};

use xt_base::{Failed, OutOfMemory};

/// A file with synced writes, and what a crash may leave of it.
///
/// Between two syncs each written range, and what lies past the old end, may hold any bytes after a crash.
/// The length then lies between the old end and the greatest written end. Bytes outside stay. After a sync that
/// succeeded a crash leaves what a read gives.
///
/// Each call but `faults`, `look`, `count_fault` and `reserve` is a device call. It answers `Failed` only where the disk's
/// count of faults rose in it, or is at the greatest 64-bit number.
pub trait Disk: Drop {
    /// Whether contracts know the contents. Those of a real file aren't known.
    ghost is_told: { Bool };

    /// What the disk keeps. Where contracts know it, that is one file, and `attach` changes nothing of it.
    ghost kept: { Self → Kept };

    /// The moment, as a number that doesn't fall.
    ghost moment: { Self → ℕ };

    /// What a crash at some moment from that one on might have left, during a call or between two.
    ghost left_since: { Self → ℕ → List ℕ → Type 0 };

    /// How often the disk has failed, up to the greatest 64-bit number.
    ghost fault_count: { Self → ℕ };

    /// Whether a coming call fails: the last of this many that only look and this many that write or sync.
    ghost fails: { Self → ℕ → ℕ → Bool };

    /// Where a write has to end at the latest.
    ghost reserved: { Self → ℕ };

    /// The room that is left for the record of calls.
    ghost room: { Self → ℕ };

    /// How often the disk has failed, up to `u64::MAX`.
    fn faults(&self) -> u64
        ensures { result ≡ fault_count self.now };

    /// Chooses the file that the later calls work on, and makes it where there is none. What was reserved is gone,
    /// even where it fails.
    fn attach(&mut self, name: &str) -> Result<(), Failed>
        ensures same { IsTrue is_told → kept self.new ≡ kept self.old }
        ensures reserved { reserved self.new ≡ 0 }
        ensures room { room self.new ≡ 0 }
        ensures time { IsTrue is_told →
            Elapses (moment self.old) (moment self.new) (left_since self.old) (left_since self.new)
            (kept self.new) }
        ensures plan { IsTrue is_told →
            GoesByPlan 1 0 (fails self.old) (fails self.new) (is_err result) }
        ensures count { fault_count self.new ≡
            fault_count_after (is_err result) (fault_count self.old) };

    /// The length in bytes.
    fn length(&mut self) -> Result<u64, Failed>
        ensures value { IsTrue is_told → IfOk result (λ len. len ≡ length (kept self.old).read) }
        ensures same { kept self.new ≡ kept self.old }
        ensures reserved { reserved self.new ≡ reserved self.old }
        ensures room { room self.new ≡ room self.old }
        ensures time { IsTrue is_told →
            Elapses (moment self.old) (moment self.new) (left_since self.old) (left_since self.new)
            (kept self.new) }
        ensures plan { IsTrue is_told →
            GoesByPlan 1 0 (fails self.old) (fails self.new) (is_err result) }
        ensures count { fault_count self.new ≡
            fault_count_after (is_err result) (fault_count self.old) };

    /// The bytes from a place on, as many as the buffer takes.
    fn read(&mut self, at: u64, buf: &mut [u8]) -> Result<(), Failed>
        requires { IsTrue is_told → at + length buf.old ≤ length (kept self.old).read }
        ensures value { IsTrue is_told →
            OnOk result (buf.new ≡ take (length buf.old) (drop at (kept self.old).read)) }
        ensures same { kept self.new ≡ kept self.old }
        ensures reserved { reserved self.new ≡ reserved self.old }
        ensures room { room self.new ≡ room self.old }
        ensures time { IsTrue is_told →
            Elapses (moment self.old) (moment self.new) (left_since self.old) (left_since self.new)
            (kept self.new) }
        ensures plan { IsTrue is_told →
            GoesByPlan 1 0 (fails self.old) (fails self.new) (is_err result) }
        ensures count { fault_count self.new ≡
            fault_count_after (is_err result) (fault_count self.old) };

    /// The bytes from a place on, as many as the buffer takes, through a shared reference. It isn't a device call: no
    /// plan counts it, and the moment stays. Where contracts know the contents, it never fails. Where it does fail, the
    /// caller counts that by `count_fault`.
    fn look(&self, at: u64, buf: &mut [u8]) -> Result<(), Failed>
        requires { IsTrue is_told → at + length buf.old ≤ length (kept self.now).read }
        ensures value { IsTrue is_told →
            OnOk result (buf.new ≡ take (length buf.old) (drop at (kept self.now).read)) }
        ensures sure { IsTrue is_told → is_err result ≡ false };

    /// Counts a failure of a `look`, and returns how often the disk has failed now. It is no device call and changes
    /// no byte.
    fn count_fault(&mut self) -> u64
        ensures value { result ≡ fault_count self.new }
        ensures same { kept self.new ≡ kept self.old }
        ensures reserved { reserved self.new ≡ reserved self.old }
        ensures room { room self.new ≡ room self.old }
        ensures time { IsTrue is_told →
            Elapses (moment self.old) (moment self.new) (left_since self.old) (left_since self.new)
            (kept self.new) }
        ensures plan { IsTrue is_told →
            (looks changes : ℕ) → fails self.new looks changes ≡ fails self.old looks changes }
        ensures count { fault_count self.new ≡ fault_count_after true (fault_count self.old) };

    /// Writes a piece from a place on, over what is there and past the end. Until a sync, a crash may leave any
    /// bytes in its range, even where the write fails. It takes no memory.
    fn write(&mut self, at: u64, piece: &[u8]) -> Result<(), Failed>
        requires inside { at + length piece.now ≤ reserved self.old }
        requires noted { length piece.now + 64 ≤ room self.old }
        ensures writes { IsTrue is_told →
            Writes at piece.now (kept self.old) (kept self.new) (is_err result) }
        ensures reserved { reserved self.new ≡ reserved self.old }
        ensures room { room self.old ≤ room self.new + (length piece.now + 64) }
        ensures time { IsTrue is_told →
            Elapses (moment self.old) (moment self.new) (left_since self.old) (left_since self.new)
            (kept self.new) }
        ensures plan { IsTrue is_told →
            GoesByPlan 0 1 (fails self.old) (fails self.new) (is_err result) }
        ensures count { fault_count self.new ≡
            fault_count_after (is_err result) (fault_count self.old) };

    /// Makes what a read gives last through a crash. It takes no memory.
    fn sync(&mut self) -> Result<(), Failed>
        requires { 64 ≤ room self.old }
        ensures syncs { IsTrue is_told → Syncs (kept self.old) (kept self.new) (is_err result) }
        ensures reserved { reserved self.new ≡ reserved self.old }
        ensures room { room self.old ≤ room self.new + 64 }
        ensures time { IsTrue is_told →
            Elapses (moment self.old) (moment self.new) (left_since self.old) (left_since self.new)
            (kept self.new) }
        ensures plan { IsTrue is_told →
            GoesByPlan 0 1 (fails self.old) (fails self.new) (is_err result) }
        ensures count { fault_count self.new ≡
            fault_count_after (is_err result) (fault_count self.old) };

    /// Lets writes end at `end`, and makes room for the record of calls. It is no device call and changes no byte.
    /// Where memory runs out, nothing more is reserved than before.
    fn reserve(&mut self, end: u64) -> Result<(), OutOfMemory>
        ensures reserved { OnOk result (reserved self.new ≡ max (reserved self.old) end) }
        ensures room { OnOk result (room self.new ≡ max (room self.old) (2 * end + 4096)) }
        ensures unchanged { OnErr result
            ((reserved self.new ≡ reserved self.old) × (room self.new ≡ room self.old)) }
        ensures same { kept self.new ≡ kept self.old }
        ensures time { IsTrue is_told →
            Elapses (moment self.old) (moment self.new) (left_since self.old) (left_since self.new)
            (kept self.new) }
        ensures plan { IsTrue is_told →
            (looks changes : ℕ) → fails self.new looks changes ≡ fails self.old looks changes }
        ensures count { fault_count self.new ≡ fault_count self.old };

    /// What a crash may leave now is among what it might have left since an earlier moment.
    ghost counts_now: { (disk : Self) (t : ℕ) (image : List ℕ) → IsTrue is_told → t ≤ moment disk →
        IsImage (kept disk) image → left_since disk t image };

    /// Since this moment there is no other.
    ghost only_now: { (disk : Self) (image : List ℕ) → IsTrue is_told →
        left_since disk (moment disk) image → IsImage (kept disk) image };

    /// A disk as it reads is one of its images.
    ghost read_is_image: { (disk : Self) → IsTrue is_told → IsImage (kept disk) (kept disk).read };
}
