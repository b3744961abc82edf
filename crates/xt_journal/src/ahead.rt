ghost use Rattle.std.specs.Prelude.{◌≡◌, ◌≤◌, ◌+◌, false, IsTrue, OnOk, is_err, length, take, drop, vec_len};

use disk_model::Disk;
use std::alloc::Global;
use xt_base::{Failed, OutOfMemory};

/// How many bytes are looked at at once.
const WINDOW: usize = 1 << 16;

/// Looks at this many bytes of a disk from a place on, and puts them first in a buffer.
fn fill<D: Disk>(disk: &D, at: u64, count: usize, buffer: &mut [u8]) -> Result<(), Failed>
    requires fits { count ≤ length buffer.old }
    requires inside { IsTrue D.is_told → at + count ≤ length (D.kept disk.now).read }
    ensures value { IsTrue D.is_told → OnOk result
        (take count buffer.new ≡ take count (drop at (D.kept disk.now).read)) }
    ensures sure { IsTrue D.is_told → is_err result ≡ false }
{
    disk.look(at, &mut buffer[..count])
}

/// The bytes of a disk, read ahead: a window of them is held, so that reads of a few bytes near each other cost one look at the disk.
#[derive(Drop)]
pub struct ReadAhead<'a, D: Disk> {
    disk: &'a D,
    /// Where what is read ends at the latest.
    size: u64,
    /// The place of the first byte that is held.
    start: u64,
    /// How many bytes are held.
    held: usize,
    /// The bytes that are held come first.
    window: Vec<u8>,
    pub ghost inside: { IsTrue D.is_told → size ≤ length (D.kept disk.now).read },
    ghost before: { start + held ≤ size },
    ghost room: { vec_len window ≡ 65536 },
    ghost fits: { held ≤ vec_len window },
    ghost value: { IsTrue D.is_told →
        take held window.items ≡ take held (drop start (D.kept disk.now).read) },
}

impl<'a, D: Disk> ReadAhead<'a, D> {
    ghost use Rattle.std.specs.Prelude.{◌≡◌, ◌≤◌, ◌+◌, ◌-◌, false, IsTrue, IfOk, OnOk, is_err, length, take, drop};
    ghost use Rattle.xt_base.specs.FieldLimits.{AreBytes};
    ghost use Rattle.xt_journal.specs.Ahead.{size_of, source_of};

    /// Reads what is on a disk before this place. Nothing is looked at yet.
    pub(crate) fn new(
        alloc: Global,
        disk: &'a D,
        size: u64,
    ) -> Result<ReadAhead<'a, D>, OutOfMemory>
        requires { IsTrue D.is_told → size ≤ length (D.kept disk.now).read }
        ensures source { IfOk result (λ ahead. source_of ahead ≡ disk.now) }
        ensures size { IfOk result (λ ahead. size_of ahead ≡ size) }
    {
        Ok(ReadAhead {
            disk,
            size,
            start: 0,
            held: 0,
            window: vec![in alloc; 0; WINDOW]?,
        })
    }

    /// The bytes from a place on, as many as the buffer takes. Where contracts know the contents, it never fails; elsewhere the caller
    /// counts a failure by `count_fault` of the disk.
    pub fn read(&mut self, at: u64, buf: &mut [u8]) -> Result<(), Failed>
        requires { at + length buf.old ≤ size_of self.old }
        ensures value { IsTrue D.is_told → OnOk result (buf.new ≡
            take (length buf.old) (drop at (D.kept (source_of self.old)).read)) }
        ensures sure { IsTrue D.is_told → is_err result ≡ false }
        ensures bytes { AreBytes buf.new }
        ensures source { source_of self.new ≡ source_of self.old }
        ensures size { size_of self.new ≡ size_of self.old }
    {
        if buf.len() > WINDOW {
            return self.disk.look(at, buf);
        }
        self.hold(at, buf.len())?;
        let from = (at - self.start) as usize;
        buf.copy_from_slice(&self.window.as_slice()[from..from + buf.len()]);
        Ok(())
    }

    /// Where what is read ends at the latest.
    pub(crate) fn size(&self) -> u64
        ensures { result ≡ size_of self.now }
    {
        self.size
    }

    /// Moves the window to this place where it doesn't hold this many bytes from there on. Where that fails, nothing is held.
    fn hold(&mut self, at: u64, len: usize) -> Result<(), Failed>
        requires inside { at + len ≤ size_of self.old }
        requires few { len ≤ 65536 }
        ensures start { OnOk result (self.new.start ≤ at) }
        ensures end { OnOk result (at + len ≤ self.new.start + self.new.held) }
        ensures sure { IsTrue D.is_told → is_err result ≡ false }
        ensures source { source_of self.new ≡ source_of self.old }
        ensures size { size_of self.new ≡ size_of self.old }
    {
        if self.start <= at && at + len as u64 <= self.start + (self.held as u64) {
            return Ok(());
        }
        let held = (self.size - at).min(WINDOW as u64) as usize;
        self.held = 0;
        fill(self.disk, at, held, self.window.as_mut_slice())?;
        self.start = at;
        self.held = held;
        Ok(())
    }
}
