//! The disk of the file that was chosen.
ghost use Rattle.std.specs.Prelude.{◌≤◌, length};
ghost use Rattle.disk_model.specs.Changes.{memory_kept};

use disk_model::{Disk, MemoryDisk};
use xt_base::{Failed, Name, OutOfMemory};

/// The disk that is attached, with its file's name.
#[derive(Drop)]
pub struct Chosen {
    pub name: Name,
    pub disk: MemoryDisk,
    /// So many bytes can be read; not all of them where the last write failed.
    size: u64,
    ghost inside: { size ≤ length (memory_kept disk).read },
}

impl Chosen {
    ghost use Rattle.std.specs.Prelude.{◌≡◌, ◌≤◌, ◌+◌, ◌*◌, true, OnErr, OnOk, length, max};

    /// This disk, of which nothing can be read before it is opened.
    pub fn new(name: Name, disk: MemoryDisk) -> Chosen {
        Chosen {
            name,
            disk,
            size: 0,
        }
    }

    /// Attaches the disk, and measures it.
    pub fn open(&mut self) -> Result<(), Failed>
        ensures reserved { self.new.disk.reserved ≡ 0 }
        ensures room { self.new.disk.room ≡ 0 }
    {
        self.disk.attach(self.name.as_str())?;
        self.size = self.disk.length()?;
        Ok(())
    }

    /// Its length in bytes.
    pub fn length(&mut self) -> Result<u64, Failed>
        ensures reserved { self.new.disk.reserved ≡ self.old.disk.reserved }
        ensures room { self.new.disk.room ≡ self.old.disk.room }
    {
        self.disk.length()
    }

    /// Whether there are so many bytes from a place on.
    fn has(&self, at: u64, count: usize) -> bool
        ensures { result ≡ true → at + count ≤ length (memory_kept self.now.disk).read }
    {
        at <= self.size && count as u64 <= self.size - at
    }

    /// The bytes from a place on, as many as the buffer takes. It fails where there are fewer.
    pub fn read(&mut self, at: u64, buf: &mut [u8]) -> Result<(), Failed>
        ensures reserved { self.new.disk.reserved ≡ self.old.disk.reserved }
        ensures room { self.new.disk.room ≡ self.old.disk.room }
    {
        if !self.has(at, buf.len()) {
            return Err(Failed);
        }
        self.disk.read(at, buf)
    }

    /// The same, and no device call.
    pub fn look(&self, at: u64, buf: &mut [u8]) -> Result<(), Failed> {
        if !self.has(at, buf.len()) {
            return Err(Failed);
        }
        self.disk.look(at, buf)
    }

    /// Writes a piece from a place on.
    pub fn write(&mut self, at: u64, piece: &[u8]) -> Result<(), Failed>
        requires inside { at + length piece.now ≤ self.old.disk.reserved }
        requires noted { length piece.now + 64 ≤ self.old.disk.room }
        ensures reserved { self.new.disk.reserved ≡ self.old.disk.reserved }
        ensures room { self.old.disk.room ≤ self.new.disk.room + (length piece.now + 64) }
    {
        let size = self.size;
        self.size = 0;
        self.disk.write(at, piece)?;
        self.size = size.max(at.saturating_add(piece.len() as u64));
        Ok(())
    }

    /// Makes what was written last through a crash.
    pub fn sync(&mut self) -> Result<(), Failed>
        requires { 64 ≤ self.old.disk.room }
        ensures reserved { self.new.disk.reserved ≡ self.old.disk.reserved }
        ensures room { self.old.disk.room ≤ self.new.disk.room + 64 }
    {
        let size = self.size;
        self.size = 0;
        self.disk.sync()?;
        self.size = size;
        Ok(())
    }

    /// Lets writes end at `end`.
    pub fn reserve(&mut self, end: u64) -> Result<(), OutOfMemory>
        ensures reserved { OnOk result (self.new.disk.reserved ≡ max self.old.disk.reserved end) }
        ensures room { OnOk result (self.new.disk.room ≡ max self.old.disk.room (2 * end + 4096)) }
        ensures unchanged { OnErr result ((self.new.disk.reserved ≡ self.old.disk.reserved)
            × (self.new.disk.room ≡ self.old.disk.room)) }
    {
        self.disk.reserve(end)
    }
}
