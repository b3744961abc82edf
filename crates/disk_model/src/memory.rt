ghost use Rattle.std.specs.Prelude.{◌≡◌, ◌≤◌, ◌+◌, ◌*◌, [], IfOk, length, take, drop};

use crate::Disk;
use crate::contents::Contents;
use crate::filling::fill_unsynced;
use crate::note::Note;
use crate::plan::{Plan, Stop};
use std::alloc::{AllocError, Global};
use std::marker::Model;
use xt_base::{CallList, Failed, Octets, OutOfMemory};

/// A disk in memory. Its calls fail as planned, and inside the reserved end and room not otherwise.
///
/// It takes memory in `reserve`, `image` and `filled` alone. A write that fails has put its piece, too. A read or a look
/// takes as long as its buffer is long, however many calls came before; `image` and `filled` go through all bytes, and `filled`
/// through the calls since the last sync as well.
#[derive(Drop)]
pub struct MemoryDisk {
    alloc: Global,
    contents: Contents,
    /// The record of calls since the making, and its pieces one after the other.
    notes: Vec<Note>,
    pieces: Vec<u8>,
    /// How many notes there were at the last sync that succeeded, and how many bytes.
    synced_notes: usize,
    synced_length: usize,
    room: u64,
    plan: Plan,
}

impl Model for MemoryDisk {
    ghost use Rattle.disk_model.specs.Changes.{Memory};

    ghost Value = { Memory };

    ghost use Rattle.disk_model.specs.Memory.{seen, IsConsistent};

    ghost view = { seen };

    ghost invariant = { IsConsistent };
}

impl MemoryDisk {
    ghost use Rattle.disk_model.specs.Changes.{memory_kept, IsLeft};
    ghost use Rattle.disk_model.specs.Disk.{IsImage, IsFilled};

    /// A disk with these bytes, all of them synced. `failing` has the numbers of the device calls that are to fail,
    /// counted from 1.
    pub fn new(alloc: Global, bytes: Octets, failing: CallList, stop: Option<Stop>) -> MemoryDisk
        ensures { result ≡ record {
          first = bytes;
          changes = [];
          reserved = 0;
          room = 0;
          plan = record { failing = failing; stop = stop; calls = 0; changes = 0; faults = 0 };
        } }
    {
        let length = bytes.as_slice().len();
        MemoryDisk {
            alloc,
            contents: Contents::new(bytes),
            notes: Vec::new(alloc),
            pieces: Vec::new(alloc),
            synced_notes: 0,
            synced_length: length,
            room: 0,
            plan: Plan {
                failing,
                stop,
                calls: 0,
                changes: 0,
                faults: 0,
            },
        }
    }

    /// The bytes after a crash now. Where the disk is to stop, each place that isn't synced holds the stop's byte;
    /// else it holds what a read gives.
    pub fn image(&self) -> Result<Octets, OutOfMemory>
        ensures left { IfOk result (λ image. IsLeft self.now image) }
        ensures image { IfOk result (λ image. IsImage (memory_kept self.now) image) }
    {
        match self.plan.stop {
            Some(stop) => self.filled(stop.fill),
            None => {
                let image = Octets::from_vec(self.bytes()?)?;
                Ok(image)
            }
        }
    }

    /// The bytes after a crash now that leaves this byte at each place that isn't synced.
    pub fn filled(&self, fill: u8) -> Result<Octets, OutOfMemory>
        ensures filled { IfOk result (λ image. IsFilled fill (memory_kept self.now) image) }
    {
        let mut bytes = self.bytes()?;
        let (_, notes) = self.notes.as_slice().split_at(self.synced_notes);
        fill_unsynced(bytes.as_mut_slice(), self.synced_length, notes, fill);
        let image = Octets::from_vec(bytes)?;
        Ok(image)
    }

    /// The bytes that a read gives.
    fn bytes(&self) -> Result<Vec<u8>, OutOfMemory>
        ensures { IfOk result (λ bytes. bytes.items ≡ (memory_kept self.now).read) }
    {
        Vec::from_slice(self.alloc, self.contents.read())
    }

    /// Copies the bytes that a read gives from a place on into a buffer.
    fn copy_to(&self, at: usize, buf: &mut [u8])
        requires { at + length buf.old ≤ length (memory_kept self.now).read }
        ensures { buf.new ≡ take (length buf.old) (drop at (memory_kept self.now).read) }
    {
        buf.copy_from_slice(&self.contents.read()[at..at + buf.len()]);
    }
}

impl Disk for MemoryDisk {
    ghost use Rattle.std.specs.Prelude.{true, length};
    ghost use Rattle.disk_model.specs.Changes.{memory_kept, MightHaveLeft};
    ghost use Rattle.disk_model.specs.Plan.{planned};
    ghost use Rattle.disk_model.specs.Laws.{memory_counts_now, memory_only_now, memory_read_is_image};

    ghost is_told = { true };

    ghost kept = { memory_kept };

    ghost moment = { λ d. length d.changes };

    ghost left_since = { λ d t image. MightHaveLeft d.first d.changes t image };

    ghost fault_count = { λ d. d.plan.faults };

    ghost fails = { λ d looks changes. planned d.plan looks changes };

    ghost reserved = { λ d. d.reserved };

    ghost room = { λ d. d.room };

    ghost counts_now = { λ d t image told le now. memory_counts_now d t image le now };

    ghost only_now = { λ d image told left. memory_only_now d image left };

    ghost read_is_image = { λ d told. memory_read_is_image d };

    fn faults(&self) -> u64 {
        self.plan.faults
    }

    fn count_fault(&mut self) -> u64 {
        self.plan.count_fault();
        self.plan.faults
    }

    /// Takes every name, and keeps its bytes.
    fn attach(&mut self, _name: &str) -> Result<(), Failed> {
        self.contents.release();
        self.room = 0;
        self.plan.look()
    }

    fn length(&mut self) -> Result<u64, Failed> {
        self.plan.look()?;
        Ok(self.contents.read().len() as u64)
    }

    fn read(&mut self, at: u64, buf: &mut [u8]) -> Result<(), Failed> {
        self.plan.look()?;
        self.copy_to(at as usize, buf);
        Ok(())
    }

    fn look(&self, at: u64, buf: &mut [u8]) -> Result<(), Failed> {
        self.copy_to(at as usize, buf);
        Ok(())
    }

    fn write(&mut self, at: u64, piece: &[u8]) -> Result<(), Failed> {
        let place = at as usize;
        let note = Note::Wrote {
            at: place,
            len: piece.len(),
        };
        let _ = self.notes.push(note);
        let _ = self.pieces.extend_from_slice(piece);
        self.contents.write(place, piece);
        self.room -= piece.len() as u64 + 64;
        self.plan.change()
    }

    fn sync(&mut self) -> Result<(), Failed> {
        self.plan.change()?;
        let _ = self.notes.push(Note::Synced);
        self.synced_notes = self.notes.len();
        self.synced_length = self.contents.read().len();
        self.room -= 64;
        Ok(())
    }

    fn reserve(&mut self, end: u64) -> Result<(), OutOfMemory> {
        let room = room_for(end)?;
        self.notes.reserve((room / 64) as usize + 1)?;
        self.pieces.reserve(room as usize)?;
        self.contents.reserve(self.alloc, end)?;
        self.room = self.room.max(room);
        Ok(())
    }
}

/// The room that reserving up to this end makes. Past the greatest 64-bit number there is no memory for it.
fn room_for(end: u64) -> Result<u64, OutOfMemory>
    ensures { IfOk result (λ room. room ≡ 2 * end + 4096) }
{
    match end.checked_mul(2) {
        Some(twice) => twice.checked_add(4096).ok_or(AllocError),
        None => Err(AllocError),
    }
}
