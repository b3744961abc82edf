//! Disks by name.
ghost use Rattle.std.specs.Prelude.{◌≡◌, ◌<◌, IfSome, is_err, length};
ghost use Rattle.xt_base.specs.Faults.{fault_count_after};

use crate::chosen::Chosen;
use disk_model::{Disk, MemoryDisk};
use std::alloc::AllocError;
use xt_base::{Failed, Name, Octets, OutOfMemory};

/// Disks in memory, each under the name of its file. `attach` chooses the disk of a name; where none has this name it fails, and no disk is
/// attached then. As of a real file, contracts don't know what such a disk keeps.
///
/// The count of faults is that of all of them together. An `attach` makes two calls of the disk in memory, since it measures it, too.
#[derive(Drop)]
pub struct NamedDisks {
    others: Vec<(Name, MemoryDisk)>,
    chosen: Option<Chosen>,
    faults: u64,
}

/// Counts a failure.
fn counted<T>(faults: &mut u64, outcome: Result<T, Failed>) -> Result<T, Failed>
    ensures { faults.new ≡ fault_count_after (is_err result) faults.old }
{
    if outcome.is_err() {
        *faults = faults.saturating_add(1);
    }
    outcome
}

/// The place of the disk with this name.
fn place_of(disks: &[(Name, MemoryDisk)], name: &str) -> Option<usize>
    ensures { IfSome result (λ place. place < length disks.now) }
{
    for (place, (other, _)) in disks.iter().enumerate() {
        if other.as_str() == name {
            return Some(place);
        }
    }
    None
}

impl NamedDisks {
    ghost use Rattle.std.specs.Prelude.{◌≡◌};
    ghost use Rattle.named_disks.specs.Named.{reserved_in, room_in};

    /// These disks, none of them attached.
    pub fn new(disks: Vec<(Name, MemoryDisk)>) -> NamedDisks {
        NamedDisks {
            others: disks,
            chosen: None,
            faults: 0,
        }
    }

    /// The bytes of the disk with this name after a crash now, if there is one.
    pub fn image(&self, name: &str) -> Option<Result<Octets, OutOfMemory>> {
        if let Some(chosen) = &self.chosen {
            if chosen.name.as_str() == name {
                return Some(chosen.disk.image());
            }
        }
        match place_of(self.others.as_slice(), name) {
            Some(place) => Some(self.others[place].1.image()),
            None => None,
        }
    }

    /// Attaches no disk any more. Where memory runs out for that, the disk is gone.
    fn release(&mut self) -> Result<(), Failed>
        ensures reserved { reserved_in self.new.chosen ≡ 0 }
        ensures room { room_in self.new.chosen ≡ 0 }
        ensures faults { self.new.faults ≡ self.old.faults }
    {
        let Some(Chosen { name, disk, .. }) = self.chosen.take() else {
            return Ok(());
        };
        match self.others.push((name, disk)) {
            Ok(()) => Ok(()),
            Err(_) => Err(Failed),
        }
    }

    /// Attaches the disk with this name, and no other one any more.
    fn choose(&mut self, name: &str) -> Result<(), Failed>
        ensures reserved { reserved_in self.new.chosen ≡ 0 }
        ensures room { room_in self.new.chosen ≡ 0 }
        ensures faults { self.new.faults ≡ self.old.faults }
    {
        self.release()?;
        let Some(place) = place_of(self.others.as_slice(), name) else {
            return Err(Failed);
        };
        let (name, disk) = self.others.remove(place);
        let mut chosen = Chosen::new(name, disk);
        let outcome = chosen.open();
        self.chosen = Some(chosen);
        outcome
    }
}

impl Disk for NamedDisks {
    ghost use Rattle.std.specs.Prelude.{false, []};
    ghost use Rattle.std.proofs.lemmas.Bool.{false≢true};
    ghost use Rattle.named_disks.specs.Named.{reserved_in, room_in};

    ghost is_told = { false };

    ghost kept = { λ d. record { read = []; synced = []; written = [] } };

    ghost moment = { λ d. 0 };

    ghost left_since = { λ d t image. Unit {0} };

    ghost fault_count = { λ d. d.faults };

    ghost fails = { λ d looks changes. false };

    ghost reserved = { λ d. reserved_in d.chosen };

    ghost room = { λ d. room_in d.chosen };

    ghost counts_now = { λ d t image told le now. tt };

    ghost only_now = { λ d image told left. absurd (false≢true told) };

    ghost read_is_image = { λ d told. absurd (false≢true told) };

    fn faults(&self) -> u64 {
        self.faults
    }

    fn count_fault(&mut self) -> u64 {
        self.faults = self.faults.saturating_add(1);
        self.faults
    }

    fn attach(&mut self, name: &str) -> Result<(), Failed> {
        let outcome = self.choose(name);
        counted(&mut self.faults, outcome)
    }

    fn length(&mut self) -> Result<u64, Failed> {
        let outcome = match &mut self.chosen {
            Some(chosen) => chosen.length(),
            None => Err(Failed),
        };
        counted(&mut self.faults, outcome)
    }

    fn read(&mut self, at: u64, buf: &mut [u8]) -> Result<(), Failed> {
        let outcome = match &mut self.chosen {
            Some(chosen) => chosen.read(at, buf),
            None => Err(Failed),
        };
        counted(&mut self.faults, outcome)
    }

    fn look(&self, at: u64, buf: &mut [u8]) -> Result<(), Failed> {
        match &self.chosen {
            Some(chosen) => chosen.look(at, buf),
            None => Err(Failed),
        }
    }

    fn write(&mut self, at: u64, piece: &[u8]) -> Result<(), Failed> {
        let outcome = match &mut self.chosen {
            Some(chosen) => chosen.write(at, piece),
            None => Err(Failed),
        };
        counted(&mut self.faults, outcome)
    }

    fn sync(&mut self) -> Result<(), Failed> {
        let outcome = match &mut self.chosen {
            Some(chosen) => chosen.sync(),
            None => Err(Failed),
        };
        counted(&mut self.faults, outcome)
    }

    fn reserve(&mut self, end: u64) -> Result<(), OutOfMemory> {
        match &mut self.chosen {
            Some(chosen) => chosen.reserve(end),
            None => Err(AllocError),
        }
    }
}
