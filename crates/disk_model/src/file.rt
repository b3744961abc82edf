ghost use Rattle.std.specs.Prelude.{◌≡◌, is_err, None, ℕ};
ghost use Rattle.xt_base.specs.Faults.{fault_count_after};

use crate::Disk;
use std::fs::{File, OpenFile, OpenOptions};
use std::io;
use std::os::unix::fs::FileExt;
use std::path::Path;
use std::rt::Files;
use xt_base::{Failed, OutOfMemory};

/// A real file. Nothing is claimed of its contents, nor of when a call fails: that it keeps what it was given through
/// a crash, as a `Disk` does, is trusted. Before an `attach` each device call fails.
///
/// While a disk is attached to a file, no other one can be, in this process or another: `attach` takes the system's lock on
/// the file, and fails where another has it. The lock ends with the disk, and with its process, however that ends.
#[derive(Drop)]
pub struct FileDisk<R: Files> {
    rt: R,
    file: Option<R::File>,
    faults: u64,
    reserved: u64,
    room: u128,
}

impl<R: Files> FileDisk<R> {
    /// A disk with no file yet, no failure counted, and nothing reserved.
    pub fn new(rt: R) -> FileDisk<R>
        ensures { result ≡ record { rt = rt; file = None; faults = 0; reserved = 0; room = 0 } }
    {
        FileDisk {
            rt,
            file: None,
            faults: 0,
            reserved: 0,
            room: 0,
        }
    }
}

/// Counts a failure.
fn counted<T>(faults: &mut u64, outcome: io::Result<T>) -> Result<T, Failed>
    ensures { faults.new ≡ fault_count_after (is_err result) faults.old }
{
    match outcome {
        Ok(value) => Ok(value),
        Err(_) => {
            *faults = faults.saturating_add(1);
            Err(Failed)
        }
    }
}

/// Opens a file to read and write, and makes it with its place in its folder where there is none. It fails where another process,
/// or another disk of this one, has the file.
fn open<R: Files<File = File>>(rt: &R, name: &str) -> io::Result<File> {
    let file = OpenOptions::new()
        .read(true)
        .write(true)
        .create(true)
        .open(rt, name)?;
    file.try_lock()?;
    let folder = match Path::new(name).parent() {
        Some(folder) => folder.as_str(),
        None => "/",
    };
    OpenOptions::new()
        .read(true)
        .open(rt, if folder.is_empty() { "." } else { folder })?
        .sync_all()?;
    Ok(file)
}

fn attached<F>(file: &Option<F>) -> io::Result<&F> {
    match file {
        Some(file) => Ok(file),
        None => Err(io::ErrorKind::NotFound.into()),
    }
}

fn length_of<F: OpenFile>(file: &Option<F>) -> io::Result<u64> {
    Ok(attached(file)?.metadata()?.len())
}

fn read_at<F: FileExt>(file: &Option<F>, at: u64, buf: &mut [u8]) -> io::Result<()> {
    attached(file)?.read_exact_at(buf, at)
}

fn write_at<F: FileExt>(file: &Option<F>, at: u64, piece: &[u8]) -> io::Result<()> {
    attached(file)?.write_all_at(piece, at)
}

fn sync_data<F: OpenFile>(file: &Option<F>) -> io::Result<()> {
    attached(file)?.sync_data()
}

impl<R: Files<File = File> + Drop> Disk for FileDisk<R> {
    ghost use Rattle.std.specs.Prelude.{false, []};
    ghost use Rattle.std.proofs.lemmas.Bool.{false≢true};

    ghost is_told = { false };

    ghost kept = { λ d. record { read = []; synced = []; written = [] } };

    ghost moment = { λ d. 0 };

    ghost left_since = { λ d t image. Unit {0} };

    ghost fault_count = { λ d. d.faults };

    ghost fails = { λ d looks changes. false };

    ghost reserved = { λ d. d.reserved };

    ghost room = { λ d. d.room };

    ghost counts_now = { λ d t image told le now. tt };

    ghost only_now = { λ d image told left. absurd (false≢true told) };

    ghost read_is_image = { λ d told. absurd (false≢true told) };

    fn faults(&self) -> u64 {
        self.faults
    }

    fn count_fault(&mut self) -> u64 {
        self.faults = self.faults.saturating_add(1);
        self.faults
    }

    fn attach(&mut self, name: &str) -> Result<(), Failed> {
        self.reserved = 0;
        self.room = 0;
        self.file = None;
        self.file = Some(counted(&mut self.faults, open(&self.rt, name))?);
        Ok(())
    }

    fn length(&mut self) -> Result<u64, Failed> {
        counted(&mut self.faults, length_of(&self.file))
    }

    fn read(&mut self, at: u64, buf: &mut [u8]) -> Result<(), Failed> {
        counted(&mut self.faults, read_at(&self.file, at, buf))
    }

    fn look(&self, at: u64, buf: &mut [u8]) -> Result<(), Failed> {
        read_at(&self.file, at, buf).map_err(|_| Failed)
    }

    fn write(&mut self, at: u64, piece: &[u8]) -> Result<(), Failed> {
        counted(&mut self.faults, write_at(&self.file, at, piece))
    }

    fn sync(&mut self) -> Result<(), Failed> {
        counted(&mut self.faults, sync_data(&self.file))
    }

    fn reserve(&mut self, end: u64) -> Result<(), OutOfMemory> {
        self.reserved = self.reserved.max(end);
        self.room = self.room.max(2 * u128::from(end) + 4096);
        Ok(())
    }
}
