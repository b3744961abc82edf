ghost use Rattle.std.specs.Prelude.{◌≤◌, ◌<◌, ◌^◌, length};

use crate::compactions::compact_on;
use crate::done::Done;
use crate::starts::records_on;
use anyhow::{Context, Result, bail, ensure};
use disk_model::{Disk, FileDisk, MemoryDisk};
use std::alloc::Global;
use std::fs::File;
use std::rt::Files;
use xt_base::{BODY, CallList, Octets};
use xt_journal::Journal;

/// The journal with this payload after its records.
pub fn longer<D: Disk>(alloc: Global, journal: Journal<D>, payload: &[u8]) -> Result<Journal<D>>
    requires some { 1 ≤ length payload.now }
    requires fits { length payload.now < 2 ^ 32 }
{
    ensure!(
        payload[0] != 8,
        "a payload that begins with 8 would be read as the superblock"
    );
    match journal.append(alloc, payload) {
        Ok(longer) => Ok(longer),
        Err(_) => bail!("the payload isn't appended"),
    }
}

/// What is done with the journal in a file.
#[derive(Clone, Copy)]
pub enum Filing {
    /// A payload of so many bytes is appended so many times.
    Append { size: usize, times: u32 },
    /// It is loaded.
    Load,
    /// Its records are loaded.
    Records,
    /// Its records are loaded, and then the store is compacted.
    Compact,
}

/// Appends a payload of so many bytes so many times to the journal on a disk, and gives where its records end.
fn append_to<D: Disk>(alloc: Global, disk: D, size: usize, times: u32) -> Result<u64> {
    ensure!(size >= 1 && size <= BODY, "no payload has {size} bytes");
    let payload = vec![in alloc; 7u8; size]?;
    let Ok((mut journal, _)) = Journal::load(alloc, disk, u64::MAX) else {
        bail!("the journal isn't loaded");
    };
    for _ in 0..times {
        journal = longer(alloc, journal, payload.as_slice())?;
    }
    Ok(journal.end())
}

/// The same in memory.
pub fn append_times(alloc: Global, size: usize, times: u32) -> Result<u64> {
    let disk = MemoryDisk::new(alloc, Octets::new(alloc), CallList::new(alloc), None);
    append_to(alloc, disk, size, times)
}

/// Loads the journal on a disk, and gives how many payloads it has, and their bytes.
fn load_from<D: Disk>(alloc: Global, disk: D) -> Result<Done> {
    let Ok((_journal, extents)) = Journal::load(alloc, disk, u64::MAX) else {
        bail!("the journal isn't loaded");
    };
    let mut bytes = 0u64;
    for extent in &extents {
        bytes = bytes.saturating_add(extent.len as u64);
    }
    Ok(Done {
        pieces: extents.len() as u64,
        bytes,
    })
}

/// Does this with the journal on a disk, and gives what was made or read.
fn done_on<D: Disk>(alloc: Global, disk: D, filing: Filing) -> Result<Done> {
    match filing {
        Filing::Append { size, times } => Ok(Done {
            pieces: u64::from(times),
            bytes: append_to(alloc, disk, size, times)?,
        }),
        Filing::Load => load_from(alloc, disk),
        Filing::Records => records_on(alloc, disk),
        Filing::Compact => compact_on(alloc, disk),
    }
}

/// Does it with the journal in the file at this path.
pub fn done_in_file<R: Files<File = File>>(
    rt: &R,
    alloc: Global,
    filing: Filing,
    path: &str,
) -> Result<Done> {
    let mut disk = FileDisk::new(rt);
    disk.attach(path).context("attach")?;
    done_on(alloc, disk, filing)
}
