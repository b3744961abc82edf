ghost use Rattle.std.specs.Prelude.{◌≤◌, ◌<◌, ◌^◌, IfOk, length};
ghost use Rattle.xt_messages.specs.Limits.{FitsRecord};

use crate::done::Done;
use crate::journals::longer;
use anyhow::{Result, bail};
use disk_model::{Disk, MemoryDisk};
use object_store::Store;
use replica_records::record_bytes;
use std::alloc::Global;
use xt_base::{
    CallList, Epoch, FileId, NO_OBJECT, NodeId, Octets, OpId, OutOfMemory, SizeMark, Stamp,
    VolumeId,
};
use xt_journal::Journal;
use xt_messages::{Record, Update};

/// How many objects the file has.
const OBJECTS: u32 = 4_096;

/// The update of this count, from 1 on: a byte for the next object.
fn update(alloc: Global, count: u32) -> Result<Record, OutOfMemory>
    ensures { IfOk result FitsRecord }
{
    let file = FileId {
        volume: VolumeId::NIL,
        number: 1,
    };
    let epoch = Epoch {
        number: 0,
        node: NodeId(0),
    };
    let number = u64::from(count);
    let body = Octets::of(alloc, b"a")?;
    let update = Update {
        stamp: Stamp {
            epoch,
            count: number,
        },
        id: OpId {
            client: NodeId(10),
            number,
        },
        mark: SizeMark { epoch: 0, size: 1 },
        drop_from: NO_OBJECT,
        object: u64::from(count % OBJECTS),
        body,
    };
    Ok(Record::Update { file, update })
}

/// The bytes of the record of an update.
fn payload_of(alloc: Global, count: u32) -> Result<Octets>
    ensures { IfOk result (λ bytes. (1 ≤ length bytes) × (length bytes < 2 ^ 32)) }
{
    let rec = update(alloc, count)?;
    Ok(record_bytes(alloc, &rec)?)
}

/// The journal, longer by the record of an update.
fn longer_by<D: Disk>(alloc: Global, journal: Journal<D>, count: u32) -> Result<Journal<D>> {
    match payload_of(alloc, count) {
        Ok(payload) => longer(alloc, journal, payload.as_slice()),
        Err(error) => {
            // by a call, so that it is no part of the way out
            drop(journal);
            Err(error)
        }
    }
}

/// The journal of the records of so many updates of one file, on this disk.
fn journal_on<D: Disk>(alloc: Global, disk: D, updates: u32) -> Result<Journal<D>> {
    let Ok((mut journal, _)) = Journal::load(alloc, disk, u64::MAX) else {
        bail!("the journal isn't loaded");
    };
    for count in 0..updates {
        journal = longer_by(alloc, journal, count.saturating_add(1))?;
    }
    Ok(journal)
}

/// Loads the records on a disk, and gives how many there are, and how many bytes they take.
pub fn records_on<D: Disk>(alloc: Global, disk: D) -> Result<Done> {
    let Ok((journal, extents)) = Journal::load(alloc, disk, u64::MAX) else {
        bail!("the journal isn't loaded again");
    };
    match Store::load(alloc, journal, extents.as_slice()) {
        Ok(store) => Ok(Done {
            pieces: store.records().len() as u64,
            bytes: store.area().length,
        }),
        Err(_) => bail!("the records aren't loaded"),
    }
}

/// Loads the records of so many updates of one file from a disk in memory, and gives how many there are, and how many bytes they take.
pub fn start_from(alloc: Global, updates: u32) -> Result<Done> {
    let disk = MemoryDisk::new(alloc, Octets::new(alloc), CallList::new(alloc), None);
    let made = journal_on(alloc, disk, updates)?;
    records_on(alloc, made.close())
}
