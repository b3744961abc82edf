//! What tests take of a journal.

use disk_model::Disk;
use std::alloc::Global;
use xt_journal::{AppendErr, Journal, LoadErr};

/// A journal with one record, of a node's first start.
pub const ONE: [u8; 27] = [
    0x58, 0x54, 0x46, 0x53, 0x4a, 0x52, 0x4e, 0x4c, 0, 0, 0, 1, 0xa5, 0, 0, 0, 9, 1, 0, 0, 0, 0, 0,
    0, 0, 1, 0,
];

/// The payload of that record.
pub const START: [u8; 9] = [1, 0, 0, 0, 0, 0, 0, 0, 1];

/// More bytes than any journal here has.
pub const LIMIT: u64 = 1 << 30;

/// A journal that was loaded.
#[derive(Drop)]
pub struct Loaded<D: Disk> {
    pub journal: Journal<D>,
}

/// The journal on a disk. The tests take from the call only what it answers.
pub fn load<D: Disk>(alloc: Global, disk: D, limit: u64) -> Result<Loaded<D>, LoadErr<D>> {
    match Journal::load(alloc, disk, limit) {
        Ok((journal, _)) => Ok(Loaded { journal }),
        Err(error) => Err(error),
    }
}

/// Appends the record of a node's first start, likewise.
pub fn append<D: Disk>(alloc: Global, journal: Journal<D>) -> Result<Journal<D>, AppendErr<D>> {
    journal.append(alloc, &START)
}
