//! A disk as the layers above see it: what a read gives, what a crash at any moment may leave, and how often it
//! has failed.
//!
//! `MemoryDisk` is a disk in memory whose contents contracts know, with chosen calls that fail and a chosen call
//! in which it stops. `FileDisk` is a real file, of whose contents nothing is claimed.
#![tactic(auto)]

mod contents;
mod disk;
mod file;
mod filling;
mod memory;
mod note;
mod plan;

pub use disk::Disk;
pub use file::FileDisk;
pub use memory::MemoryDisk;
pub use plan::Stop;

/// The gate of a journal's record that counts. Any other byte is a closed gate. So whether the stop's byte is this one
/// decides what an append that stopped at its gate leaves.
pub const OPEN_GATE: u8 = 0xa5;
