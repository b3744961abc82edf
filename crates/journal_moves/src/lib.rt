//! The move of a journal to a whole new area on its disk.
//!
//! The new area is written where nothing counts. Then the slot of the superblock that doesn't count gets its number, its place and its
//! length, while its gate is shut. Then that one byte is written: once the gate is open the journal stands for what the new area says,
//! and before that for what it stood for. So a crash at any moment leaves the one or the other.
//!
//! A payload of the new area may say that the disk has its last bytes already. The area is written through a buffer, about a mebibyte at
//! a time.
#![tactic(auto)]

mod area;
mod extent;
mod gathered;
mod moving;
mod parts;
mod writing;

pub use extent::Extent;
pub use gathered::Gathered;
pub use moving::{Located, Refusal, move_to};
