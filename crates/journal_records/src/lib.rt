//! One record of a journal: what is at a gate, and the write by which a record or a gate is put.
//!
//! `next_record` goes by the gate alone: a record follows an open one, and none follows a closed one. `write_synced` answers
//! Ok once its piece is synced; where a crash comes or a call fails meanwhile, the disk has what it had, torn at that piece alone.
#![tactic(auto)]

mod calls;
mod next;

pub use calls::write_synced;
pub use next::{Next, next_record};
