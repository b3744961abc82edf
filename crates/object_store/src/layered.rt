//! The bodies of records of which the last wait in memory.
ghost use Rattle.std.specs.Prelude.{◌≡◌};

use crate::waiting::Waiting;
use replica_records::{Bodies, BodyErr};
use std::alloc::Global;
use xt_base::{FileId, Octets, Stamp};

/// The bodies of some records, and of those that wait to be put after them. A body is the one that was put last, so one of a waiting record
/// comes before all others.
#[derive(Drop)]
pub struct Layered<'a, B: Bodies + Drop> {
    lower: B,
    waiting: &'a Waiting,
}

impl<'a, B: Bodies + Drop> Layered<'a, B> {
    ghost use Rattle.std.specs.Prelude.{◌≡◌};
    ghost use Rattle.object_store.specs.Layers.{lower_of, waiting_of};

    /// The bodies of these, and of what waits after them.
    pub fn new(lower: B, waiting: &'a Waiting) -> Layered<'a, B>
        ensures lower { lower_of result ≡ lower }
        ensures waiting { waiting_of result ≡ waiting.now }
    {
        Layered { lower, waiting }
    }
}

impl<'a, B: Bodies + Drop> Bodies for Layered<'a, B> {
    ghost use Rattle.object_store.specs.Layers.{AgreesOver, lower_of, some_over, waiting_of};
    ghost use Rattle.object_store.specs.Waits.{recs_of};

    ghost agrees = { λ layered records.
        AgreesOver (B.agrees (lower_of layered)) (recs_of (waiting_of layered)) records };

    ghost some = { λ layered.
        some_over (B.agrees (lower_of layered)) (recs_of (waiting_of layered)) (B.some (lower_of layered)) };

    ghost fault_count = { λ layered. B.fault_count (lower_of layered) };

    fn body(
        &mut self,
        alloc: Global,
        file: &FileId,
        object: u64,
        version: &Stamp,
    ) -> Result<Octets, BodyErr> {
        match self.waiting.body(file, object, version) {
            Some(bytes) => match Octets::of(alloc, bytes) {
                Ok(body) => Ok(body),
                Err(_) => Err(BodyErr::OutOfMemory),
            },
            None => self.lower.body(alloc, file, object, version),
        }
    }
}
