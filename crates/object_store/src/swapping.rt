//! Other records in place of all that a store has.
ghost use Rattle.std.specs.Prelude.{IfOk};
ghost use Rattle.std.specs.List.{All};
ghost use Rattle.object_store.specs.Swapping.{FitsCopied, IsMadeOf};

use crate::copied::Copied;
use crate::errors::AppendErr;
use crate::log::StoreLog;
use crate::place::BodyPlace;
use crate::store::Store;
use disk_model::Disk;
use journal_moves::{Extent, Gathered};
use replica_records::record_front;
use std::alloc::Global;
use xt_base::OutOfMemory;

/// What a swap makes in memory before it begins.
#[derive(Drop)]
pub struct Made {
    /// The bytes of each record, but for its body: that is where it was so far.
    payloads: Vec<Gathered>,
    /// The records, with the places of their bodies from the start of the area.
    log: StoreLog,
}

/// All that needs memory for each record, before the journal is asked. No body is read.
fn prepared(alloc: Global, records: Vec<Copied>) -> Result<Made, OutOfMemory>
    requires { All FitsCopied records.items }
    ensures { IfOk result (IsMadeOf records.items) }
{
    let mut payloads = Vec::with_capacity(alloc, records.len())?;
    let mut log = StoreLog::new(alloc);
    let mut gate: u64 = 0;
    for copied in records {
        let len = copied.body.len;
        let front = record_front(alloc, &copied.bare, len)?;
        let before = 5 + front.as_slice().len() as u64;
        let place = BodyPlace {
            at: gate.saturating_add(before),
            len,
        };
        let rest = Extent {
            at: copied.body.at,
            len,
        };
        log.push(copied.bare, place)?;
        payloads.push(Gathered { front, rest })?;
        gate = gate.saturating_add(before + len as u64);
    }
    Ok(Made { payloads, log })
}

impl<D: Disk> Store<D> {
    ghost use Rattle.object_store.specs.Access.{disk_of, log_of};
    ghost use Rattle.object_store.specs.Copying.{IsCopiedFrom, copied};
    ghost use Rattle.object_store.specs.Logs.{places_in};
    ghost use Rattle.object_store.specs.Swaps.{Swaps};
    ghost use Rattle.object_store.specs.Texts.{AreRecords};

    /// Puts these records in place of all others, on the disk and then in memory. At `Ok` each crash leaves them from then on, and at any
    /// moment before a crash leaves the old ones or these.
    ///
    /// Each has a body of the store, or none. They are written as a whole new area of the journal, to which the bodies are copied piece by
    /// piece: a body that can't be read ends it as `Broken`, as a write that fails does. `Full` comes exactly where the area has no room
    /// within the limit. Memory can only run out before the first device call. A store whose disk has failed is gone, and must be loaded
    /// again.
    pub fn swap(self, alloc: Global, records: Vec<Copied>) -> Result<Store<D>, AppendErr<D>>
        requires there { All (IsCopiedFrom (places_in (log_of self))) records.items }
        requires are { AreRecords (copied D.is_told (D.kept (disk_of self)).read records.items) }
        ensures { Swaps self (copied D.is_told (D.kept (disk_of self)).read records.items) result }
    {
        let Ok(mut made) = prepared(alloc, records) else {
            return Err(AppendErr::OutOfMemory { store: self });
        };
        let Store { journal, log } = self;
        match journal.swap(alloc, made.payloads.as_slice()) {
            Ok(journal) => {
                made.log.move_on(journal.area().place);
                Ok(Store {
                    journal,
                    log: made.log,
                })
            }
            Err(xt_journal::AppendErr::Broken { count, disk }) => Err(AppendErr::Broken {
                count,
                disk,
            }),
            Err(
                xt_journal::AppendErr::Full {
                    journal,
                    need,
                    limit,
                },
            ) => {
                let store = Store { journal, log };
                Err(AppendErr::Full { store, need, limit })
            }
            Err(xt_journal::AppendErr::OutOfMemory { journal }) => {
                let store = Store { journal, log };
                Err(AppendErr::OutOfMemory { store })
            }
        }
    }
}
