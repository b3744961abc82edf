//! The seals of new bodies.
ghost use Rattle.std.specs.Prelude.{◌≡◌, ◌++◌, IfOk, IfErr, OnOk, length};
ghost use Rattle.std.specs.List.{All};
ghost use Rattle.xt_messages.specs.Limits.{FitsRecord};
ghost use Rattle.scrub.specs.Report as spec;
ghost use Rattle.scrub_job.specs.Sealing.{IsSeal, AreSealed, AreStaged, CannotSeal, CannotStage};

use disk_model::Disk;
use node_loop::Ended;
use object_store::{PutAllErr, StageErr, Store, Waiting};
use scrub::{Found, Item};
use std::alloc::Global;
use xt_base::OutOfMemory;
use xt_messages::{Record, Status};

/// Puts the seal of a body after the others, if it is new.
fn push_seal(seals: &mut Vec<Record>, item: &Item, found: &Found) -> Result<(), OutOfMemory>
    ensures { OnOk result (seals.new.items ≡
        seals.old.items ++ spec.seals_for item.now found.now) }
{
    if let Found::New(digest) = found {
        seals.push(Record::Seal {
            file: item.file,
            object: item.object,
            version: item.version,
            digest: *digest,
        })?;
    }
    Ok(())
}

/// The seals of those of these bodies that are new, of which this is the report.
pub fn seals_of(alloc: Global, items: &[Item], report: &[Found]) -> Result<Vec<Record>, OutOfMemory>
    requires { length report.now ≡ length items.now }
    ensures { IfOk result (λ seals. seals.items ≡ spec.seals_of items.now report.now) }
{
    let mut seals = Vec::new(alloc);
    for i in 0..items.len() {
        let item = &items[i];
        let found = &report[i];
        push_seal(&mut seals, item, found)?;
    }
    Ok(seals)
}

/// Lets these seals wait to be put after the records of the store, in order. `Full` gives how many bytes the journal would need for the first
/// of them that has no room.
fn staged<D: Disk>(alloc: Global, store: &Store<D>, seals: &[Record]) -> Result<Waiting, StageErr>
    requires seals { All IsSeal seals.now }
    requires fit { All FitsRecord seals.now }
    ensures all { IfOk result (AreStaged store.now seals.now) }
    ensures cannot { IfErr result (CannotStage store.now seals.now) }
{
    let mut waiting = Waiting::new(alloc);
    for seal in seals {
        match waiting.stage(alloc, store, seal) {
            Ok(()) => {}
            Err(error) => return Err(error),
        }
    }
    Ok(waiting)
}

/// Puts these seals after the records of the store, all at once: a crash at any moment leaves the records with all of them or with none.
pub fn sealed<D: Disk>(
    alloc: Global,
    store: Store<D>,
    seals: &[Record],
) -> Result<Store<D>, Ended<D>>
    requires seals { All IsSeal seals.now }
    requires fit { All FitsRecord seals.now }
    ensures all { IfOk result (AreSealed store seals.now) }
    ensures ends { IfErr result (λ ended.
        CannotSeal store seals.now ended.disk ended.status) }
{
    let waiting = match staged(alloc, &store, seals) {
        Ok(waiting) => waiting,
        Err(StageErr::Full { need, limit }) => {
            return Err(Ended {
                status: Status::JournalFull { need, limit },
                disk: store.close(),
            });
        }
        Err(StageErr::OutOfMemory) => {
            return Err(Ended {
                status: Status::OutOfMemory,
                disk: store.close(),
            });
        }
    };
    if waiting.is_empty() {
        return Ok(store);
    }
    match store.put_all(waiting) {
        Ok(store) => Ok(store),
        Err(PutAllErr::Broken { count, disk }) => Err(Ended {
            status: Status::DiskFault { count },
            disk,
        }),
        Err(PutAllErr::OutOfMemory { disk }) => Err(Ended {
            status: Status::OutOfMemory,
            disk,
        }),
    }
}
