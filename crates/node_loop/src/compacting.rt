ghost use Rattle.std.specs.Prelude.{◌≡◌, [], ◌∷◌, IfOk, IfErr};
ghost use Rattle.xt_protocol.specs.Forgetting.{rewritten};
ghost use Rattle.object_store.specs.Access.{records_of, disk_of};
ghost use Rattle.object_store.specs.Texts.{AreRecords};
ghost use Rattle.node_runs.specs.BatchEnds.{KeepsDoing};
ghost use Rattle.node_runs.specs.Keeping.{KeepsOn};
ghost use Rattle.node_runs.specs.Runs.{is_due};
ghost use Rattle.node_loop.specs.Events.{HasDiskCause};
ghost use Rattle.node_loop.specs.Stores.{IsRewritten, store_in};
ghost use Rattle.node_loop.specs.Turns.{EndsRewriting};

use crate::event::Ended;
use disk_model::Disk;
use journal_areas::Area;
use object_store::{AppendErr, Store};
use std::alloc::Global;
use store_compact::compact;
use xt_messages::{Keep, Status};

/// How many bytes records take before they are rewritten for the first time.
const LEAST_AREA: u64 = 1_048_576;

/// A store after its records were to be rewritten.
#[derive(Drop)]
pub enum Rewritten<D: Disk> {
    /// Its records are rewritten.
    Done(Store<D>),
    /// The journal has no room for them. The store is as it was.
    NoRoom(Store<D>),
}

/// Whether the records of an area have grown so much that they are to be rewritten: they take the least number of bytes, and twice what
/// they took when they were rewritten last.
pub fn is_due(area: &Area) -> bool
    ensures { result ≡ is_due area.now }
{
    if area.length < LEAST_AREA {
        return false;
    }
    let over = area.length - LEAST_AREA;
    over >= area.first && over - area.first >= area.first
}

/// The store with its records rewritten with these bodies; as it was, where the journal has no room for them. A crash at any moment
/// leaves the old records or the rewritten ones.
pub fn rewrite<D: Disk>(
    alloc: Global,
    store: Store<D>,
    keep: &Keep,
) -> Result<Rewritten<D>, Ended<D>>
    requires { AreRecords (rewritten keep.now (records_of store)) }
    ensures made { IfOk result (λ made. IsRewritten keep.now store made) }
    ensures ends { IfErr result (λ ended. EndsRewriting keep.now
        (KeepsDoing D.is_told D.moment D.left_since (disk_of store) ended.disk (records_of store))
        ended.status) }
    ensures keeps { IfOk result (λ made. KeepsOn D.is_told D.moment D.left_since (disk_of store)
        (disk_of (store_in made)) (records_of store ∷ records_of (store_in made) ∷ [])) }
    ensures disk { IfOk result (λ made. D.fault_count (disk_of (store_in made)) ≡
        D.fault_count (disk_of store)) }
    ensures disk_cause { IfErr result (λ ended. HasDiskCause (D.fault_count (disk_of store))
        (D.fault_count ended.disk) ended.status) }
{
    match compact(alloc, store, keep) {
        Ok(store) => Ok(Rewritten::Done(store)),
        Err(AppendErr::Full { store, .. }) => Ok(Rewritten::NoRoom(store)),
        Err(AppendErr::Broken { count, disk }) => Err(Ended {
            status: Status::DiskFault { count },
            disk,
        }),
        Err(AppendErr::OutOfMemory { store }) => Err(Ended {
            status: Status::OutOfMemory,
            disk: store.close(),
        }),
    }
}
