//! The scrub of a store.
ghost use Rattle.std.specs.Prelude.{◌≡◌, IfOk, IfErr};
ghost use Rattle.object_store.specs.Access.{disk_of, records_of};
ghost use Rattle.object_store.specs.Texts.{AreRecords};
ghost use Rattle.node_runs.specs.BatchEnds.{nothing};
ghost use Rattle.node_loop.specs.Events.{HasDiskCause};
ghost use Rattle.node_loop.specs.Passing.{IsDoing};
ghost use Rattle.store_loading.specs.Loading.{medium, IsLoaded, IsUnloaded};
ghost use Rattle.scrub_job.specs.Scrubbing.{EndsUnread, IsScrub, ScrubsLoaded};

use crate::checking::{Findings, Unread, check_bodies};
use crate::counting::tell;
use crate::sealing::sealed;
use disk_model::Disk;
use node_links::Sink;
use node_loop::Ended;
use object_store::Store;
use par_halves::Gate;
use scrub::scrubs_say_nothing;
use std::alloc::Global;
use std::thread::Threads;
use store_loading::store_at;
use xt_messages::Status;

/// A scrub whose bodies weren't all read. One that couldn't be read is counted by the disk.
fn unread<D: Disk>(store: Store<D>, why: Unread) -> (Status, D)
    ensures why { EndsUnread result.0 }
    ensures cause { HasDiskCause (D.fault_count (disk_of store)) (D.fault_count result.1) result.0 }
    ensures keeps { IsDoing D.is_told D.kept D.moment D.left_since (disk_of store) result.1
        (records_of store) nothing }
{
    let mut disk = store.close();
    let status = match why {
        Unread::Failed => Status::DiskFault {
            count: disk.count_fault(),
        },
        Unread::OutOfMemory => Status::OutOfMemory,
    };
    (status, disk)
}

/// Checks the bodies of a store that was loaded, keeps the digests of those that are new, and puts the counts to the sink. Returns why it
/// ended.
fn scrub_loaded<R: Threads + Sync, K: Sink, D: Disk, G: Gate>(
    rt: &R,
    alloc: Global,
    store: Store<D>,
    out: &mut K,
    gate: &G,
) -> (Status, D)
    requires { AreRecords (records_of store) }
    ensures { ScrubsLoaded store result.1 (K.held out.old) (K.held out.new)
        (K.fault_count out.old) (K.fault_count out.new) result.0 }
{
    scrubs_say_nothing();
    let Findings { report, seals } = match check_bodies(rt, alloc, &store, gate) {
        Ok(found) => found,
        Err(why) => return unread(store, why),
    };
    match sealed(alloc, store, seals.as_slice()) {
        Ok(store) => (tell(alloc, report.as_slice(), out), store.close()),
        Err(Ended { status, disk }) => (status, disk),
    }
}

/// Scrubs the store at this path, whose journal has this limit in bytes: it checks each body that a head names, keeps the digest of each that
/// is new, and puts to the sink how many are new, good and damaged. Returns why it ended: `Unmended` exactly when some are damaged.
///
/// A crash at any moment leaves a store that says what this one said.
pub fn scrub_store<R: Threads + Sync, K: Sink, D: Disk, G: Gate>(
    rt: &R,
    alloc: Global,
    path: &str,
    limit: u64,
    out: &mut K,
    disk: D,
    gate: &G,
) -> (Status, D)
    ensures { IsScrub (medium D.is_told D.kept D.moment D.left_since D.fault_count) limit disk
        result.1 (K.held out.old) (K.held out.new) (K.fault_count out.old)
        (K.fault_count out.new) result.0 }
{
    match store_at(alloc, path, limit, disk) {
        Ok(store) => scrub_loaded(rt, alloc, store, out, gate),
        Err(Ended { status, disk }) => (status, disk),
    }
}
