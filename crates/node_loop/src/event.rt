ghost use Rattle.std.specs.Prelude.{◌≡◌, ◌<◌, ◌^◌, ◌⊎◌, IfOk, IfErr};
ghost use Rattle.std.specs.Option.{option_map};
ghost use Rattle.xt_messages.specs.Limits.{FitsEvent};
ghost use Rattle.xt_messages.specs.declared.status.Status.TheVariants as status;
ghost use Rattle.replica_records.specs.Known.{as_known};
ghost use Rattle.object_store.specs.Access.{records_of, disk_of};
ghost use Rattle.object_store.specs.Waits.{recs_of, records_with};
ghost use Rattle.node_loop.specs.Events.{Fits, HasDiskCause, Seeing};
ghost use Rattle.node_loop.specs.Passing.{Changes};
ghost use Rattle.node_loop.specs.declared.event.Stop.TheVariants as stop;
ghost use Rattle.world_spec.specs.NodeSteps.{one_more};

use crate::node::Node;
use disk_model::Disk;
use object_store::{Layered, Reader, Store, Waiting};
use object_versions::StepErr;
use std::alloc::Global;
use xt_messages::{Event, Status};
use xt_protocol::Turned;

/// How a node ended: the status, and the disk.
#[derive(Drop)]
pub struct Ended<D: Disk> {
    pub status: Status,
    pub disk: D,
}

/// Why a node is to end. What waits is put and sent before it does.
#[derive(Drop)]
pub enum Stop {
    /// With this status.
    With(Status),
    /// A body couldn't be read, or isn't there. Its disk counts that as a fault.
    Unread,
}

/// A body couldn't be read, or isn't there: the disk counts that as a fault.
pub fn unread<D: Disk>(store: Store<D>) -> Ended<D>
    ensures status { result.status ≡ status.DiskFault (D.fault_count result.disk) }
    ensures cause { HasDiskCause (D.fault_count (disk_of store)) (D.fault_count result.disk)
        result.status }
    ensures changes { Changes D.is_told D.moment D.left_since (disk_of store) result.disk
        (records_of store) (records_of store) }
{
    let mut disk = store.close();
    let count = disk.count_fault();
    let status = Status::DiskFault { count };
    Ended { status, disk }
}

/// The step of a node on what it sees of its records: those of its store, and those that wait.
pub fn step_on<N: Node, D: Disk>(
    alloc: Global,
    node: &mut N,
    store: &Store<D>,
    waiting: &Waiting,
    now: u64,
    ev: &Event,
) -> Result<Turned, Stop>
    requires clock { now < 2 ^ 62 }
    requires event { FitsEvent ev.now }
    requires runs { N.runs_on node.old (records_with store.now (recs_of waiting.now)) }
    ensures step { IfOk result (λ turned. Seeing D.is_told (records_with store.now (recs_of waiting.now)) (λ seen.
        (N.role node.old).step seen (N.state node.old) now ev.now ≡
        record { state = N.state node.new; turned = turned })) }
    ensures fits { IfOk result (λ turned. Fits (records_with store.now (recs_of waiting.now)) turned) }
    ensures runs { IfOk result (λ turned. N.runs_on node.new
        (one_more (records_with store.now (recs_of waiting.now)) (option_map (as_known D.is_told) turned.rec))) }
    ensures role { IfOk result (λ turned. N.role node.new ≡ N.role node.old) }
    ensures ends { IfErr result (λ why. (why ≡ stop.Unread) ⊎ (why ≡ stop.With status.OutOfMemory)) }
{
    let lower = Reader::new(alloc, store);
    let mut bodies = Layered::new(lower, waiting);
    match node.step(alloc, &mut bodies, now, ev) {
        Ok(turned) => Ok(turned),
        Err(StepErr::OutOfMemory) => Err(Stop::With(Status::OutOfMemory)),
        Err(StepErr::BodyFault { .. } | StepErr::BodyLost { .. }) => Err(Stop::Unread),
    }
}
