ghost use Rattle.replay_job.specs.Job.{IsReplayJob};

use node_links::{Sink, Source};
use schedule_replay::replay;
use std::alloc::Global;
use world_core::World;
use world_cores::Core;
use world_disk_hull::DiskHull;
use xt_messages::Status;

/// Replays the schedule that the source gives, and puts the trace: all that the command `replay` does. The trace is safe, a fault
/// ends it and is reported, and a good schedule is done whole.
pub fn run_replay<S: Source, K: Sink>(alloc: Global, src: &mut S, out: &mut K) -> Status
    ensures { IsReplayJob (S.left src.old) (S.left src.new) (K.held out.old) (K.held out.new)
        (S.fault_count src.old) (S.fault_count src.new) (K.fault_count out.old)
        (K.fault_count out.new) result }
{
    let mut world: World<Core, DiskHull> = World::new(alloc, DiskHull::new(alloc));
    replay(alloc, &mut world, src, out)
}
