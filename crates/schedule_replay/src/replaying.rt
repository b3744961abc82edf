ghost use Rattle.std.specs.Prelude.{◌≡◌, length};
ghost use Rattle.xt_base.specs.Faults.{Rose};
ghost use Rattle.world_spec.specs.World as spec;
ghost use Rattle.world_spec.specs.World.{start_world};
ghost use Rattle.world_spec.specs.NodeSteps.{Room};
ghost use Rattle.schedule_lines.specs.Causes.{HasCause};
ghost use Rattle.schedule_replay.specs.Replay.{IsReplay, Completes};
ghost use Rattle.schedule_replay.specs.Steps.{IsEnd};

use crate::step::replay_line;
use node_links::{Sink, Source};
use schedule_lines::{finish, take_byte};
use std::alloc::Global;
use time_line::LINES;
use world_core::World;
use world_host::NodeCore;
use world_hull::Hull;
use xt_base::Failed;
use xt_messages::{Limited, Status};

/// Ends a replay after as many lines as a schedule may have.
fn past_last<S: Source, K: Sink>(alloc: Global, src: &mut S, out: &mut K) -> Status
    ensures end { (room : Room) → (w : spec.World) → length w.lines ≡ LINES →
        IsEnd room (S.left src.old) (S.left src.new) (K.held out.old) (K.held out.new) w result }
    ensures cause { HasCause (S.fault_count src.old) (S.fault_count src.new) (K.fault_count out.old)
        (K.fault_count out.new) result }
{
    match take_byte(src) {
        Ok(None) => Status::Done,
        Ok(Some(_)) => finish(
            alloc,
            out,
            Status::Limit {
                what: Limited::Lines,
                limit: LINES,
            },
        ),
        Err(Failed) => finish(
            alloc,
            out,
            Status::SourceFault {
                count: src.faults(),
            },
        ),
    }
}

/// Replays the schedule that the source gives, over a world that begins, and puts its trace.
pub fn replay<C: NodeCore, H: Hull, S: Source, K: Sink>(
    alloc: Global,
    world: &mut World<C, H>,
    src: &mut S,
    out: &mut K,
) -> Status
    requires { world.old ≡ start_world }
    // The trace is that of a run of the lines that were taken, over journals that have the hull's room, and it is safe.
    ensures replay { IsReplay H.room (S.left src.old) (S.left src.new) (K.held out.old)
        (K.held out.new) result }
    // A fault ends the replay and is reported, where its object's count rose; with any other status no count did.
    ensures cause { HasCause (S.fault_count src.old) (S.fault_count src.new) (K.fault_count out.old)
        (K.fault_count out.new) result }
    // A good schedule is done whole, where neither the source nor the sink fails, unless memory runs out.
    ensures complete { (Rose (S.fault_count src.old) (S.fault_count src.new) → ⊥) →
        (Rose (K.fault_count out.old) (K.fault_count out.new) → ⊥) →
        Completes H.room (S.left src.old) (K.held out.old) (K.held out.new) result }
{
    let mut raw = Vec::new(alloc);
    for _line in 0..LINES {
        match replay_line(alloc, world, src, out, &mut raw) {
            None => {}
            Some(status) => return status,
        }
    }
    past_last(alloc, src, out)
}
