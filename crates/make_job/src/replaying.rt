ghost use Rattle.std.specs.Prelude.{◌≡◌, ◌≢◌, MatchResult};
ghost use Rattle.xt_messages.specs.declared.status.Status.TheVariants as status;
ghost use Rattle.time_line.specs.Bounds.{AreLines};
ghost use Rattle.world_spec.specs.World.{start_world};
ghost use Rattle.world_spec.specs.Runs.{run_of};
ghost use Rattle.schedule_replay.specs.Replay.{AreDoneFrom};
ghost use Rattle.make_job.specs.Make.{EndsWith};

use schedule_replay::status_of;
use time_line::Line;
use world_core::World;
use world_host::NodeCore;
use world_hull::Hull;
use xt_messages::Status;

/// Replays these lines, one after the other, over a world that begins. An error is the status with which the first line that isn't
/// done ends the replay.
pub fn replay_lines<C: NodeCore, H: Hull>(
    world: &mut World<C, H>,
    lines: &[Line],
) -> Result<(), Status>
    requires start { world.old ≡ start_world }
    requires values { AreLines lines.now }
    ensures { MatchResult result
        (λ _. AreDoneFrom H.room start_world lines.now ×
        (world.new ≡ run_of H.room lines.now))
        (λ s. EndsWith H.room lines.now s × (s ≢ status.Done)) }
{
    for line in lines {
        let number = world.lines().len() as u64 + 1;
        if let Err(error) = world.apply(line) {
            return Err(status_of(number, error));
        }
    }
    Ok(())
}
