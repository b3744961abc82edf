ghost use Rattle.std.specs.Prelude.{◌≡◌, ◌<◌, ◌==◌, false, length};
ghost use Rattle.time_line.specs.Verdicts.{IsSafe};
ghost use Rattle.schedule_text.specs.LineText.{IsLine};
ghost use Rattle.world_core.specs.RunStates.{IsApplied};
ghost use Rattle.schedule_replay.specs.Steps.{IsScheduleRun, IsStep, CausesStep, Grown, status_for};

use node_links::{Sink, Source};
use schedule_lines::{NextLine, finish, next_line, put_entries};
use std::alloc::Global;
use time_line::{LINES, Line};
use world_core::World;
use world_host::NodeCore;
use world_hull::{Hull, WorldErr};
use xt_messages::Status;

/// The status with which a line ends a replay that isn't done.
pub fn status_of(number: u64, error: WorldErr) -> Status
    ensures { result ≡ status_for number error }
{
    match error {
        WorldErr::Illegal { rule } => Status::Illegal { line: number, rule },
        WorldErr::Limit { what, limit } => Status::Limit { what, limit },
        WorldErr::Full { need, limit } => Status::JournalFull { need, limit },
        WorldErr::OutOfMemory => Status::OutOfMemory,
    }
}

/// Applies a line to a world that is the run of its lines. Its entries stand after those that were there, and the trace is safe.
fn apply<C: NodeCore, H: Hull>(world: &mut World<C, H>, line: Line) -> Result<(), WorldErr>
    requires going { world.old.ended ≡ false }
    requires run { IsScheduleRun H.room world.old }
    requires formed { IsLine (length world.old.lines == 0) line }
    ensures applied { IsApplied H.room world.old line world.new result }
    ensures grown { Grown world.old.entries world.new.entries }
    ensures safe { IsSafe world.new.entries }
{
    world.apply(&line)
}

/// Does the next line: reads it, applies it, and puts what it adds to the trace. A status comes where the replay ends.
/// `raw` is room for the bytes of the line.
pub fn replay_line<C: NodeCore, H: Hull, S: Source, K: Sink>(
    alloc: Global,
    world: &mut World<C, H>,
    src: &mut S,
    out: &mut K,
    raw: &mut Vec<u8>,
) -> Option<Status>
    requires going { world.old.ended ≡ false }
    requires run { IsScheduleRun H.room world.old }
    requires few { length world.old.lines < LINES }
    ensures step { IsStep H.room (S.left src.old) (S.left src.new) (K.held out.old)
        (K.held out.new) world.old world.new result }
    ensures cause { CausesStep (S.fault_count src.old) (S.fault_count src.new)
        (K.fault_count out.old) (K.fault_count out.new) result }
{
    let before = world.lines().len() as u64;
    let line = match next_line(alloc, src, raw, before) {
        NextLine::Line(line) => line,
        NextLine::End => return Some(Status::Done),
        NextLine::Stopped(status) => return Some(finish(alloc, out, status)),
    };
    let printed = world.entries().len();
    let applied = apply(world, line);
    match put_entries(alloc, out, &world.entries()[printed..]) {
        None => {}
        Some(status) => return Some(status),
    }
    match applied {
        Ok(()) => None,
        Err(error) => Some(finish(alloc, out, status_of(before + 1, error))),
    }
}
