ghost use Rattle.std.specs.Prelude.{◌≡◌, ◌≢◌, ◌≤◌, IfOk, MatchResult};
ghost use Rattle.xt_messages.specs.declared.status.Status.TheVariants as status;
ghost use Rattle.time_line.specs.Verdicts.{IsSafe};
ghost use Rattle.world_disk.specs.Room.{journal_room};
ghost use Rattle.judging.specs.Laws.{TimesStandFirst};
ghost use Rattle.schedule_maker.specs.Generated.{generated};
ghost use Rattle.make_job.specs.Counting.{counts_of, made_line};
ghost use Rattle.make_job.specs.Make.{EndsWith, text_of, IsMake};

use crate::counts::Counts;
use crate::replaying::replay_lines;
use crate::telling::{made_line, put_line};
use node_links::Sink;
use par_halves::Gate;
use schedule_lines::finish;
use schedule_maker::{TURNS, generate};
use std::alloc::Global;
use std::thread::Threads;
use time_line::Entry;
use trace_audit::audit_halves;
use trace_judge::Verdict;
use world_core::World;
use world_cores::Core;
use world_disk_hull::DiskHull;
use xt_base::{Octets, OutOfMemory};
use xt_messages::Status;

/// Audits a trace that is safe, and gives the line that says so, with what the trace has. Its files are judged beside each other.
fn audited<R: Threads + Sync, G: Gate>(
    rt: &R,
    alloc: Global,
    number: u64,
    size: u64,
    entries: &[Entry],
    gate: &G,
) -> Result<Octets, OutOfMemory>
    requires safe { IsSafe entries.now }
    requires times { TimesStandFirst entries.now }
    ensures { IfOk result (λ line. line ≡ made_line number size (counts_of entries.now)) }
{
    match audit_halves(rt, alloc, entries, gate)? {
        Verdict::Safe => made_line(alloc, number, size, &Counts::of(entries)),
        Verdict::Broken { .. } => unreachable!(),
    }
}

/// Replays the generated schedule over journals on disks, and audits its trace. An error is the status with which that ends before.
fn made<R: Threads + Sync, G: Gate>(
    rt: &R,
    alloc: Global,
    number: u64,
    size: u64,
    gate: &G,
) -> Result<Octets, Status>
    requires { size ≤ TURNS }
    ensures { MatchResult result
        (λ line. EndsWith journal_room (generated number size) status.Done ×
        (line ≡ text_of journal_room number size status.Done))
        (λ s. EndsWith journal_room (generated number size) s × (s ≢ status.Done)) }
{
    let Ok(lines) = generate(alloc, number, size as u32) else {
        return Err(Status::OutOfMemory);
    };
    let mut world: World<Core, DiskHull> = World::new(alloc, DiskHull::new(alloc));
    replay_lines(&mut world, lines.as_slice())?;
    match audited(rt, alloc, number, size, world.entries(), gate) {
        Ok(line) => Ok(line),
        Err(_) => Err(Status::OutOfMemory),
    }
}

/// Replays the schedule that the number and the size generate, audits its trace, and reports in one line what it has: all that the
/// command `make` does. A line of the schedule that isn't done ends it, and is reported. The outcome is the same for every gate.
pub fn make<R: Threads + Sync, K: Sink, G: Gate>(
    rt: &R,
    alloc: Global,
    number: u64,
    size: u64,
    out: &mut K,
    gate: &G,
) -> Status
    requires { size ≤ TURNS }
    ensures { IsMake journal_room number size (K.held out.old) (K.held out.new)
        (K.fault_count out.old) (K.fault_count out.new) result }
{
    match made(rt, alloc, number, size, gate) {
        Ok(line) => put_line(out, line.as_slice()),
        Err(status) => finish(alloc, out, status),
    }
}
