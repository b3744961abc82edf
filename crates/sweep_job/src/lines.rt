//! What is put of a sweep.
ghost use Rattle.std.specs.Prelude.{◌≡◌, IfOk, string_bytes, count_by};
ghost use Rattle.xt_messages.specs.declared.status.Status.TheVariants as status;
ghost use Rattle.store_loading.specs.Sinks.{HasSinkCause};
ghost use Rattle.sweep_job.specs.Lines.{is_kept, is_orphan, is_unknown, line_of, swept_line};
ghost use Rattle.sweep_job.specs.Sweeping.{Tells};

use node_links::Sink;
use orphan_sweep::Fate;
use schedule_lines::put_all;
use std::alloc::Global;
use xt_base::{Failed, FileId, OutOfMemory};
use xt_messages::Status;

/// How many files go, how many stay that the metadata server made, and how many stay that it didn't make.
#[derive(Clone, Copy)]
struct Counts {
    orphan: u64,
    kept: u64,
    unknown: u64,
}

/// How many of the files have each fate.
fn count_fates(fates: &[(FileId, Fate)]) -> Counts
    ensures orphan { result.orphan ≡ count_by is_orphan fates.now }
    ensures kept { result.kept ≡ count_by is_kept fates.now }
    ensures unknown { result.unknown ≡ count_by is_unknown fates.now }
{
    let mut orphan: usize = 0;
    let mut kept: usize = 0;
    let mut unknown: usize = 0;
    for (_, fate) in fates {
        match fate {
            Fate::Orphan => orphan += 1,
            Fate::Kept => kept += 1,
            Fate::Unknown => unknown += 1,
        }
    }
    Counts {
        orphan: orphan as u64,
        kept: kept as u64,
        unknown: unknown as u64,
    }
}

/// The line of a sweep.
fn line(alloc: Global, counts: Counts) -> Result<String, OutOfMemory>
    ensures { IfOk result (λ text. string_bytes text ≡
        line_of counts.orphan counts.kept counts.unknown) }
{
    let Counts {
        orphan,
        kept,
        unknown,
    } = counts;
    format!(in alloc; "swept {orphan} kept {kept} unknown {unknown}\n")
}

/// Puts the line of a sweep with these fates. Returns why the job ended.
pub fn tell<K: Sink>(alloc: Global, fates: &[(FileId, Fate)], out: &mut K) -> Status
    ensures tells { Tells (swept_line fates.now) (K.held out.old) (K.held out.new) result }
    ensures cause { HasSinkCause (K.fault_count out.old) (K.fault_count out.new) result }
{
    let Ok(text) = line(alloc, count_fates(fates)) else {
        return Status::OutOfMemory;
    };
    match put_all(out, text.as_bytes()) {
        Ok(()) => Status::Done,
        Err(Failed) => Status::SinkFault {
            count: out.faults(),
        },
    }
}
