//! What is put of a report.
ghost use Rattle.std.specs.Prelude.{◌≡◌, ◌≤◌, IfOk, length, string_bytes};
ghost use Rattle.std.specs.List.{count_by};
ghost use Rattle.store_loading.specs.Sinks.{HasSinkCause, Reports};
ghost use Rattle.scrub.specs.Report as found;
ghost use Rattle.scrub_job.specs.Counts as spec;

use node_links::Sink;
use schedule_lines::put_all;
use scrub::Found;
use std::alloc::Global;
use xt_base::{Failed, OutOfMemory};
use xt_messages::Status;

/// How many bodies are new, good and damaged.
#[derive(Clone, Copy)]
struct Counts {
    new: u64,
    good: u64,
    damaged: u64,
}

/// How many bodies of this report are new, good and damaged.
fn counts_of(report: &[Found]) -> Counts
    ensures new { result.new ≡ count_by found.is_new report.now }
    ensures good { result.good ≡ count_by found.is_good report.now }
    ensures damaged { result.damaged ≡ count_by found.is_damaged report.now }
{
    let mut new: usize = 0;
    let mut good: usize = 0;
    let mut damaged: usize = 0;
    for found in report {
        match found {
            Found::New(_) => new += 1,
            Found::Good => good += 1,
            Found::Damaged => damaged += 1,
        }
    }
    Counts {
        new: new as u64,
        good: good as u64,
        damaged: damaged as u64,
    }
}

/// The line that tells the counts.
fn line_of(alloc: Global, counts: &Counts) -> Result<String, OutOfMemory>
    ensures { IfOk result (λ line. string_bytes line ≡
        spec.counts_line counts.now.new counts.now.good counts.now.damaged) }
{
    format!(in alloc;
        "new {} good {} damaged {} mended 0\n",
        counts.new, counts.good, counts.damaged,
    )
}

/// Why a scrub ends whose line was put.
fn status_by(damaged: u64) -> Status
    ensures { result ≡ spec.status_by damaged }
{
    if damaged == 0 {
        Status::Done
    } else {
        Status::Unmended { count: damaged }
    }
}

/// Puts the line on this report. Returns why the scrub ended.
pub fn tell<K: Sink>(alloc: Global, report: &[Found], out: &mut K) -> Status
    ensures reports { Reports (spec.counts_text report.now) (spec.status_of report.now)
        (K.held out.old) (K.held out.new) result }
    ensures cause { HasSinkCause (K.fault_count out.old) (K.fault_count out.new) result }
{
    let counts = counts_of(report);
    let Ok(line) = line_of(alloc, &counts) else {
        return Status::OutOfMemory;
    };
    match put_all(out, line.as_bytes()) {
        Ok(()) => status_by(counts.damaged),
        Err(Failed) => Status::SinkFault {
            count: out.faults(),
        },
    }
}
