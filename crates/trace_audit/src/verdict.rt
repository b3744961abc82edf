ghost use Rattle.std.specs.Prelude.{◌≡◌, IfOk, Ok, map};
ghost use Rattle.judging.specs.Audit.{audited};
ghost use Rattle.judging.specs.Laws.{TimesStandFirst};
ghost use Rattle.judging.specs.Pass.{judged};
ghost use Rattle.trace_judge.specs.Found.{verdict_of, IsVerdictOn};

use par_halves::{Gate, map_halves};
use std::alloc::Global;
use std::thread::Threads;
use time_line::Entry;
use trace_judge::{DealtTrace, Verdict, files_of, judge, least};
use xt_base::OutOfMemory;

/// The verdicts, if there was memory for each of them.
fn all_given(
    alloc: Global,
    results: &[Result<Verdict, OutOfMemory>],
) -> Result<Vec<Verdict>, OutOfMemory>
    ensures { IfOk result (λ verdicts. results.now ≡ map Ok verdicts.items) }
{
    let mut verdicts = Vec::new(alloc);
    for result in results {
        match result {
            Ok(verdict) => verdicts.push(*verdict)?,
            Err(error) => return Err(*error),
        }
    }
    Ok(verdicts)
}

/// The verdict on a trace, whose files are judged beside each other, for every gate. An error means that memory ran out.
pub fn audit_halves<R: Threads + Sync, G: Gate>(
    rt: &R,
    alloc: Global,
    entries: &[Entry],
    gate: &G,
) -> Result<Verdict, OutOfMemory>
    ensures pass { IfOk result (λ v. v ≡ verdict_of (audited entries.now)) }
    ensures verdict { TimesStandFirst entries.now → IfOk result (λ v. IsVerdictOn entries.now v) }
{
    let files = files_of(alloc, entries)?;
    let trace = DealtTrace::new(alloc, entries)?;
    let dealt = &trace;
    let results = map_halves(
        rt,
        alloc,
        files.as_slice(),
        &|file: &u64| -> Result<Verdict, OutOfMemory>
            ensures { IfOk result (λ v. v ≡ verdict_of (judged file.now dealt.entry.now)) }
        { judge(alloc, dealt, *file) },
        gate,
    )?;
    let verdicts = all_given(alloc, results.as_slice())?;
    Ok(least(verdicts.as_slice()))
}
