ghost use Rattle.std.specs.Prelude.{◌≡◌, ◌++◌, ℕ, List, IfOk, OnOk, map};
ghost use Rattle.time_line.specs.Verdicts.{Break};
ghost use Rattle.judging.specs.Audit.{audited, files_of, with_file};
ghost use Rattle.judging.specs.Laws.{TimesStandFirst};
ghost use Rattle.judging.specs.Pass.{judged};
ghost use Rattle.trace_judge.specs.Found.{verdict_of, least_verdict, lesser_verdict, IsVerdictOn};

use crate::dealing::DealtTrace;
use crate::verdict::{Verdict, judge};
use std::alloc::{AllocError, Global};
use time_line::Entry;

/// Puts the number of the file that the entry reports, if it reports one, after the others.
fn note_file(files: &mut Vec<u64>, e: &Entry) -> Result<(), AllocError>
    ensures { OnOk result ((more : List ℕ) →
        files.new.items ++ more ≡ files.old.items ++ with_file e.now more) }
{
    if let Entry::File {
        number,
        location: _,
    } = e
    {
        files.push(*number)?;
    }
    Ok(())
}

/// The numbers of the files that a trace reports, in the order of their entries. An error means that memory ran out.
pub fn files_of(alloc: Global, entries: &[Entry]) -> Result<Vec<u64>, AllocError>
    ensures { IfOk result (λ files. files.items ≡ files_of entries.now) }
{
    let mut files = Vec::new(alloc);
    let mut rest = entries;
    while let [e, behind @ ..] = rest {
        note_file(&mut files, e)?;
        rest = behind;
    }
    Ok(files)
}

/// Of two verdicts the one that comes first: at the earlier entry, or at one entry in the clause of lesser number.
fn lesser(one: Verdict, other: Verdict) -> Verdict
    ensures { result ≡ lesser_verdict one other }
{
    match (one, other) {
        (Verdict::Safe, _) => other,
        (_, Verdict::Safe) => one,
        (
            Verdict::Broken { clause, entry },
            Verdict::Broken {
                clause: clause_other,
                entry: entry_other,
            },
        ) => {
            if entry_other < entry || (entry_other == entry && clause_other < clause) {
                other
            } else {
                one
            }
        }
    }
}

/// The least of these verdicts.
pub fn least(verdicts: &[Verdict]) -> Verdict
    ensures { result ≡ least_verdict verdicts.now }
{
    let mut found = Verdict::Safe;
    let mut count = verdicts.len();
    while count > 0 {
        count -= 1;
        found = lesser(verdicts[count], found);
    }
    found
}

/// The verdict on each of the files, in order. An error means that memory ran out.
fn judge_each(alloc: Global, trace: &DealtTrace, files: &[u64]) -> Result<Vec<Verdict>, AllocError>
    ensures { IfOk result (λ verdicts.
        verdicts.items ≡ map (λ file. verdict_of (judged file trace.now)) files.now) }
{
    let mut verdicts = Vec::new(alloc);
    for file in files {
        verdicts.push(judge(alloc, trace, *file)?)?;
    }
    Ok(verdicts)
}

/// The verdict on a trace: safe, or the entry by which it is broken first and the least clause there. An error means that
/// memory ran out.
pub fn audit(alloc: Global, entries: &[Entry]) -> Result<Verdict, AllocError>
    ensures pass { IfOk result (λ v. v ≡ verdict_of (audited entries.now)) }
    ensures verdict { TimesStandFirst entries.now → IfOk result (λ v. IsVerdictOn entries.now v) }
{
    let files = files_of(alloc, entries)?;
    let trace = DealtTrace::new(alloc, entries)?;
    let verdicts = judge_each(alloc, &trace, files.as_slice())?;
    Ok(least(verdicts.as_slice()))
}
