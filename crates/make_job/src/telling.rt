ghost use Rattle.std.specs.Prelude.{◌≡◌, ◌++◌, ◌∷◌, IfOk, OnOk};
ghost use Rattle.std.specs.Fmt.{decimal};
ghost use Rattle.xt_messages.specs.declared.status.Status.TheVariants as status;
ghost use Rattle.schedule_lines.specs.Causes.{CausesEnd};
ghost use Rattle.make_job.specs.Counting.{made_line};
ghost use Rattle.make_job.specs.Make.{IsTold};

use crate::counts::Counts;
use node_links::Sink;
use schedule_lines::put_all;
use std::alloc::Global;
use xt_base::{Failed, Octets, OutOfMemory};
use xt_messages::Status;

/// Appends a space and a number.
fn push_number(alloc: Global, line: &mut Vec<u8>, number: u64) -> Result<(), OutOfMemory>
    ensures { OnOk result (line.new.items ≡ line.old.items ++ 32 ∷ decimal number) }
{
    line.push(b' ')?;
    let digits = format!(in alloc; "{number}")?;
    line.extend_from_slice(digits.as_str().as_bytes())?;
    Ok(())
}

/// Appends what is counted and how many there are, a space before each.
fn push_count(
    alloc: Global,
    line: &mut Vec<u8>,
    counted: &[u8],
    count: u64,
) -> Result<(), OutOfMemory>
    ensures { OnOk result (line.new.items ≡ line.old.items ++ 32 ∷ counted.now ++ 32 ∷ decimal count) }
{
    line.push(b' ')?;
    line.extend_from_slice(counted)?;
    push_number(alloc, line, count)
}

/// The line that reports what a safe trace has.
pub fn made_line(
    alloc: Global,
    number: u64,
    size: u64,
    counts: &Counts,
) -> Result<Octets, OutOfMemory>
    ensures { IfOk result (λ line. line ≡ made_line number size counts.now) }
{
    let mut line = Vec::from_slice(alloc, b"make")?;
    push_number(alloc, &mut line, number)?;
    push_number(alloc, &mut line, size)?;
    push_count(alloc, &mut line, b"writes", counts.writes)?;
    push_count(alloc, &mut line, b"reads", counts.reads)?;
    push_count(alloc, &mut line, b"commits", counts.commits)?;
    line.extend_from_slice(b" safe\n")?;
    let made = Octets::from_vec(line)?;
    Ok(made)
}

/// Puts the line of a make that is done.
pub fn put_line<K: Sink>(out: &mut K, line: &[u8]) -> Status
    ensures told { IsTold (K.held out.old) (K.held out.new) line.now status.Done result }
    ensures cause { CausesEnd (K.fault_count out.old) (K.fault_count out.new) result }
{
    match put_all(out, line) {
        Ok(()) => Status::Done,
        Err(Failed) => Status::SinkFault {
            count: out.faults(),
        },
    }
}
