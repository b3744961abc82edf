//! A scrub: the bodies are read in batches, and digested beside each other.

ghost use Rattle.std.specs.Prelude.{◌≡◌, ◌+◌, ◌<◌, ◌^◌, ◌++◌, List, length, IfOk, IfErr, OnOk};
ghost use Rattle.xt_messages.specs.declared.record.Record.{Record};
ghost use Rattle.scrub.specs.Reading.{CannotRead};
ghost use Rattle.scrub.specs.Scrubbing.{HaveBeenScrubbed};

use crate::checking::found_in_each;
use crate::found::Found;
use crate::listing::Item;
use crate::reading::{ScrubErr, read_items};
use object_versions::Bodies;
use par_halves::Gate;
use std::alloc::Global;
use std::thread::Threads;
use xt_base::OutOfMemory;

/// The number of bodies that are in memory at a time.
const BATCH: usize = 64;

/// Checks items whose bodies are in memory together. The first of them has this index.
fn scrub_batch<R: Threads + Sync, B: Bodies, G: Gate>(
    rt: &R,
    alloc: Global,
    bodies: &mut B,
    items: &[Item],
    first: usize,
    gate: &G,
) -> Result<Vec<Found>, ScrubErr>
    requires { first + length items.now < 2 ^ 64 }
    ensures later { (records : List Record) → B.agrees bodies.new records →
        B.agrees bodies.old records }
    ensures is { IfOk result (λ report. HaveBeenScrubbed (B.agrees bodies.new)
        (B.fault_count bodies.old) (B.fault_count bodies.new) items.now report.items) }
    ensures cannot { IfErr result (CannotRead (B.agrees bodies.new) (B.fault_count bodies.old)
        (B.fault_count bodies.new) items.now first) }
{
    let read = match read_items(alloc, bodies, items, first) {
        Ok(read) => read,
        Err(error) => return Err(error),
    };
    match found_in_each(rt, alloc, read.as_slice(), gate) {
        Ok(found) => Ok(found),
        Err(_) => Err(ScrubErr::OutOfMemory),
    }
}

/// Puts what was found after the rest of the report.
fn put_all(report: &mut Vec<Found>, found: Vec<Found>) -> Result<(), OutOfMemory>
    ensures { OnOk result (report.new.items ≡ report.old.items ++ found.items) }
{
    let mut found = found;
    report.append(&mut found)?;
    Ok(())
}

/// Checks these bodies: 64 of them are read, their digests are computed beside each other, and so on. The report is that of one thread that
/// takes one item after the other, for every gate.
///
/// `NoBody` names the first item whose body is in no record, which can't happen over the `items` of a loaded store. `BodyFault` comes only
/// when a read failed.
pub fn scrub<R: Threads + Sync, B: Bodies, G: Gate>(
    rt: &R,
    alloc: Global,
    bodies: &mut B,
    items: &[Item],
    gate: &G,
) -> Result<Vec<Found>, ScrubErr>
    ensures later { (records : List Record) → B.agrees bodies.new records →
        B.agrees bodies.old records }
    ensures is { IfOk result (λ report. HaveBeenScrubbed (B.agrees bodies.new)
        (B.fault_count bodies.old) (B.fault_count bodies.new) items.now report.items) }
    ensures cannot { IfErr result (CannotRead (B.agrees bodies.new) (B.fault_count bodies.old)
        (B.fault_count bodies.new) items.now 0) }
{
    let mut report = Vec::new(alloc);
    let mut rest = items;
    while !rest.is_empty() {
        let (now, later) = rest.split_at(rest.len().min(BATCH));
        match scrub_batch(rt, alloc, bodies, now, items.len() - rest.len(), gate) {
            Ok(found) => put_all(&mut report, found)?,
            Err(error) => return Err(error),
        }
        rest = later;
    }
    Ok(report)
}
