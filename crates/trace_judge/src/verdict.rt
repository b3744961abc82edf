ghost use Rattle.std.specs.Prelude.{◌≡◌, ◌<◌, ◌≤◌, ◌^◌, ◌||◌, ℕ, Bool, false, IfOk, option_map, length};
ghost use Rattle.time_line.specs.TimeLine.{location_told, times_of};
ghost use Rattle.judging.specs.Dealt.{dealt_to, found_from};
ghost use Rattle.judging.specs.Pass.{Kept, nothing, judged, is_told, break_at, least_broken};
ghost use Rattle.trace_judge.specs.Deals.{IsNext, stripe_if};
ghost use Rattle.trace_judge.specs.Following.{Follows};
ghost use Rattle.trace_judge.specs.Found.{verdict_of, some_verdict};

use crate::dealing::DealtTrace;
use crate::kept::Judging;
use std::alloc::{AllocError, Global};
use time_line::Entry;
use xt_messages::{Kind, Location};

/// The verdict on a trace.
#[derive(Clone, Copy)]
pub enum Verdict {
    Safe,
    /// The trace is broken at this entry, counted from 1, in the clause of this number: 5, 6, 8, 9, 11 or 12.
    Broken { clause: u8, entry: u64 },
}

/// The drift where a trace gives no times, in milliseconds.
const DRIFT: u64 = 1_000;

/// The drift of a trace, in milliseconds.
#[tactic(auto, unfolding(time_line::specs::TimeLine::first_times))]
pub(crate) fn drift_of(entries: &[Entry]) -> u64
    ensures { result ≡ (times_of entries.now).drift }
{
    let mut rest = entries;
    while let [e, behind @ ..] = rest {
        if let Entry::Times { lease: _, drift } = e {
            return *drift;
        }
        rest = behind;
    }
    DRIFT
}

/// Where the file is by an entry, if that reports it.
fn location_told<'a>(file: u64, e: &'a Entry) -> Option<&'a Location>
    ensures { option_map (λ l. l.now) result ≡ location_told file e.now }
{
    match e {
        Entry::File { number, location } if *number == file => Some(location),
        _ => None,
    }
}

/// Whether the file's place is reported, by the entry too.
fn is_placed(placed: bool, file: u64, e: &Entry) -> bool
    ensures { result ≡ (placed || is_told (location_told file e.now)) }
{
    placed || location_told(file, e).is_some()
}

/// The verdict that the clauses so far give after so many entries, if the file's place is reported.
#[tactic(auto, using(crate::proofs::Walk::least_same))]
fn verdict_at(judging: &Judging, placed: bool, entry: u64) -> Option<Verdict>
    ensures { (k : Kept) → Follows k judging.now →
        result ≡ some_verdict (break_at placed (least_broken k.says) entry) }
{
    if !placed {
        return None;
    }
    let clause = judging.says.least_broken()?;
    Some(Verdict::Broken { clause, entry })
}

/// What is left of a walk along the places of a file's own entries and of those of every file, each in order.
#[derive(Drop)]
struct Walk<'a> {
    mine: &'a [usize],
    common: &'a [usize],
}

impl Walk<'_> {
    /// Takes the next place.
    fn next(&mut self) -> Option<usize>
        ensures { IsNext self.old.mine.now self.old.common.now result
            self.new.mine.now self.new.common.now }
    {
        match (self.mine, self.common) {
            ([], []) => None,
            ([place, left @ ..], []) => {
                self.mine = left;
                Some(*place)
            }
            ([place, left @ ..], [other, ..]) if *place < *other => {
                self.mine = left;
                Some(*place)
            }
            (_, [place, left @ ..]) => {
                self.common = left;
                Some(*place)
            }
        }
    }
}

/// The verdict on a replicated file, whose objects have this size.
fn judge_replicated(
    alloc: Global,
    trace: &DealtTrace,
    file: u64,
    stripe: u32,
) -> Result<Verdict, AllocError>
    ensures { IfOk result (λ v. v ≡ verdict_of (found_from (times_of trace.now).drift stripe file
        nothing false (dealt_to file trace.now))) }
{
    let entries = trace.entries;
    let mut judging = Judging::new(alloc, file, trace.drift, stripe);
    let mut placed = false;
    let mut walk = Walk {
        mine: trace.places.get(file),
        common: trace.common.as_slice(),
    };
    while let Some(place) = walk.next() {
        let e = &entries[place];
        judging.advance(trace.ticks[place]);
        judging.take(e)?;
        placed = is_placed(placed, file, e);
        if let Some(verdict) = verdict_at(&judging, placed, place as u64 + 1) {
            return Ok(verdict);
        }
    }
    Ok(Verdict::Safe)
}

/// The size of the objects of a file that is there, if it is a replicated one.
fn stripe_of(location: Option<&Location>) -> Option<u32>
    ensures { result ≡ stripe_if (option_map (λ l. l.now) location.entry) }
{
    match location {
        Some(location) if location.kind == Kind::Replicated => Some(location.stripe),
        _ => None,
    }
}

/// The verdict on a file: where it is broken first, if it is a replicated one and broken anywhere. The pass goes through the file's own
/// entries, and those by which nodes start, stop or set their clocks. An error means that memory ran out.
pub fn judge(alloc: Global, trace: &DealtTrace, file: u64) -> Result<Verdict, AllocError>
    ensures { IfOk result (λ v. v ≡ verdict_of (judged file trace.now)) }
{
    match stripe_of(trace.locations.get(file)) {
        Some(stripe) => judge_replicated(alloc, trace, file, stripe),
        None => Ok(Verdict::Safe),
    }
}
