ghost use Rattle.std.specs.Prelude.{◌≡◌, Option, option_map, IfOk, length};
ghost use Rattle.time_line.specs.TimeLine.{RunningBoot, standing_after, reads, advances, held_until, holds_as};
ghost use Rattle.trace_spans.specs.Listed.{IsListOf};
ghost use Rattle.trace_spans.specs.Holding.{kept, holds_at, clock_at};

use std::alloc::Global;
use time_line::Entry;
use xt_base::{NodeId, OutOfMemory};

/// What is kept of a running node: what its clock reads, and the end of the lease that it held last for a file, in milliseconds.
#[derive(Clone, Copy)]
pub struct Running {
    pub clock: u64,
    pub end: Option<u64>,
}

/// A node whose clock was set.
fn set_to(clock: u64, before: Option<Running>) -> Option<Running>
    ensures { (s : Option RunningBoot) → before ≡ kept s → result ≡ kept (reads clock s) }
{
    match before {
        None => None,
        Some(running) => Some(Running {
            clock,
            end: running.end,
        }),
    }
}

/// A node whose clock advanced. No clock is given beyond the greatest number.
fn advanced(count: u64, before: Option<Running>) -> Option<Running>
    ensures { (s : Option RunningBoot) → before ≡ kept s → result ≡ kept (advances count s) }
{
    match before {
        None => None,
        Some(running) => Some(Running {
            clock: running.clock.saturating_add(count),
            end: running.end,
        }),
    }
}

/// A node that holds the file up to an end.
fn held_to(end: u64, before: Option<Running>) -> Option<Running>
    ensures { (s : Option RunningBoot) → before ≡ kept s → result ≡ kept (held_until end s) }
{
    match before {
        None => None,
        Some(running) => Some(Running {
            clock: running.clock,
            end: Some(end),
        }),
    }
}

/// The node after an entry.
fn running_after(node: NodeId, file: u64, before: Option<Running>, entry: &Entry) -> Option<Running>
    ensures { (s : Option RunningBoot) → before ≡ kept s →
        result ≡ kept (standing_after node file s entry.now) }
{
    match entry {
        Entry::Up {
            node: n,
            boot: _,
            clock,
        } if n.0 == node.0 => Some(Running {
            clock: *clock,
            end: None,
        }),
        Entry::Down {
            node: n,
            clock: _,
            how: _,
        } if n.0 == node.0 => None,
        Entry::Clock { node: n, clock } if n.0 == node.0 => set_to(*clock, before),
        Entry::Tick { count } => advanced(*count, before),
        Entry::Held {
            node: n,
            file: f,
            end,
        } if n.0 == node.0 && *f == file => held_to(*end, before),
        _ => before,
    }
}

/// Whether the node holds the file: its clock is more than the drift before the end of its lease.
fn holds(drift: u64, running: Option<Running>) -> bool
    ensures { (s : Option RunningBoot) → running ≡ kept s → result ≡ holds_as drift s }
{
    match running {
        None => false,
        Some(running) => match running.end {
            None => false,
            Some(end) => running.clock.saturating_add(drift) < end,
        },
    }
}

/// After which entries the node holds the file, where clocks differ by at most the drift.
pub fn holding(
    alloc: Global,
    drift: u64,
    node: NodeId,
    file: u64,
    entries: &[Entry],
) -> Result<Vec<bool>, OutOfMemory>
    ensures { IfOk result (λ flags.
        IsListOf (length entries.now) (holds_at drift node file entries.now) flags.items) }
{
    let mut flags = Vec::with_capacity(alloc, entries.len())?;
    let mut now = None;
    for entry in entries {
        now = running_after(node, file, now, entry);
        flags.push(holds(drift, now))?;
    }
    Ok(flags)
}

/// What a node's clock reads.
fn clock(running: Option<Running>) -> Option<u64>
    ensures { result ≡ option_map (λ r. r.clock) running }
{
    match running {
        None => None,
        Some(running) => Some(running.clock),
    }
}

/// What the node's clock reads after each entry: nothing while it doesn't run.
pub fn clocks(
    alloc: Global,
    node: NodeId,
    entries: &[Entry],
) -> Result<Vec<Option<u64>>, OutOfMemory>
    ensures { IfOk result (λ clocks.
        IsListOf (length entries.now) (clock_at node entries.now) clocks.items) }
{
    let mut clocks = Vec::with_capacity(alloc, entries.len())?;
    let mut now = None;
    for entry in entries {
        now = running_after(node, 0, now, entry);
        clocks.push(clock(now))?;
    }
    Ok(clocks)
}
