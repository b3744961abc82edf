ghost use Rattle.std.specs.Prelude.{◌≡◌, ◌≤◌, ◌<◌, ◌+◌, ◌^◌, IfOk, None, All, length, sum, take};
ghost use Rattle.trace_spans.specs.Listed.{IsListOf};
ghost use Rattle.trace_drawing.specs.Edges.{edge_at, AreHeights};

use crate::calls::{call_ended, file_of, file_of_call, node_of};
use crate::lanes::Lane;
use crate::nodes::is_about;
use std::alloc::Global;
use time_line::Entry;
use xt_base::{NodeId, OpId, OutOfMemory};

/// How high the row of an entry is, in pixels.
pub const ROW: u64 = 26;

/// How high the row is where clocks advance.
pub const TICK_ROW: u64 = 34;

/// Whether the node has a lane.
fn has_lane(lanes: &[Lane], node: NodeId) -> bool {
    lanes.iter().any(|lane| lane.node.0 == node.0)
}

/// Whether the call that ends by the entry at this place is on the file.
fn is_call_on(file: u64, entries: &[Entry], at: usize, id: OpId) -> bool {
    match call_ended(entries, at, id) {
        None => false,
        Some(call) => file_of_call(call) == Some(file),
    }
}

/// Whether a picture of this file alone, with these lanes, shows the entry at this place.
fn is_of_file(file: u64, entries: &[Entry], lanes: &[Lane], at: usize, entry: &Entry) -> bool {
    if let Entry::Done { client, number, .. } = entry {
        let id = OpId {
            client: *client,
            number: *number,
        };
        return is_call_on(file, entries, at, id);
    }
    match (file_of(entry), node_of(entry)) {
        (Some(named), _) => named == file,
        (None, Some(node)) => has_lane(lanes, node),
        (None, None) => true,
    }
}

/// How high the row of an entry is that is shown.
fn height(entry: &Entry) -> u64
    ensures low { result ≤ TICK_ROW }
    ensures high { ROW ≤ result }
{
    match entry {
        Entry::Tick { .. } => TICK_ROW,
        _ => ROW,
    }
}

/// How high the row of the entry at this place is in a picture of this file, or of all: nothing where it isn't shown.
fn row_height(entries: &[Entry], only: Option<u64>, lanes: &[Lane], at: usize, entry: &Entry) -> u64
    ensures low { result ≤ TICK_ROW }
    ensures high { 0 < result → ROW ≤ result }
    ensures all { only ≡ None → ROW ≤ result }
{
    match only {
        Some(file) if !is_of_file(file, entries, lanes, at, entry) => 0,
        _ => height(entry),
    }
}

/// How high the rows of the entries are in a picture of this file, or of all: nothing where one isn't shown.
pub(crate) fn heights_of(
    alloc: Global,
    entries: &[Entry],
    only: Option<u64>,
    lanes: &[Lane],
) -> Result<Vec<u64>, OutOfMemory>
    ensures { IfOk result (λ heights. AreHeights entries.now only heights.items) }
{
    let mut heights = Vec::with_capacity(alloc, entries.len())?;
    for at in 0..entries.len() {
        heights.push(row_height(entries, only, lanes, at, &entries[at]))?;
    }
    Ok(heights)
}

/// The upper edges of rows of these heights, from a place on, and the lower edge of the last one.
pub(crate) fn edges_of(alloc: Global, top: u64, heights: &[u64]) -> Result<Vec<u64>, OutOfMemory>
    requires { top + sum heights.now < 2 ^ 64 }
    ensures { IfOk result (λ edges.
        IsListOf (length heights.now + 1) (edge_at top heights.now) edges.items) }
{
    let mut edges = Vec::with_capacity(alloc, heights.len().saturating_add(1))?;
    let mut edge = top;
    edges.push(edge)?;
    for height in heights {
        edge += *height;
        edges.push(edge)?;
    }
    Ok(edges)
}
