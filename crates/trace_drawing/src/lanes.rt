use crate::nodes::{Role, role_of};
use std::alloc::Global;
use time_line::Entry;
use xt_base::{NodeId, OutOfMemory};

/// The lane of a node: its ground, and where its line is on it.
#[derive(Clone, Copy)]
pub(crate) struct Lane {
    pub(crate) node: NodeId,
    pub(crate) role: Role,
    pub(crate) left: u64,
    pub(crate) width: u64,
    pub(crate) axis: u64,
}

/// How wide a character is taken to be, in pixels.
const CHARACTER: u64 = 7;

/// How wide a bar and its gap are.
pub(crate) const SLOT: u64 = 18;

/// From the edge of a lane to its line.
const INSIDE: u64 = 14;

/// Between two lanes, and between those of clients and of OSDs.
const GAP: u64 = 10;

const WIDE_GAP: u64 = 44;

impl Lane {
    /// Whether labels stand to the left of its line.
    pub(crate) fn is_left(&self) -> bool {
        !matches!(self.role, Role::Osd)
    }
}

/// Appends a lane for each of the nodes that has this role.
fn note_lanes(
    lanes: &mut Vec<Lane>,
    entries: &[Entry],
    only: Option<u64>,
    nodes: &[NodeId],
    wanted: Role,
) -> Result<(), OutOfMemory> {
    for node in nodes {
        if let Some(role) = role_of(entries, only, *node) {
            if role as u8 == wanted as u8 {
                lanes.push(Lane {
                    node: *node,
                    role,
                    left: 0,
                    width: 0,
                    axis: 0,
                })?;
            }
        }
    }
    Ok(())
}

/// The lanes of a picture of this file, or of all: clients, nodes that do nothing, and OSDs, each rising.
pub(crate) fn lanes_of(
    alloc: Global,
    entries: &[Entry],
    only: Option<u64>,
    nodes: &[NodeId],
) -> Result<Vec<Lane>, OutOfMemory> {
    let mut lanes = Vec::new(alloc);
    note_lanes(&mut lanes, entries, only, nodes, Role::Client)?;
    note_lanes(&mut lanes, entries, only, nodes, Role::Other)?;
    note_lanes(&mut lanes, entries, only, nodes, Role::Osd)?;
    Ok(lanes)
}

/// How wide a lane is that has labels of this many characters, and bars for so many files.
fn width_for(role: Role, longest: u64, files: u64) -> u64 {
    let label = longest.saturating_mul(CHARACTER);
    match role {
        Role::Osd => files
            .saturating_mul(SLOT)
            .saturating_add(58)
            .saturating_add(label)
            .max(120),
        _ => label.saturating_add(40).max(110),
    }
}

/// Puts a lane at this place, as wide as its labels are long.
fn lay(lane: &mut Lane, left: u64, longest: u64, files: u64) {
    let width = width_for(lane.role, longest, files);
    lane.left = left;
    lane.width = width;
    lane.axis = if lane.is_left() {
        left.saturating_add(width.saturating_sub(INSIDE))
    } else {
        left.saturating_add(INSIDE)
    };
}

/// Puts lanes side by side from a place on; `longest` has the characters of each one's longest label. Where the last one ends.
pub(crate) fn lay_all(lanes: &mut [Lane], longest: &[u64], left: u64, files: u64) -> u64 {
    let mut place = left;
    let mut was_left = false;
    for (lane, longest) in lanes.iter_mut().zip(longest) {
        if was_left && !lane.is_left() {
            place = place.saturating_add(WIDE_GAP - GAP);
        }
        lay(lane, place, *longest, files);
        was_left = lane.is_left();
        place = place.saturating_add(lane.width).saturating_add(GAP);
    }
    place.saturating_sub(GAP)
}
