ghost use Rattle.std.specs.Prelude.{◌≡◌, ◌<◌, nat_lt};
ghost use Rattle.trace_drawing.specs.Drawn.{height_at, middle_of};

use crate::calls::node_of;
use crate::lanes::{Lane, SLOT};
use time_line::Entry;
use trace_shapes::{Colour, Point};
use xt_base::{NodeId, Octets, OutOfMemory};

/// What is to be drawn, and where it stands.
#[derive(Drop)]
pub(crate) struct Scene<'a> {
    pub(crate) entries: &'a [Entry],
    /// How much clocks may differ, in milliseconds.
    pub(crate) drift: u64,
    /// The file that is drawn alone, if one is.
    pub(crate) only: Option<u64>,
    pub(crate) files: Vec<u64>,
    pub(crate) lanes: Vec<Lane>,
    pub(crate) labels: Vec<Octets>,
    /// How high the rows of the entries are: nothing where one isn't shown.
    pub(crate) heights: Vec<u64>,
    /// The upper edges of the rows, and the lower edge of the last one.
    pub(crate) edges: Vec<u64>,
    /// Whether it is so long that lanes have their names below too.
    pub(crate) is_long: bool,
    /// Where lines and bars end.
    pub(crate) bottom: u64,
    pub(crate) size: Point,
}

/// Where the drawing begins at the left and at the top.
pub(crate) const MARGIN: u64 = 20;

/// Where the lanes begin at the left.
pub(crate) const LANES: u64 = 136;

/// The colours of files, in the order in which they are named first.
const COLOURS: [Colour; 6] = [
    Colour::Blue,
    Colour::Purple,
    Colour::Teal,
    Colour::Pink,
    Colour::Orange,
    Colour::Grey,
];

/// The place of an item among others, or how many there are.
fn place_in(files: &[u64], file: u64) -> usize {
    match files.iter().position(|known| *known == file) {
        Some(place) => place,
        None => 0,
    }
}

impl<'a> Scene<'a> {
    /// The middle of the row of the entry at this place, or the end of the lanes after the last one.
    pub(crate) fn middle(&self, at: usize) -> u64
        ensures { at < 18446744073709551615 →
            result ≡ middle_of self.now.edges.items self.now.bottom at }
    {
        let upper = self.edges.get(at).copied();
        let lower = self.edges.get(at.saturating_add(1)).copied();
        match (upper, lower) {
            (Some(upper), Some(lower)) => upper / 2 + lower / 2,
            _ => self.bottom,
        }
    }

    /// Whether the entry at this place has a row.
    pub(crate) fn is_shown(&self, at: usize) -> bool
        ensures { result ≡ nat_lt 0 (height_at self.now.heights.items at) }
    {
        self.heights.get(at).copied().unwrap_or(0) > 0
    }

    /// The lane of a node.
    pub(crate) fn lane(&self, node: NodeId) -> Option<&Lane> {
        self.lanes.iter().find(|lane| lane.node.0 == node.0)
    }

    /// The lane in which an entry stands.
    pub(crate) fn lane_of(&self, entry: &Entry) -> Option<&Lane> {
        self.lane(node_of(entry)?)
    }

    /// How many bars stand side by side in a lane, in pixels.
    pub(crate) fn slots(&self) -> u64 {
        (self.files.len() as u64).saturating_mul(SLOT)
    }

    /// Where the bar of a file begins in a lane.
    pub(crate) fn bar(&self, lane: &Lane, file: u64) -> u64 {
        let place = place_in(self.files.as_slice(), file) as u64;
        lane.axis
            .saturating_sub(7)
            .saturating_add(place.saturating_mul(SLOT))
    }

    pub(crate) fn colour(&self, file: u64) -> Colour {
        COLOURS[place_in(self.files.as_slice(), file) % 6]
    }

    /// Where the label of a lane begins, or ends where it stands to the left.
    pub(crate) fn label_place(&self, lane: &Lane) -> u64 {
        if lane.is_left() {
            lane.axis.saturating_sub(12)
        } else {
            lane.axis.saturating_add(self.slots())
        }
    }
}
