ghost use Rattle.std.specs.Prelude.{◌≡◌, ◌≤◌, ◌<◌, ◌↔◌, IfOk, length};
ghost use Rattle.time_line.specs.TimeLine.{times_of};
ghost use Rattle.trace_shapes.specs.WellFormed.{IsDocument};
ghost use Rattle.trace_drawing.specs.Drawn.{AreNumbered};
ghost use Rattle.trace_drawing.specs.PictureOf.{IsPictureOf};
ghost use Rattle.trace_drawing.specs.Scenes.{IsLaidOut};

use crate::ENTRIES;
use crate::calls::node_of;
use crate::labels::labels_of;
use crate::lanes::{Lane, lanes_of, lay_all};
use crate::legend::{draw_legend, legend_height};
use crate::marks::{draw_entries, draw_lanes};
use crate::nodes::{files_of, nodes_of};
use crate::paths::{draw_bars, draw_calls, draw_finds, draw_lives, draw_ticks};
use crate::rows::{edges_of, heights_of};
use crate::scene::{LANES, MARGIN, Scene};
use crate::sheet::Sheet;
use crate::words::{Word, words};
use std::alloc::Global;
use time_line::Entry;
use trace_shapes::{Picture, Point, Script, Style, print_picture};
use xt_base::{Octets, OutOfMemory};

/// Why nothing is drawn.
#[derive(Clone, Copy)]
pub enum DrawErr {
    /// There are more entries than a picture may have.
    TooManyEntries,
    /// There are more nodes than a picture may have.
    TooManyNodes,
    OutOfMemory,
}

impl From<OutOfMemory> for DrawErr {
    ghost use Rattle.trace_drawing.specs.declared.drawing.DrawErr.TheVariants.{OutOfMemory};

    ghost from_gives = { λ _ e. e ≡ OutOfMemory };

    fn from(_error: OutOfMemory) -> DrawErr {
        DrawErr::OutOfMemory
    }
}

/// How much clocks may differ in a trace that doesn't give it, in milliseconds.
const DRIFT: u64 = 1_000;

/// The narrowest paper, in pixels.
const NARROWEST: u64 = 712;

/// Where the legend begins, from the upper edge of the paper.
const LEGEND: u64 = 82;

/// How high the names of the lanes are.
const HEADS: u64 = 36;

/// Where a picture is long, in pixels.
const LONG: u64 = 1_200;

/// How much clocks may differ.
fn drift_of(entries: &[Entry]) -> u64
    ensures { result ≡ (times_of entries.now).drift }
{
    let mut rest = entries;
    while let [entry, later @ ..] = rest {
        if let Entry::Times { lease: _, drift } = entry {
            return *drift;
        }
        rest = later;
    }
    DRIFT
}

/// How many characters the longest label in a lane has.
fn longest_in(lane: &Lane, entries: &[Entry], heights: &[u64], labels: &[Octets]) -> u64 {
    let mut longest = 0;
    for ((entry, height), label) in entries.iter().zip(heights).zip(labels) {
        if let Some(node) = node_of(entry) {
            if *height > 0 && node.0 == lane.node.0 {
                longest = label.as_slice().len().max(longest);
            }
        }
    }
    longest as u64
}

/// How many characters the longest label in each lane has.
fn longest_of(
    alloc: Global,
    lanes: &[Lane],
    entries: &[Entry],
    heights: &[u64],
    labels: &[Octets],
) -> Result<Vec<u64>, OutOfMemory> {
    let mut longest = Vec::with_capacity(alloc, lanes.len())?;
    for lane in lanes {
        longest.push(longest_in(lane, entries, heights, labels))?;
    }
    Ok(longest)
}

/// Lays out a picture of this file, or of all, over the nodes of a trace.
fn lay_out<'a>(
    alloc: Global,
    entries: &'a [Entry],
    only: Option<u64>,
    lanes: Vec<Lane>,
) -> Result<Scene<'a>, OutOfMemory>
    requires { length entries.now ≤ ENTRIES }
    ensures { IfOk result (λ scene. IsLaidOut entries.now only scene) }
{
    let mut lanes = lanes;
    let files = files_of(alloc, entries, only)?;
    let heights = heights_of(alloc, entries, only, lanes.as_slice())?;
    let labels = labels_of(alloc, entries, files.len() > 1)?;
    let longest = longest_of(
        alloc,
        lanes.as_slice(),
        entries,
        heights.as_slice(),
        labels.as_slice(),
    )?;
    let right = lay_all(
        lanes.as_mut_slice(),
        longest.as_slice(),
        LANES,
        files.len() as u64,
    );
    let width = right.saturating_add(MARGIN).max(NARROWEST);
    let top = lanes_top(width).saturating_add(HEADS);
    let edges = edges_of(alloc, top, heights.as_slice())?;
    let bottom = edges.last().copied().unwrap_or(top).saturating_add(10);
    let is_long = bottom > LONG;
    let foot = if is_long { HEADS } else { 10 };
    Ok(Scene {
        entries,
        drift: drift_of(entries),
        only,
        files,
        lanes,
        labels,
        heights,
        edges,
        is_long,
        bottom,
        size: Point {
            x: width,
            y: bottom.saturating_add(foot).saturating_add(MARGIN),
        },
    })
}

/// Where the lanes begin, from the upper edge of a paper of this width.
fn lanes_top(width: u64) -> u64
    ensures { result ≤ 370 }
{
    LEGEND.saturating_add(legend_height(width))
}

/// The title of a picture.
fn title_of(alloc: Global, only: Option<u64>) -> Result<Octets, OutOfMemory> {
    match only {
        None => words(alloc, &[Word::Text(b"A trace of xtfs")]),
        Some(file) => words(
            alloc,
            &[
                Word::Text(b"A trace of xtfs: file "),
                Word::Name(file),
                Word::Text(b" alone"),
            ],
        ),
    }
}

/// Draws the paper, the title and the legend.
fn draw_front(alloc: Global, scene: &Scene<'_>, sheet: &mut Sheet) -> Result<(), OutOfMemory> {
    sheet.panel(Style::Paper, Point { x: 0, y: 0 }, scene.size, 0)?;
    sheet.text(
        Script::Title,
        Point {
            x: MARGIN,
            y: MARGIN + 16,
        },
        title_of(alloc, scene.only)?,
    )?;
    sheet.write(
        Script::Note,
        Point {
            x: MARGIN,
            y: MARGIN + 34,
        },
        &[
            Word::Text(b"Entries 1 to "),
            Word::Count(scene.entries.len() as u64),
            Word::Text(
                b", a row each, downwards. Clocks and leases are in milliseconds. 10.1 is call 1 of client 10.",
            ),
        ],
    )?;
    draw_legend(sheet, scene.size.x, LEGEND)
}

/// Draws a picture.
fn draw_scene(alloc: Global, scene: &Scene<'_>) -> Result<Picture, OutOfMemory>
    ensures { IfOk result (λ picture.
        AreNumbered scene.now.heights.items scene.now.edges.items scene.now.bottom
        (length scene.now.entries.now) picture.shapes.items) }
{
    let mut sheet = Sheet::new(alloc);
    draw_front(alloc, scene, &mut sheet)?;
    draw_lanes(scene, &mut sheet, lanes_top(scene.size.x))?;
    draw_ticks(scene, &mut sheet)?;
    draw_lives(alloc, scene, &mut sheet)?;
    draw_bars(alloc, scene, &mut sheet)?;
    draw_finds(scene, &mut sheet)?;
    draw_calls(scene, &mut sheet)?;
    draw_entries(alloc, scene, &mut sheet)?;
    Ok(Picture {
        title: title_of(alloc, scene.only)?,
        size: scene.size,
        shapes: sheet.shapes,
    })
}

/// The picture of a trace, or of this file in it alone, as an SVG.
pub fn draw(alloc: Global, entries: &[Entry], only: Option<u64>) -> Result<Octets, DrawErr>
    // It is one well-formed element.
    ensures document { IfOk result (λ text. IsDocument text) }
    ensures rows { IfOk result (λ text. IsPictureOf entries.now only text) }
    ensures entries { (result ≡ Err DrawErr.TooManyEntries) ↔ (ENTRIES < length entries.now) }
{
    if entries.len() > ENTRIES {
        return Err(DrawErr::TooManyEntries);
    }
    let Some(nodes) = nodes_of(alloc, entries)? else {
        return Err(DrawErr::TooManyNodes);
    };
    let lanes = lanes_of(alloc, entries, only, nodes.as_slice())?;
    let scene = lay_out(alloc, entries, only, lanes)?;
    let picture = draw_scene(alloc, &scene)?;
    Ok(print_picture(alloc, &picture)?)
}
