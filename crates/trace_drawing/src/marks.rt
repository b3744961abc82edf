ghost use Rattle.std.specs.Prelude.{◌≡◌, ◌<◌, ◌+◌, ◌++◌, ◌∷◌, [], OnOk, length};
ghost use Rattle.trace_drawing.specs.Drawn.{Extends, AreNumbered, numeral, middle_of};

use crate::calls::{Fate, fate_of};
use crate::lanes::Lane;
use crate::nodes::Role;
use crate::scene::{LANES, MARGIN, Scene};
use crate::sheet::{Sheet, placed, shifted};
use crate::words::Word;
use std::alloc::Global;
use time_line::Entry;
use trace_shapes::{Point, Script, Style};
use xt_base::{Octets, OutOfMemory};

/// Draws the round mark of an entry on a lane's line.
#[tactic(auto, using(crate::proofs::Extending::again, crate::proofs::Extending::same))]
fn draw_dot(sheet: &mut Sheet, at: Point, entry: &Entry) -> Result<(), OutOfMemory>
    ensures { OnOk result (Extends sheet.old.shapes.items sheet.new.shapes.items) }
{
    match entry {
        Entry::Up { .. } => sheet.circle(Style::Start, at, 5),
        Entry::Begin { .. } => sheet.circle(Style::Begin, at, 4),
        Entry::Down { .. } => sheet.cross(at),
        _ => Ok(()),
    }
}

/// The styles of the mark of a write that was issued.
fn issue_styles(fate: &Fate) -> (Style, Script) {
    match fate {
        Fate::Gone => (Style::Gone, Script::Gone),
        _ => (Style::Issued, Script::Issued),
    }
}

/// Draws the mark with the write's place that the entry names; where the words after it begin.
#[tactic(auto, using(crate::proofs::Extending::again, crate::proofs::Extending::same))]
fn draw_place(
    scene: &Scene<'_>,
    sheet: &mut Sheet,
    at: usize,
    place: Point,
    entry: &Entry,
) -> Result<u64, OutOfMemory>
    ensures { OnOk result (Extends sheet.old.shapes.items sheet.new.shapes.items) }
{
    let (round, inside, count) = match entry {
        Entry::Active { file, count, .. } if *count > 0 => (
            Style::Active(scene.colour(*file)),
            Script::Active,
            *count,
        ),
        Entry::Issue {
            file,
            count,
            id,
            ..
        } => {
            let fate = fate_of(scene.entries, at, *file, *count, *id);
            let (round, inside) = issue_styles(&fate);
            (round, inside, *count)
        }
        Entry::Commit { count, .. } => (Style::Committed, Script::Committed, *count),
        Entry::Answer { count, .. } => (Style::Answered, Script::Answered, *count),
        _ => return Ok(place.x),
    };
    let end = sheet.place(round, inside, shifted(place, 3, 0), count)?;
    Ok(end.saturating_add(6))
}

/// The style of what an entry says in a lane.
fn label_script(lane: &Lane, entry: &Entry) -> Script {
    match entry {
        Entry::Down { .. } => Script::Stop,
        _ if lane.is_left() => Script::LabelLeft,
        _ => Script::Label,
    }
}

/// Draws an entry in its lane.
#[tactic(auto, using(crate::proofs::Extending::again, crate::proofs::Extending::same))]
fn draw_in_lane(
    alloc: Global,
    scene: &Scene<'_>,
    sheet: &mut Sheet,
    lane: &Lane,
    at: usize,
    entry: &Entry,
) -> Result<(), OutOfMemory>
    ensures { OnOk result (Extends sheet.old.shapes.items sheet.new.shapes.items) }
{
    let y = scene.middle(at);
    draw_dot(sheet, Point { x: lane.axis, y }, entry)?;
    let place = Point {
        x: scene.label_place(lane),
        y,
    };
    let x = draw_place(scene, sheet, at, place, entry)?;
    if let Some(label) = scene.labels.get(at) {
        let text = Octets::of(alloc, label.as_slice())?;
        sheet.text(
            label_script(lane, entry),
            Point {
                x,
                y: y.saturating_add(4),
            },
            text,
        )?;
    }
    Ok(())
}

/// Draws an entry that stands in no lane.
#[tactic(auto, using(crate::proofs::Extending::again, crate::proofs::Extending::same))]
fn draw_across(
    alloc: Global,
    scene: &Scene<'_>,
    sheet: &mut Sheet,
    at: usize,
    entry: &Entry,
) -> Result<(), OutOfMemory>
    ensures { OnOk result (Extends sheet.old.shapes.items sheet.new.shapes.items) }
{
    let y = scene.middle(at);
    let (style, x) = match entry {
        Entry::Tick { .. } => (Script::Tick, MARGIN + 38),
        Entry::File { number, .. } => {
            sheet.panel(
                Style::Active(scene.colour(*number)),
                Point {
                    x: LANES + 10,
                    y: y.saturating_sub(5),
                },
                Point { x: 10, y: 10 },
                2,
            )?;
            (Script::Note, LANES + 27)
        }
        _ => (Script::Note, LANES + 10),
    };
    if let Some(label) = scene.labels.get(at) {
        let text = Octets::of(alloc, label.as_slice())?;
        sheet.text(
            style,
            Point {
                x,
                y: y.saturating_add(4),
            },
            text,
        )?;
    }
    Ok(())
}

/// Draws the number of an entry, and what it says.
#[tactic(auto, using(crate::proofs::Extending::again))]
fn draw_entry(
    alloc: Global,
    scene: &Scene<'_>,
    sheet: &mut Sheet,
    at: usize,
    entry: &Entry,
) -> Result<(), OutOfMemory>
    requires { at < 18446744073709551615 }
    ensures { OnOk result (Extends
        (sheet.old.shapes.items ++
        numeral (middle_of scene.now.edges.items scene.now.bottom at) (at + 1) ∷ [])
        sheet.new.shapes.items) }
{
    sheet.number(scene.middle(at), at as u64 + 1)?;
    match scene.lane_of(entry) {
        Some(lane) => draw_in_lane(alloc, scene, sheet, lane, at, entry),
        None => draw_across(alloc, scene, sheet, at, entry),
    }
}

/// Draws an entry, where it has a row.
#[tactic(auto, using(crate::proofs::Extending::numbered, crate::proofs::Extending::unnumbered))]
fn draw_row(
    alloc: Global,
    scene: &Scene<'_>,
    sheet: &mut Sheet,
    at: usize,
    entry: &Entry,
) -> Result<(), OutOfMemory>
    requires { at < 18446744073709551615 }
    ensures { OnOk result
        (AreNumbered scene.now.heights.items scene.now.edges.items scene.now.bottom at
        sheet.old.shapes.items →
        AreNumbered scene.now.heights.items scene.now.edges.items scene.now.bottom (at + 1)
        sheet.new.shapes.items) }
{
    if !scene.is_shown(at) {
        return Ok(());
    }
    draw_entry(alloc, scene, sheet, at, entry)?;
    Ok(())
}

/// Draws the entries.
pub(crate) fn draw_entries(
    alloc: Global,
    scene: &Scene<'_>,
    sheet: &mut Sheet,
) -> Result<(), OutOfMemory>
    ensures { OnOk result
        (AreNumbered scene.now.heights.items scene.now.edges.items scene.now.bottom
        (length scene.now.entries.now) sheet.new.shapes.items) }
{
    for at in 0..scene.entries.len() {
        draw_row(alloc, scene, sheet, at, &scene.entries[at])?;
    }
    Ok(())
}

/// The word of what a node is.
fn role_text(role: Role) -> &'static [u8] {
    match role {
        Role::Client => b"client ",
        Role::Other => b"node ",
        Role::Osd => b"OSD ",
    }
}

/// Writes the name of a lane at a height.
fn write_name(sheet: &mut Sheet, lane: &Lane, y: u64) -> Result<(), OutOfMemory> {
    let (script, x) = if lane.is_left() {
        (
            Script::HeadLeft,
            lane.left.saturating_add(lane.width).saturating_sub(8),
        )
    } else {
        (Script::Head, lane.left.saturating_add(8))
    };
    sheet.write(
        script,
        Point { x, y },
        &[
            Word::Text(role_text(lane.role)),
            Word::Name(u64::from(lane.node.0)),
        ],
    )
}

/// Draws the grounds of the lanes, with their names above and, where those names are far, below too.
pub(crate) fn draw_lanes(
    scene: &Scene<'_>,
    sheet: &mut Sheet,
    top: u64,
) -> Result<(), OutOfMemory> {
    let bottom = scene.size.y.saturating_sub(MARGIN);
    for lane in &scene.lanes {
        sheet.panel(
            Style::Lane,
            Point {
                x: lane.left,
                y: top,
            },
            Point {
                x: lane.width,
                y: bottom.saturating_sub(top),
            },
            8,
        )?;
        write_name(sheet, lane, top.saturating_add(16))?;
        if scene.is_long {
            write_name(sheet, lane, bottom.saturating_sub(14))?;
        }
    }
    Ok(())
}
