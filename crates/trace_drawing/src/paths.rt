use crate::calls::{
    Fate, answered_within, begun, end_after, fate_of, file_of, is_ok, served_within,
};
use crate::lanes::Lane;
use crate::scene::{LANES, MARGIN, Scene};
use crate::sheet::Sheet;
use crate::words::Word;
use std::alloc::Global;
use time_line::Entry;
use trace_shapes::{Point, Script, Style};
use trace_spans::{Span, are_told, clocks, holding, spans_of};
use xt_base::{OpId, OutOfMemory};

/// Draws a line where each node's clock advances.
pub(crate) fn draw_ticks(scene: &Scene<'_>, sheet: &mut Sheet) -> Result<(), OutOfMemory> {
    let to = scene.size.x.saturating_sub(MARGIN);
    for (at, entry) in scene.entries.iter().enumerate() {
        if let Entry::Tick { .. } = entry {
            let y = scene.middle(at);
            sheet.line(Style::Tick, Point { x: LANES, y }, Point { x: to, y })?;
        }
    }
    Ok(())
}

/// Draws the line of a node while it runs.
fn draw_life(
    scene: &Scene<'_>,
    sheet: &mut Sheet,
    lane: &Lane,
    span: &Span,
) -> Result<(), OutOfMemory> {
    sheet.line(
        Style::Life,
        Point {
            x: lane.axis,
            y: scene.middle(span.from),
        },
        Point {
            x: lane.axis,
            y: scene.middle(span.to),
        },
    )
}

/// Writes what a node's clock reads.
fn write_clock(
    scene: &Scene<'_>,
    sheet: &mut Sheet,
    lane: &Lane,
    at: usize,
    clock: u64,
) -> Result<(), OutOfMemory> {
    let style = if lane.is_left() {
        Script::ClockLeft
    } else {
        Script::Clock
    };
    sheet.write(
        style,
        Point {
            x: scene.label_place(lane),
            y: scene.middle(at),
        },
        &[Word::Count(clock)],
    )
}

/// Writes what a node's clock reads wherever clocks advance.
fn write_clocks(
    scene: &Scene<'_>,
    sheet: &mut Sheet,
    lane: &Lane,
    clocks: &[Option<u64>],
) -> Result<(), OutOfMemory> {
    for (at, clock) in clocks.iter().enumerate() {
        if let (Some(Entry::Tick { .. }), Some(clock)) = (scene.entries.get(at), clock) {
            write_clock(scene, sheet, lane, at, *clock)?;
        }
    }
    Ok(())
}

/// Draws the line and the clock of a node.
fn draw_node(
    alloc: Global,
    scene: &Scene<'_>,
    sheet: &mut Sheet,
    lane: &Lane,
) -> Result<(), OutOfMemory> {
    let clocks = clocks(alloc, lane.node, scene.entries)?;
    let runs = are_told(alloc, clocks.as_slice())?;
    let spans = spans_of(alloc, runs.as_slice())?;
    for span in &spans {
        draw_life(scene, sheet, lane, span)?;
    }
    write_clocks(scene, sheet, lane, clocks.as_slice())
}

/// Draws the lines and the clocks of the nodes.
pub(crate) fn draw_lives(
    alloc: Global,
    scene: &Scene<'_>,
    sheet: &mut Sheet,
) -> Result<(), OutOfMemory> {
    for lane in &scene.lanes {
        draw_node(alloc, scene, sheet, lane)?;
    }
    Ok(())
}

/// Whether the entry makes the lane's node the active primary of the file.
fn is_active(lane: &Lane, file: u64, entry: &Entry) -> bool {
    match entry {
        Entry::Active { node, file: f, .. } => node.0 == lane.node.0 && *f == file,
        _ => false,
    }
}

/// Draws a bar from the row of an entry to that of another.
fn draw_bar(
    scene: &Scene<'_>,
    sheet: &mut Sheet,
    style: Style,
    left: u64,
    span: &Span,
) -> Result<(), OutOfMemory> {
    let top = scene.middle(span.from).saturating_sub(9);
    let bottom = scene.middle(span.to);
    sheet.panel(
        style,
        Point { x: left, y: top },
        Point {
            x: 14,
            y: bottom.saturating_sub(top),
        },
        3,
    )
}

/// Draws the bar of a span in which a node holds a file.
fn draw_holding(
    scene: &Scene<'_>,
    sheet: &mut Sheet,
    lane: &Lane,
    file: u64,
    span: &Span,
) -> Result<(), OutOfMemory> {
    let left = scene.bar(lane, file);
    let colour = scene.colour(file);
    draw_bar(scene, sheet, Style::Held(colour), left, span)?;
    let active = (span.from..span.to).find(|at| match scene.entries.get(*at) {
        Some(entry) => is_active(lane, file, entry),
        None => false,
    });
    if let Some(from) = active {
        draw_bar(
            scene,
            sheet,
            Style::Active(colour),
            left,
            &Span { from, to: span.to },
        )?;
    }
    Ok(())
}

/// Draws the bars of a file in a lane.
fn draw_file(
    alloc: Global,
    scene: &Scene<'_>,
    sheet: &mut Sheet,
    lane: &Lane,
    file: u64,
) -> Result<(), OutOfMemory> {
    let held = holding(alloc, scene.drift, lane.node, file, scene.entries)?;
    let spans = spans_of(alloc, held.as_slice())?;
    for span in &spans {
        draw_holding(scene, sheet, lane, file, span)?;
    }
    Ok(())
}

/// Draws the bars of the files.
pub(crate) fn draw_bars(
    alloc: Global,
    scene: &Scene<'_>,
    sheet: &mut Sheet,
) -> Result<(), OutOfMemory> {
    for lane in &scene.lanes {
        for file in &scene.files {
            draw_file(alloc, scene, sheet, lane, *file)?;
        }
    }
    Ok(())
}

/// Where the bar is on which an entry of an OSD acts.
fn acting_place(scene: &Scene<'_>, at: usize) -> Option<Point> {
    let entry = scene.entries.get(at)?;
    let lane = scene.lane_of(entry)?;
    Some(Point {
        x: scene.bar(lane, file_of(entry)?),
        y: scene.middle(at),
    })
}

/// Draws the way from a call to the entry that serves it first.
fn draw_ask(
    scene: &Scene<'_>,
    sheet: &mut Sheet,
    from: Point,
    served: Option<usize>,
) -> Result<(), OutOfMemory> {
    let Some(served) = served else {
        return Ok(());
    };
    let Some(to) = acting_place(scene, served) else {
        return Ok(());
    };
    sheet.line(
        Style::Ask,
        Point {
            x: from.x.saturating_add(6),
            y: from.y,
        },
        Point {
            x: to.x.saturating_sub(3),
            y: to.y,
        },
    )
}

/// Draws the way from the last answer of a call to its end.
fn draw_reply(
    scene: &Scene<'_>,
    sheet: &mut Sheet,
    to: Point,
    answered: Option<usize>,
) -> Result<(), OutOfMemory> {
    let Some(answered) = answered else {
        return Ok(());
    };
    let Some(from) = acting_place(scene, answered) else {
        return Ok(());
    };
    sheet.line(
        Style::Reply,
        Point {
            x: from.x.saturating_sub(3),
            y: from.y,
        },
        Point {
            x: to.x.saturating_add(9),
            y: to.y,
        },
    )
}

/// Draws a call that ends by the entry at a place.
fn draw_ended(
    scene: &Scene<'_>,
    sheet: &mut Sheet,
    id: OpId,
    from: Point,
    span: &Span,
) -> Result<(), OutOfMemory> {
    let to = Point {
        x: from.x,
        y: scene.middle(span.to),
    };
    if scene.entries.get(span.to).is_some_and(|entry| is_ok(entry)) {
        let answered = answered_within(scene.entries, span.from, span.to, id);
        draw_reply(scene, sheet, to, answered)?;
    }
    sheet.line(Style::Call, from, to)
}

/// Draws the call that begins by the entry at a place.
fn draw_call(
    scene: &Scene<'_>,
    sheet: &mut Sheet,
    lane: &Lane,
    at: usize,
    id: OpId,
) -> Result<(), OutOfMemory> {
    let from = Point {
        x: lane.axis,
        y: scene.middle(at),
    };
    let end = end_after(scene.entries, at, id);
    let to = end.unwrap_or(scene.entries.len());
    draw_ask(scene, sheet, from, served_within(scene.entries, at, to, id))?;
    if end.is_some() {
        return draw_ended(scene, sheet, id, from, &Span { from: at, to });
    }
    sheet.line(
        Style::Open,
        from,
        Point {
            x: lane.axis,
            y: scene.bottom,
        },
    )
}

/// Draws the calls.
pub(crate) fn draw_calls(scene: &Scene<'_>, sheet: &mut Sheet) -> Result<(), OutOfMemory> {
    for (at, entry) in scene.entries.iter().enumerate() {
        if !scene.is_shown(at) {
            continue;
        }
        if let (Some((id, _)), Some(lane)) = (begun(entry), scene.lane_of(entry)) {
            draw_call(scene, sheet, lane, at, id)?;
        }
    }
    Ok(())
}

/// Draws the way from a write's issue to the primary that finds it.
fn draw_found(
    scene: &Scene<'_>,
    sheet: &mut Sheet,
    at: usize,
    found: usize,
) -> Result<(), OutOfMemory> {
    let (Some(from), Some(to)) = (acting_place(scene, at), acting_place(scene, found)) else {
        return Ok(());
    };
    sheet.line(
        Style::Found,
        Point {
            x: from.x.saturating_add(34),
            y: from.y.saturating_add(8),
        },
        Point {
            x: to.x.saturating_sub(4),
            y: to.y,
        },
    )
}

/// Draws what becomes of writes whose primary didn't commit them.
pub(crate) fn draw_finds(scene: &Scene<'_>, sheet: &mut Sheet) -> Result<(), OutOfMemory> {
    for (at, entry) in scene.entries.iter().enumerate() {
        if !scene.is_shown(at) {
            continue;
        }
        if let Entry::Issue {
            node: _,
            file,
            count,
            id,
        } = entry
        {
            if let Fate::Found(found) = fate_of(scene.entries, at, *file, *count, *id) {
                draw_found(scene, sheet, at, found)?;
            }
        }
    }
    Ok(())
}
