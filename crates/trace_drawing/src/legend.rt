ghost use Rattle.std.specs.Prelude.{◌≤◌};

use crate::scene::MARGIN;
use crate::sheet::{Sheet, placed, shifted};
use crate::words::Word;
use trace_shapes::{Colour, Point, Script, Style};
use xt_base::OutOfMemory;

/// What a legend explains.
#[derive(Clone, Copy)]
enum Sample {
    Held,
    Active,
    Issued,
    Committed,
    Answered,
    Gone,
    Found,
    Call,
    Open,
    Ask,
    Stop,
    Tick,
}

/// The legend, in order.
const SAMPLES: [Sample; 12] = [
    Sample::Held,
    Sample::Active,
    Sample::Issued,
    Sample::Committed,
    Sample::Answered,
    Sample::Found,
    Sample::Gone,
    Sample::Call,
    Sample::Open,
    Sample::Ask,
    Sample::Stop,
    Sample::Tick,
];

/// How wide and how high a sample is.
const WIDTH: u64 = 224;

const HEIGHT: u64 = 24;

/// What a sample means.
fn meaning(sample: Sample) -> &'static [u8] {
    match sample {
        Sample::Held => b"holds the file's lease",
        Sample::Active => b"is its active primary",
        Sample::Issued => b"issues write 1 of the file",
        Sample::Committed => b"commits it: a majority has it",
        Sample::Answered => b"answers after write 1",
        Sample::Gone => b"issued, and gone for good",
        Sample::Found => b"found by a later primary",
        Sample::Call => b"a call, to its end",
        Sample::Open => b"a call without an end",
        Sample::Ask => b"serves and answers a call",
        Sample::Stop => b"stops or crashes",
        Sample::Tick => b"all clocks advance",
    }
}

/// Draws the mark of a write's place.
fn draw_place(
    sheet: &mut Sheet,
    round: Style,
    inside: Script,
    at: Point,
) -> Result<(), OutOfMemory> {
    let _end = sheet.place(round, inside, shifted(at, 9, 0), 1)?;
    Ok(())
}

/// Draws a piece of a bar.
fn draw_bar(sheet: &mut Sheet, style: Style, at: Point) -> Result<(), OutOfMemory> {
    sheet.panel(style, shifted(at, 7, 9), Point { x: 14, y: 18 }, 3)
}

/// Draws a sample round a place.
fn draw_sample(sheet: &mut Sheet, sample: Sample, at: Point) -> Result<(), OutOfMemory> {
    match sample {
        Sample::Held => draw_bar(sheet, Style::Held(Colour::Blue), at),
        Sample::Active => draw_bar(sheet, Style::Active(Colour::Blue), at),
        Sample::Issued => draw_place(sheet, Style::Issued, Script::Issued, at),
        Sample::Committed => draw_place(sheet, Style::Committed, Script::Committed, at),
        Sample::Answered => draw_place(sheet, Style::Answered, Script::Answered, at),
        Sample::Gone => draw_place(sheet, Style::Gone, Script::Gone, at),
        Sample::Found => sheet.line(Style::Found, shifted(at, 10, 0), placed(at, 10, 0)),
        Sample::Call => sheet.line(Style::Call, shifted(at, 0, 9), placed(at, 0, 9)),
        Sample::Open => sheet.line(Style::Open, shifted(at, 0, 9), placed(at, 0, 9)),
        Sample::Ask => sheet.line(Style::Ask, shifted(at, 10, 0), placed(at, 10, 0)),
        Sample::Stop => sheet.cross(at),
        Sample::Tick => sheet.line(Style::Tick, shifted(at, 10, 0), placed(at, 10, 0)),
    }
}

/// How many samples stand side by side on a paper of this width.
fn columns(width: u64) -> u64
    ensures { 1 ≤ result }
{
    (width.saturating_sub(2 * MARGIN) / WIDTH).max(1)
}

/// How high the legend is on a paper of this width.
pub(crate) fn legend_height(width: u64) -> u64
    ensures { result ≤ 288 }
{
    (SAMPLES.len() as u64).div_ceil(columns(width)) * HEIGHT
}

/// Draws the legend from a height on.
pub(crate) fn draw_legend(sheet: &mut Sheet, width: u64, top: u64) -> Result<(), OutOfMemory> {
    let columns = columns(width);
    for (place, sample) in SAMPLES.iter().enumerate() {
        let at = Point {
            x: MARGIN
                .saturating_add(10)
                .saturating_add((place as u64 % columns).saturating_mul(WIDTH)),
            y: top.saturating_add((place as u64 / columns).saturating_mul(HEIGHT)),
        };
        draw_sample(sheet, *sample, at)?;
        sheet.write(
            Script::Label,
            placed(at, 20, 0),
            &[Word::Text(meaning(*sample))],
        )?;
    }
    Ok(())
}
