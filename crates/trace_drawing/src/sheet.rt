ghost use Rattle.std.specs.Prelude.{◌≡◌, ◌++◌, ◌∷◌, [], OnOk, IfOk};
ghost use Rattle.std.specs.Fmt.{decimal};
ghost use Rattle.trace_drawing.specs.Drawn.{Extends, numeral};

use crate::words::{Word, words};
use itoa::Buffer;
use std::alloc::Global;
use trace_shapes::{Point, Script, Shape, Style};
use xt_base::{Octets, OutOfMemory};

/// Where the numbers of entries end, from the left edge of the paper.
const NUMBERS: u64 = 48;

/// What was drawn so far, the first undermost.
#[derive(Drop)]
pub(crate) struct Sheet {
    alloc: Global,
    pub(crate) shapes: Vec<Shape>,
}

impl Sheet {
    pub(crate) fn new(alloc: Global) -> Sheet {
        Sheet {
            alloc,
            shapes: Vec::new(alloc),
        }
    }

    #[tactic(auto, using(crate::proofs::Extending::one))]
    pub(crate) fn line(&mut self, style: Style, from: Point, to: Point) -> Result<(), OutOfMemory>
        ensures { OnOk result (Extends self.old.shapes.items self.new.shapes.items) }
    {
        self.shapes.push(Shape::Line { style, from, to })?;
        Ok(())
    }

    #[tactic(auto, using(crate::proofs::Extending::one))]
    pub(crate) fn panel(
        &mut self,
        style: Style,
        corner: Point,
        size: Point,
        round: u64,
    ) -> Result<(), OutOfMemory>
        ensures { OnOk result (Extends self.old.shapes.items self.new.shapes.items) }
    {
        self.shapes.push(Shape::Panel {
            style,
            corner,
            size,
            round,
        })?;
        Ok(())
    }

    #[tactic(auto, using(crate::proofs::Extending::one))]
    pub(crate) fn circle(
        &mut self,
        style: Style,
        centre: Point,
        radius: u64,
    ) -> Result<(), OutOfMemory>
        ensures { OnOk result (Extends self.old.shapes.items self.new.shapes.items) }
    {
        self.shapes.push(Shape::Circle {
            style,
            centre,
            radius,
        })?;
        Ok(())
    }

    #[tactic(auto, using(crate::proofs::Extending::one))]
    pub(crate) fn text(
        &mut self,
        script: Script,
        at: Point,
        text: Octets,
    ) -> Result<(), OutOfMemory>
        ensures { OnOk result (Extends self.old.shapes.items self.new.shapes.items) }
    {
        self.shapes.push(Shape::Text { script, at, text })?;
        Ok(())
    }

    /// Writes these words, whose middle stands at this height.
    #[tactic(auto, using(crate::proofs::Extending::again))]
    pub(crate) fn write(
        &mut self,
        script: Script,
        at: Point,
        parts: &[Word<'_>],
    ) -> Result<(), OutOfMemory>
        ensures { OnOk result (Extends self.old.shapes.items self.new.shapes.items) }
    {
        let text = words(self.alloc, parts)?;
        self.text(script, lowered(at), text)
    }

    /// Writes the number of an entry whose row has its middle at this height.
    pub(crate) fn number(&mut self, y: u64, number: u64) -> Result<(), OutOfMemory>
        ensures { OnOk result (self.new.shapes.items ≡
            self.old.shapes.items ++ numeral y number ∷ []) }
    {
        let mut buffer = Buffer::new();
        let text = Octets::of(self.alloc, buffer.format(number).as_bytes())?;
        let at = Point {
            x: NUMBERS,
            y: y.saturating_add(4),
        };
        self.shapes.push(Shape::Text {
            script: Script::Number,
            at,
            text,
        })?;
        Ok(())
    }

    /// A cross at a place.
    #[tactic(auto, using(crate::proofs::Extending::again))]
    pub(crate) fn cross(&mut self, at: Point) -> Result<(), OutOfMemory>
        ensures { OnOk result (Extends self.old.shapes.items self.new.shapes.items) }
    {
        self.line(Style::Stop, shifted(at, 6, 6), placed(at, 6, 6))?;
        let left = Point {
            x: at.x.saturating_sub(6),
            y: at.y.saturating_add(6),
        };
        let right = Point {
            x: at.x.saturating_add(6),
            y: at.y.saturating_sub(6),
        };
        self.line(Style::Stop, left, right)
    }

    /// A write's place in a round mark that begins at a place; where the mark ends.
    #[tactic(auto, using(crate::proofs::Extending::again))]
    pub(crate) fn place(
        &mut self,
        round: Style,
        inside: Script,
        at: Point,
        count: u64,
    ) -> Result<u64, OutOfMemory>
        ensures { OnOk result (Extends self.old.shapes.items self.new.shapes.items) }
    {
        let text = words(self.alloc, &[Word::Name(count)])?;
        let width = (text.as_slice().len() as u64)
            .saturating_mul(7)
            .saturating_add(12);
        let corner = Point {
            x: at.x,
            y: at.y.saturating_sub(9),
        };
        self.panel(round, corner, Point { x: width, y: 18 }, 9)?;
        self.text(inside, lowered(placed(at, width / 2, 0)), text)?;
        Ok(at.x.saturating_add(width))
    }
}

/// Where the foot of a text is whose middle is at a place.
fn lowered(at: Point) -> Point {
    placed(at, 0, 4)
}

/// The place to the right and below.
pub(crate) fn placed(at: Point, right: u64, below: u64) -> Point {
    Point {
        x: at.x.saturating_add(right),
        y: at.y.saturating_add(below),
    }
}

/// The place to the left and above.
pub(crate) fn shifted(at: Point, left: u64, above: u64) -> Point {
    Point {
        x: at.x.saturating_sub(left),
        y: at.y.saturating_sub(above),
    }
}
