use xt_base::Octets;

/// A place on the paper, in pixels from its left and its upper edge.
#[derive(Clone, Copy)]
pub struct Point {
    pub x: u64,
    pub y: u64,
}

/// The colour of a file.
#[derive(Clone, Copy)]
pub enum Colour {
    Blue,
    Purple,
    Teal,
    Pink,
    Orange,
    Grey,
}

/// How a line or a ground looks.
#[derive(Clone, Copy)]
pub enum Style {
    /// The paper itself.
    Paper,
    /// The ground of a lane.
    Lane,
    /// A line while a node runs.
    Life,
    /// Where clocks advance.
    Tick,
    /// A bar while a node holds a file.
    Held(Colour),
    /// A bar while it is the file's active primary.
    Active(Colour),
    /// Round the place of a write that is issued.
    Issued,
    /// The same where the write is gone later.
    Gone,
    /// Round the place of a write that is committed.
    Committed,
    /// Around the count that an answer reports.
    Answered,
    /// A call that ended.
    Call,
    /// A call that didn't end.
    Open,
    /// From a call to what serves it.
    Ask,
    /// From an answer to the end of its call.
    Reply,
    /// From a write's issue to the primary that finds it.
    Found,
    /// Where a node starts.
    Start,
    /// Where a call begins.
    Begin,
    /// Where a node stops.
    Stop,
}

/// How a text looks, and whether it stands to the right of its place, to the left or round it.
#[derive(Clone, Copy)]
pub enum Script {
    Title,
    /// What is said of no node.
    Note,
    /// The number of an entry, to the left.
    Number,
    /// The name of a lane.
    Head,
    HeadLeft,
    /// By how much clocks advance.
    Tick,
    /// What a clock reads.
    Clock,
    ClockLeft,
    /// What an entry says.
    Label,
    LabelLeft,
    /// How a node stops.
    Stop,
    /// A write's place, round its place: where a primary becomes active, and in marks of their styles.
    Active,
    Issued,
    Gone,
    Committed,
    Answered,
}

/// What is drawn.
#[derive(Drop)]
pub enum Shape {
    Line {
        style: Style,
        from: Point,
        to: Point,
    },
    /// A rectangle with round corners.
    Panel {
        style: Style,
        corner: Point,
        size: Point,
        round: u64,
    },
    Circle {
        style: Style,
        centre: Point,
        radius: u64,
    },
    Text {
        script: Script,
        at: Point,
        text: Octets,
    },
}

/// A picture: its title, its size in pixels and what is drawn, the first undermost.
#[derive(Drop)]
pub struct Picture {
    pub title: Octets,
    pub size: Point,
    pub shapes: Vec<Shape>,
}
