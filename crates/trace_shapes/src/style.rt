ghost use Rattle.std.specs.Prelude.{◌≡◌};
ghost use Rattle.trace_shapes.specs.Classes.{held_class, active_class, class_of, script_class};

use crate::shape::{Colour, Script, Style};

/// The class of a bar while a node holds a file.
fn held_class(colour: Colour) -> &'static [u8]
    ensures { result.now ≡ held_class colour }
{
    match colour {
        Colour::Blue => b"held blue",
        Colour::Purple => b"held purple",
        Colour::Teal => b"held teal",
        Colour::Pink => b"held pink",
        Colour::Orange => b"held orange",
        Colour::Grey => b"held grey",
    }
}

/// The class of a bar while a node is active.
fn active_class(colour: Colour) -> &'static [u8]
    ensures { result.now ≡ active_class colour }
{
    match colour {
        Colour::Blue => b"active blue",
        Colour::Purple => b"active purple",
        Colour::Teal => b"active teal",
        Colour::Pink => b"active pink",
        Colour::Orange => b"active orange",
        Colour::Grey => b"active grey",
    }
}

/// The class of a style.
pub(crate) fn class_of(style: Style) -> &'static [u8]
    ensures { result.now ≡ class_of style }
{
    match style {
        Style::Paper => b"paper",
        Style::Lane => b"lane",
        Style::Life => b"life",
        Style::Tick => b"tick",
        Style::Held(colour) => held_class(colour),
        Style::Active(colour) => active_class(colour),
        Style::Issued => b"issued",
        Style::Gone => b"gone",
        Style::Committed => b"committed",
        Style::Answered => b"answered",
        Style::Call => b"call",
        Style::Open => b"open",
        Style::Ask => b"ask",
        Style::Reply => b"reply",
        Style::Found => b"found",
        Style::Start => b"start",
        Style::Begin => b"begin",
        Style::Stop => b"stop",
    }
}

/// The class of a script.
pub(crate) fn script_class(script: Script) -> &'static [u8]
    ensures { result.now ≡ script_class script }
{
    match script {
        Script::Title => b"title",
        Script::Note => b"note",
        Script::Number => b"number left",
        Script::Head => b"head",
        Script::HeadLeft => b"head left",
        Script::Tick => b"ticks",
        Script::Clock => b"clock",
        Script::ClockLeft => b"clock left",
        Script::Label => b"label",
        Script::LabelLeft => b"label left",
        Script::Stop => b"stops",
        Script::Active => b"place on",
        Script::Issued => b"place issue",
        Script::Gone => b"place lost",
        Script::Committed => b"place on",
        Script::Answered => b"place answer",
    }
}

/// The style sheet, rule by rule: first for a light ground, then what differs on a dark one.
pub(crate) const RULES: [&[u8]; 12] = [
    b"text { font: 12px system-ui, -apple-system, 'Segoe UI', Inter, 'DejaVu Sans', sans-serif; fill: #1f2328; paint-order: stroke; stroke: #f6f8fa; stroke-width: 3px; stroke-linejoin: round }\n",
    b".title, .note, .number, .ticks, .place { stroke: none } .title { font-size: 17px; font-weight: 600 } .head { font-size: 13px; font-weight: 600 } .note, .number, .clock { fill: #656d76 } .number, .clock { font-size: 10.5px } .left { text-anchor: end }\n",
    b".ticks { fill: #9a6700; font-weight: 600 } .stops { fill: #cf222e; font-weight: 600 } .place { font-size: 11px; font-weight: 600; text-anchor: middle } .issue { fill: #7d4e00 } .lost { fill: #cf222e; text-decoration: line-through } .on { fill: #ffffff } .answer { fill: #1a7f37 }\n",
    b".paper { fill: #ffffff } .lane { fill: #f6f8fa } .life { stroke: #afb8c1; stroke-width: 2 } .tick { stroke: #d4a72c; stroke-dasharray: 2 4 } .held, .active { stroke-width: 1.2 } .held.blue { fill: #cfe3fb } .held.purple { fill: #e6dbfb } .held.teal { fill: #cdebea } .held.pink { fill: #f8d9ea } .held.orange { fill: #fbdcc9 } .held.grey { fill: #dfe3e8 }\n",
    b".blue { fill: #0969da; stroke: #0969da } .purple { fill: #8250df; stroke: #8250df } .teal { fill: #0e7a80; stroke: #0e7a80 } .pink { fill: #bf3989; stroke: #bf3989 } .orange { fill: #bc4c00; stroke: #bc4c00 } .grey { fill: #57606a; stroke: #57606a }\n",
    b".issued, .gone, .committed, .answered { fill: #ffffff; stroke-width: 1.6 } .issued { stroke: #bf8700 } .gone { stroke: #cf222e; stroke-dasharray: 3 2.5 } .committed { fill: #1a7f37; stroke: #1a7f37 } .answered { stroke: #1a7f37 }\n",
    b".call, .open { stroke: #1f2328; stroke-width: 2.5 } .call { marker-end: url(#tip) } .open { stroke-dasharray: 1 6; stroke-linecap: round } .ask, .reply { stroke: #8c959f; stroke-width: 1.2; marker-end: url(#hint) } .reply { stroke-dasharray: 5 3 } .found { stroke: #bf8700; stroke-width: 1.8; stroke-dasharray: 1 4; stroke-linecap: round }\n",
    b".start { fill: #ffffff; stroke: #6e7781; stroke-width: 2 } .begin, .tip { fill: #1f2328 } .hint { fill: #8c959f } .stop { stroke: #cf222e; stroke-width: 3; stroke-linecap: round }\n",
    b"@media (prefers-color-scheme: dark) { text { fill: #e6edf3; stroke: #151b23 } .note, .number, .clock { fill: #9198a1 } .ticks { fill: #e3b341 } .stops, .lost { fill: #f85149 } .issue { fill: #e3b341 } .answer { fill: #56d364 } .on { fill: #ffffff }\n",
    b".paper { fill: #0d1117 } .lane { fill: #151b23 } .life { stroke: #4b535d } .tick { stroke: #9e6a03 } .held.blue { fill: #12325c } .held.purple { fill: #33235a } .held.teal { fill: #0d3b3d } .held.pink { fill: #4a1d38 } .held.orange { fill: #4a2410 } .held.grey { fill: #2b323b }\n",
    b".blue { fill: #2f81f7; stroke: #2f81f7 } .purple { fill: #a371f7; stroke: #a371f7 } .teal { fill: #2aa6ad; stroke: #2aa6ad } .pink { fill: #e56bb0; stroke: #e56bb0 } .orange { fill: #e8833a; stroke: #e8833a } .grey { fill: #9198a1; stroke: #9198a1 } .issued, .gone, .answered, .start { fill: #0d1117 } .issued, .found { stroke: #d29922 } .gone, .stop { stroke: #f85149 } .committed { fill: #2ea043; stroke: #2ea043 } .answered { stroke: #3fb950 }\n",
    b".call, .open { stroke: #e6edf3 } .begin, .tip { fill: #e6edf3 } .ask, .reply { stroke: #6e7681 } .hint { fill: #6e7681 } .start { stroke: #9198a1 } }\n",
];
