ghost use Rattle.std.specs.Prelude.{◌≡◌, ◌++◌, ◌∷◌, [], Bool, IsTrue, ◌↔◌, OnOk, IfOk, MatchResult, codes};
ghost use Rattle.std.specs.Fmt.{decimal};
ghost use Rattle.time_line.specs.declared.line.Line.{Line};
ghost use Rattle.server_text.specs.Words.{spaced, hex_pair};
ghost use Rattle.schedule_text.specs.CallText.{call_name, call_words};
ghost use Rattle.schedule_text.specs.LineText.{line_text, IsLine};

use crate::bounds::is_line;
use crate::call::{call_name, push_call};
use crate::common::{push_clock, push_file_line, push_named, push_named_node, push_times};
use crate::forms::loose_line;
use server_text::{Word, push_named_words};
use std::alloc::Global;
use time_line::Line;
use xt_base::{NodeId, OutOfMemory};
use xt_messages::Call;

/// Why a line isn't read.
#[derive(Clone, Copy)]
pub enum LineErr {
    /// No line is spelled so.
    Malformed,
    OutOfMemory,
}

impl From<OutOfMemory> for LineErr {
    ghost use Rattle.schedule_text.specs.declared.line.LineErr.TheVariants.{OutOfMemory};

    ghost from_gives = { λ _ e. e ≡ OutOfMemory };

    fn from(_: OutOfMemory) -> LineErr {
        LineErr::OutOfMemory
    }
}

/// Appends a client's call.
fn push_call_line(out: &mut Vec<u8>, client: NodeId, call: &Call) -> Result<(), OutOfMemory>
    ensures { OnOk result (out.new.items ≡
        out.old.items ++ spaced (call_name call.now ∷ decimal client.0 ∷ call_words call.now)) }
{
    push_named_node(out, call_name(call), client)?;
    push_call(out, call)
}

/// Appends `crash N K BYTE`.
fn push_crash(out: &mut Vec<u8>, node: NodeId, call: u8, fill: u8) -> Result<(), OutOfMemory>
    ensures { OnOk result (out.new.items ≡
        out.old.items ++
        spaced (codes "crash" ∷ decimal node.0 ∷ decimal call ∷ hex_pair fill ∷ [])) }
{
    push_named_words(
        out,
        b"crash",
        &[
            Word::Node(node),
            Word::Number(u64::from(call)),
            Word::Hex(&[fill]),
        ],
    )
}

/// Appends `cut N COUNT`.
fn push_cut(out: &mut Vec<u8>, node: NodeId, count: u128) -> Result<(), OutOfMemory>
    ensures { OnOk result (out.new.items ≡
        out.old.items ++ spaced (codes "cut" ∷ decimal node.0 ∷ decimal count ∷ [])) }
{
    push_named_words(out, b"cut", &[Word::Node(node), Word::Wide(count)])
}

/// Appends `aim C F N`.
fn push_aim(out: &mut Vec<u8>, client: NodeId, file: u64, node: NodeId) -> Result<(), OutOfMemory>
    ensures { OnOk result (out.new.items ≡
        out.old.items ++
        spaced (codes "aim" ∷ decimal client.0 ∷ decimal file ∷ decimal node.0 ∷ [])) }
{
    push_named_words(
        out,
        b"aim",
        &[Word::Node(client), Word::Number(file), Word::Node(node)],
    )
}

/// Appends a line that is one word.
fn push_name(out: &mut Vec<u8>, name: &[u8]) -> Result<(), OutOfMemory>
    ensures { OnOk result (out.new.items ≡ out.old.items ++ spaced (name.now ∷ [])) }
{
    push_named_words(out, name, &[])
}

/// Appends a line, without a line feed.
#[tactic(auto, unfolding(crate::specs::LineText::line_text, crate::specs::LineText::line_words))]
fn push_line(out: &mut Vec<u8>, line: &Line) -> Result<(), OutOfMemory>
    ensures { OnOk result (out.new.items ≡ out.old.items ++ line_text line.now) }
{
    match line {
        Line::Times { lease, drift } => push_times(out, *lease, *drift),
        Line::Osd { node } => push_named_node(out, b"osd", *node),
        Line::Mrc => push_name(out, b"mrc"),
        Line::Dir => push_name(out, b"dir"),
        Line::Client { node, clock } => push_clock(out, b"client", *node, *clock),
        Line::File { number, location } => push_file_line(out, *number, location),
        Line::Start { node, clock } => push_clock(out, b"start", *node, *clock),
        Line::Stop { node } => push_named_node(out, b"stop", *node),
        Line::Crash { node, call, fill } => push_crash(out, *node, *call, *fill),
        Line::Cut { node, count } => push_cut(out, *node, *count),
        Line::Clock { node, clock } => push_clock(out, b"clock", *node, *clock),
        Line::Tick { count } => push_named(out, b"tick", u128::from(*count)),
        Line::Wake { node } => push_named_node(out, b"wake", *node),
        Line::Call { client, call } => push_call_line(out, *client, call),
        Line::Again { client } => push_named_node(out, b"again", *client),
        Line::Aim { client, file, node } => push_aim(out, *client, *file, *node),
        Line::Deliver { number } => push_named(out, b"deliver", *number),
        Line::Drop { number } => push_named(out, b"drop", *number),
        Line::Settle { count } => push_named(out, b"settle", *count),
    }
}

/// Whether the line is in the language and these bytes spell it.
fn is_spelled(alloc: Global, line: &Line, bytes: &[u8], first: bool) -> Result<bool, OutOfMemory>
    ensures { IfOk result (λ yes.
        IsTrue yes ↔ (IsLine first line.now × (bytes.now ≡ line_text line.now))) }
{
    if !is_line(first, line) {
        return Ok(false);
    }
    let mut text = Vec::with_capacity(alloc, bytes.len())?;
    push_line(&mut text, line)?;
    Ok(text.as_slice() == bytes)
}

/// The line that these bytes, without a line feed, spell; `first` says whether they are a schedule's first line.
/// `Malformed` exactly where no line of the language is spelled so.
#[tactic(auto, using(crate::proofs::LineAgain::line_again))]
pub fn read_line(alloc: Global, bytes: &[u8], first: bool) -> Result<Line, LineErr>
    // What is read is in the language, and is spelled so.
    ensures found { IfOk result (λ line. IsLine first line × (bytes.now ≡ line_text line)) }

    // What is spelled so is read, unless memory runs out.
    ensures only { (line : Line) → IsLine first line → bytes.now ≡ line_text line →
        MatchResult result (λ read. read ≡ line) (λ e. e ≡ LineErr.OutOfMemory) }
{
    let Some(line) = loose_line(alloc, bytes)? else {
        return Err(LineErr::Malformed);
    };
    // one way out for all that is refused, since each drops the line
    let why = match is_spelled(alloc, &line, bytes, first) {
        Ok(true) => return Ok(line),
        Ok(false) => LineErr::Malformed,
        Err(error) => LineErr::from(error),
    };
    Err(why)
}

/// Two lines of the language that are spelled alike are one line.
pub fn one_line_a_spelling()
    ensures { (first second : Bool) (a b : Line) → IsLine first a → IsLine second b →
        line_text a ≡ line_text b → a ≡ b }
{}
