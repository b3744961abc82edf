ghost use Rattle.std.specs.Prelude.{◌≡◌, ◌++◌, IfOk, OnOk};
ghost use Rattle.schedule_maker.specs.Draws.{after_choice};
ghost use Rattle.schedule_maker.specs.Generated.{on_three, opening, clock_before, restart_before, pause_before, call_of, call_in, turn_from, generated};

use crate::draws::{Choice, Draws};
use std::alloc::Global;
use time_line::Line;
use xt_base::{Members, NodeId, Octets, OutOfMemory};
use xt_messages::{Call, Kind, Location};

/// Where each file lies: on the three OSDs.
fn on_three() -> Location
    ensures { result ≡ on_three }
{
    Location {
        version: 1,
        kind: Kind::Replicated,
        stripe: 4096,
        members: Members::new(&[NodeId(1), NodeId(2), NodeId(3)]).unwrap(),
    }
}

/// Declares a client, whose clock begins at 0.
fn client(node: u32) -> Line
    ensures { result ≡ Line.Client (record { 0 = node }) 0 }
{
    Line::Client {
        node: NodeId(node),
        clock: 0,
    }
}

/// Starts an OSD, whose clock begins at 0.
fn start(node: u32) -> Line
    ensures { result ≡ Line.Start (record { 0 = node }) 0 }
{
    Line::Start {
        node: NodeId(node),
        clock: 0,
    }
}

/// Declares a file on the three OSDs.
fn file(number: u64) -> Line
    ensures { result ≡ Line.File number on_three }
{
    Line::File {
        number,
        location: on_three(),
    }
}

/// What comes before the calls.
#[tactic(auto, unfolding(crate::specs::Generated::opening))]
fn opening(alloc: Global) -> Result<Vec<Line>, OutOfMemory>
    ensures { IfOk result (λ lines. lines.items ≡ opening) }
{
    Ok(Vec::from_array(
        alloc,
        [
            Line::Times {
                lease: 1000,
                drift: 100,
            },
            Line::Osd { node: NodeId(1) },
            Line::Osd { node: NodeId(2) },
            Line::Osd { node: NodeId(3) },
            client(10),
            client(11),
            client(12),
            client(13),
            start(1),
            start(2),
            start(3),
            file(1),
            file(2),
            file(3),
            file(4),
            Line::Tick { count: 1100 },
        ],
    )?)
}

/// What all clocks read before a turn, in milliseconds.
fn clock_before(turn: u32) -> u64
    ensures { result ≡ clock_before turn }
{
    1100 + 400 * (u64::from(turn.saturating_sub(1)) / 16)
}

/// OSD 2 stops before each 64th turn, and starts again.
#[tactic(auto, unfolding(crate::specs::Generated::restart_before))]
fn push_restart(lines: &mut Vec<Line>, turn: u32) -> Result<(), OutOfMemory>
    ensures { OnOk result (lines.new.items ≡ lines.old.items ++ restart_before turn) }
{
    if turn > 0 && turn % 64 == 0 {
        let node = NodeId(2);
        lines.push(Line::Stop { node })?;
        lines.push(Line::Start {
            node,
            clock: clock_before(turn),
        })?;
    }
    Ok(())
}

/// Time passes before each 16th turn.
#[tactic(auto, unfolding(crate::specs::Generated::pause_before))]
fn push_pause(lines: &mut Vec<Line>, turn: u32) -> Result<(), OutOfMemory>
    ensures { OnOk result (lines.new.items ≡ lines.old.items ++ pause_before turn) }
{
    if turn > 0 && turn % 16 == 0 {
        lines.push(Line::Tick { count: 400 })?;
        lines.push(Line::Wake { node: NodeId(1) })?;
        lines.push(Line::Settle { count: 400 })?;
    }
    Ok(())
}

/// The call of a turn.
fn call_of(alloc: Global, choice: &Choice, turn: u32) -> Result<Call, OutOfMemory>
    ensures { IfOk result (λ call. call ≡ call_of choice.now turn) }
{
    if choice.is_read {
        Ok(Call::Read {
            file: choice.file,
            object: choice.object,
            at: choice.at,
            len: 16,
        })
    } else {
        Ok(Call::Write {
            file: choice.file,
            object: choice.object,
            at: choice.at,
            bytes: Octets::of(alloc, &u64::from(turn).to_be_bytes())?,
        })
    }
}

/// A call is made, and what comes of it is delivered.
#[tactic(auto, unfolding(crate::specs::Generated::call_in))]
fn push_call(
    alloc: Global,
    lines: &mut Vec<Line>,
    draws: &mut Draws,
    turn: u32,
) -> Result<(), OutOfMemory>
    ensures lines { OnOk result (lines.new.items ≡ lines.old.items ++ call_in turn draws.old.state) }
    ensures state { draws.new.state ≡ after_choice draws.old.state }
{
    let choice = draws.choice();
    let call = call_of(alloc, &choice, turn)?;
    lines.push(Line::Call {
        client: NodeId(choice.client),
        call,
    })?;
    lines.push(Line::Settle { count: 400 })?;
    Ok(())
}

/// One turn.
fn push_turn(
    alloc: Global,
    lines: &mut Vec<Line>,
    draws: &mut Draws,
    turn: u32,
) -> Result<(), OutOfMemory>
    ensures lines { OnOk result (lines.new.items ≡ lines.old.items ++ turn_from turn draws.old.state) }
    ensures state { OnOk result (draws.new.state ≡ after_choice draws.old.state) }
{
    push_restart(lines, turn)?;
    push_pause(lines, turn)?;
    push_call(alloc, lines, draws, turn)?;
    Ok(())
}

/// The schedule of this number, with so many turns. An error means that memory ran out.
pub fn generate(alloc: Global, number: u64, size: u32) -> Result<Vec<Line>, OutOfMemory>
    ensures { IfOk result (λ lines. lines.items ≡ generated number size) }
{
    let mut lines = opening(alloc)?;
    let mut draws = Draws { state: number };
    for turn in 0..size {
        push_turn(alloc, &mut lines, &mut draws, turn)?;
    }
    Ok(lines)
}
