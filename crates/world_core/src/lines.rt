//! What is to be known of a line before its first step.
ghost use Rattle.std.specs.Prelude.{◌≡◌, ◌++◌, ◌∷◌, [], IfOk, OnOk, OnErr};
ghost use Rattle.world_spec.specs.Lines.{events_of};
ghost use Rattle.world_core.specs.RunStates.{closing_of, left_of};

use std::alloc::Global;
use time_line::Line;
use xt_base::{Copies, OutOfMemory};

/// How many events a line has from outside.
pub fn events_of(line: &Line) -> u128
    ensures { result ≡ events_of line.now }
{
    match line {
        Line::Settle { count } => *count,
        _ => 1,
    }
}

/// How many steps a line may have after those of its events. Settling is nothing but its deliveries: it has no step before them.
pub fn closing_of(line: &Line) -> u128
    ensures { result ≡ closing_of line.now }
{
    match line {
        Line::Settle { .. } => 2,
        _ => 1,
    }
}

/// How many deliveries a line begins with.
pub fn left_of(line: &Line) -> u128
    ensures { result ≡ left_of line.now }
{
    match line {
        Line::Settle { count } => *count,
        _ => 0,
    }
}

/// The same line.
fn copy_of(alloc: Global, line: &Line) -> Result<Line, OutOfMemory>
    ensures { IfOk result (λ copy. copy ≡ line.now) }
{
    Ok(match line {
        Line::Times { lease, drift } => Line::Times {
            lease: *lease,
            drift: *drift,
        },
        Line::Osd { node } => Line::Osd { node: *node },
        Line::Mrc => Line::Mrc,
        Line::Dir => Line::Dir,
        Line::Client { node, clock } => Line::Client {
            node: *node,
            clock: *clock,
        },
        Line::File { number, location } => Line::File {
            number: *number,
            location: *location,
        },
        Line::Start { node, clock } => Line::Start {
            node: *node,
            clock: *clock,
        },
        Line::Stop { node } => Line::Stop { node: *node },
        Line::Crash { node, call, fill } => Line::Crash {
            node: *node,
            call: *call,
            fill: *fill,
        },
        Line::Cut { node, count } => Line::Cut {
            node: *node,
            count: *count,
        },
        Line::Clock { node, clock } => Line::Clock {
            node: *node,
            clock: *clock,
        },
        Line::Tick { count } => Line::Tick { count: *count },
        Line::Wake { node } => Line::Wake { node: *node },
        Line::Call { client, call } => Line::Call {
            client: *client,
            call: call.copy(alloc)?,
        },
        Line::Again { client } => Line::Again { client: *client },
        Line::Aim { client, file, node } => Line::Aim {
            client: *client,
            file: *file,
            node: *node,
        },
        Line::Deliver { number } => Line::Deliver { number: *number },
        Line::Drop { number } => Line::Drop { number: *number },
        Line::Settle { count } => Line::Settle { count: *count },
    })
}

/// The same line comes after these.
pub fn push_copy(alloc: Global, lines: &mut Vec<Line>, line: &Line) -> Result<(), OutOfMemory>
    ensures ok { OnOk result (lines.new.items ≡ lines.old.items ++ line.now ∷ []) }
    ensures err { OnErr result (lines.new.items ≡ lines.old.items) }
{
    lines.push(copy_of(alloc, line)?)?;
    Ok(())
}
