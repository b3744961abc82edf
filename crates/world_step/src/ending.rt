//! Which way the step of a running node ends.
ghost use Rattle.std.specs.Prelude.{◌≡◌, Some, take};
ghost use Rattle.world_step.specs.Endings.{ending_of, halt_of};

use disk_model::Stop;
use time_line::Halt;
use world_host::Moment;
use world_hull::Kept;
use xt_base::OptionalBox;
use xt_messages::{Msg, Msgs, Record};

/// How the step of a running node ends.
#[derive(Clone, Copy)]
pub enum Ending {
    /// With all that it gives.
    Whole,
    /// In the append of its record, by this stop.
    InAppend(Stop),
    /// In its sending, after so many messages.
    InSending(u128),
}

/// By the plans for a node and by what its step gives, how the step ends.
pub fn ending_of(moment: &Moment, rec: &OptionalBox<Record>, outs: &Msgs) -> Ending
    ensures { result ≡ ending_of moment.now.crash moment.now.cut rec.now outs.now }
{
    match moment.crash {
        Some(stop) if rec.is_some() => return Ending::InAppend(stop),
        _ => {}
    }
    match moment.cut {
        Some(count) if !outs.as_slice().is_empty() => Ending::InSending(count),
        _ => Ending::Whole,
    }
}

/// The first so many messages.
pub fn front(outs: &Msgs, count: u128) -> &[Msg]
    ensures { result.now ≡ take count outs.now }
{
    let outs = outs.as_slice();
    if count < outs.len() as u128 {
        &outs[..count as usize]
    } else {
        outs
    }
}

/// How a node stopped whose append ended so.
pub fn halt_of(end: Kept) -> Halt
    ensures { result ≡ halt_of end }
{
    match end {
        Kept::StoppedLost => Halt::Lost,
        Kept::Done | Kept::StoppedKept => Halt::Kept,
    }
}
