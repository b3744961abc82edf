//! The pieces of a file: which object has each, and where in it.
ghost use Rattle.std.specs.Prelude.{◌≡◌, ◌≤◌, ◌+◌, ◌/◌, ◌%◌, max, Option, Some, None};
ghost use Rattle.client_plans.specs.Plans as plan;
ghost use Rattle.client_plans.specs.Plans.{object_size, piece_length, first_in, end_in};

use client_plans::Stage;
use xt_base::Octets;
use xt_messages::Capability;

/// The length of the longest file, in bytes, and the end of what `get` shows if no range is named.
const FILE_END: u64 = 1 << 48;

/// How many bytes an object of a file has: at least one.
pub fn object_size(capability: &Capability) -> u32
    ensures value { result ≡ object_size capability.now }
    ensures some { 1 ≤ result }
{
    capability.location.stripe.max(1)
}

/// How many bytes the piece at this place has: it ends where its object does, and no later than the whole.
pub fn piece_length(stripe: u32, from: u64, end: u64) -> u32
    requires { 1 ≤ stripe }
    ensures value { result ≡ piece_length stripe from end }
    ensures inside { from + result ≤ max from end }
{
    let within = u64::from(stripe) - from % u64::from(stripe);
    within.min(end.saturating_sub(from)) as u32
}

/// The number of the object that holds this place, and the place in it.
pub fn place_of(stripe: u32, from: u64) -> (u64, u32)
    requires { 1 ≤ stripe }
    ensures { result ≡ (from / stripe, from % stripe) }
{
    let stripe = u64::from(stripe);
    (from / stripe, (from % stripe) as u32)
}

/// The first byte of a range, 0 if none is named.
pub fn first_in(range: Option<(u64, u64)>) -> u64
    ensures { result ≡ first_in range }
{
    match range {
        None => 0,
        Some((at, _)) => at,
    }
}

/// The place after a range, `FILE_END` if none is named.
pub fn end_in(range: Option<(u64, u64)>) -> u64
    requires { end_in range ≤ 281474976710656 }
    ensures { result ≡ end_in range }
{
    match range {
        None => FILE_END,
        Some((at, len)) => at + len,
    }
}

/// The greatest number of bytes that the next piece may have, after this many were taken.
pub fn room_at(taken: u64, stage: &Stage) -> u32
    ensures { result ≡ plan.room_at taken stage.now }
{
    match stage {
        Stage::Fetches { capability, .. } => {
            let stripe = u64::from(object_size(capability));
            (stripe - taken % stripe) as u32
        }
        _ => 0,
    }
}

/// The stage once its piece was taken, which begins after `taken` bytes.
pub fn with_piece(taken: u64, piece: Octets, stage: Stage) -> Stage
    ensures { result ≡ plan.with_piece taken piece stage }
{
    match stage {
        Stage::Fetches { capability, mark } => {
            if piece.as_slice().is_empty() {
                Stage::Reports { capability, mark }
            } else {
                Stage::Writes {
                    capability,
                    from: taken,
                    mark,
                    piece,
                }
            }
        }
        stage => stage,
    }
}
