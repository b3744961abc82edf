ghost use Rattle.std.specs.Prelude.{◌≡◌, ◌<◌, ◌≤◌, ◌^◌, length, IfOk};
ghost use Rattle.xt_messages.specs.Limits.{FitsMessage};

use std::alloc::{AllocError, Global};
use xt_base::{Boot, Buffer, FRAME, NodeId, OutOfMemory};
use xt_frames::{decode, encode};
use xt_messages::Msg;
use xt_parts::{Joiner, cut, joins_in_order};

/// The boot that each part names: who joins these parts knows of no other.
const BOOT: Boot = Boot(1);

/// Cuts a message and joins its parts, in order, by a joiner of its own.
fn joined(alloc: Global, sender: NodeId, number: u64, message: &[u8]) -> Result<Buffer, OutOfMemory>
    requires sender { sender.0 < 2 ^ 32 }
    requires some { 1 ≤ length message.now }
    requires limit { length message.now ≤ FRAME }
    ensures { IfOk result (λ bytes. bytes ≡ message.now) }
{
    let Ok(parts) = cut(alloc, sender, BOOT, number, message) else {
        return Err(AllocError);
    };
    let mut joiner = Joiner::new(alloc);
    let mut last = None;
    for part in parts.as_slice() {
        joins_in_order();
        match joiner.take(part.as_slice()) {
            Ok(whole) => last = whole,
            // No part of a message is refused.
            Err(_) => return Err(AllocError),
        }
    }
    Ok(last.unwrap().bytes)
}

/// Carries a message as its frame, in parts that this number tells from those of others, and gives the message that
/// comes out at the other end: the very same.
pub fn carried(alloc: Global, number: u64, msg: &Msg) -> Result<Msg, OutOfMemory>
    requires { FitsMessage msg.now }
    ensures { IfOk result (λ carried. carried ≡ msg.now) }
{
    let frame = encode(alloc, msg)?;
    let bytes = joined(alloc, msg.from, number, frame.as_slice())?;
    match decode(alloc, bytes.as_slice()) {
        Ok((carried, _)) => Ok(carried),
        // A frame is read, unless memory runs out.
        Err(_) => Err(AllocError),
    }
}
