ghost use Rattle.std.specs.Prelude.{◌≡◌, ◌+◌, ◌-◌, ◌<◌, ◌≤◌, length, IfOk};
ghost use Rattle.xt_parts.specs.Part.{parts_in, payload_of, part_of, parts_of};
ghost use Rattle.xt_parts.specs.declared.cutting.CutErr.TheVariants.{OutOfMemory};

use crate::part::{Header, part_count};
use crate::{HEADER, PAYLOAD};
use message_ids::MessageId;
use std::alloc::{AllocError, AllocFailed, Global};
use std::marker::Model;
use thiserror::Error;
use xt_base::{Boot, FRAME, NodeId, Octets, OutOfMemory};

/// Why a message wasn't cut.
#[derive(Clone, Copy, Debug, Error)]
pub enum CutErr {
    #[error("out of memory")]
    OutOfMemory,
}

impl From<AllocError> for CutErr {
    ghost from_gives = { λ _ e. e ≡ OutOfMemory };

    fn from(_: AllocError) -> CutErr {
        CutErr::OutOfMemory
    }
}

impl<T: Drop> From<AllocFailed<T>> for CutErr {
    ghost from_gives = { λ _ e. e ≡ OutOfMemory };

    fn from(_: AllocFailed<T>) -> CutErr {
        CutErr::OutOfMemory
    }
}

/// The bytes of the message that the part with this index carries.
fn payload_at(message: &[u8], index: usize) -> &[u8]
    requires { index < parts_in (length message.now) }
    ensures exact { result.now ≡ payload_of message.now index }
    ensures short { length result.now ≤ PAYLOAD }
{
    let start = index * PAYLOAD;
    &message[start..message.len().min(start + PAYLOAD)]
}

/// The part of the message with this index.
#[tactic(auto, unfolding(crate::specs::Part::part_of))]
fn part_at(alloc: Global, id: MessageId, message: &[u8], index: u8) -> Result<Octets, AllocError>
    requires limit { length message.now ≤ FRAME }
    requires index { index < parts_in (length message.now) }
    ensures { IfOk result (λ part. part ≡ part_of id message.now index) }
{
    let header = Header {
        id,
        index,
        size: message.len() as u32,
    };
    let payload = payload_at(message, index as usize);
    let mut part = Vec::with_capacity(alloc, HEADER + payload.len())?;
    header.put(&mut part, payload);
    Octets::from_vec(part)
}

/// The parts of a message, in order. An error comes only where memory runs out.
pub fn cut(
    alloc: Global,
    sender: NodeId,
    boot: Boot,
    number: u64,
    message: &[u8],
) -> Result<Vec<Octets>, CutErr>
    requires some { 1 ≤ length message.now }
    requires limit { length message.now ≤ FRAME }
    ensures { IfOk result (λ parts. parts.items ≡
        parts_of (record { sender = sender; boot = boot; number = number }) message.now) }
{
    let id = MessageId {
        sender,
        boot,
        number,
    };
    let total = part_count(message.len());
    let mut parts = Vec::with_capacity(alloc, total)?;
    for index in 0..total as u8 {
        parts.push(part_at(alloc, id, message, index)?)?;
    }
    Ok(parts)
}

/// A buffer that the parts of a message are cut into, one at a time. It has room for the longest part, so that cutting takes no memory.
/// Contracts see the part that was cut last.
#[derive(Drop)]
pub struct PartBuffer {
    bytes: Vec<u8>,
}

impl Model for PartBuffer {
    ghost use Rattle.std.specs.Prelude.{◌+◌, ◌≤◌, List, ℕ};
    ghost use Rattle.std.specs.Vec.{vec_capacity};
    ghost use Rattle.xt_parts.specs.declared.TheConstants.{HEADER, PAYLOAD};

    ghost Value = { List ℕ };

    ghost view = { λ part. part.bytes.items };

    ghost invariant = { λ part. HEADER + PAYLOAD ≤ vec_capacity part.bytes };
}

impl PartBuffer {
    /// An empty buffer.
    pub fn new(alloc: Global) -> Result<PartBuffer, OutOfMemory> {
        Ok(PartBuffer {
            bytes: Vec::with_capacity(alloc, HEADER + PAYLOAD)?,
        })
    }

    /// Cuts the part of the message with this index, in place of what was there.
    #[tactic(auto, unfolding(crate::specs::Part::part_of))]
    pub fn cut(&mut self, id: MessageId, message: &[u8], index: u8)
        requires limit { length message.now ≤ FRAME }
        requires index { index < parts_in (length message.now) }
        ensures { self.new ≡ part_of id message.now index }
    {
        let header = Header {
            id,
            index,
            size: message.len() as u32,
        };
        header.put(&mut self.bytes, payload_at(message, index as usize));
    }

    /// The part that was cut last.
    pub fn as_slice(&self) -> &[u8]
        ensures { result.now ≡ self.now }
    {
        self.bytes.as_slice()
    }
}
