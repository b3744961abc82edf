//! The messages that were sent, with which of them are pending.
ghost use Rattle.std.specs.Prelude.{◌≡◌, ◌++◌, ◌∷◌, [], ◌+◌, ◌-◌, ◌<◌, ◌≤◌, length, map, sum_by, slice_get, None, OnOk, OnErr, IfOk, IfSome, MatchOption};
ghost use Rattle.xt_messages.specs.FrameLength.{frame_length};
ghost use Rattle.world_tables.specs.Within64.{within_64};
ghost use Rattle.world_spec.specs.NodeSteps.{pending, frame_bytes};
ghost use Rattle.world_spec.specs.Lines.{least_pending, no_longer_pending};
ghost use Rattle.world_tables.specs.Limits.{IsSentAs, limit_passed};
ghost use Rattle.world_tables.specs.Counts.{IsFirstPending};

use crate::lengths::frame_length;
use std::alloc::Global;
use std::marker::Model;
use world_spec::{MESSAGE_BYTES, MESSAGES, Sent};
use xt_base::OutOfMemory;
use xt_messages::{Limited, Msg, Msgs};

/// Every message that was ever sent, in order of sending, with which of them are pending. Contracts see the list. The
/// messages are numbered from 1.
#[derive(Drop)]
pub struct SentMessages {
    list: Vec<Sent>,
    /// The place of the first pending message, or the end.
    first: usize,
    /// The sum of the lengths of the messages' frames.
    bytes: u64,
}

impl Model for SentMessages {
    ghost use Rattle.std.specs.Prelude.{List};
    ghost use Rattle.world_spec.specs.declared.Sent.{Sent};

    ghost Value = { List Sent };

    ghost use Rattle.world_tables.specs.Counts.{AreCounts};

    ghost view = { λ messages. messages.list.items };

    ghost invariant = { λ messages. AreCounts messages.list.items messages.first messages.bytes };
}

/// The place of the first pending message from a place on, or the end.
fn first_pending(list: &[Sent], from: usize) -> usize
    requires { from ≤ length list.now }
    ensures { IsFirstPending list.now from result }
{
    for place in from..list.len() {
        if list[place].pending {
            return place;
        }
    }
    list.len()
}

/// How many bytes the frames of messages have, or the greatest number of 64 bits where they have more.
fn frames_length(messages: &[Msg]) -> u64
    ensures { result ≡ within_64 (sum_by frame_length messages.now) }
{
    let mut all: u64 = 0;
    for message in messages {
        all = all.saturating_add(frame_length(message));
    }
    all
}

/// Messages that have just been sent.
fn all_pending(alloc: Global, messages: Msgs) -> Result<Vec<Sent>, OutOfMemory>
    ensures { IfOk result (λ made. made.items ≡ map pending messages) }
{
    let mut made = Vec::with_capacity(alloc, messages.len())?;
    for message in messages.items {
        made.push(Sent {
            message,
            pending: true,
        })?;
    }
    Ok(made)
}

impl SentMessages {
    /// No message.
    pub fn new(alloc: Global) -> SentMessages
        ensures { result ≡ [] }
    {
        SentMessages {
            list: Vec::new(alloc),
            first: 0,
            bytes: 0,
        }
    }

    /// How many there are.
    pub fn len(&self) -> u64
        ensures { result ≡ length self.now }
    {
        self.list.len() as u64
    }

    /// How many bytes their frames have, or the greatest number of 64 bits where they have more.
    pub fn bytes(&self) -> u64
        ensures { result ≡ within_64 (frame_bytes self.now) }
    {
        self.bytes
    }

    /// The limit that they pass.
    pub fn passed(&self) -> Option<Limited>
        ensures { result ≡ limit_passed self.now }
    {
        if self.list.len() as u64 > MESSAGES {
            Some(Limited::Messages)
        } else if self.bytes > MESSAGE_BYTES {
            Some(Limited::Bytes)
        } else {
            None
        }
    }

    /// The message of this number.
    pub fn message(&self, number: u128) -> Option<&Msg>
        requires { 1 ≤ number }
        ensures { MatchOption result (slice_get self.now (number - 1) ≡ None) (λ message.
            IsSentAs self.now number message.now) }
    {
        if number <= self.list.len() as u128 {
            Some(&self.list[(number - 1) as usize].message)
        } else {
            None
        }
    }

    /// Makes room for so many more, so that memory can run out only before a step, and not in it.
    pub fn reserve(&mut self, count: usize) -> Result<(), OutOfMemory>
        ensures { self.new ≡ self.old }
    {
        self.list.reserve(count)
    }

    /// A message has been sent.
    pub fn push(&mut self, message: Msg) -> Result<(), OutOfMemory>
        ensures ok { OnOk result (self.new ≡ self.old ++ pending message ∷ []) }
        ensures err { OnErr result (self.new ≡ self.old) }
    {
        let length = frame_length(&message);
        self.list.push(Sent {
            message,
            pending: true,
        })?;
        self.bytes = self.bytes.saturating_add(length);
        Ok(())
    }

    /// These have been sent, in order: all of them, or none where memory runs out.
    pub fn append(&mut self, messages: Msgs) -> Result<(), OutOfMemory>
        ensures ok { OnOk result (self.new ≡ self.old ++ map pending messages) }
        ensures err { OnErr result (self.new ≡ self.old) }
    {
        let length = frames_length(messages.as_slice());
        let mut made = all_pending(*self.list.allocator(), messages)?;
        self.list.append(&mut made)?;
        self.bytes = self.bytes.saturating_add(length);
        Ok(())
    }

    /// The message at a place is no longer pending.
    fn settle_at(&mut self, place: usize)
        requires { place < length self.old }
        ensures { self.new ≡ no_longer_pending self.old (place + 1) }
    {
        self.list[place].pending = false;
        let first = first_pending(self.list.as_slice(), self.first);
        self.first = first;
    }

    /// The message of this number is no longer pending; without one of this number nothing changes.
    pub fn settle(&mut self, number: u128)
        requires { 1 ≤ number }
        ensures { self.new ≡ no_longer_pending self.old number }
    {
        if number <= self.list.len() as u128 {
            self.settle_at((number - 1) as usize);
        }
    }

    /// The number of the pending message of least number.
    pub fn least_pending(&self) -> Option<u128>
        ensures least { result ≡ least_pending 1 self.now }
        ensures there { IfSome result (λ number. (1 ≤ number) × (number ≤ length self.now)) }
    {
        if self.first < self.list.len() {
            Some(self.first as u128 + 1)
        } else {
            None
        }
    }
}
