ghost use Rattle.std.specs.Prelude.{◌≡◌, [], length, IfOk, OnOk};
ghost use Rattle.xt_messages.specs.Limits.{FitsMessage};
ghost use Rattle.std.specs.Option.{IfSome};
ghost use Rattle.node_runs.specs.Hearing.{hears, whole_heard, no_ears, with_address};

use crate::book::Book;
use std::alloc::{AllocError, Global};
use xt_base::{Address, NodeId, OutOfMemory};
use xt_frames::{FrameErr, decode};
use xt_messages::Msg;
use xt_parts::{JoinErr, Joiner, Whole};

/// The version of a file's first list.
const FIRST_LIST: u32 = 1;

/// What a node keeps of its link. Contracts see the half joined messages and the addresses.
#[derive(Drop)]
pub struct Ears {
    alloc: Global,
    halves: Joiner,
    book: Book,
}

impl std::marker::Model for Ears {
    ghost use Rattle.node_runs.specs.Hearing.{Ears};

    ghost Value = { Ears };

    ghost view = { λ e. record { halves = e.halves; book = e.book } };
}

impl Ears {
    /// Nothing was heard yet.
    pub fn new(alloc: Global) -> Ears
        ensures { result ≡ no_ears }
    {
        Ears {
            alloc,
            halves: Joiner::new(alloc),
            book: Book::new(alloc),
        }
    }

    /// The addresses.
    pub fn book(&self) -> &Book
        ensures { result.now ≡ self.now.book }
    {
        &self.book
    }

    /// The DIR, say, is reached there.
    pub fn put(&mut self, node: NodeId, address: Address) -> Result<(), OutOfMemory>
        ensures { OnOk result (self.new ≡
            record self.old { book = with_address self.old.book node address }) }
    {
        self.book.put(node, address)
    }

    /// What comes of a joined message: the message, if it is one whole frame for this node, of the first list of its file.
    fn hear_whole(
        &mut self,
        node: NodeId,
        peer: Address,
        whole: &Whole,
    ) -> Result<Option<Msg>, OutOfMemory>
        ensures heard { IfOk result (λ message.
            whole_heard node peer self.old (Some whole.now) ≡ record { ears = self.new; message = message }) }
        ensures fits { IfOk result (λ message. IfSome message FitsMessage) }
    {
        self.book.put(whole.sender, peer)?;
        let bytes = whole.bytes.as_slice();
        match decode(self.alloc, bytes) {
            Ok((msg, len)) => {
                if len != bytes.len() || msg.to != node || msg.list != FIRST_LIST {
                    return Ok(None);
                }
                self.book.learn(&msg)?;
                Ok(Some(msg))
            }
            Err(FrameErr::OutOfMemory) => Err(AllocError),
            Err(_) => Ok(None),
        }
    }

    /// Hears a datagram: the message for this node that is whole with it, if any.
    pub fn hear(
        &mut self,
        node: NodeId,
        peer: Address,
        part: &[u8],
    ) -> Result<Option<Msg>, OutOfMemory>
        ensures heard { IfOk result (λ message.
            hears node self.old (record { peer = peer; bytes = part.now }) ≡
            record { ears = self.new; message = message }) }
        ensures fits { IfOk result (λ message. IfSome message FitsMessage) }
    {
        match self.halves.take(part) {
            Ok(Some(whole)) => self.hear_whole(node, peer, &whole),
            Ok(None) => Ok(None),
            Err(JoinErr::BadPart) => Ok(None),
            Err(JoinErr::OutOfMemory) => Err(AllocError),
        }
    }
}
