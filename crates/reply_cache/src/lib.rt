//! The numbers and answers that a server keeps of its clients: of each the last request that it recorded, and what it answered.
//!
//! A client whose answer was lost asks again under the same number. `standing` says how a request's number stands to the kept
//! one: the same number gets the same answer, whatever is asked; an older one gets none; any other is fresh. A server makes room
//! (`reserve`) before it changes anything, so that to keep an answer (`keep`) can't fail.
#![tactic(auto)]

ghost use Rattle.std.specs.Prelude.{◌≡◌, ◌<◌, [], IfOk, OnOk};
ghost use Rattle.reply_cache.specs.Standings.{standing_of, with_answer};

use indexmap::IndexMap;
use std::alloc::Global;
use std::marker::Model;
use xt_base::{Copies, NodeId, OutOfMemory};

/// The last recorded request of a client: its number, and what it was answered.
#[derive(Drop)]
pub struct Kept<A> {
    pub number: u64,
    pub answer: A,
}

/// How a request's number stands to its client's last recorded one.
#[derive(Drop)]
pub enum Standing<A> {
    /// Above it, or nothing of the client is recorded.
    Fresh,
    /// The same.
    Again { answer: A },
    /// Below it.
    Older,
}

/// What is kept of each client. Contracts see it by the client, in the order of their first recorded requests, and how many more
/// clients there is room for.
#[derive(Drop)]
pub struct ReplyCache<A> {
    clients: IndexMap<u32, Kept<A>>,
}

impl<A> Model for ReplyCache<A> {
    ghost use Rattle.indexmap.specs.IndexMap.{spare};
    ghost use Rattle.reply_cache.specs.Standings.{Clients};

    ghost Value = { Clients A };

    ghost view = { λ k. record { kept = k.clients.entries; room = spare k.clients } };
}

impl<A> ReplyCache<A> {
    /// Nothing is kept.
    pub fn new(alloc: Global) -> ReplyCache<A>
        ensures { result.kept ≡ [] }
    {
        ReplyCache {
            clients: IndexMap::new(alloc),
        }
    }

    /// How a request's number stands to the kept one of its client.
    pub fn standing(
        &self,
        alloc: Global,
        client: NodeId,
        number: u64,
    ) -> Result<Standing<A>, OutOfMemory>
    where
        A: Copies,
        ensures { IfOk result (λ standing. standing ≡ standing_of self.now.kept client number) }
    {
        match self.clients.get(&client.0) {
            Some(last) if number == last.number => Ok(Standing::Again {
                answer: last.answer.copy(alloc)?,
            }),
            Some(last) if number < last.number => Ok(Standing::Older),
            _ => Ok(Standing::Fresh),
        }
    }

    /// Makes room for one more client.
    pub fn reserve(&mut self) -> Result<(), OutOfMemory>
        ensures kept { self.new.kept ≡ self.old.kept }
        ensures room { OnOk result (0 < self.new.room) }
    {
        self.clients.reserve(1)
    }

    /// Keeps the number and the answer of a client's request, in place of the last one's. There is room for it.
    pub fn keep(&mut self, client: NodeId, number: u64, answer: A)
    where
        A: Drop,
        requires { 0 < self.old.room }
        ensures { self.new.kept ≡ with_answer self.old.kept client number answer }
    {
        match self.clients.insert(client.0, Kept { number, answer }) {
            Ok(_) => {}
            Err(_) => unreachable!(),
        }
    }
}
