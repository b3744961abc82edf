ghost use Rattle.std.specs.Prelude.{◌≡◌, ◌++◌, ◌∷◌, ◌==◌, [], true, false, not, filter, length, is_some, Some, None, IfOk, OnOk, OnErr};
ghost use Rattle.xt_protocol.specs.Asks as rows;
ghost use Rattle.xt_protocol.specs.Turns as turns;
ghost use Rattle.xt_protocol.specs.Overdue as overdue;
ghost use Rattle.osd_requests.specs.Due as due;
ghost use Rattle.std.specs.List.{list_any};

use std::alloc::{AllocError, Global};
use std::marker::Model;
use std::mem;
use xt_base::{Copies, FileId, NodeId, OpId, OutOfMemory, Seq};
use xt_messages::{Msgs, Reply};
use xt_protocol::{IssuedAsk, WaitingAsk, reply_to};

/// How many asks of a file may wait.
const WAITING: usize = 64;

/// The asks of a file that aren't answered: those that wait, in order, and that of the issued update.
#[derive(Drop)]
pub struct OpenAsks {
    waiting: Seq<WaitingAsk>,
    issued: Option<IssuedAsk>,
}

impl Model for OpenAsks {
    ghost use Rattle.xt_protocol.specs.declared.states.Asks.{Asks};

    ghost Value = { Asks };

    ghost view = { λ a. record { waiting = a.waiting; issued = a.issued } };
}

/// Adds the reply to the ask of this id, after the messages.
fn tell(
    alloc: Global,
    outs: &mut Msgs,
    node: NodeId,
    file: &FileId,
    id: OpId,
    reply: &Reply,
) -> Result<(), OutOfMemory>
    ensures { OnOk result (outs.new ≡ outs.old ++ turns.reply_to node file.now id reply.now ∷ []) }
{
    outs.push(reply_to(node, file, id, reply.copy(alloc)?))
}

/// Adds the replies to these asks, after the messages.
fn tell_each(
    alloc: Global,
    outs: &mut Msgs,
    node: NodeId,
    file: &FileId,
    asks: &[WaitingAsk],
    reply: &Reply,
) -> Result<(), OutOfMemory>
    ensures { OnOk result (outs.new ≡ outs.old
        ++ rows.tells_each node file.now asks.now reply.now) }
{
    for ask in asks {
        tell(alloc, outs, node, file, ask.id, reply)?;
    }
    Ok(())
}

/// Adds the reply to the issued ask, after the messages, unless it was answered before.
fn tell_untold(
    alloc: Global,
    outs: &mut Msgs,
    node: NodeId,
    file: &FileId,
    issued: &Option<IssuedAsk>,
    reply: &Reply,
) -> Result<(), OutOfMemory>
    ensures { OnOk result (outs.new ≡ outs.old
        ++ rows.tells_untold node file.now issued.now reply.now) }
{
    if let Some(issued) = issued
        && !issued.told
    {
        tell(alloc, outs, node, file, issued.ask.id, reply)?;
    }
    Ok(())
}

/// Adds the replies to those of these asks whose deadline has come, after the messages.
fn tell_due_of(
    alloc: Global,
    outs: &mut Msgs,
    node: NodeId,
    file: &FileId,
    asks: &[WaitingAsk],
    now: u64,
    reply: &Reply,
) -> Result<(), OutOfMemory>
    ensures { OnOk result (outs.new ≡ outs.old
        ++ rows.tells_each node file.now (filter (overdue.is_due now) asks.now) reply.now) }
{
    for ask in asks {
        if ask.deadline <= now {
            tell(alloc, outs, node, file, ask.id, reply)?;
        }
    }
    Ok(())
}

/// Whether an ask of this id waits.
fn waits(waiting: &[WaitingAsk], id: OpId) -> bool
    ensures { result ≡ list_any (λ w. rows.is_id w.id id) waiting.now }
{
    waiting.iter().any(|ask| ask.id == id)
}

/// Whether the issued ask has this id, if there is one.
fn is_issued(issued: &Option<IssuedAsk>, id: OpId) -> bool
    ensures { result ≡ rows.is_issued_ask issued.now id }
{
    match issued {
        Some(issued) => issued.ask.id == id,
        None => false,
    }
}

/// Adds the reply to the issued ask, after the messages, where its deadline has come and it wasn't answered.
fn tell_issued_due(
    alloc: Global,
    outs: &mut Msgs,
    node: NodeId,
    file: &FileId,
    issued: &Option<IssuedAsk>,
    now: u64,
    reply: &Reply,
) -> Result<(), OutOfMemory>
    ensures { OnOk result (outs.new ≡
        outs.old ++ rows.tells_untold node file.now (overdue.newly_due now issued.now) reply.now) }
{
    match issued {
        Some(issued) if issued.ask.deadline <= now && !issued.told => {
            tell(alloc, outs, node, file, issued.ask.id, reply)
        }
        _ => Ok(()),
    }
}

/// Whether the deadline of one of these asks has come.
fn are_waiting_due(waiting: &[WaitingAsk], now: u64) -> bool
    ensures { result ≡ list_any (overdue.is_due now) waiting.now }
{
    waiting.iter().any(|ask| ask.deadline <= now)
}

/// Whether the deadline of the issued ask has come, and it wasn't answered.
fn is_issued_due(issued: &Option<IssuedAsk>, now: u64) -> bool
    ensures { result ≡ due.is_issued_due now issued.now }
{
    match issued {
        Some(issued) => issued.ask.deadline <= now && !issued.told,
        None => false,
    }
}

/// Drops the asks whose deadline has come.
fn drop_due(waiting: &mut Seq<WaitingAsk>, now: u64)
    ensures { waiting.new ≡ filter (λ w. not (overdue.is_due now w)) waiting.old }
{
    waiting.items.retain(|ask| !(ask.deadline <= now));
}

/// The issued ask counts as answered where its deadline has come.
fn mark_due(issued: &mut Option<IssuedAsk>, now: u64)
    ensures { issued.new ≡ overdue.issued_due now issued.old }
{
    if let Some(issued) = issued
        && issued.ask.deadline <= now
    {
        issued.told = true;
    }
}

impl OpenAsks {
    /// None is there.
    pub fn new(alloc: Global) -> OpenAsks
        ensures { result ≡ rows.no_asks }
    {
        OpenAsks {
            waiting: Seq::new(alloc),
            issued: None,
        }
    }

    /// Whether an ask of this id waits or is issued.
    pub fn has(&self, id: OpId) -> bool
        ensures { result ≡ rows.asked_already self.now id }
    {
        waits(self.waiting.as_slice(), id) || is_issued(&self.issued, id)
    }

    /// Whether an update is issued for an ask.
    pub fn has_issued(&self) -> bool
        ensures { result ≡ is_some self.now.issued }
    {
        self.issued.is_some()
    }

    /// Puts an ask after those that wait. Where 64 wait it is lost.
    pub fn wait(&mut self, ask: WaitingAsk) -> Result<(), OutOfMemory>
        ensures ok { OnOk result (self.new ≡ rows.waits self.old ask) }
        ensures err { OnErr result (self.new ≡ self.old) }
    {
        if self.waiting.len() < WAITING {
            self.waiting.push(ask)?;
        }
        Ok(())
    }

    /// An ask that waited stays, after the others that do.
    pub fn stay(&mut self, ask: WaitingAsk) -> Result<(), OutOfMemory>
        ensures ok { OnOk result (self.new ≡ rows.stays self.old ask) }
        ensures err { OnErr result (self.new ≡ self.old) }
    {
        self.waiting.push(ask)
    }

    /// An update was issued for this ask, whose client has got no answer yet.
    pub fn issue(&mut self, ask: WaitingAsk)
        ensures { self.new ≡
            record self.old { issued = Some (record { ask = ask; told = false }) } }
    {
        self.issued = Some(IssuedAsk { ask, told: false });
    }

    /// The asks that wait, in order. None is left.
    pub fn take_waiting(&mut self, alloc: Global) -> Seq<WaitingAsk>
        ensures waited { result ≡ self.old.waiting }
        ensures left { self.new ≡ rows.no_asks }
    {
        self.issued = None;
        mem::replace(&mut self.waiting, Seq::new(alloc))
    }

    /// The ask of an update that was lost waits again, before all others.
    pub fn come_back(&mut self) -> Result<(), OutOfMemory>
        ensures ok { OnOk result (self.new ≡ rows.comes_back self.old) }
        ensures err { OnErr result (self.new ≡ self.old) }
    {
        let Some(IssuedAsk { ask, told }) = self.issued.take() else {
            return Ok(());
        };
        match self.waiting.items.insert(0, ask) {
            Ok(()) => Ok(()),
            Err(full) => {
                self.issued = Some(IssuedAsk {
                    ask: full.value,
                    told,
                });
                Err(AllocError)
            }
        }
    }

    /// The answers to the asks that wait, in order.
    pub fn told_waiting(
        &self,
        alloc: Global,
        node: NodeId,
        file: &FileId,
        reply: &Reply,
    ) -> Result<Msgs, OutOfMemory>
        ensures { IfOk result (λ outs. outs ≡
            rows.tells_each node file.now self.now.waiting reply.now) }
    {
        let mut outs = Seq::new(alloc);
        tell_each(alloc, &mut outs, node, file, self.waiting.as_slice(), reply)?;
        Ok(outs)
    }

    /// None waits any more. The issued one stays.
    pub fn drop_waiting(&mut self)
        ensures { self.new ≡ record self.old { waiting = [] } }
    {
        self.waiting.items.clear();
    }

    /// The answers to all asks: to the issued one, unless it was answered, and then to those that wait, in order.
    pub fn told_all(
        &self,
        alloc: Global,
        node: NodeId,
        file: &FileId,
        reply: &Reply,
    ) -> Result<Msgs, OutOfMemory>
        ensures { IfOk result (λ outs. outs ≡
            rows.tells_untold node file.now self.now.issued reply.now
            ++ rows.tells_each node file.now self.now.waiting reply.now) }
    {
        let mut outs = Seq::new(alloc);
        tell_untold(alloc, &mut outs, node, file, &self.issued, reply)?;
        tell_each(alloc, &mut outs, node, file, self.waiting.as_slice(), reply)?;
        Ok(outs)
    }

    /// No ask is left.
    pub fn drop_all(&mut self)
        ensures { self.new ≡ rows.no_asks }
    {
        self.waiting.items.clear();
        self.issued = None;
    }

    /// The answers to the asks whose deadline has come by the clock `now`: to those that wait, in order, and then to the
    /// issued one, unless it was answered before.
    pub fn told_due(
        &self,
        alloc: Global,
        node: NodeId,
        file: &FileId,
        now: u64,
        reply: &Reply,
    ) -> Result<Msgs, OutOfMemory>
        ensures { IfOk result (λ outs. outs ≡
            rows.tells_each node file.now (filter (overdue.is_due now) self.now.waiting) reply.now
            ++ rows.tells_untold node file.now (overdue.newly_due now self.now.issued) reply.now) }
    {
        let mut outs = Seq::new(alloc);
        tell_due_of(
            alloc,
            &mut outs,
            node,
            file,
            self.waiting.as_slice(),
            now,
            reply,
        )?;
        tell_issued_due(alloc, &mut outs, node, file, &self.issued, now, reply)?;
        Ok(outs)
    }

    /// The asks whose deadline has come by the clock `now` are gone where they waited. The issued one stays, and counts as
    /// answered where its deadline has come.
    pub fn drop_due(&mut self, now: u64)
        ensures { self.new ≡
            record {
              waiting = filter (λ w. not (overdue.is_due now w)) self.old.waiting;
              issued = overdue.issued_due now self.old.issued;
            } }
    {
        mark_due(&mut self.issued, now);
        drop_due(&mut self.waiting, now);
    }

    /// Whether the deadline of an ask has come by the clock `now`: of one that waits, or of the issued one, unless it was
    /// answered. Where none is due, [`OpenAsks::told_due`] gives no message, and [`OpenAsks::drop_due`] changes nothing.
    pub fn are_due(&self, now: u64) -> bool
        ensures exact { result ≡ due.are_due now self.now }
        ensures none { result ≡ false → due.NoneDue now self.now }
    {
        are_waiting_due(self.waiting.as_slice(), now) || is_issued_due(&self.issued, now)
    }

    /// Whether no ask waits.
    pub fn none_waits(&self) -> bool
        ensures exact { result ≡ (length self.now.waiting == 0) }
        ensures none { result ≡ true → self.now.waiting ≡ [] }
    {
        self.waiting.len() == 0
    }

    /// No update is issued any more. The asks that wait stay.
    pub fn forget_issued(&mut self)
        ensures { self.new ≡ record self.old { issued = None } }
    {
        self.issued = None;
    }
}

/// An equal copy of an ask.
fn copy_of(ask: &WaitingAsk, alloc: Global) -> Result<WaitingAsk, OutOfMemory>
    ensures { IfOk result (λ made. made ≡ ask.now) }
{
    Ok(WaitingAsk {
        id: ask.id,
        epoch: ask.epoch,
        op: ask.op.copy(alloc)?,
        deadline: ask.deadline,
    })
}

/// An equal copy of the asks that wait.
fn copy_waiting(asks: &[WaitingAsk], alloc: Global) -> Result<Seq<WaitingAsk>, OutOfMemory>
    ensures { IfOk result (λ made. made ≡ asks.now) }
{
    let mut made = Vec::with_capacity(alloc, asks.len())?;
    for ask in asks {
        made.push(copy_of(ask, alloc)?)?;
    }
    Ok(Seq { items: made })
}

/// An equal copy of the issued ask, if there is one.
fn copy_issued(issued: &Option<IssuedAsk>, alloc: Global) -> Result<Option<IssuedAsk>, OutOfMemory>
    ensures { IfOk result (λ made. made ≡ issued.now) }
{
    match issued {
        Some(issued) => Ok(Some(IssuedAsk {
            ask: copy_of(&issued.ask, alloc)?,
            told: issued.told,
        })),
        None => Ok(None),
    }
}

impl Copies for OpenAsks {
    fn copy(&self, alloc: Global) -> Result<OpenAsks, OutOfMemory> {
        Ok(OpenAsks {
            waiting: copy_waiting(self.waiting.as_slice(), alloc)?,
            issued: copy_issued(&self.issued, alloc)?,
        })
    }
}
