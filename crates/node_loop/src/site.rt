ghost use Rattle.std.specs.Prelude.{◌≡◌, ◌≤◌, ◌<◌, ◌^◌, ℕ, List, [], ◌∷◌, length, max, true, Option, Some, None, Ok, IfOk, IfErr, OnOk};
ghost use Rattle.std.specs.Option.{IfSome};
ghost use Rattle.std.specs.List.{All};
ghost use Rattle.xt_messages.specs.Limits.{FitsEvent, FitsMessage};
ghost use Rattle.xt_protocol.specs.Forgetting.{rewritten};
ghost use Rattle.object_store.specs.Access.{records_of};
ghost use Rattle.object_store.specs.Texts.{AreRecords};
ghost use Rattle.node_loop.specs.Stores.{journal_at};
ghost use Rattle.object_store.specs.Waits.{CanBePut, recs_of};
ghost use Rattle.node_runs.specs.Runs.{meets, event_in, ends_event, next_due, is_due, area_at};
ghost use Rattle.node_loop.specs.Batched.{HasMailed, HasStaged, held_of, journal_then, kept_of, posts_of, puts_of};
ghost use Rattle.node_loop.specs.Events.{EndsEvent, Seeing};
ghost use Rattle.node_loop.specs.Turns.{standing, turn_of, IsWithin, HasActed};
ghost use Rattle.node_loop.specs.Settling.{HasSettled};

use crate::batch::Batch;
use crate::compacting::{Rewritten, is_due, rewrite};
use crate::event::{Ended, Stop, step_on};
use crate::node::Node;
use crate::opening::Opening;
use crate::sending::mail;
use disk_model::Disk;
use node_links::Link;
use node_mail::{Ears, Sender};
use object_store::Store;
use own_messages::OwnMessages;
use std::alloc::Global;
use xt_base::OutOfMemory;
use xt_messages::{Event, Keep, Status};
use xt_parts::PartBuffer;

/// What a served node holds beside its store and its link.
#[derive(Drop)]
pub struct Site<N: Node> {
    pub node: N,
    pub sender: Sender,
    /// Where the parts of a message are cut, one at a time.
    pub part: PartBuffer,
    pub ears: Ears,
    pub own: OwnMessages,
    /// The reading that was used last.
    pub clock: u64,
    /// When the next Wake is due.
    pub due: u64,
    /// A Wake was handled, and the node hasn't checked since whether its records are to be rewritten.
    pub woken: bool,
}

/// When the next Wake is due after this one, in milliseconds of the node's clock.
fn later(period: u64, now: u64, due: u64) -> u64
    requires { (period < 2 ^ 62) × (now < 2 ^ 62) }
    ensures { result ≡ next_due period now due }
{
    let next = due.saturating_add(period);
    if next <= now { now + period } else { next }
}

impl<N: Node> Site<N> {
    /// The event of a turn that has begun so: a Wake, or a message that is whole with the datagram received; none while it isn't whole.
    pub fn meet(
        &mut self,
        period: u64,
        opening: Opening,
        reading: u64,
        buf: &[u8],
    ) -> Result<Option<Event>, OutOfMemory>
        requires clocks { (period < 2 ^ 62) × (self.old.clock < 2 ^ 62) × (reading < 2 ^ 62) }
        requires within { IsWithin buf.now opening }
        requires home { self.old.sender.node ≡ (N.role self.old.node).node }
        ensures met { (kept : _) (journal : _) → IfOk result (λ happens.
            standing (N.state self.new.node) kept journal self.new.own self.new.ears self.new.clock
            self.new.due self.new.sender.count self.new.woken
            ≡ meets (N.role self.old.node) self.old.sender.boot period
            (standing (N.state self.old.node) kept journal self.old.own self.old.ears self.old.clock
            self.old.due self.old.sender.count self.old.woken) (turn_of buf.now opening reading)) }
        ensures happens { (kept : _) (journal : _) → IfOk result (λ happens. happens ≡
            event_in (N.role self.old.node) self.old.sender.boot period
            (standing (N.state self.old.node) kept journal self.old.own self.old.ears self.old.clock
            self.old.due self.old.sender.count self.old.woken) (turn_of buf.now opening reading)) }
        ensures fits { IfOk result (λ happens. IfSome happens FitsEvent) }
        ensures same { (self.new.node ≡ self.old.node) × (self.new.sender ≡ self.old.sender)
            × (self.new.own ≡ self.old.own) }
        ensures clock { (self.old.clock ≤ self.new.clock) × (self.new.clock < 2 ^ 62) }
    {
        self.clock = self.clock.max(reading);
        match opening {
            Opening::NoTimeLeft | Opening::NothingCame => {
                self.due = later(period, self.clock, self.due);
                self.woken = true;
                Ok(Some(Event::Wake))
            }
            Opening::Piece { from, len } => {
                match self.ears.hear(self.sender.node, from, &buf[..len])? {
                    Some(msg) => Ok(Some(Event::Deliver(msg))),
                    None => Ok(None),
                }
            }
        }
    }

    /// Whether an event ends the node.
    pub fn ends(&self, happens: &Event) -> Result<bool, OutOfMemory>
        ensures { IfOk result (λ ends. ends ≡
            ends_event (N.role self.now.node) self.now.sender.boot 0 (Some happens.now)) }
    {
        match happens {
            Event::Deliver(msg) => self.node.stops(msg),
            Event::Wake | Event::Call(_) => Ok(false),
        }
    }

    /// Handles an event: its step; its record then waits after the others, and its messages are sent at once or wait. Those to the node itself are
    /// queued.
    pub fn act<L: Link, D: Disk>(
        &mut self,
        alloc: Global,
        link: &mut L,
        store: &Store<D>,
        batch: &mut Batch,
        happens: &Event,
    ) -> Result<(), Stop>
        requires clock { self.old.clock < 2 ^ 62 }
        requires event { FitsEvent happens.now }
        requires home { self.old.sender.node ≡ (N.role self.old.node).node }
        requires runs { N.runs_on self.old.node (kept_of store.now batch.old) }
        requires own { All FitsMessage self.old.own }
        requires may { CanBePut store.now (recs_of batch.old.records) }
        ensures given { L.given link.new ≡ L.given link.old }
        ensures faults { L.fault_count link.new ≡ L.fault_count link.old }
        ensures same { (self.new.sender.node ≡ self.old.sender.node)
            × (self.new.sender.boot ≡ self.old.sender.boot)
            × (self.new.clock ≡ self.old.clock)
            × (self.new.woken ≡ self.old.woken) }
        ensures role { OnOk result (N.role self.new.node ≡ N.role self.old.node) }
        ensures runs { OnOk result (N.runs_on self.new.node (kept_of store.now batch.new)) }
        ensures own { OnOk result (All FitsMessage self.new.own) }
        ensures may { CanBePut store.now (recs_of batch.new.records) }
        ensures acted { OnOk result (HasActed D.is_told (N.role self.old.node) self.old.sender.boot
            (held_of N.state self.old store.now batch.old).now happens.now (held_of N.state self.new store.now batch.new).now
            (HasMailed (puts_of D.is_told batch.new) (posts_of batch.old) (posts_of batch.new)
            (L.sent link.old) (L.sent link.new) (L.loss_count link.old) (L.loss_count link.new))) }
        ensures ends { IfErr result (λ why. Seeing D.is_told (kept_of store.now batch.old) (λ seen. EndsEvent
            ((N.role self.old.node).step seen (N.state self.old.node) self.old.clock happens.now)
            (N.role self.old.node).node self.old.sender.boot self.old.ears.book self.old.sender.count
            (journal_then store.now batch.old)
            (HasMailed (puts_of D.is_told batch.new) (posts_of batch.old) (posts_of batch.new)
            (L.sent link.old) (L.sent link.new) (L.loss_count link.old) (L.loss_count link.new))
            (HasStaged D.is_told (journal_then store.now batch.old) (puts_of D.is_told batch.old) (puts_of D.is_told batch.new))
            why)) }
    {
        let turned = match step_on(
            alloc,
            &mut self.node,
            store,
            &batch.records,
            self.clock,
            happens,
        ) {
            Ok(turned) => turned,
            Err(why) => return Err(why),
        };
        let (rec, outs, _marks) = turned.into_parts();
        match batch.stage(alloc, store, &rec) {
            Ok(()) => {}
            Err(why) => return Err(why),
        }
        let book = self.ears.book();
        let Ok(()) = mail(
            alloc,
            &mut self.sender,
            &mut self.part,
            book,
            outs.as_slice(),
            batch,
            link,
        ) else {
            return Err(Stop::With(Status::OutOfMemory));
        };
        match self.own.put(self.sender.node, outs) {
            Ok(()) => Ok(()),
            Err(_) => Err(Stop::With(Status::OutOfMemory)),
        }
    }

    /// Looks at the records, after a Wake and all that came of it: they are rewritten where they have grown so much, and the node
    /// forgets the bodies that it doesn't need.
    pub fn settle<D: Disk>(&mut self, alloc: Global, store: Store<D>) -> Result<Store<D>, Ended<D>>
        requires woken { (self.old.own ≡ []) × (self.old.woken ≡ true) }
        requires runs { N.runs_on self.old.node (records_of store) }
        ensures { HasSettled N.role N.state N.runs_on self.old self.new store result }
    {
        if !is_due(&store.area()) {
            self.woken = false;
            return Ok(store);
        }
        match self.node.keep(alloc) {
            Ok(Some(keep)) => self.settle_with(alloc, store, &keep),
            Ok(None) => {
                self.woken = false;
                Ok(store)
            }
            Err(_) => Err(Ended {
                status: Status::OutOfMemory,
                disk: store.close(),
            }),
        }
    }

    /// Rewrites the records with these bodies, which are all that the node needs. They stay where the journal has no room for that.
    fn settle_with<D: Disk>(
        &mut self,
        alloc: Global,
        store: Store<D>,
        keep: &Keep,
    ) -> Result<Store<D>, Ended<D>>
        requires woken { (self.old.own ≡ []) × (self.old.woken ≡ true) }
        requires due { is_due (area_at (journal_at store)) ≡ true }
        requires needs { (N.role self.old.node).keeps (N.state self.old.node) ≡ Some keep.now }
        requires may { AreRecords (rewritten keep.now (records_of store)) }
        requires runs { N.runs_on self.old.node (records_of store) }
        ensures { HasSettled N.role N.state N.runs_on self.old self.new store result }
    {
        match rewrite(alloc, store, keep) {
            Ok(Rewritten::Done(store)) => {
                self.woken = false;
                self.node.forget(keep);
                Ok(store)
            }
            Ok(Rewritten::NoRoom(store)) => {
                self.woken = false;
                Ok(store)
            }
            Err(ended) => Err(ended),
        }
    }
}
