ghost use Rattle.std.specs.Prelude.{◌≡◌, ◌≤◌, ◌<◌, ◌^◌, ◌+◌, [], ◌∷◌, true, length, IfOk, IfErr};
ghost use Rattle.std.specs.List.{All};
ghost use Rattle.xt_messages.specs.Limits.{FitsMessage};
ghost use Rattle.object_store.specs.Access.{records_of, disk_of};
ghost use Rattle.object_store.specs.Waits.{CanBePut, recs_of};
ghost use Rattle.node_runs.specs.Batches.{kept_at};
ghost use Rattle.node_runs.specs.BatchEnds.{HasBatchCause, IsServedInBatches, KeepsBatches};
ghost use Rattle.node_runs.specs.Serving.{HasServeCause};
ghost use Rattle.node_loop.specs.Batched.{held_of, kept_of, posts_of, puts_of};
ghost use Rattle.node_loop.specs.Events.{HasDiskCause};
ghost use Rattle.node_loop.specs.Passing.{Advances, HasEnded, HasPassed, HasStopped, IsIdle, Looks, WentOn, status_of};
ghost use Rattle.node_loop.specs.Settling.{served_of};

use crate::batch::Batch;
use crate::event::{Ended, Stop};
use crate::node::Node;
use crate::site::Site;
use crate::turn::{Bounds, Next};
use disk_model::Disk;
use node_links::{Clock, Link};
use object_store::Store;
use std::alloc::Global;
use xt_messages::{Event, Status};

impl<N: Node> Site<N> {
    /// A message of the node to itself, if there is one; else, after a Wake, a look at the records, once nothing waits; else a turn, if one is left and
    /// more may wait.
    pub fn pass<L: Link, C: Clock, D: Disk>(
        &mut self,
        alloc: Global,
        link: &mut L,
        clock: &mut C,
        store: &Store<D>,
        batch: &mut Batch,
        bounds: Bounds,
        spent: &mut u64,
        buf: &mut [u8],
    ) -> Result<Next, Stop>
        requires room { 65536 ≤ length buf.old }
        requires clocks { (bounds.period < 2 ^ 62) × (self.old.clock < 2 ^ 62) }
        requires home { self.old.sender.node ≡ (N.role self.old.node).node }
        requires own { All FitsMessage self.old.own }
        requires spent { spent.old ≤ bounds.turns }
        requires runs { N.runs_on self.old.node (kept_of store.now batch.old) }
        requires may { CanBePut store.now (recs_of batch.old.records) }
        ensures long { length buf.new ≡ length buf.old }
        ensures same { IfOk result (λ next. (self.new.sender.node ≡ self.old.sender.node)
            × (self.new.sender.boot ≡ self.old.sender.boot)
            × (N.role self.new.node ≡ N.role self.old.node)) }
        ensures clocks { IfOk result (λ next. (self.new.clock < 2 ^ 62) × (spent.new ≤ bounds.turns)) }
        ensures own { IfOk result (λ next. All FitsMessage self.new.own) }
        ensures runs { IfOk result (λ next. N.runs_on self.new.node (kept_of store.now batch.new)) }
        ensures may { CanBePut store.now (recs_of batch.new.records) }
        ensures faults { IfOk result (λ next. (L.fault_count link.new ≡ L.fault_count link.old)
            × (C.fault_count clock.new ≡ C.fault_count clock.old)) }
        ensures went { IfOk result (λ next. WentOn
            (HasPassed D.is_told (N.role self.old.node) self.old.sender.boot bounds.period
            (held_of N.state self.old store.now batch.old) (held_of N.state self.new store.now batch.new) spent.old spent.new
            (L.given link.old) (L.given link.new) (L.sent link.old) (L.sent link.new)
            (L.loss_count link.old) (L.loss_count link.new) (C.readings clock.old) (C.readings clock.new))
            (IsIdle (held_of N.state self.old store.now batch.old) (held_of N.state self.new store.now batch.new) spent.old spent.new
            (L.given link.old) (L.given link.new) (L.sent link.old) (L.sent link.new)
            (L.loss_count link.old) (L.loss_count link.new) (C.readings clock.old) (C.readings clock.new))
            (IsIdle (held_of N.state self.old store.now batch.old) (held_of N.state self.new store.now batch.new) spent.old spent.new
            (L.given link.old) (L.given link.new) (L.sent link.old) (L.sent link.new)
            (L.loss_count link.old) (L.loss_count link.new) (C.readings clock.old) (C.readings clock.new) × Looks self.new.own self.new.woken (recs_of batch.new.records) (posts_of batch.new))
            next) }
        ensures stopped { IfErr result (HasStopped D.is_told (N.role self.old.node) self.old.sender.boot
            bounds.period bounds.turns spent.old (held_of N.state self.old store.now batch.old) (puts_of D.is_told batch.new) (posts_of batch.new)
            (L.given link.old) (L.given link.new) (L.sent link.old) (L.sent link.new)
            (L.loss_count link.old) (L.loss_count link.new) (C.readings clock.old) (C.readings clock.new)) }
        ensures cause { IfErr result (λ why. HasServeCause
            (L.fault_count link.old) (L.fault_count link.new)
            (C.fault_count clock.old) (C.fault_count clock.new) (status_of 0 why)) }
    {
        if let Some(msg) = self.own.take() {
            return match self.act(alloc, link, store, batch, &Event::Deliver(msg)) {
                Ok(()) => Ok(Next::Pass),
                Err(why) => Err(why),
            };
        }
        if self.woken {
            if batch.is_empty() {
                return Ok(Next::Look);
            }
            return Ok(Next::Commit);
        }
        if batch.is_full() {
            return Ok(Next::Commit);
        }
        if *spent == bounds.turns {
            return Err(Stop::With(Status::TurnsSpent {
                turns: bounds.turns,
            }));
        }
        self.turn(alloc, link, clock, store, batch, bounds, spent, buf)
    }

    /// A pass, and what comes next: what waits is put and sent, or the node looks at its records. Where the node ends, what waits is put and
    /// sent before.
    pub fn advance<L: Link, C: Clock, D: Disk>(
        &mut self,
        alloc: Global,
        link: &mut L,
        clock: &mut C,
        store: Store<D>,
        batch: &mut Batch,
        bounds: Bounds,
        spent: &mut u64,
        buf: &mut [u8],
    ) -> Result<Store<D>, Ended<D>>
        requires room { 65536 ≤ length buf.old }
        requires clocks { (bounds.period < 2 ^ 62) × (self.old.clock < 2 ^ 62) }
        requires home { self.old.sender.node ≡ (N.role self.old.node).node }
        requires own { All FitsMessage self.old.own }
        requires spent { spent.old ≤ bounds.turns }
        requires runs { N.runs_on self.old.node (kept_of store batch.old) }
        requires may { CanBePut store (recs_of batch.old.records) }
        ensures long { length buf.new ≡ length buf.old }
        ensures same { IfOk result (λ kept. (self.new.sender.node ≡ self.old.sender.node)
            × (self.new.sender.boot ≡ self.old.sender.boot)
            × (N.role self.new.node ≡ N.role self.old.node)) }
        ensures clocks { IfOk result (λ kept. (self.new.clock < 2 ^ 62) × (spent.new ≤ bounds.turns)) }
        ensures own { IfOk result (λ kept. All FitsMessage self.new.own) }
        ensures runs { IfOk result (λ kept. N.runs_on self.new.node (kept_of kept batch.new)) }
        ensures may { IfOk result (λ kept. CanBePut kept (recs_of batch.new.records)) }
        ensures faults { IfOk result (λ kept. (L.fault_count link.new ≡ L.fault_count link.old)
            × (C.fault_count clock.new ≡ C.fault_count clock.old)) }
        ensures advanced { IfOk result (λ kept. Advances D.is_told (N.role self.old.node) self.old.sender.boot bounds.period
            D.kept D.moment D.left_since (held_of N.state self.old store batch.old) (records_of store) (disk_of store) (disk_of kept) spent.old
            (L.given link.old) (L.given link.new) (L.sent link.old) (L.sent link.new)
            (L.loss_count link.old) (L.loss_count link.new) (C.readings clock.old) (C.readings clock.new)
            (held_of N.state self.new kept batch.new) (records_of kept) spent.new) }
        ensures ended { IfErr result (λ ended. HasEnded D.is_told (N.role self.old.node) self.old.sender.boot bounds.period
            D.kept D.moment D.left_since (held_of N.state self.old store batch.old) (records_of store) (disk_of store) ended.disk spent.old
            (L.given link.old) (L.given link.new) (L.sent link.old) (L.sent link.new)
            (L.loss_count link.old) (L.loss_count link.new) (C.readings clock.old) (C.readings clock.new)
            bounds.turns ended.status) }
        ensures cause { IfErr result (λ ended. HasBatchCause
            (L.fault_count link.old) (L.fault_count link.new)
            (C.fault_count clock.old) (C.fault_count clock.new) ended.status) }
        ensures disk { IfOk result (λ kept. D.fault_count (disk_of kept) ≡
            D.fault_count (disk_of store)) }
        ensures disk_cause { IfErr result (λ ended. HasDiskCause (D.fault_count (disk_of store))
            (D.fault_count ended.disk) ended.status) }
    {
        match self.pass(alloc, link, clock, &store, batch, bounds, spent, buf) {
            Ok(Next::Pass) => Ok(store),
            Ok(Next::Commit) => batch.flush(alloc, &mut self.part, link, store),
            Ok(Next::Look) => self.settle(alloc, store),
            Err(why) => Err(batch.finish(alloc, &mut self.part, link, store, why)),
        }
    }
}

/// Serves a node from the reading of the clock at which it was started, until it ends.
///
/// Events are handled one after the other, and several records are put at once: no message is sent before the records of its step and of
/// all steps before it are on the disk. Nothing waits for company: what waits is put and sent where no datagram is there.
///
/// After each Wake and all that comes of it the records are rewritten, where they have grown so much; only where the journal has no room for
/// that they stay.
///
/// A crash at any moment leaves the records of the store, or those after some batch or some rewriting, and none that are older than what was
/// kept when it came. The disk that is returned has the last of them. Where a put failed, it can have all of the records that were put with it;
/// where memory ran out before a put, nothing was done to it; and if a rewriting failed, it can have the rewritten ones instead.
pub fn serve<N: Node, L: Link, C: Clock, D: Disk>(
    alloc: Global,
    site: &mut Site<N>,
    link: &mut L,
    clock: &mut C,
    store: Store<D>,
    bounds: Bounds,
    buf: &mut [u8],
) -> (Status, D)
    requires room { 65536 ≤ length buf.old }
    requires clocks { (bounds.period < 2 ^ 62) × (site.old.clock < 2 ^ 62) }
    requires home { site.old.sender.node ≡ (N.role site.old.node).node }
    requires own { All FitsMessage site.old.own }
    requires runs { N.runs_on site.old.node (records_of store) }
    ensures served { IsServedInBatches D.is_told (N.role site.old.node) site.old.sender.boot bounds.period
        (served_of N.state site.old store) bounds.turns
        (L.given link.old) (L.given link.new) (L.sent link.old) (L.sent link.new)
        (L.loss_count link.old) (L.loss_count link.new)
        (C.readings clock.old) (C.readings clock.new) result.0 }
    ensures cause { HasBatchCause (L.fault_count link.old) (L.fault_count link.new)
        (C.fault_count clock.old) (C.fault_count clock.new) result.0 }
    ensures disk_cause { HasDiskCause (D.fault_count (disk_of store)) (D.fault_count result.1) result.0 }
    ensures keeps { let start = served_of N.state site.old store in
        (s : IsServedInBatches D.is_told (N.role site.old.node) site.old.sender.boot bounds.period start bounds.turns
        (L.given link.old) (L.given link.new) (L.sent link.old) (L.sent link.new)
        (L.loss_count link.old) (L.loss_count link.new)
        (C.readings clock.old) (C.readings clock.new) result.0)
        × KeepsBatches D.is_told D.kept D.moment D.left_since (disk_of store) result.1 start
        (kept_at D.is_told (N.role site.old.node) site.old.sender.boot bounds.period (L.given link.old) start
        s.to_come s.turns s.posts s.end s.goes) s.end s.left }
{
    let mut batch = Batch::new(alloc);
    let mut store = store;
    let mut spent = 0;
    for _ in 0..u64::MAX {
        match site.advance(
            alloc, link, clock, store, &mut batch, bounds, &mut spent, buf,
        ) {
            Ok(kept) => store = kept,
            Err(Ended { status, disk }) => return (status, disk),
        }
    }
    let why = Stop::With(Status::OutOfMemory);
    let Ended { status, disk } = batch.finish(alloc, &mut site.part, link, store, why);
    (status, disk)
}
