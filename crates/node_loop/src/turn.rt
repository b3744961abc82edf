ghost use Rattle.std.specs.Prelude.{◌≡◌, ◌≤◌, ◌<◌, ◌^◌, ◌+◌, [], false, true, length, IfOk, IfErr};
ghost use Rattle.std.specs.List.{All};
ghost use Rattle.xt_messages.specs.Limits.{FitsMessage};
ghost use Rattle.object_store.specs.Waits.{CanBePut, recs_of};
ghost use Rattle.node_runs.specs.Serving.{HasServeCause};
ghost use Rattle.node_loop.specs.Batched.{held_of, kept_of, posts_of, puts_of};
ghost use Rattle.node_loop.specs.Passing.{HasPassed, HasStopped, IsIdle, WentOn, status_of};

use crate::batch::Batch;
use crate::event::Stop;
use crate::node::Node;
use crate::opening::begin;
use crate::site::Site;
use disk_model::Disk;
use node_links::{Clock, Link};
use object_store::Store;
use std::alloc::Global;
use xt_messages::Status;

/// How many turns a node may take, and how many milliseconds lie between its Wakes.
#[derive(Clone, Copy)]
pub struct Bounds {
    pub turns: u64,
    pub period: u64,
}

/// What a served node does next.
#[derive(Clone, Copy)]
pub enum Next {
    /// It goes on.
    Pass,
    /// It puts and sends what waits.
    Commit,
    /// It looks at its records, after a Wake. Nothing waits.
    Look,
}

impl<N: Node> Site<N> {
    /// Takes a turn: receives or wakes, reads the clock, and handles the event that it comes to, if any. Where something waits, it takes none but with
    /// a datagram that is there already.
    pub fn turn<L: Link, C: Clock, D: Disk>(
        &mut self,
        alloc: Global,
        link: &mut L,
        clock: &mut C,
        store: &Store<D>,
        batch: &mut Batch,
        bounds: Bounds,
        spent: &mut u64,
        buf: &mut [u8],
    ) -> Result<Next, Stop>
        requires room { 65536 ≤ length buf.old }
        requires clocks { (bounds.period < 2 ^ 62) × (self.old.clock < 2 ^ 62) }
        requires home { self.old.sender.node ≡ (N.role self.old.node).node }
        requires between { (self.old.own ≡ []) × (self.old.woken ≡ false) }
        requires more { spent.old < bounds.turns }
        requires runs { N.runs_on self.old.node (kept_of store.now batch.old) }
        requires may { CanBePut store.now (recs_of batch.old.records) }
        ensures long { length buf.new ≡ length buf.old }
        ensures same { IfOk result (λ next. (self.new.sender.node ≡ self.old.sender.node)
            × (self.new.sender.boot ≡ self.old.sender.boot)
            × (N.role self.new.node ≡ N.role self.old.node)) }
        ensures clocks { IfOk result (λ next. (self.new.clock < 2 ^ 62) × (spent.new ≤ bounds.turns)) }
        ensures own { IfOk result (λ next. All FitsMessage self.new.own) }
        ensures runs { IfOk result (λ next. N.runs_on self.new.node (kept_of store.now batch.new)) }
        ensures may { CanBePut store.now (recs_of batch.new.records) }
        ensures faults { IfOk result (λ next. (L.fault_count link.new ≡ L.fault_count link.old)
            × (C.fault_count clock.new ≡ C.fault_count clock.old)) }
        ensures went { IfOk result (λ next. WentOn
            (HasPassed D.is_told (N.role self.old.node) self.old.sender.boot bounds.period
            (held_of N.state self.old store.now batch.old) (held_of N.state self.new store.now batch.new) spent.old spent.new
            (L.given link.old) (L.given link.new) (L.sent link.old) (L.sent link.new)
            (L.loss_count link.old) (L.loss_count link.new) (C.readings clock.old) (C.readings clock.new))
            (IsIdle (held_of N.state self.old store.now batch.old) (held_of N.state self.new store.now batch.new) spent.old spent.new
            (L.given link.old) (L.given link.new) (L.sent link.old) (L.sent link.new)
            (L.loss_count link.old) (L.loss_count link.new) (C.readings clock.old) (C.readings clock.new))
            ⊥ next) }
        ensures stopped { IfErr result (HasStopped D.is_told (N.role self.old.node) self.old.sender.boot
            bounds.period bounds.turns spent.old (held_of N.state self.old store.now batch.old) (puts_of D.is_told batch.new) (posts_of batch.new)
            (L.given link.old) (L.given link.new) (L.sent link.old) (L.sent link.new)
            (L.loss_count link.old) (L.loss_count link.new) (C.readings clock.old) (C.readings clock.new)) }
        ensures cause { IfErr result (λ why. HasServeCause
            (L.fault_count link.old) (L.fault_count link.new)
            (C.fault_count clock.old) (C.fault_count clock.new) (status_of 0 why)) }
    {
        let left = self.due.saturating_sub(self.clock);
        let waits = !batch.is_empty();
        let (opening, reading) = match begin(link, clock, left, waits, buf) {
            Ok(Some(begun)) => begun,
            Ok(None) => return Ok(Next::Commit),
            Err(status) => return Err(Stop::With(status)),
        };
        batch.note_turn();
        *spent += 1;
        let Ok(happens) = self.meet(bounds.period, opening, reading, buf) else {
            return Err(Stop::With(Status::OutOfMemory));
        };
        let Some(happens) = happens else {
            return Ok(Next::Pass);
        };
        match self.ends(&happens) {
            Ok(false) => match self.act(alloc, link, store, batch, &happens) {
                Ok(()) => Ok(Next::Pass),
                Err(why) => Err(why),
            },
            Ok(true) => Err(Stop::With(Status::Done)),
            Err(_) => Err(Stop::With(Status::OutOfMemory)),
        }
    }
}
