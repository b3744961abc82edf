//! What a served node has handled since its disk and its link were last up to date with it.
ghost use Rattle.std.specs.Prelude.{◌≡◌, ◌≢◌, ◌+◌, ◌↔◌, ◌++◌, ◌∷◌, [], None, IsTrue, IfOk, IfErr, OnOk, OnErr};
ghost use Rattle.std.specs.Option.{IfSome};
ghost use Rattle.xt_messages.specs.Limits.{FitsRecord};
ghost use Rattle.xt_protocol.specs.Folds.{fold_of, IsInPlace};
ghost use Rattle.object_store.specs.Access.{records_of, disk_of};
ghost use Rattle.object_store.specs.Waits.{CanBePut, end_with, recs_of, records_with};
ghost use Rattle.node_runs.specs.Links.{Sends};
ghost use Rattle.node_runs.specs.Runs.{grown, needed_in};
ghost use Rattle.replica_records.specs.Known.{known_of};
ghost use Rattle.node_loop.specs.Batched.{HasStaged, journal_then, kept_of, posts_of, puts_of};
ghost use Rattle.node_loop.specs.Events.{EndsStage, HasDiskCause};
ghost use Rattle.node_loop.specs.Passing.{Changes, EndsCommit, HasFinished, IsDoing, IsReason, status_of};
ghost use Rattle.node_loop.specs.declared.event.Stop.TheVariants as stop;
ghost use Rattle.xt_messages.specs.declared.status.Status.{Status};
ghost use Rattle.node_loop.specs.Stores.{journal_at};

use crate::event::{Ended, Stop, unread};
use disk_model::Disk;
use node_links::Link;
use node_mail::{Post, release_all};
use object_store::{PutAllErr, StageErr, Store, Waiting};
use std::alloc::Global;
use std::mem;
use xt_base::OptionalBox;
use xt_messages::{Record, Status};
use xt_parts::PartBuffer;

/// How many turns may begin while something waits.
const MOST_TURNS: u64 = 64;

/// How many bytes of records may wait before they are put.
const MOST_BYTES: usize = 1_048_576;

/// What waits: records that are to be put on the disk at once, and messages that are to be sent after that.
#[derive(Drop)]
pub struct Batch {
    /// The records, in order.
    pub records: Waiting,
    /// The messages, in order.
    pub posts: Vec<Post>,
    /// How many turns began since something waits.
    pub turns: u64,
}

impl Batch {
    /// Nothing waits.
    pub fn new(alloc: Global) -> Batch
        ensures records { recs_of result.records ≡ [] }
        ensures posts { posts_of result ≡ [] }
    {
        Batch {
            records: Waiting::new(alloc),
            posts: Vec::new(alloc),
            turns: 0,
        }
    }

    /// Whether nothing waits.
    pub fn is_empty(&self) -> bool
        ensures empty { IsTrue result → (recs_of self.now.records ≡ []) × (posts_of self.now ≡ []) }
    {
        self.records.is_empty() && self.posts.is_empty()
    }

    /// Whether no more may wait: it took as many turns as it may, or its records as many bytes.
    pub fn is_full(&self) -> bool {
        self.turns >= MOST_TURNS || self.records.len() >= MOST_BYTES
    }

    /// Counts a turn that begins. Those before the first thing that waits aren't counted.
    pub fn note_turn(&mut self)
        ensures records { self.new.records ≡ self.old.records }
        ensures posts { self.new.posts ≡ self.old.posts }
    {
        let before = if self.is_empty() { 0 } else { self.turns };
        self.turns = before.saturating_add(1);
    }

    /// Lets the record of a step wait, if it has one.
    pub fn stage<D: Disk>(
        &mut self,
        alloc: Global,
        store: &Store<D>,
        rec: &OptionalBox<Record>,
    ) -> Result<(), Stop>
        requires may { CanBePut store.now (recs_of self.old.records) }
        requires fits { IfSome rec.now (λ rec. FitsRecord rec × IsInPlace (fold_of (kept_of store.now self.old)) rec) }
        ensures may { CanBePut store.now (recs_of self.new.records) }
        ensures posts { self.new.posts ≡ self.old.posts }
        ensures staged { OnOk result (HasStaged D.is_told (journal_then store.now self.old)
            (puts_of D.is_told self.old) (puts_of D.is_told self.new) rec.now) }
        ensures journal { OnOk result (journal_then store.now self.new ≡ grown (journal_then store.now self.old) rec.now) }
        ensures same { OnErr result (recs_of self.new.records ≡ recs_of self.old.records) }
        ensures ends { IfErr result (λ why. IfSome rec.now (λ rec.
            EndsStage (journal_at store.now).limit (needed_in (journal_then store.now self.old) rec) why)) }
        ensures some { OnErr result (rec.now ≢ None) }
    {
        let Some(rec) = rec.get() else {
            return Ok(());
        };
        match self.records.stage(alloc, store, rec) {
            Ok(()) => Ok(()),
            Err(StageErr::Full { need, limit }) => Err(Stop::With(Status::JournalFull {
                need,
                limit,
            })),
            Err(StageErr::OutOfMemory) => Err(Stop::With(Status::OutOfMemory)),
        }
    }

    /// Puts the records that wait at once, and then sends the messages that wait, in order. Where the put fails, nothing is sent; a crash
    /// leaves the records of the store then, with all that waited or with none of them. Where memory runs out, nothing was done to the disk.
    pub fn flush<L: Link, D: Disk>(
        &mut self,
        alloc: Global,
        part: &mut PartBuffer,
        link: &mut L,
        store: Store<D>,
    ) -> Result<Store<D>, Ended<D>>
        requires may { CanBePut store (recs_of self.old.records) }
        ensures given { L.given link.new ≡ L.given link.old }
        ensures faults { L.fault_count link.new ≡ L.fault_count link.old }
        ensures records { IfOk result (λ kept. records_of kept ≡ kept_of store self.old) }
        ensures journal { IfOk result (λ kept. journal_at kept ≡ journal_then store self.old) }
        ensures empty { OnOk result ((recs_of self.new.records ≡ []) × (posts_of self.new ≡ [])) }
        ensures changes { IfOk result (λ kept. Changes D.is_told D.moment D.left_since
            (disk_of store) (disk_of kept) (records_of store) (records_of kept)) }
        ensures sends { OnOk result (Sends (L.sent link.old) (L.sent link.new)
            (L.loss_count link.old) (L.loss_count link.new) (posts_of self.old)) }
        ensures quiet { OnErr result ((L.sent link.new ≡ L.sent link.old)
            × (L.loss_count link.new ≡ L.loss_count link.old)) }
        ensures some { OnErr result (puts_of D.is_told self.old ≢ []) }
        ensures ends { IfErr result (λ ended. EndsCommit
            (IsDoing D.is_told D.kept D.moment D.left_since (disk_of store) ended.disk (records_of store))
            (puts_of D.is_told self.old) ended.status) }
        ensures disk { IfOk result (λ kept. D.fault_count (disk_of kept) ≡ D.fault_count (disk_of store)) }
        ensures disk_cause { IfErr result (λ ended. HasDiskCause (D.fault_count (disk_of store))
            (D.fault_count ended.disk) ended.status) }
    {
        let store = commit(alloc, &mut self.records, store)?;
        release_all(self.posts.as_slice(), part, link);
        self.posts.clear();
        self.turns = 0;
        Ok(store)
    }

    /// Ends a node for this reason: what waits is put and sent before that. Where that fails, it is what ends the node.
    pub fn finish<L: Link, D: Disk>(
        &mut self,
        alloc: Global,
        part: &mut PartBuffer,
        link: &mut L,
        store: Store<D>,
        why: Stop,
    ) -> Ended<D>
        requires may { CanBePut store (recs_of self.old.records) }
        requires known { IsReason why }
        ensures given { L.given link.new ≡ L.given link.old }
        ensures faults { L.fault_count link.new ≡ L.fault_count link.old }
        ensures finished { HasFinished D.is_told D.kept D.moment D.left_since (disk_of store) result.disk (records_of store)
            (puts_of D.is_told self.old) (posts_of self.old)
            (L.sent link.old) (L.sent link.new) (L.loss_count link.old) (L.loss_count link.new)
            (D.fault_count result.disk) why result.status }
        ensures disk_cause { HasDiskCause (D.fault_count (disk_of store)) (D.fault_count result.disk) result.status }
    {
        match self.flush(alloc, part, link, store) {
            Ok(store) => end_with(store, why),
            Err(ended) => ended,
        }
    }
}

/// A node ends for this reason; nothing waits.
fn end_with<D: Disk>(store: Store<D>, why: Stop) -> Ended<D>
    requires known { IsReason why }
    ensures status { result.status ≡ status_of (D.fault_count result.disk) why }
    ensures changes { Changes D.is_told D.moment D.left_since (disk_of store) result.disk
        (records_of store) (records_of store) }
    ensures stays { (status : Status) → why ≡ stop.With status → result.disk ≡ disk_of store }
    ensures disk_cause { HasDiskCause (D.fault_count (disk_of store)) (D.fault_count result.disk) result.status }
{
    match why {
        Stop::With(status) => Ended {
            status,
            disk: store.close(),
        },
        Stop::Unread => unread(store),
    }
}

/// Puts the records that wait at once, if any do. A crash leaves the records of the store, with all that waited or with none of them; where memory runs
/// out, nothing was done to the disk.
fn commit<D: Disk>(
    alloc: Global,
    records: &mut Waiting,
    store: Store<D>,
) -> Result<Store<D>, Ended<D>>
    requires may { CanBePut store (recs_of records.old) }
    ensures kept { IfOk result (λ kept. records_of kept ≡ records_with store (recs_of records.old)) }
    ensures journal { IfOk result (λ kept. journal_at kept ≡ record (journal_at store) { end = end_with store (recs_of records.old) }) }
    ensures empty { OnOk result (recs_of records.new ≡ []) }
    ensures changes { IfOk result (λ kept. Changes D.is_told D.moment D.left_since
        (disk_of store) (disk_of kept) (records_of store) (records_of kept)) }
    ensures some { OnErr result (known_of D.is_told (recs_of records.old) ≢ []) }
    ensures ends { IfErr result (λ ended. EndsCommit
        (IsDoing D.is_told D.kept D.moment D.left_since (disk_of store) ended.disk (records_of store))
        (known_of D.is_told (recs_of records.old)) ended.status) }
    ensures disk { IfOk result (λ kept. D.fault_count (disk_of kept) ≡ D.fault_count (disk_of store)) }
    ensures disk_cause { IfErr result (λ ended. HasDiskCause (D.fault_count (disk_of store))
        (D.fault_count ended.disk) ended.status) }
{
    if records.is_empty() {
        return Ok(store);
    }
    let waited = mem::replace(records, Waiting::new(alloc));
    match store.put_all(waited) {
        Ok(store) => Ok(store),
        Err(PutAllErr::Broken { count, disk }) => Err(Ended {
            status: Status::DiskFault { count },
            disk,
        }),
        Err(PutAllErr::OutOfMemory { disk }) => Err(Ended {
            status: Status::OutOfMemory,
            disk,
        }),
    }
}
