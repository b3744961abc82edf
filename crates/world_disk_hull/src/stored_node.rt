//! The records of one node on a disk, and what was done to them.
ghost use Rattle.std.specs.Prelude.{◌≡◌, ◌+◌, ◌%◌, ◌<◌, ◌++◌, ◌∷◌, [], IfOk, IfErr, OnOk, OnErr, if◌then◌else◌};
ghost use Rattle.world_spec.specs.World.{loads, rewrites};
ghost use Rattle.disk_model.specs.Changes.{memory_kept};
ghost use Rattle.disk_model.specs.Disk.{IsImage};
ghost use Rattle.xt_messages.specs.Limits.{FitsRecord};
ghost use Rattle.xt_protocol.specs.Folds.{IsInPlace, fold_of, body_kept};
ghost use Rattle.object_store.specs.Bare.{bare_of};
ghost use Rattle.world_hull.specs.Answers.{IsFullOrMemory, IsFullExactly, GivesBody};
ghost use Rattle.world_hull.specs.Appends.{IsInAppend, kept_by};
ghost use Rattle.world_hull.specs.Rewritings.{MayBecome};
ghost use Rattle.world_disk.specs.Disks.{AreOn};
ghost use Rattle.world_disk.specs.Ends.{IsReadAgain, own_after};
ghost use Rattle.world_disk.specs.Room.{is_due, journal_room, laid_by, rewrites_at};
ghost use Rattle.world_disk_steps.specs.Steps.{IsDiskAfter};
ghost use Rattle.world_disk_hull.specs.Views.{OwnRewritten, none_stored, own_past_after, own_put_after};

use disk_model::Stop;
use std::alloc::Global;
use std::marker::Model;
use world_disk::{NodeStore, REWRITING_PERIOD};
use world_disk_steps::{appended, read_again};
use world_hull::{BodyErr, Done, Kept, Past, WorldErr};
use xt_base::{FileId, Octets, OutOfMemory, Stamp};
use xt_messages::{Keep, Record};

/// A node's store, and what was done to its records, which says what they are and where they are on the disk.
pub struct StoredNode {
    store: NodeStore,
    past: Past,
    /// How many records were put since they were loaded last, modulo `REWRITING_PERIOD`.
    put: u8,
}

// A derived drop is part of the code of each function that may drop a value. This one is proved once.
impl Drop for StoredNode {
    fn drop(self) {
        let StoredNode {
            store: _,
            past: _,
            put: _,
        } = self;
    }
}

impl Model for StoredNode {
    ghost use Rattle.world_disk_hull.specs.Views.{IsLaidBy, StoredView};

    ghost Value = { StoredView };

    ghost view = { λ node. record
        { records = node.store.records; past = node.past.deeds; disk = node.store.disk } };

    ghost invariant = { λ node.
        IsLaidBy node.past.deeds node.store.records node.store.superblock node.put };
}

impl StoredNode {
    /// No record, on a new disk: as after a start from a disk without a byte.
    pub fn new(alloc: Global) -> Result<StoredNode, OutOfMemory>
        ensures records { IfOk result (λ node. node.records ≡ []) }
        ensures past { IfOk result (λ node. node.past ≡ []) }
        ensures read { IfOk result (λ node. IsReadAgain none_stored.disk node.disk []) }
    {
        Ok(StoredNode {
            store: NodeStore::new(alloc)?,
            past: Past::new(),
            put: 0,
        })
    }

    /// The node has loaded its records.
    pub fn loaded(self) -> StoredNode
        ensures { result ≡ record self { past = self.past ++ loads ∷ [] } }
    {
        let StoredNode {
            store,
            past,
            put: _,
        } = self;
        StoredNode {
            store,
            past: past.and(&Done::Loads),
            put: 0,
        }
    }

    /// What a crash leaves of the disk. It stands for the records.
    pub fn bytes(&self) -> Result<Octets, OutOfMemory>
        ensures left { IfOk result (IsImage (memory_kept self.now.disk)) }
        ensures same { IfOk result (λ bytes. ∥ AreOn bytes self.now.records ∥₁) }
    {
        self.store.bytes()
    }

    /// What the node has after an append, which may be stopped.
    pub fn appended(
        self,
        alloc: Global,
        rec: &Record,
        stop: Option<Stop>,
    ) -> Result<StoredNode, WorldErr>
        requires fits { FitsRecord rec.now }
        requires place { IsInPlace (fold_of self.records) rec.now }
        requires call { IsInAppend stop }
        ensures own { IfOk result (λ node. node.records ≡
            own_after self.records rec.now (kept_by stop)) }
        ensures past { IfOk result (λ node. node.past ≡
            own_past_after self.past rec.now (kept_by stop)) }
        ensures disk { IfOk result (λ node. IsDiskAfter stop self.records rec.now node.disk) }
        ensures room { IsFullExactly (journal_room.overflow self.past rec.now) result }
        ensures error { IfErr result IsFullOrMemory }
    {
        let StoredNode { store, past, put } = self;
        let end = Kept::by(stop);
        let past = past_after(past, rec, end);
        let put = put_after(put, end);
        let store = appended(alloc, store, rec, stop)?;
        Ok(StoredNode { store, past, put })
    }

    /// The node starts again from what a crash leaves of its disk. Gives the records that it finds there, without their bodies. Where
    /// memory runs out, nothing has changed.
    pub fn read_again(&mut self, alloc: Global) -> Result<Vec<Record>, WorldErr>
        ensures same { self.new.records ≡ self.old.records }
        ensures past { OnOk result (self.new.past ≡ self.old.past ++ loads ∷ []) }
        ensures found { IfOk result (λ found. found.items ≡ bare_of self.old.records) }
        ensures read { OnOk result (IsReadAgain self.old.disk self.new.disk self.new.records) }
        ensures error { IfErr result (λ error. error ≡ WorldErr.OutOfMemory) }
        ensures failed { OnErr result (self.new ≡ self.old) }
    {
        let found = read_again(alloc, &mut self.store)?;
        self.past = self.past.and(&Done::Loads);
        self.put = 0;
        Ok(found)
    }

    /// Whether it is time to rewrite the records.
    pub fn is_due(&self) -> bool
        ensures { result ≡ is_due (laid_by self.now.past) }
    {
        self.put == 0
    }

    /// Rewrites the records with these bodies, where it is time and the journal has room for a new area of them, and tells whether
    /// it did. Where it didn't, nothing has changed.
    pub fn compact(self, alloc: Global, keep: &Keep) -> Result<(StoredNode, bool), OutOfMemory>
        requires { MayBecome keep.now self.records }
        ensures due { IfOk result (λ ended. ended.1 ≡ rewrites_at (laid_by self.past) keep.now) }
        ensures own { IfOk result (λ ended. OwnRewritten self keep.now ended.1 ended.0) }
    {
        if !self.is_due() {
            return Ok((self, false));
        }
        let StoredNode { store, past, put } = self;
        let (store, rewrote) = store.compact(alloc, keep)?;
        let past = rewritten_past(past, keep, rewrote);
        Ok((StoredNode { store, past, put }, rewrote))
    }

    /// The body that was put last as this version of this object of the file.
    pub fn body(
        &self,
        alloc: Global,
        file: &FileId,
        object: u64,
        version: &Stamp,
    ) -> Result<Octets, BodyErr>
        ensures { GivesBody (body_kept self.now.records file.now object version.now) result }
    {
        self.store.body(alloc, file, object, version)
    }
}

/// What was done to a node's records after an append that ended so.
fn past_after(past: Past, rec: &Record, end: Kept) -> Past
    ensures { result.deeds ≡ own_past_after past.deeds rec.now end }
{
    match end {
        Kept::Done | Kept::StoppedKept => past.and(&Done::Puts(rec)),
        Kept::StoppedLost => past,
    }
}

/// How many records were put, modulo `REWRITING_PERIOD`, after an append that ended so.
fn put_after(put: u8, end: Kept) -> u8
    requires { put < REWRITING_PERIOD }
    ensures { result ≡ own_put_after put end }
{
    match end {
        Kept::Done | Kept::StoppedKept => (put + 1) % REWRITING_PERIOD,
        Kept::StoppedLost => put,
    }
}

/// What was done to a node's records once they were rewritten with these bodies, or weren't.
fn rewritten_past(past: Past, keep: &Keep, rewrote: bool) -> Past
    ensures { result.deeds ≡
        (if rewrote then past.deeds ++ rewrites keep.now ∷ [] else past.deeds) }
{
    if rewrote {
        past.and(&Done::Rewrites(keep))
    } else {
        past
    }
}
