//! The records of one node, on a disk in memory.
ghost use Rattle.std.specs.Prelude.{◌≡◌, ◌++◌, ◌∷◌, ◌≤◌, [], List, None, Some, IfOk, IfErr};
ghost use Rattle.disk_model.specs.Changes.{memory_kept};
ghost use Rattle.disk_model.specs.Disk.{IsImage};
ghost use Rattle.disk_model.specs.Plan.{planned};
ghost use Rattle.xt_messages.specs.Limits.{FitsRecord};
ghost use Rattle.xt_messages.specs.declared.record.Record.{Record};
ghost use Rattle.xt_protocol.specs.Folds.{fold_of, IsInPlace, body_kept};
ghost use Rattle.xt_journal.specs.Access as journal;
ghost use Rattle.xt_journal.specs.Format.{StandsIn};
ghost use Rattle.xt_journal.specs.Loaded.{FailedCall, MadeCalls, IsReady};
ghost use Rattle.xt_journal.specs.Placed.{AreWithin};
ghost use Rattle.xt_journal.specs.Reading.{payloads_on};
ghost use Rattle.object_store.specs.Access.{records_of, disk_of, journal_of};
ghost use Rattle.object_store.specs.Bare.{bare_of};
ghost use Rattle.object_store.specs.Loading.{ArePlaced};
ghost use Rattle.object_store.specs.Texts.{texts_of};
ghost use Rattle.world_hull.specs.Answers.{IsFullOrMemory, IsFullExactly, GivesBody};
ghost use Rattle.world_hull.specs.Appends.{kept_by};
ghost use Rattle.world_hull.specs.Rewritings.{MayBecome};
ghost use Rattle.world_disk.specs.Disks.{AreOn, HasRecords, IsToStop};
ghost use Rattle.world_disk.specs.Ends.{own_after, IsLoadedWith, IsStartedFrom, IsReadAgain, IsLeftBy, IsReadAfter};
ghost use Rattle.world_disk.specs.Room.{journal_overflow, place_in};
ghost use Rattle.world_disk.specs.Stored.{IsRewritten, none_stored};

use crate::JOURNAL;
use disk_model::{MemoryDisk, Stop};
use journal_moves::Extent;
use object_store::{AppendErr, Store, StoreErr};
use std::alloc::{AllocError, Global};
use std::marker::Model;
use store_compact::compact;
use world_hull::{BodyErr, WorldErr};
use xt_base::{CallList, Copies, FileId, Octets, OutOfMemory, Stamp};
use xt_journal::{Journal, LoadErr};
use xt_messages::{Keep, Record};

/// The records of a node on a disk that doesn't fail. Contracts see their list, the superblock of their journal, and the disk.
pub struct NodeStore {
    store: Store<MemoryDisk>,
}

// A derived drop is part of the code of each function that can drop a value. This one is proved once.
impl Drop for NodeStore {
    fn drop(self) {
        let NodeStore { store: _ } = self;
    }
}

impl Model for NodeStore {
    ghost use Rattle.xt_journal.specs.Access.{limit_of, superblock_of};
    ghost use Rattle.object_store.specs.Access.{records_of, disk_of, journal_of};
    ghost use Rattle.world_disk.specs.Disks.{IsCalm};
    ghost use Rattle.world_disk.specs.Stored.{Stored};

    ghost Value = { Stored };

    ghost view = { λ node. record {
      records = records_of node.store;
      superblock = superblock_of (journal_of node.store);
      disk = disk_of node.store;
    } };

    ghost invariant = { λ node.
        IsCalm (disk_of node.store) (records_of node.store) (limit_of (journal_of node.store))
        (superblock_of (journal_of node.store)) };
}

/// Loads the journal on a new disk that holds records, with the extents of its payloads. The disk doesn't fail meanwhile.
fn journal_on(
    alloc: Global,
    disk: MemoryDisk,
) -> Result<(Journal<MemoryDisk>, Vec<Extent>), OutOfMemory>
    requires made { disk.changes ≡ [] }
    requires stands { HasRecords (memory_kept disk).read }
    requires passes { FailedCall (planned disk.plan) (memory_kept disk).read → ⊥ }
    ensures reads { IfOk result (λ found.
        StandsIn (journal.superblock_of found.0) (memory_kept disk).read
        (payloads_on (memory_kept disk).read found.1.items)) }
    ensures placed { IfOk result (λ found. ArePlaced found.0 found.1.items) }
    ensures within { IfOk result (λ found. AreWithin (journal.place_of found.0) found.1.items) }
    ensures stays { IfOk result (λ found.
        payloads_on (memory_kept (journal.disk_of found.0)).read found.1.items
        ≡ payloads_on (memory_kept disk).read found.1.items) }
    ensures ready { IfOk result (λ found. IsReady (memory_kept (journal.disk_of found.0)).read) }
    ensures loaded { IfOk result (λ found. IsLoadedWith disk.first (journal.disk_of found.0)) }
    ensures plan { IfOk result (λ found.
        MadeCalls (planned disk.plan) (planned (journal.disk_of found.0).plan)
        (memory_kept disk).read) }
    ensures limit { IfOk result (λ found. journal.limit_of found.0 ≡ JOURNAL) }
{
    match Journal::load(alloc, disk, JOURNAL) {
        Ok(found) => Ok(found),
        Err(LoadErr::OutOfMemory { .. }) => Err(AllocError),
        Err(LoadErr::DiskFault { .. }) => unreachable!(),
        Err(LoadErr::NotOurs { .. }) => unreachable!(),
        Err(LoadErr::Layout { .. }) => unreachable!(),
        Err(LoadErr::Damaged { .. }) => unreachable!(),
    }
}

/// Loads the store on a new disk that holds records. The disk doesn't fail meanwhile.
fn store_on(alloc: Global, disk: MemoryDisk) -> Result<Store<MemoryDisk>, OutOfMemory>
    requires made { disk.changes ≡ [] }
    requires stands { HasRecords (memory_kept disk).read }
    requires passes { FailedCall (planned disk.plan) (memory_kept disk).read → ⊥ }
    ensures reads { IfOk result (λ store. ∥ AreOn (memory_kept disk).read (records_of store) ∥₁) }
    ensures superblock { IfOk result (λ store.
        StandsIn (journal.superblock_of (journal_of store)) (memory_kept disk).read
        (texts_of (records_of store))) }
    ensures ready { IfOk result (λ store. IsReady (memory_kept (disk_of store)).read) }
    ensures loaded { IfOk result (λ store. IsLoadedWith disk.first (disk_of store)) }
    ensures plan { IfOk result (λ store.
        MadeCalls (planned disk.plan) (planned (disk_of store).plan) (memory_kept disk).read) }
    ensures limit { IfOk result (λ store. journal.limit_of (journal_of store) ≡ JOURNAL) }
{
    let (journal, extents) = journal_on(alloc, disk)?;
    match Store::load(alloc, journal, extents.as_slice()) {
        Ok(store) => Ok(store),
        Err(StoreErr::OutOfMemory { .. }) => Err(AllocError),
        Err(StoreErr::BadRecord { .. }) => unreachable!(),
        Err(StoreErr::Broken { .. }) => unreachable!(),
    }
}

/// The records in these bytes, on a new disk that never fails.
fn restarted(alloc: Global, bytes: Octets) -> Result<NodeStore, OutOfMemory>
    requires { HasRecords bytes }
    ensures started { IfOk result (λ node. IsStartedFrom bytes node.disk node.records) }
    ensures superblock { IfOk result (λ node.
        StandsIn node.superblock bytes (texts_of node.records)) }
{
    let disk = MemoryDisk::new(alloc, bytes, CallList::new(alloc), None);
    Ok(NodeStore {
        store: store_on(alloc, disk)?,
    })
}

/// Appends a record on a disk that stops in this one of the four calls, and returns the bytes that a crash leaves of
/// that disk.
fn left_by_stop(
    alloc: Global,
    store: Store<MemoryDisk>,
    rec: &Record,
    stop: Stop,
) -> Result<Octets, WorldErr>
    requires fits { FitsRecord rec.now }
    requires place { IsInPlace (fold_of (records_of store)) rec.now }
    requires low { 1 ≤ stop.call }
    requires high { stop.call ≤ 4 }
    requires stops { IsToStop stop.call (planned (disk_of store).plan) }
    requires short { place_in (journal.superblock_of (journal_of store)) (records_of store)
        ≤ JOURNAL }
    requires limit { journal.limit_of (journal_of store) ≡ JOURNAL }
    ensures left { IfOk result (λ bytes. IsLeftBy stop (records_of store) rec.now bytes) }
    ensures stands { IfOk result (λ bytes.
        ∥ AreOn bytes (own_after (records_of store) rec.now (kept_by (Some stop))) ∥₁) }
    ensures superblock { IfOk result (λ bytes.
        StandsIn (journal.superblock_of (journal_of store)) bytes
        (texts_of (own_after (records_of store) rec.now (kept_by (Some stop))))) }
    ensures room { IsFullExactly (journal_overflow (journal.superblock_of (journal_of store))
        (records_of store) rec.now) result }
    ensures error { IfErr result IsFullOrMemory }
{
    match store.put(alloc, rec) {
        Err(AppendErr::Broken { disk, .. }) => Ok(disk.filled(stop.fill)?),
        Err(AppendErr::Full { need, limit, .. }) => Err(WorldErr::Full { need, limit }),
        Err(AppendErr::OutOfMemory { .. }) => Err(WorldErr::OutOfMemory),
        Ok(_) => unreachable!(),
    }
}

impl NodeStore {
    /// No record, on a new disk: as after a start from a disk without a byte.
    pub fn new(alloc: Global) -> Result<NodeStore, OutOfMemory>
        ensures none { IfOk result (λ node. node.records ≡ []) }
        ensures superblock { IfOk result (λ node. node.superblock ≡ None) }
        ensures read { IfOk result (λ node. IsReadAgain none_stored.disk node.disk []) }
    {
        restarted(alloc, Octets::new(alloc))
    }

    /// The bytes that a crash leaves of the disk: a journal of the records.
    pub fn bytes(&self) -> Result<Octets, OutOfMemory>
        ensures left { IfOk result (IsImage (memory_kept self.now.disk)) }
        ensures same { IfOk result (λ bytes. ∥ AreOn bytes self.now.records ∥₁) }
        ensures superblock { IfOk result (λ bytes.
            StandsIn self.now.superblock bytes (texts_of self.now.records)) }
        ensures ready { IfOk result IsReady }
    {
        self.store.disk().image()
    }

    /// The records after the node has started again: the same ones, read from what a crash leaves of its disk.
    pub fn reloaded(&self, alloc: Global) -> Result<NodeStore, OutOfMemory>
        ensures same { IfOk result (λ node. node.records ≡ self.now.records) }
        ensures superblock { IfOk result (λ node. node.superblock ≡ self.now.superblock) }
        ensures read { IfOk result (λ node. IsReadAgain self.now.disk node.disk node.records) }
    {
        restarted(alloc, self.bytes()?)
    }

    /// Puts a record after the others. `Full` says how many bytes the journal would need, and its limit.
    pub fn put(self, alloc: Global, rec: &Record) -> Result<NodeStore, WorldErr>
        requires fits { FitsRecord rec.now }
        requires place { IsInPlace (fold_of self.records) rec.now }
        ensures done { IfOk result (λ node. node.records ≡ self.records ++ rec.now ∷ []) }
        ensures superblock { IfOk result (λ node. node.superblock ≡ self.superblock) }
        ensures room { IsFullExactly (journal_overflow self.superblock self.records rec.now)
            result }
        ensures error { IfErr result IsFullOrMemory }
    {
        let NodeStore { store } = self;
        match store.put(alloc, rec) {
            Ok(store) => Ok(NodeStore { store }),
            Err(AppendErr::Full { need, limit, .. }) => Err(WorldErr::Full { need, limit }),
            Err(AppendErr::OutOfMemory { .. }) => Err(WorldErr::OutOfMemory),
            Err(AppendErr::Broken { .. }) => unreachable!(),
        }
    }

    /// Rewrites the records with these bodies where the journal has room for a new area of them, and returns whether it had. If not,
    /// nothing has changed. A crash at any moment of it leaves the old records or the rewritten ones.
    pub fn compact(self, alloc: Global, keep: &Keep) -> Result<(NodeStore, bool), OutOfMemory>
        requires { MayBecome keep.now self.records }
        ensures { IfOk result (λ ended. IsRewritten self keep.now ended.1 ended.0) }
    {
        let NodeStore { store } = self;
        match compact(alloc, store, keep) {
            Ok(store) => Ok((NodeStore { store }, true)),
            Err(AppendErr::Full { store, .. }) => Ok((NodeStore { store }, false)),
            Err(AppendErr::OutOfMemory { .. }) => Err(AllocError),
            Err(AppendErr::Broken { .. }) => unreachable!(),
        }
    }

    /// The records after the node stopped in one of the four calls of an append: what a disk leaves that stops there.
    pub fn stopped(&self, alloc: Global, rec: &Record, stop: Stop) -> Result<NodeStore, WorldErr>
        requires fits { FitsRecord rec.now }
        requires place { IsInPlace (fold_of self.now.records) rec.now }
        requires low { 1 ≤ stop.call }
        requires high { stop.call ≤ 4 }
        ensures own { IfOk result (λ node. node.records ≡
            own_after self.now.records rec.now (kept_by (Some stop))) }
        ensures superblock { IfOk result (λ node. node.superblock ≡ self.now.superblock) }
        ensures left { IfOk result (λ node. IsReadAfter stop self.now.records rec.now node.disk) }
        ensures room { IsFullExactly
            (journal_overflow self.now.superblock self.now.records rec.now) result }
        ensures error { IfErr result IsFullOrMemory }
    {
        // Loading a journal makes one sync before the append's calls.
        let counted = Stop {
            call: stop.call + 1,
            fill: stop.fill,
        };
        let disk = MemoryDisk::new(alloc, self.bytes()?, CallList::new(alloc), Some(counted));
        let store = store_on(alloc, disk)?;
        let left = left_by_stop(alloc, store, rec, stop)?;
        Ok(restarted(alloc, left)?)
    }

    /// Copies of the records without their bodies, in order. No body is read.
    pub fn copies(&self, alloc: Global) -> Result<Vec<Record>, OutOfMemory>
        ensures { IfOk result (λ made. made.items ≡ bare_of self.now.records) }
    {
        let mut made = Vec::new(alloc);
        for rec in self.store.records() {
            made.push(rec.copy(alloc)?)?;
        }
        Ok(made)
    }

    /// The body that was put last as this version of this object of the file, read from the disk.
    pub fn body(
        &self,
        alloc: Global,
        file: &FileId,
        object: u64,
        version: &Stamp,
    ) -> Result<Octets, BodyErr>
        ensures { GivesBody (body_kept self.now.records file.now object version.now) result }
    {
        self.store.find(alloc, file, object, version)
    }
}
