//! A hull that keeps each node's records on a disk.
ghost use Rattle.std.specs.Prelude.{◌≡◌, ◌==◌, false, [], ℕ, IfOk, IfErr, OnOk, OnErr, if◌then◌else◌};
ghost use Rattle.world_spec.specs.World.{loads};
ghost use Rattle.disk_model.specs.Changes.{memory_kept};
ghost use Rattle.disk_model.specs.Disk.{IsImage};
ghost use Rattle.xt_messages.specs.Limits.{FitsRecord};
ghost use Rattle.xt_protocol.specs.Folds.{IsInPlace, fold_of};
ghost use Rattle.object_store.specs.Bare.{bare_of};
ghost use Rattle.world_hull.specs.Answers.{IsFullOrMemory, IsFullExactly};
ghost use Rattle.world_hull.specs.Appends.{IsInAppend, IsAppended, AreAllSame, AreOthersSame, kept_by, with_deed};
ghost use Rattle.world_hull.specs.Revivals.{IsRevived};
ghost use Rattle.world_hull.specs.Rewritings.{IsCompacted, IsNeverNow, MayBecome};
ghost use Rattle.world_disk.specs.Disks.{AreOn};
ghost use Rattle.world_disk.specs.Ends.{IsReadAgain, own_after};
ghost use Rattle.world_disk.specs.Room.{is_due, journal_room, laid_by};
ghost use Rattle.world_disk_steps.specs.Steps.{IsDiskAfter};
ghost use Rattle.world_disk_hull.specs.Nodes.{AreOtherNodesSame, disk_of, node_of, past_of, records_of};
ghost use Rattle.world_disk_hull.specs.Views.{none_stored, own_past_after};

use crate::carrying::carried;
use crate::stored_node::StoredNode;
use disk_model::Stop;
use std::alloc::Global;
use std::collections::BTreeMap;
use world_hull::{BodyErr, Hull, Kept, WorldErr};
use xt_base::{FileId, NodeId, Octets, OutOfMemory, Stamp};
use xt_messages::{Keep, Msg, Record};

/// Each node's records on a disk of its own. A node without one has no record.
#[derive(Drop)]
pub struct DiskHull {
    nodes: BTreeMap<u32, StoredNode>,
    /// How many messages were carried.
    carried: u64,
}

impl DiskHull {
    /// No record is kept.
    pub fn new(alloc: Global) -> DiskHull
        ensures records { records_of result ≡ λ _. [] }
        ensures past { past_of result ≡ λ _. [] }
    {
        DiskHull {
            nodes: BTreeMap::new(alloc),
            carried: 0,
        }
    }

    /// What a crash leaves of the node's disk, no bytes where it has none yet: they stand for the records that it keeps.
    pub fn image(&self, alloc: Global, node: NodeId) -> Result<Octets, OutOfMemory>
        ensures left { IfOk result (IsImage (memory_kept (disk_of self.now node.0))) }
        ensures stand { IfOk result (λ bytes. ∥ AreOn bytes (records_of self.now node.0) ∥₁) }
    {
        match self.nodes.get(&node.0) {
            Some(own) => own.bytes(),
            None => Ok(Octets::new(alloc)),
        }
    }

    /// Takes the node's store out, a new one where it has none.
    fn take(&mut self, alloc: Global, node: NodeId) -> Result<StoredNode, OutOfMemory>
        ensures own { IfOk result (λ own. own.records ≡ records_of self.old node.0) }
        ensures past { IfOk result (λ own. own.past ≡ past_of self.old node.0) }
        ensures others { AreOtherNodesSame self.old self.new node }
    {
        match self.nodes.remove(&node.0) {
            Some(own) => Ok(own),
            None => StoredNode::new(alloc),
        }
    }

    /// Puts the node's store in, in place of the one that it has.
    fn put_in(&mut self, node: NodeId, own: StoredNode) -> Result<(), OutOfMemory>
        ensures ok { OnOk result (node_of self.new ≡ λ n.
            if n == node.0 then own else node_of self.old n) }
        ensures err { OnErr result (node_of self.new ≡ node_of self.old) }
    {
        self.nodes.insert(node.0, own)?;
        Ok(())
    }

    /// A node without a store has one from a disk without a byte, which it has loaded.
    fn start_first(&mut self, alloc: Global, node: NodeId) -> Result<(), OutOfMemory>
        requires { node_of self.old node.0 ≡ none_stored }
        ensures records { records_of self.new ≡ records_of self.old }
        ensures past { OnOk result (past_of self.new ≡
            with_deed (past_of self.old) node loads) }
        ensures read { OnOk result
            (IsReadAgain none_stored.disk (disk_of self.new node.0) []) }
        ensures others { AreOtherNodesSame self.old self.new node }
        ensures failed { OnErr result (node_of self.new ≡ node_of self.old) }
    {
        let own = StoredNode::new(alloc)?.loaded();
        self.put_in(node, own)?;
        Ok(())
    }

    /// The node's store after an append, which is taken out.
    fn appended(
        &mut self,
        alloc: Global,
        node: NodeId,
        rec: &Record,
        stop: Option<Stop>,
    ) -> Result<StoredNode, WorldErr>
        requires fits { FitsRecord rec.now }
        requires place { IsInPlace (fold_of (records_of self.old node.0)) rec.now }
        requires call { IsInAppend stop }
        ensures own { IfOk result (λ own. own.records ≡
            own_after (records_of self.old node.0) rec.now (kept_by stop)) }
        ensures past { IfOk result (λ own. own.past ≡
            own_past_after (past_of self.old node.0) rec.now (kept_by stop)) }
        ensures disk { IfOk result (λ own.
            IsDiskAfter stop (records_of self.old node.0) rec.now own.disk) }
        ensures others { AreOtherNodesSame self.old self.new node }
        ensures room { IsFullExactly (journal_room.overflow (past_of self.old node.0) rec.now)
            result }
        ensures error { IfErr result IsFullOrMemory }
    {
        let own = self.take(alloc, node)?;
        own.appended(alloc, rec, stop)
    }
}

impl Hull for DiskHull {
    ghost kept = { records_of };

    ghost past = { past_of };

    ghost room = { journal_room };

    ghost waits = { λ d id past keep i. false };

    fn carry(&mut self, alloc: Global, msg: &Msg) -> Result<Msg, WorldErr> {
        self.carried = self.carried.saturating_add(1);
        Ok(carried(alloc, self.carried, msg)?)
    }

    /// As of every hull; and where the append is to stop, a disk stops in it, and what that disk leaves is what the node
    /// has from then on. The other nodes' disks are as before.
    fn append(
        &mut self,
        alloc: Global,
        node: NodeId,
        rec: &Record,
        stop: Option<Stop>,
    ) -> Result<Kept, WorldErr>
        requires fits { FitsRecord rec.now }
        requires place { IsInPlace (fold_of (records_of self.old node.0)) rec.now }
        requires call { IsInAppend stop }
        ensures records { IfOk result (λ end. IsAppended (records_of self.old, past_of self.old)
            (records_of self.new, past_of self.new) node rec.now stop end) }
        ensures room { IsFullExactly (journal_room.overflow (past_of self.old node.0) rec.now)
            result }
        ensures error { IfErr result IsFullOrMemory }
        ensures others { OnErr result (AreOthersSame (records_of self.old, past_of self.old)
            (records_of self.new, past_of self.new) node) }
        ensures disk { OnOk result
            (IsDiskAfter stop (records_of self.old node.0) rec.now (disk_of self.new node.0)) }
        ensures other_disks { AreOtherNodesSame self.old self.new node }
    {
        let own = self.appended(alloc, node, rec, stop)?;
        self.put_in(node, own)?;
        Ok(Kept::by(stop))
    }

    /// As of every hull; and the node's records are what a crash leaves of its disk, loaded from a new one. They are found without
    /// their bodies. The other nodes' disks are as before; and where memory runs out, so is the node's own.
    fn revive(&mut self, alloc: Global, node: NodeId) -> Result<Vec<Record>, WorldErr>
        ensures found { IfOk result (λ found. IsRevived (records_of self.old, past_of self.old)
            (records_of self.new, past_of self.new) node found.items) }
        ensures error { IfErr result (λ error. error ≡ WorldErr.OutOfMemory) }
        ensures records { OnErr result (AreAllSame (records_of self.old, past_of self.old)
            (records_of self.new, past_of self.new)) }
        ensures bare { IfOk result (λ found. found.items ≡ bare_of (records_of self.old node.0)) }
        ensures read { OnOk result (IsReadAgain (disk_of self.old node.0)
            (disk_of self.new node.0) (records_of self.new node.0)) }
        ensures other_disks { AreOtherNodesSame self.old self.new node }
        ensures own_disk { OnErr result (node_of self.new ≡ node_of self.old) }
    {
        match self.nodes.get_mut(&node.0) {
            Some(own) => own.read_again(alloc),
            None => {
                self.start_first(alloc, node)?;
                Ok(Vec::new(alloc))
            }
        }
    }

    /// Whether it is time to rewrite the node's records: where the number of those that were put since they were loaded last is
    /// a multiple of the period.
    fn may_compact(&self, node: NodeId) -> bool
        ensures never { result ≡ false → IsNeverNow journal_room (past_of self.now node.0) }
        ensures due { result ≡ is_due (laid_by (past_of self.now node.0)) }
    {
        match self.nodes.get(&node.0) {
            Some(own) => own.is_due(),
            None => true,
        }
    }

    /// As of every hull; and the records are rewritten on the node's disk, in a new area of its journal, where that has room for
    /// it. The other nodes' disks are as before.
    fn compact(&mut self, alloc: Global, node: NodeId, keep: &Keep) -> Result<bool, WorldErr>
        requires { MayBecome keep.now (records_of self.old node.0) }
        ensures records { IfOk result (λ rewrote. IsCompacted journal_room
            (records_of self.old, past_of self.old) (records_of self.new, past_of self.new)
            node keep.now rewrote) }
        ensures error { IfErr result (λ error. error ≡ WorldErr.OutOfMemory) }
        ensures others { OnErr result (AreOthersSame (records_of self.old, past_of self.old)
            (records_of self.new, past_of self.new) node) }
        ensures other_disks { AreOtherNodesSame self.old self.new node }
    {
        let own = self.take(alloc, node)?;
        let (own, rewrote) = own.compact(alloc, keep)?;
        self.put_in(node, own)?;
        Ok(rewrote)
    }

    fn body(
        &self,
        alloc: Global,
        node: NodeId,
        file: &FileId,
        object: u64,
        version: &Stamp,
    ) -> Result<Octets, BodyErr> {
        match self.nodes.get(&node.0) {
            Some(own) => own.body(alloc, file, object, version),
            None => Err(BodyErr::NoSuchVersion),
        }
    }
}
