//! What the hull does for the declared nodes: it keeps their records, rewrites them, and carries their messages.
ghost use Rattle.std.specs.Prelude.{◌≡◌, ◌<◌, ◌^◌, Some, None, IfOk, IfErr, IfSome, OnOk, length};
ghost use Rattle.xt_messages.specs.Limits.{FitsMessage, FitsRecord};
ghost use Rattle.xt_protocol.specs.Folds.{fold_of, IsInPlace};
ghost use Rattle.xt_protocol.specs.Forgetting.{rewritten};
ghost use Rattle.world_host.specs.Cores.{IsLoaded, SayTheSame, made_at};
ghost use Rattle.world_host.specs.Forgetting.{needed_by};
ghost use Rattle.world_spec.specs.World.{Node, with_node};
ghost use Rattle.world_spec.specs.NodeSteps.{overflow_of};
ghost use Rattle.world_spec.specs.Lines.{runs, core_starting};
ghost use Rattle.world_hull.specs.Answers.{IsFullOrMemory, IsFullExactly};
ghost use Rattle.world_hull.specs.Appends.{IsInAppend, kept_by};
ghost use Rattle.world_limits.specs.Fits.{FitsKept, FitsNext, MayForget};
ghost use Rattle.world_nodes.specs.Nodes.{IsAt, Changes, Forgets, after_append, after_load, after_put};

use crate::nodes::Nodes;
use disk_model::Stop;
use replica_records::fold;
use std::alloc::{AllocError, Global};
use world_host::{Loaded, NodeCore};
use world_hull::{Hull, Kept, WorldErr};
use world_spec::PlacedFile;
use xt_base::{Boot, OptionalBox, OutOfMemory};
use xt_messages::{Keep, Msg, Record};

impl<C: NodeCore, H: Hull> Nodes<C, H> {
    /// The records of the node at a place, which are loaded for a start, and what they say.
    pub fn load(&mut self, alloc: Global, place: usize) -> Result<Loaded, OutOfMemory>
        requires { place < length self.old.nodes }
        ensures found { IfOk result (λ found. (node : Node) → IsAt self.old.nodes place node →
            SayTheSame found.records.items node.kept) }
        ensures folded { IfOk result (λ found. found.folded ≡ fold_of found.records.items) }
        ensures loaded { OnOk result (Changes self.old place after_load self.new) }
    {
        let node = self.hosts[place].id();
        let Ok(records) = self.hull.revive(alloc, node) else {
            return Err(AllocError);
        };
        let folded = fold(alloc, records.as_slice())?;
        Ok(Loaded { records, folded })
    }

    /// The node at a place starts as this boot, from what its records say, which were loaded for that.
    pub fn start(
        &mut self,
        alloc: Global,
        place: usize,
        loaded: Loaded,
        boot: Boot,
        clock: u64,
    ) -> Result<(), OutOfMemory>
        requires inside { place < length self.old.nodes }
        requires clock { clock < 2 ^ 62 }
        requires loaded { IsLoaded loaded }
        ensures { OnOk result ((node : Node) → IsAt self.old.nodes place node →
            SayTheSame loaded.records.items node.kept →
            self.new ≡
            record self.old {
              nodes = with_node self.old.nodes
                  (record node {
                    up = Some
                        (runs boot clock
                        (core_starting self.old.times node boot clock node.role));
                  });
            }) }
    {
        self.hosts[place].start(alloc, loaded, boot, clock)
    }

    /// The files that the metadata server at a place has made, in the order of making; none where no such server runs.
    pub fn files(&self, alloc: Global, place: usize) -> Result<Vec<PlacedFile>, OutOfMemory>
        requires { place < length self.now.nodes }
        ensures { IfOk result (λ files. (node : Node) → IsAt self.now.nodes place node →
            files.items ≡ made_at node.up) }
    {
        self.hosts[place].files(alloc)
    }

    /// Appends a record of the node at a place, or stops in that.
    pub fn append(
        &mut self,
        alloc: Global,
        place: usize,
        rec: &Record,
        stop: Option<Stop>,
    ) -> Result<Kept, WorldErr>
        requires inside { place < length self.old.nodes }
        requires fits { (node : Node) → IsAt self.old.nodes place node →
            FitsRecord rec.now × IsInPlace (fold_of node.kept) rec.now }
        requires call { IsInAppend stop }
        ensures done { IfOk result (λ end. (end ≡ kept_by stop)
            × Changes self.old place (after_append rec.now end) self.new) }
        ensures room { (node : Node) → IsAt self.old.nodes place node →
            IsFullExactly (H.room.overflow node.past rec.now) result }
        ensures error { IfErr result IsFullOrMemory }
    {
        let node = self.hosts[place].id();
        self.hull.append(alloc, node, rec, stop)
    }

    /// Keeps the record of a step of the node at a place, if it has one.
    pub fn keep(
        &mut self,
        alloc: Global,
        place: usize,
        rec: &OptionalBox<Record>,
    ) -> Result<(), WorldErr>
        requires inside { place < length self.old.nodes }
        requires fits { (node : Node) → IsAt self.old.nodes place node →
            FitsNext node.kept rec.now }
        ensures done { OnOk result (Changes self.old place (after_put rec.now) self.new) }
        ensures room { (node : Node) → IsAt self.old.nodes place node →
            IsFullExactly (overflow_of H.room node.past rec.now) result }
        ensures error { IfErr result IsFullOrMemory }
    {
        match rec.get() {
            None => Ok(()),
            Some(rec) => {
                self.append(alloc, place, rec, None)?;
                Ok(())
            }
        }
    }

    /// Where the hull rewrites the records of the node at a place now, its OSD keeps the bodies that it needs, in memory
    /// and in its records. Where it doesn't, they aren't counted.
    pub fn forget(&mut self, alloc: Global, place: usize) -> Result<(), WorldErr>
        requires inside { place < length self.old.nodes }
        requires fits { (node : Node) → IsAt self.old.nodes place node →
            IfSome node.up (λ running. MayForget node.kept running.core) }
        ensures done { OnOk result (Forgets H.room self.old place self.new) }
        ensures error { IfErr result (λ error. error ≡ WorldErr.OutOfMemory) }
    {
        if !self.hull.may_compact(self.hosts[place].id()) {
            return Ok(());
        }
        match self.hosts[place].keep()? {
            Some(keep) => self.rewrite(alloc, place, &keep),
            None => Ok(()),
        }
    }

    /// The hull rewrites the records of the OSD at a place with these bodies, which are all that it needs, if it does so now;
    /// and the OSD forgets the others.
    fn rewrite(&mut self, alloc: Global, place: usize, keep: &Keep) -> Result<(), WorldErr>
        requires inside { place < length self.old.nodes }
        requires fits { (node : Node) → IsAt self.old.nodes place node →
            (needed_by node.up ≡ Some keep.now) × FitsKept (rewritten keep.now node.kept) }
        ensures done { OnOk result (Forgets H.room self.old place self.new) }
        ensures error { IfErr result (λ error. error ≡ WorldErr.OutOfMemory) }
    {
        let node = self.hosts[place].id();
        if self.hull.compact(alloc, node, keep)? {
            self.hosts[place].forget(keep);
        }
        Ok(())
    }

    /// The very message, carried.
    pub fn carry(&mut self, alloc: Global, msg: &Msg) -> Result<Msg, WorldErr>
        requires { FitsMessage msg.now }
        ensures message { IfOk result (λ carried. carried ≡ msg.now) }
        ensures error { IfErr result (λ error. error ≡ WorldErr.OutOfMemory) }
        ensures same { self.new ≡ self.old }
    {
        self.hull.carry(alloc, msg)
    }
}
