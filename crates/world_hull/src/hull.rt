ghost use Rattle.std.specs.Prelude.{◌≡◌, ℕ, List, false, IfOk, IfErr, OnErr};
ghost use Rattle.xt_messages.specs.declared.record.Record.{Record};
ghost use Rattle.xt_messages.specs.Limits.{FitsMessage, FitsRecord};
ghost use Rattle.xt_protocol.specs.Folds.{IsInPlace, fold_of, body_kept};
ghost use Rattle.world_spec.specs.NodeSteps.{Room};
ghost use Rattle.world_spec.specs.World.{Deed};
ghost use Rattle.world_hull.specs.Answers.{IsFullOrMemory, IsFullExactly, GivesBody};
ghost use Rattle.world_hull.specs.Appends.{IsInAppend, IsAppended, AreAllSame, AreOthersSame, kept_by};
ghost use Rattle.world_hull.specs.Revivals.{IsRevived};
ghost use Rattle.world_hull.specs.Rewritings.{MayBecome, IsNeverNow, IsCompacted, RewritesAfterPuts};

use crate::errors::WorldErr;
use disk_model::{OPEN_GATE, Stop};
use object_versions::BodyErr;
use std::alloc::Global;
use xt_base::{FileId, NodeId, Octets, Stamp};
use xt_messages::{Keep, Msg, Record};

/// How an append ended.
#[derive(Clone, Copy)]
pub enum Kept {
    /// The record is kept.
    Done,
    /// The node stopped in it, and the record is kept.
    StoppedKept,
    /// The node stopped in it, and the record is lost.
    StoppedLost,
}

impl Kept {
    /// How an append ends that this stop is in, or none.
    pub fn by(stop: Option<Stop>) -> Kept
        ensures { result ≡ kept_by stop }
    {
        match stop {
            None => Kept::Done,
            Some(stop) => {
                if stop.call >= 3 && stop.fill == OPEN_GATE {
                    Kept::StoppedKept
                } else {
                    Kept::StoppedLost
                }
            }
        }
    }
}

/// Keeps the records of a world's nodes, and carries their messages.
pub trait Hull: Drop {
    /// The records of each node, by its number, in the order in which they were kept, or as they were rewritten.
    ghost kept: { Self → ℕ → List Record };

    /// What was done to the records of each node, by its number.
    ghost past: { Self → ℕ → List Deed };

    /// What is decided by what was done to a node's records: whether one more has no room, and what it would need; and
    /// whether they are rewritten now with these bodies.
    ghost room: { Room };

    /// Records are rewritten only right after one was put.
    ghost waits: { RewritesAfterPuts room };

    /// The very message, or `OutOfMemory`.
    fn carry(&mut self, alloc: Global, msg: &Msg) -> Result<Msg, WorldErr>
        requires { FitsMessage msg.now }
        ensures message { IfOk result (λ carried. carried ≡ msg.now) }
        ensures error { IfErr result (λ error. error ≡ WorldErr.OutOfMemory) }
        ensures records { AreAllSame (kept self.old, past self.old) (kept self.new, past self.new) };

    /// Appends the node's record, or stops in one of the four device calls of that. `Full` comes exactly where the
    /// record has no room, whether there is a stop or not. After an error the hull isn't to be used for the node's records
    /// again; those of every other node are as before.
    fn append(
        &mut self,
        alloc: Global,
        node: NodeId,
        rec: &Record,
        stop: Option<Stop>,
    ) -> Result<Kept, WorldErr>
        requires fits { FitsRecord rec.now }
        requires place { IsInPlace (fold_of (kept self.old node.0)) rec.now }
        requires call { IsInAppend stop }
        ensures records { IfOk result (λ end. IsAppended (kept self.old, past self.old)
            (kept self.new, past self.new) node rec.now stop end) }
        ensures room { IsFullExactly (room.overflow (past self.old node.0) rec.now) result }
        ensures error { IfErr result IsFullOrMemory }
        ensures others { OnErr result (AreOthersSame (kept self.old, past self.old)
            (kept self.new, past self.new) node) };

    /// What the node that starts again finds: records that say what its records say, with its requests in their order.
    /// They were loaded then. Only memory may run out, and then nothing was.
    fn revive(&mut self, alloc: Global, node: NodeId) -> Result<Vec<Record>, WorldErr>
        ensures found { IfOk result (λ found. IsRevived (kept self.old, past self.old)
            (kept self.new, past self.new) node found.items) }
        ensures error { IfErr result (λ error. error ≡ WorldErr.OutOfMemory) }
        ensures records { OnErr result (AreAllSame (kept self.old, past self.old)
            (kept self.new, past self.new)) };

    /// Whether the node's records may be rewritten now. Where it is false they aren't, at any choice of bodies: then who
    /// asks needn't find out which bodies the node needs.
    fn may_compact(&self, node: NodeId) -> bool
        ensures { result ≡ false → IsNeverNow room (past self.now node.0) };

    /// Rewrites the node's records with these bodies, where that is to be done now, and reports whether it was. Only memory
    /// may run out. After an error the hull isn't to be used for the node's records again; those of every other node are
    /// as before.
    fn compact(&mut self, alloc: Global, node: NodeId, keep: &Keep) -> Result<bool, WorldErr>
        requires { MayBecome keep.now (kept self.old node.0) }
        ensures records { IfOk result (λ rewrote. IsCompacted room (kept self.old, past self.old)
            (kept self.new, past self.new) node keep.now rewrote) }
        ensures error { IfErr result (λ error. error ≡ WorldErr.OutOfMemory) }
        ensures others { OnErr result (AreOthersSame (kept self.old, past self.old)
            (kept self.new, past self.new) node) };

    /// What the node keeps as this version of this object of the file. `NoSuchVersion` comes exactly where it keeps
    /// none; it is never `Failed`. Bodies are in memory, so nothing changes.
    fn body(
        &self,
        alloc: Global,
        node: NodeId,
        file: &FileId,
        object: u64,
        version: &Stamp,
    ) -> Result<Octets, BodyErr>
        ensures { GivesBody (body_kept (kept self.now node.0) file.now object version.now) result };
}
