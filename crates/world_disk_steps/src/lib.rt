//! What a node's disk goes through: an append, in which the node may stop, and the start after a crash.
//!
//! A stop in an append is one of a disk, and what that disk leaves is what the node has then. A node that starts again has
//! what a crash leaves of its disk, and nothing that was kept beside it.
#![tactic(auto)]

ghost use Rattle.std.specs.Prelude.{◌≡◌, IfOk, IfErr, OnOk, OnErr};
ghost use Rattle.xt_messages.specs.Limits.{FitsRecord};
ghost use Rattle.xt_protocol.specs.Folds.{IsInPlace, fold_of};
ghost use Rattle.object_store.specs.Bare.{bare_of};
ghost use Rattle.world_hull.specs.Answers.{IsFullOrMemory, IsFullExactly};
ghost use Rattle.world_hull.specs.Appends.{IsInAppend, kept_by};
ghost use Rattle.world_disk.specs.Ends.{IsReadAgain, own_after};
ghost use Rattle.world_disk.specs.Room.{journal_overflow};
ghost use Rattle.world_disk_steps.specs.Steps.{IsDiskAfter};

use disk_model::Stop;
use std::alloc::Global;
use world_disk::NodeStore;
use world_hull::WorldErr;
use xt_messages::Record;

/// What the node has after an append, which may be stopped.
pub fn appended(
    alloc: Global,
    store: NodeStore,
    rec: &Record,
    stop: Option<Stop>,
) -> Result<NodeStore, WorldErr>
    requires fits { FitsRecord rec.now }
    requires place { IsInPlace (fold_of store.records) rec.now }
    requires call { IsInAppend stop }
    ensures own { IfOk result (λ node. node.records ≡
        own_after store.records rec.now (kept_by stop)) }
    ensures superblock { IfOk result (λ node. node.superblock ≡ store.superblock) }
    ensures disk { IfOk result (λ node. IsDiskAfter stop store.records rec.now node.disk) }
    ensures room { IsFullExactly (journal_overflow store.superblock store.records rec.now) result }
    ensures error { IfErr result IsFullOrMemory }
{
    match stop {
        None => store.put(alloc, rec),
        Some(stop) => store.stopped(alloc, rec, stop),
    }
}

/// The node starts again from what a crash leaves of its disk. Gives the records that it finds there, without their bodies. Where
/// memory runs out, its records and its disk are as before.
pub fn read_again(alloc: Global, store: &mut NodeStore) -> Result<Vec<Record>, WorldErr>
    ensures same { store.new.records ≡ store.old.records }
    ensures superblock { store.new.superblock ≡ store.old.superblock }
    ensures found { IfOk result (λ found. found.items ≡ bare_of store.old.records) }
    ensures read { OnOk result (IsReadAgain store.old.disk store.new.disk store.new.records) }
    ensures error { IfErr result (λ error. error ≡ WorldErr.OutOfMemory) }
    ensures failed { OnErr result (store.new ≡ store.old) }
{
    let again = store.reloaded(alloc)?;
    let found = again.copies(alloc)?;
    *store = again;
    Ok(found)
}
