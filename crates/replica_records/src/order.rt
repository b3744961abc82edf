ghost use Rattle.std.specs.Prelude.{◌≡◌, ◌↔◌, ◌⊎◌, ◌+◌, IsTrue, IfOk, map, Contains};
ghost use Rattle.std.specs.List.{All, AllByRecursion};
ghost use Rattle.xt_messages.specs.Limits.{is_at_most, rise, FitsEpoch, FitsStamp, FitsOpId, FitsMark, FitsVersion, FitsSession, FitsVersions, FitsSessions, FitsHead, FitsUpdate};
ghost use Rattle.xt_protocol.specs.Heads.{first_epoch};
ghost use Rattle.xt_protocol.specs.Folds.{FollowsHead};
ghost use Rattle.object_versions.specs.Rising.{HeadRises};
ghost use Rattle.replica_records.specs.Sound.{FitsFold, FitsLists, HasRoomFor};

use crate::head::{head_after, plain_stamp};
use object_versions::{holds, sessions_after, versions_after};
use std::alloc::Global;
use xt_base::{CLIENTS, COUNTS, Epoch, OBJECTS, OpId, OutOfMemory, SizeMark, Stamp};
use xt_messages::{FileHead, HeldSet, ObjectVersion, Record, Session, Update};
use xt_wire::{clients_rise, is_at_most, objects_rise};

/// Whether an epoch is within its limits.
fn fits_epoch(epoch: Epoch) -> bool
    ensures { IsTrue result ↔ FitsEpoch epoch }
{
    let _node = epoch.node.0;
    epoch.number < COUNTS
}

/// Whether a stamp is within its limits.
fn fits_stamp(stamp: Stamp) -> bool
    ensures { IsTrue result ↔ FitsStamp stamp }
{
    fits_epoch(stamp.epoch) && stamp.count < COUNTS
}

/// Whether an operation's id is within its limits.
fn fits_op_id(id: OpId) -> bool
    ensures { IsTrue result ↔ FitsOpId id }
{
    let _client = id.client.0;
    id.number < COUNTS
}

/// Whether a size mark is within its limits.
fn fits_mark(mark: SizeMark) -> bool
    ensures { IsTrue result ↔ FitsMark mark }
{
    let _size = mark.size;
    mark.epoch < COUNTS
}

/// Whether the version of an object is within its limits.
fn fits_version(entry: ObjectVersion) -> bool
    ensures { IsTrue result ↔ FitsVersion entry }
{
    let _object = entry.object;
    fits_stamp(entry.version)
}

/// Whether the last write of a client is within its limits.
fn fits_session(session: Session) -> bool
    ensures { IsTrue result ↔ FitsSession session }
{
    let _client = session.client.0;
    session.number < COUNTS && session.count < COUNTS
}

/// Whether each version is within its limits.
fn each_version_fits(versions: &[ObjectVersion]) -> bool
    ensures { IsTrue result ↔ AllByRecursion FitsVersion versions.now }
{
    let mut rest = versions;
    while let [first, others @ ..] = rest {
        if !fits_version(*first) {
            return false;
        }
        rest = others;
    }
    true
}

/// Whether each session is within its limits.
fn each_session_fits(sessions: &[Session]) -> bool
    ensures { IsTrue result ↔ AllByRecursion FitsSession sessions.now }
{
    let mut rest = sessions;
    while let [first, others @ ..] = rest {
        if !fits_session(*first) {
            return false;
        }
        rest = others;
    }
    true
}

/// Whether versions are within the limits of a head's.
fn fits_versions(versions: &[ObjectVersion]) -> bool
    ensures { IsTrue result ↔ FitsVersions versions.now }
{
    versions.len() <= OBJECTS as usize && each_version_fits(versions) && objects_rise(versions)
}

/// Whether sessions are within the limits of a head's.
fn fits_sessions(sessions: &[Session]) -> bool
    ensures { IsTrue result ↔ FitsSessions sessions.now }
{
    sessions.len() <= CLIENTS && each_session_fits(sessions) && clients_rise(sessions)
}

/// Whether the parts of a head without its lists are within their limits.
fn fits_places(head: &FileHead) -> bool
    ensures { IsTrue result
        ↔ (FitsEpoch head.now.promised × FitsStamp head.now.stamp × FitsOpId head.now.last
        × FitsMark head.now.mark × IsTrue (is_at_most head.now.stamp.epoch head.now.promised)) }
{
    fits_epoch(head.promised)
        && fits_stamp(head.stamp)
        && fits_op_id(head.last)
        && fits_mark(head.mark)
        && is_at_most(head.stamp.epoch, head.promised)
}

/// Whether a head is within its limits.
fn fits_head(head: &FileHead) -> bool
    ensures { IsTrue result ↔ FitsHead head.now }
{
    fits_places(head)
        && fits_versions(head.versions.as_slice())
        && fits_sessions(head.sessions.as_slice())
}

/// Whether an update's epoch is the promised one or the one before any primary, and its count the next one.
fn is_next(head: &FileHead, update: &Update) -> bool
    ensures { IsTrue result
        ↔ (((update.now.stamp.epoch ≡ head.now.promised) ⊎ (update.now.stamp.epoch ≡ first_epoch))
        × (update.now.stamp.count ≡ head.now.stamp.count + 1)) }
{
    let Stamp { epoch, count } = update.stamp;
    let is_known = epoch == head.promised || epoch == plain_stamp(0).epoch;
    is_known && count > 0 && count - 1 == head.stamp.count
}

/// Whether an update may follow this head.
pub(crate) fn follows_head(
    alloc: Global,
    head: &FileHead,
    update: &Update,
) -> Result<bool, OutOfMemory>
    ensures { IfOk result (λ answer. IsTrue answer ↔ FollowsHead head.now update.now) }
{
    if !is_next(head, update) {
        return Ok(false);
    }
    let after = head_after(alloc, head, update)?;
    Ok(fits_head(&after))
}

/// Whether the head after an update has no version and no session too many.
fn has_room(head: &FileHead, update: &Update) -> bool
    requires { HeadRises head.now }
    ensures { IsTrue result ↔ HasRoomFor head.now update.now }
{
    versions_after(head, update) <= OBJECTS as usize && sessions_after(head, update) <= CLIENTS
}

/// Whether an update within its limits may follow this head, whose lists are within theirs: the head after it has
/// at most one version and one session more.
pub(crate) fn follows_fitting(head: &FileHead, update: &Update) -> bool
    requires lists { FitsLists head.now }
    requires fits { FitsUpdate update.now }
    ensures { IsTrue result ↔ FollowsHead head.now update.now }
{
    is_next(head, update) && has_room(head, update)
}

/// Whether a version is held.
fn is_held(held: &HeldSet, version: ObjectVersion) -> bool
    ensures { IsTrue result ↔ Contains held.now version }
{
    holds(held, version)
}

/// Whether each of the versions is held.
pub(crate) fn are_held(held: &HeldSet, versions: &[ObjectVersion]) -> bool
    ensures { IsTrue result ↔ All (Contains held.now) versions.now }
{
    for version in versions {
        if !is_held(held, *version) {
            return false;
        }
    }
    true
}

/// Whether a record is within the limits that its file's row keeps.
pub(crate) fn fits_fold(rec: &Record) -> bool
    ensures { IsTrue result ↔ FitsFold rec.now }
{
    match rec {
        Record::Promise { epoch, .. } => fits_epoch(*epoch),
        Record::Update { update, .. } | Record::OldUpdate { update, .. } => {
            let _object = update.object;
            fits_stamp(update.stamp) && fits_op_id(update.id)
        }
        Record::Head { head, .. }
        | Record::Install { head, .. }
        | Record::OldHead { head, .. }
        | Record::OldInstall { head, .. } => fits_head(head),
        _ => true,
    }
}
