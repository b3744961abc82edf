ghost use Rattle.std.specs.Prelude.{◌≡◌, ℕ, List, IfOk, IfSome, IfNone, IsTrue, None, Some, unwrap_or};
ghost use Rattle.xt_base.specs.declared.ids.Stamp.{Stamp};
ghost use Rattle.xt_messages.specs.declared.file.ObjectVersion.{ObjectVersion};
ghost use Rattle.xt_messages.specs.declared.record.Record.TheVariants as kept;
ghost use Rattle.xt_messages.specs.Limits.{is_at_most};
ghost use Rattle.xt_protocol.specs.declared.states.Acted.{Acted};
ghost use Rattle.xt_messages.specs.declared.message.Payload.TheVariants as payload;
ghost use Rattle.xt_protocol.specs.ReplicaRows.{unanswered, only, after_record, refused, behind, as_promised, staged, stage_record, first_missing, head_offered, headed, head_fits, update_offered, updated};
ghost use Rattle.xt_protocol.specs.Heads.{head_after};
ghost use Rattle.object_versions.specs.Rising.{HeadRises};

use object_versions::{
    first_missing, holds, is_below, is_earlier, is_epoch, sessions_after, versions_after,
};
use std::alloc::Global;
use xt_base::{CLIENTS, COUNTS, Copies, Epoch, FileId, OBJECTS, Octets, OutOfMemory, Stamp};
use xt_messages::{FileHead, HeldSet, ObjectVersion, Payload, Record, Update};
use xt_protocol::Acted;

/// Nothing comes of a message.
pub fn unanswered() -> Acted
    ensures { result ≡ unanswered }
{
    Acted {
        rec: None,
        answer: None,
    }
}

/// An answer without a change.
pub fn only(answer: Payload) -> Acted
    ensures { result ≡ only answer }
{
    Acted {
        rec: None,
        answer: Some(answer),
    }
}

/// A record and the answer that rests on it.
pub fn after_record(rec: Record, answer: Payload) -> Acted
    ensures { result ≡ after_record rec answer }
{
    Acted {
        rec: Some(rec),
        answer: Some(answer),
    }
}

/// A higher epoch was promised.
pub fn refused(file: &FileId, own: &FileHead, epoch: Epoch) -> Acted
    ensures { result ≡ refused file.now own.now epoch }
{
    only(Payload::Refused {
        file: *file,
        epoch,
        promised: own.promised,
    })
}

/// The replica lacks what the message builds on.
pub fn behind(file: &FileId, own: &FileHead, epoch: Epoch) -> Acted
    ensures { result ≡ behind file.now own.now epoch }
{
    only(Payload::Behind {
        file: *file,
        epoch,
        stamp: own.stamp,
    })
}

/// The update or the head of this stamp is kept.
pub fn acknowledgement(file: &FileId, stamp: Stamp) -> Payload
    ensures { result ≡ payload.Ack file.now stamp }
{
    Payload::Ack { file: *file, stamp }
}

/// The head under a promise of this epoch, for a status.
pub fn promised_status(
    alloc: Global,
    file: &FileId,
    own: &FileHead,
    epoch: Epoch,
) -> Result<Payload, OutOfMemory>
    ensures { IfOk result (λ made. made ≡
        payload.Status file.now epoch (record own.now { promised = epoch })) }
{
    let mut head = own.copy(alloc)?;
    head.promised = epoch;
    Ok(Payload::Status {
        file: *file,
        epoch,
        head,
    })
}

/// The head as it is, for a status.
pub fn plain_status(
    alloc: Global,
    file: &FileId,
    own: &FileHead,
    epoch: Epoch,
) -> Result<Payload, OutOfMemory>
    ensures { IfOk result (λ made. made ≡ payload.Status file.now epoch own.now) }
{
    let head = own.copy(alloc)?;
    Ok(Payload::Status {
        file: *file,
        epoch,
        head,
    })
}

/// Whether the head after an update is within the limits of what can be kept and sent.
pub fn update_fits(own: &FileHead, update: &Update) -> bool
    requires { HeadRises own.now }
    ensures { result ≡ head_fits (head_after own.now update.now) }
{
    versions_after(own, update) <= OBJECTS as usize
        && sessions_after(own, update) <= CLIENTS
        && update.stamp.count < COUNTS
}

/// What an epoch other than the promised one gets.
fn turned_away(file: &FileId, own: &FileHead, epoch: Epoch) -> Option<Acted>
    ensures row { (row : Acted) → as_promised file.now own.now epoch row ≡ unwrap_or result row }
    ensures promised { IfNone result (IsTrue (is_at_most epoch own.now.promised)) }
    ensures unkept { IfSome result (λ acted. acted.rec ≡ None) }
{
    if is_earlier(epoch, own.promised) {
        return Some(refused(file, own, epoch));
    }
    if is_earlier(own.promised, epoch) {
        return Some(behind(file, own, epoch));
    }
    None
}

/// What a head of the promised epoch gets that isn't taken: one that is kept or past, and one that names a version which
/// isn't held.
fn head_declined(
    file: &FileId,
    own: &FileHead,
    held: &HeldSet,
    epoch: Epoch,
    head: &FileHead,
) -> Option<Acted>
    ensures row { head_offered file.now own.now held.now epoch head.now ≡
        unwrap_or result
        (after_record (kept.Head file.now head.now) (payload.Ack file.now head.now.stamp)) }
    ensures unkept { IfSome result (λ acted. acted.rec ≡ None) }
{
    if !is_below(own.stamp, head.stamp) {
        return Some(only(acknowledgement(file, head.stamp)));
    }
    let missing = first_missing(held, head.versions.as_slice())?;
    Some(only(Payload::Missing {
        file: *file,
        epoch,
        object: missing.object,
        version: missing.version,
    }))
}

/// What a head gets that isn't taken. One under another epoch than its own gets nothing.
#[tactic(auto, unfolding(xt_protocol::specs::ReplicaRows::headed))]
pub fn head_turned_away(
    file: &FileId,
    own: &FileHead,
    held: &HeldSet,
    epoch: Epoch,
    head: &FileHead,
) -> Option<Acted>
    ensures row { headed file.now own.now held.now epoch head.now ≡
        unwrap_or result
        (after_record (kept.Head file.now head.now) (payload.Ack file.now head.now.stamp)) }
    ensures unkept { IfSome result (λ acted. acted.rec ≡ None) }
{
    if !is_epoch(head.promised, epoch) || !is_epoch(head.stamp.epoch, epoch) {
        return Some(unanswered());
    }
    match turned_away(file, own, epoch) {
        Some(acted) => Some(acted),
        None => head_declined(file, own, held, epoch, head),
    }
}

/// What an update of the promised epoch gets that isn't taken: one that is kept, one that isn't the next, and one that
/// would pass the limits.
fn update_declined(file: &FileId, own: &FileHead, update: &Update) -> Option<Acted>
    requires { HeadRises own.now }
    ensures row { update_offered file.now own.now update.now ≡
        unwrap_or result
        (after_record (kept.Update file.now update.now) (payload.Ack file.now update.now.stamp)) }
    ensures fits { IfNone result (IsTrue (head_fits (head_after own.now update.now))) }
    ensures unkept { IfSome result (λ acted. acted.rec ≡ None) }
{
    let Stamp { epoch, count } = update.stamp;
    if !is_epoch(own.stamp.epoch, epoch) {
        return Some(behind(file, own, epoch));
    }
    if count <= own.stamp.count {
        return Some(only(acknowledgement(file, update.stamp)));
    }
    if count - 1 != own.stamp.count {
        return Some(behind(file, own, epoch));
    }
    if !update_fits(own, update) {
        return Some(unanswered());
    }
    None
}

/// What an update gets that isn't taken.
#[tactic(auto, unfolding(xt_protocol::specs::ReplicaRows::updated))]
pub fn update_turned_away(file: &FileId, own: &FileHead, update: &Update) -> Option<Acted>
    requires { HeadRises own.now }
    ensures row { updated file.now own.now update.now ≡
        unwrap_or result
        (after_record (kept.Update file.now update.now) (payload.Ack file.now update.now.stamp)) }
    ensures promised { IfNone result (IsTrue (is_at_most update.now.stamp.epoch own.now.promised)) }
    ensures fits { IfNone result (IsTrue (head_fits (head_after own.now update.now))) }
    ensures unkept { IfSome result (λ acted. acted.rec ≡ None) }
{
    match turned_away(file, own, update.stamp.epoch) {
        Some(acted) => Some(acted),
        None => update_declined(file, own, update),
    }
}

/// What a body gets whose epoch isn't the promised one.
#[tactic(auto, unfolding(xt_protocol::specs::ReplicaRows::staged))]
pub fn body_turned_away(file: &FileId, own: &FileHead, epoch: Epoch) -> Option<Acted>
    ensures row { (held : List ObjectVersion) (object : ℕ) (version : Stamp) (bytes : List ℕ) →
        staged file.now own.now held epoch object version bytes ≡
        unwrap_or result
        (record {
          rec = stage_record file.now held object version bytes;
          answer = Some (payload.Staged file.now epoch object version);
        }) }
    ensures unkept { IfSome result (λ acted. acted.rec ≡ None) }
{
    turned_away(file, own, epoch)
}

/// The record of a body, unless it is held.
pub fn stage_record(
    alloc: Global,
    file: &FileId,
    held: &HeldSet,
    body: ObjectVersion,
    bytes: &Octets,
) -> Result<Option<Record>, OutOfMemory>
    ensures { IfOk result (λ rec. rec ≡
        stage_record file.now held.now body.object body.version bytes.now) }
{
    if holds(held, body) {
        return Ok(None);
    }
    Ok(Some(Record::Stage {
        file: *file,
        object: body.object,
        version: body.version,
        bytes: bytes.copy(alloc)?,
    }))
}
