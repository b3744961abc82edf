ghost use Rattle.std.specs.Prelude.{◌≡◌, ◌<◌, ◌≤◌, ◌^◌, ◌+◌, ◌*◌, length, take, [], IsTrue, if◌then◌else◌, IfOk, List};
ghost use Rattle.xt_messages.specs.declared.record.Record.{Record};
ghost use Rattle.xt_messages.specs.Limits.{FitsOp};
ghost use Rattle.xt_protocol.specs.SeenBodies.{body_by};
ghost use Rattle.xt_protocol.specs.Writes as rows;
ghost use Rattle.object_versions.specs.KeptBodies.{fault_of, ReadsOnly};
ghost use Rattle.object_versions.specs.Rising.{HeadRises};
ghost use Rattle.osd_decisions.specs.Near.{IsNear};

use crate::reading::present_body;
use object_versions::{Bodies, StepErr, overlay, version_of};
use std::alloc::Global;
use xt_base::{FileId, NO_OBJECT, Octets, OpId, OutOfMemory, SizeMark, Stamp};
use xt_messages::{FileHead, Op, Update};

/// The update of a write: the greater size, and the old body with the bytes over it.
fn written<B: Bodies>(
    bodies: &mut B,
    alloc: Global,
    file: &FileId,
    stripe: u32,
    head: &FileHead,
    stamp: Stamp,
    id: OpId,
    object: u64,
    at: u32,
    bytes: &Octets,
) -> Result<Update, StepErr>
    requires near { object < 2 ^ 32 }
    requires few { length bytes.now ≤ 131072 }
    requires rising { HeadRises head.now }
    ensures value { IfOk result (λ update. (records : List Record) → B.agrees bodies.new records →
        update ≡ rows.written stripe (body_by records file.now) head.now stamp id object at
        bytes.now) }
    ensures reads { ReadsOnly B.agrees B.fault_count bodies.old bodies.new (fault_of result) }
{
    let version = version_of(head.versions.as_slice(), object);
    let old = present_body(bodies, alloc, file, object, version)?;
    let body = overlay(alloc, &old, at as usize, bytes)?;
    let end = object * u64::from(stripe) + u64::from(at) + bytes.as_slice().len() as u64;
    Ok(Update {
        stamp,
        id,
        mark: SizeMark {
            epoch: head.mark.epoch,
            size: head.mark.size.max(end),
        },
        drop_from: NO_OBJECT,
        object,
        body,
    })
}

/// How many objects of `stripe` bytes so many bytes take.
fn objects_of(stripe: u64, size: u64) -> u64
    requires { 1024 ≤ stripe }
    ensures { result ≡ rows.objects_of stripe size }
{
    if size % stripe == 0 {
        size / stripe
    } else {
        size / stripe + 1
    }
}

/// The update of a truncation: its epoch and size; the later objects go, and the body of the last one is cut where it is longer.
fn truncated<B: Bodies>(
    bodies: &mut B,
    alloc: Global,
    file: &FileId,
    stripe: u32,
    head: &FileHead,
    stamp: Stamp,
    id: OpId,
    epoch: u64,
    size: u64,
) -> Result<Update, StepErr>
    requires some { 1024 ≤ stripe }
    requires rising { HeadRises head.now }
    ensures value { IfOk result (λ update. (records : List Record) → B.agrees bodies.new records →
        update ≡ rows.truncated stripe (body_by records file.now) head.now stamp id epoch size) }
    ensures reads { ReadsOnly B.agrees B.fault_count bodies.old bodies.new (fault_of result) }
{
    let stripe = u64::from(stripe);
    let last = size / stripe;
    let left = (size % stripe) as usize;
    let version = version_of(head.versions.as_slice(), last);
    let old = present_body(bodies, alloc, file, last, version)?;
    let is_cut = 0 < left && left < old.as_slice().len();
    Ok(Update {
        stamp,
        id,
        mark: SizeMark { epoch, size },
        drop_from: objects_of(stripe, size),
        object: if is_cut { last } else { NO_OBJECT },
        body: cut_body(alloc, &old, left, is_cut)?,
    })
}

/// The first bytes of a body that is cut; none of one that isn't.
fn cut_body(alloc: Global, old: &Octets, left: usize, is_cut: bool) -> Result<Octets, OutOfMemory>
    requires { IsTrue is_cut → left ≤ length old.now }
    ensures { IfOk result (λ body. body ≡ (if is_cut then take left old.now else [])) }
{
    if is_cut {
        Octets::of(alloc, &old.as_slice()[..left])
    } else {
        Ok(Octets::new(alloc))
    }
}

/// The update that an operation makes over a head, under this stamp, in a file with objects of `stripe` bytes; a read makes none.
pub fn update_of<B: Bodies>(
    bodies: &mut B,
    alloc: Global,
    file: &FileId,
    stripe: u32,
    head: &FileHead,
    stamp: Stamp,
    id: OpId,
    epoch: u64,
    op: &Op,
) -> Result<Option<Update>, StepErr>
    requires some { 1024 ≤ stripe }
    requires fits { FitsOp op.now }
    requires near { IsNear op.now }
    requires rising { HeadRises head.now }
    ensures value { IfOk result (λ update. (records : List Record) → B.agrees bodies.new records →
        update ≡ rows.update_of stripe (body_by records file.now) head.now stamp id epoch op.now) }
    ensures reads { ReadsOnly B.agrees B.fault_count bodies.old bodies.new (fault_of result) }
{
    match op {
        Op::Read { .. } => Ok(None),
        Op::Write { object, at, bytes } => Ok(Some(written(
            bodies, alloc, file, stripe, head, stamp, id, *object, *at, bytes,
        )?)),
        Op::Truncate { size } => Ok(Some(truncated(
            bodies, alloc, file, stripe, head, stamp, id, epoch, *size,
        )?)),
    }
}
