ghost use Rattle.std.specs.Prelude.{◌≡◌, ◌≤◌, length, IfOk, List};
ghost use Rattle.xt_messages.specs.declared.record.Record.{Record};
ghost use Rattle.xt_messages.specs.Limits.{FitsOp};
ghost use Rattle.xt_protocol.specs.SeenBodies.{body_by};
ghost use Rattle.xt_protocol.specs.Heads.{head_after};
ghost use Rattle.xt_protocol.specs.ReplicaRows.{head_fits};
ghost use Rattle.object_versions.specs.KeptBodies.{fault_of, ReadsOnly};
ghost use Rattle.object_versions.specs.Rising.{HeadRises};
ghost use Rattle.osd_decisions.specs.Near.{IsNear};
ghost use Rattle.xt_protocol.specs.PlainRows as rows;

use crate::PlainActed;
use object_versions::{Bodies, StepErr, sessions_after, shown, version_of, versions_after};
use osd_decisions::{present_body, update_of};
use std::alloc::Global;
use xt_base::{CLIENTS, COUNTS, Epoch, FileId, Members, NodeId, OBJECTS, OpId, Stamp};
use xt_messages::{Denial, FileHead, Op, Reply, Update};

/// Nothing comes of an operation.
pub fn nothing() -> PlainActed
    ensures { result ≡ rows.nothing }
{
    PlainActed {
        rec: None,
        reply: None,
    }
}

/// A reply without a change.
pub fn only(reply: Reply) -> PlainActed
    ensures { result ≡ rows.only reply }
{
    PlainActed {
        rec: None,
        reply: Some(reply),
    }
}

/// Whether the object is this node's: it lies on the member of its number modulo theirs, counted from 0.
fn owns(members: &[NodeId], node: NodeId, object: u64) -> bool
    requires { 1 ≤ length members.now }
    ensures { result ≡ rows.owns members.now node object }
{
    let place = object % members.len() as u64;
    match members.get(place as usize) {
        Some(owner) => owner.0 == node.0,
        None => false,
    }
}

/// Whether the operation is on another member's object. A truncation goes to every member.
fn is_of_another(members: &[NodeId], node: NodeId, op: &Op) -> bool
    requires { 1 ≤ length members.now }
    ensures { result ≡ rows.is_of_another members.now node op.now }
{
    match op {
        Op::Read { object, .. } | Op::Write { object, .. } => !owns(members, node, *object),
        Op::Truncate { .. } => false,
    }
}

/// Why the member refuses the operation: it isn't in the list, or the object is another member's.
pub fn refusal(members: &Members, node: NodeId, op: &Op) -> Option<Denial>
    requires { 1 ≤ length members.now }
    ensures { result ≡ rows.plain_refusal members.now node op.now }
{
    if !members.contains(node) {
        return Some(Denial::List);
    }
    if is_of_another(members.as_slice(), node, op) {
        return Some(Denial::Range);
    }
    None
}

/// Read served: the member's count and mark, and the object's bytes from `at` on, filled with zeros to `len`.
pub fn serve_read<B: Bodies>(
    bodies: &mut B,
    alloc: Global,
    file: &FileId,
    head: &FileHead,
    object: u64,
    at: u32,
    len: u32,
) -> Result<Reply, StepErr>
    requires { HeadRises head.now }
    ensures value { IfOk result (λ answer. (records : List Record) → B.agrees bodies.new records →
        answer ≡ rows.serve_read (body_by records file.now) head.now object at len) }
    ensures reads { ReadsOnly B.agrees B.fault_count bodies.old bodies.new (fault_of result) }
{
    let version = version_of(head.versions.as_slice(), object);
    let body = present_body(bodies, alloc, file, object, version)?;
    let bytes = shown(alloc, body, at as usize, len as usize)?;
    Ok(Reply::Ok {
        count: head.stamp.count,
        mark: head.mark,
        bytes,
    })
}

/// The update of the next count, where there is one left. No primary's epoch stands in its stamp.
pub fn next_update<B: Bodies>(
    bodies: &mut B,
    alloc: Global,
    file: &FileId,
    stripe: u32,
    head: &FileHead,
    id: OpId,
    epoch: u64,
    op: &Op,
) -> Result<Option<Update>, StepErr>
    requires some { 1024 ≤ stripe }
    requires fits { FitsOp op.now }
    requires near { IsNear op.now }
    requires rising { HeadRises head.now }
    ensures value { IfOk result (λ update. (records : List Record) → B.agrees bodies.new records →
        update ≡ rows.next_update stripe (body_by records file.now) head.now id epoch op.now) }
    ensures reads { ReadsOnly B.agrees B.fault_count bodies.old bodies.new (fault_of result) }
{
    if head.stamp.count >= COUNTS - 1 {
        return Ok(None);
    }
    let stamp = Stamp {
        epoch: Epoch {
            number: 0,
            node: NodeId(0),
        },
        count: head.stamp.count + 1,
    };
    update_of(bodies, alloc, file, stripe, head, stamp, id, epoch, op)
}

/// Whether the head after an update is within its limits.
pub fn update_fits(head: &FileHead, update: &Update) -> bool
    requires { HeadRises head.now }
    ensures { result ≡ head_fits (head_after head.now update.now) }
{
    versions_after(head, update) <= OBJECTS as usize
        && sessions_after(head, update) <= CLIENTS
        && update.stamp.count < COUNTS
}
