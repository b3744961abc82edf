//! Whom an operation on a striped file asks, and what a read of one shows.
ghost use Rattle.std.specs.Prelude.{◌≡◌, IfOk};
ghost use Rattle.client_rows.specs.Requests as spec;

use object_versions::readable;
use replica_client::first_member;
use std::alloc::Global;
use xt_base::{Members, NodeId, Octets, OutOfMemory};
use xt_messages::Op;

/// An object's owner: the member whose place in the list, from 0, is the object's number modulo the length of the list.
fn owner_of(members: &Members, object: u64) -> NodeId
    ensures { result ≡ spec.owner_of members.now object }
{
    let members = members.as_slice();
    if members.is_empty() {
        return NodeId(0);
    }
    let place = object % members.len() as u64;
    match members.get(place as usize) {
        Some(owner) => *owner,
        None => NodeId(0),
    }
}

/// Whom an operation asks first: the object's owner, and for a truncation the first member.
pub fn first_of(members: &Members, op: &Op) -> NodeId
    ensures { result ≡ spec.first_of members.now op.now }
{
    match op {
        Op::Read { object, .. } | Op::Write { object, .. } => owner_of(members, *object),
        Op::Truncate { .. } => first_member(members),
    }
}

/// The member after this one.
fn member_after(members: &[NodeId], node: NodeId) -> Option<NodeId>
    ensures { result ≡ spec.member_after members.now node }
{
    let (member, later) = members.split_first()?;
    if member.0 == node.0 {
        return later.first().copied();
    }
    member_after(later, node)
}

/// Whether a truncation that goes through the members one by one has asked this one: it stands no further than the target.
fn stands_up_to(members: &[NodeId], target: NodeId, node: NodeId) -> bool
    ensures { result ≡ spec.stands_up_to members.now target node }
{
    let Some((member, later)) = members.split_first() else {
        return false;
    };
    if member.0 == node.0 {
        return true;
    }
    member.0 != target.0 && stands_up_to(later, target, node)
}

/// Whether an operation that waits for the target has asked this node.
pub fn was_asked(members: &Members, op: &Op, target: NodeId, node: NodeId) -> bool
    ensures { result ≡ spec.was_asked members.now op.now target node }
{
    match op {
        Op::Truncate { .. } => stands_up_to(members.as_slice(), target, node),
        Op::Read { .. } | Op::Write { .. } => node.0 == target.0,
    }
}

/// Whom an operation asks next, once the target has done it: a truncation goes on to the member after it.
pub fn next_asked(members: &Members, op: &Op, target: NodeId) -> Option<NodeId>
    ensures { result ≡ spec.next_asked members.now op.now target }
{
    match op {
        Op::Truncate { .. } => member_after(members.as_slice(), target),
        Op::Read { .. } | Op::Write { .. } => None,
    }
}

/// The bytes that an Ok shows of an operation on a file of this size: a read is cut where the file ends.
pub fn bytes_shown(
    alloc: Global,
    size: u64,
    stripe: u32,
    op: &Op,
    bytes: &[u8],
) -> Result<Octets, OutOfMemory>
    ensures { IfOk result (λ shown. shown ≡ spec.bytes_shown size stripe op.now bytes.now) }
{
    match op {
        Op::Read { object, at, len } => {
            let inside = readable(size, stripe, *object, *at, *len) as usize;
            Octets::of(alloc, &bytes[..inside.min(bytes.len())])
        }
        Op::Write { .. } | Op::Truncate { .. } => Octets::of(alloc, bytes),
    }
}
