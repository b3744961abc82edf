//! The members that a call has asked, and what came of them.
ghost use Rattle.std.specs.Prelude.{◌≡◌, ◌==◌, ◌&&◌, if◌then◌else◌, not, find, filter, Some, IfOk};
ghost use Rattle.xt_base.specs.MemberList.{has_node};
ghost use Rattle.client_rows.specs.Clients as rows;

use client_rows::Tried;
use std::alloc::Global;
use xt_base::{Members, NodeId, OutOfMemory, Seq};
use xt_messages::{Answered, Answers, Retry};

/// Whether the member was asked.
pub fn was_tried(tried: &[Tried], node: NodeId) -> bool
    ensures { result ≡ rows.was_tried tried.now node }
{
    tried.iter().any(|member| member.node.0 == node.0)
}

/// A member that was asked, with this outcome where it is the node.
fn told(member: &Tried, node: NodeId, how: &Retry) -> Tried
    ensures { result ≡
        (if member.now.node.0 == node.0
        then record { node = member.now.node; outcome = Some how.now } else member.now) }
{
    if member.node.0 == node.0 {
        Tried {
            node: member.node,
            outcome: Some(*how),
        }
    } else {
        *member
    }
}

/// The members that were asked, with this outcome of one of them.
pub fn with_outcome(
    alloc: Global,
    tried: &[Tried],
    node: NodeId,
    how: &Retry,
) -> Result<Seq<Tried>, OutOfMemory>
    ensures { IfOk result (λ made. made ≡ rows.with_outcome tried.now node how.now) }
{
    let mut made = Seq::new(alloc);
    for member in tried {
        made.push(told(member, node, how))?;
    }
    Ok(made)
}

/// What came of a member, if it was asked and anything has come of it.
#[tactic(auto, unfolding(client_rows::specs::Clients::outcome_in))]
fn outcome_in(tried: &[Tried], node: NodeId) -> Option<Retry>
    ensures { result ≡ rows.outcome_in tried.now node }
{
    for member in tried {
        if member.node.0 == node.0 {
            return member.outcome;
        }
    }
    None
}

/// What came of a member, as an end of the call reports it.
fn answer_of(tried: &[Tried], node: NodeId) -> Option<Answered>
    ensures { result ≡ rows.answered_by node (rows.outcome_in tried.now node) }
{
    let outcome = outcome_in(tried, node)?;
    Some(Answered { node, outcome })
}

/// What came of each member, in the order of the file's list.
pub fn answers_in(
    alloc: Global,
    tried: &[Tried],
    members: &[NodeId],
) -> Result<Answers, OutOfMemory>
    ensures { IfOk result (λ answers. answers ≡ rows.answers_in tried.now members.now) }
{
    let mut answers = Seq::new(alloc);
    for node in members {
        if let Some(answer) = answer_of(tried, *node) {
            answers.push(answer)?;
        }
    }
    Ok(answers)
}

/// The first member that wasn't asked.
fn first_left(tried: &[Tried], members: &Members) -> Option<NodeId>
    ensures { result ≡ find (λ m. not (rows.was_tried tried.now m)) members.now }
{
    members
        .as_slice()
        .iter()
        .copied()
        .find(|member| !was_tried(tried, *member))
}

/// Whether the node is a member that wasn't asked.
fn is_left(tried: &[Tried], members: &Members, node: NodeId) -> bool
    ensures { result ≡ (has_node members.now node.0 && not (rows.was_tried tried.now node)) }
{
    members.contains(node) && !was_tried(tried, node)
}

/// The member that an outcome names.
fn named(how: &Retry) -> Option<NodeId>
    ensures { result ≡ rows.named how.now }
{
    match how {
        Retry::Elsewhere { node, .. } => Some(*node),
        Retry::NoLease { .. } | Retry::NoMajority { .. } | Retry::Silent => None,
    }
}

/// The member to ask next, of those that weren't asked: the one that the outcome names, where it is one of them, else the
/// first.
pub fn next_target(tried: &[Tried], members: &Members, how: &Retry) -> Option<NodeId>
    ensures { result ≡
        rows.next_of (rows.named how.now)
        (filter (λ m. not (rows.was_tried tried.now m)) members.now) }
{
    match named(how) {
        None => first_left(tried, members),
        Some(node) => {
            if is_left(tried, members, node) {
                Some(node)
            } else {
                first_left(tried, members)
            }
        }
    }
}
