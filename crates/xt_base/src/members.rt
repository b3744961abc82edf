ghost use Rattle.std.specs.Prelude.{◌≡◌, ◌≤◌, length, IsTrue, ◌↔◌, IfOk, IsOk};
ghost use Rattle.xt_base.specs.MemberList.{are_distinct, are_members, has_node};

use crate::ids::NodeId;
use std::marker::Model;

/// One to nine different nodes, in the order of a file's list. Contracts see the list.
#[derive(Clone, Copy)]
pub struct Members {
    nodes: [NodeId; 9],
    count: usize,
}

impl Model for Members {
    ghost use Rattle.std.specs.Prelude.{List, ◌≤◌, ◌≡◌, take};
    ghost use Rattle.xt_base.specs.declared.ids.NodeId.{NodeId};

    ghost Value = { List NodeId };

    ghost use Rattle.xt_base.specs.MemberList.{seen, filled, IsFilled};

    ghost view = { seen };

    ghost invariant = { IsFilled };

    ghost inverse = { filled };

    ghost inverse_ok = { λ a h. h.1 };
}

/// These aren't one to nine different nodes.
#[derive(Clone, Copy)]
pub struct BadMembers;

/// Whether the node is in the list.
pub fn has_node(nodes: &[NodeId], node: NodeId) -> bool
    ensures { result ≡ has_node nodes.now node.0 }
{
    nodes.iter().any(|member| member.0 == node.0)
}

/// Whether no node is in it twice.
fn are_distinct(nodes: &[NodeId]) -> bool
    ensures { result ≡ are_distinct nodes.now }
{
    let Some((first, rest)) = nodes.split_first() else {
        return true;
    };
    !has_node(rest, *first) && are_distinct(rest)
}

impl Members {
    /// These nodes, or `BadMembers` exactly where they aren't one to nine different ones.
    pub fn new(nodes: &[NodeId]) -> Result<Members, BadMembers>
        ensures exact { IsOk result ↔ IsTrue (are_members nodes.now) }
        ensures value { IfOk result (λ made. made ≡ nodes.now) }
    {
        if nodes.is_empty() || nodes.len() > 9 || !are_distinct(nodes) {
            return Err(BadMembers);
        }
        let mut places = [NodeId(0); 9];
        places[..nodes.len()].copy_from_slice(nodes);
        Ok(Members {
            nodes: places,
            count: nodes.len(),
        })
    }

    /// The nodes in order.
    pub fn as_slice(&self) -> &[NodeId]
        ensures list { result.now ≡ self.now }
        ensures few { length result.now ≤ 9 }
    {
        &self.nodes[..self.count]
    }

    /// Whether the node is one of them.
    pub fn contains(&self, node: NodeId) -> bool
        ensures { result ≡ has_node self.now node.0 }
    {
        has_node(self.as_slice(), node)
    }
}
