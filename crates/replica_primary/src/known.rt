ghost use Rattle.std.specs.Prelude.{◌≡◌, ◌++◌, ◌∷◌, [], OnOk, OnErr};
ghost use Rattle.xt_protocol.specs.Primaries as rows;

use xt_base::{NodeId, OutOfMemory, has_node};
use xt_protocol::Nodes;

/// Puts the node among these, once.
pub fn add_node(nodes: &mut Nodes, node: NodeId) -> Result<(), OutOfMemory>
    ensures ok { OnOk result (nodes.new ≡ rows.with_node nodes.old node) }
    ensures err { OnErr result (nodes.new ≡ nodes.old) }
{
    if !has_node(nodes.as_slice(), node) {
        nodes.push(node)?;
    }
    Ok(())
}
