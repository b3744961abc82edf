//! Reading what stands in a word each.
ghost use Rattle.std.specs.Prelude.{◌≡◌, ◌≤◌, length, take, IfOk};
ghost use Rattle.server_text.specs.Reading.{node_in, texts_in, nodes_in, nodes_of, as_members, members_at};

use crate::words::{cut, name_of, u32_of};
use std::alloc::Global;
use xt_base::{Members, NodeId, OutOfMemory, Seq};
use xt_messages::Names;

/// The names that words are.
#[tactic(auto, unfolding(crate::specs::Reading::texts_in))]
pub(crate) fn names_in(alloc: Global, words: &[u8]) -> Result<Names, OutOfMemory>
    ensures { IfOk result (λ names. names ≡ texts_in words.now) }
{
    let mut names = Names::new(alloc);
    let mut rest = words;
    for _count in 0..words.len() {
        if rest.is_empty() {
            return Ok(names);
        }
        let (word, behind) = cut(rest);
        names.push(name_of(alloc, word)?)?;
        rest = behind;
    }
    Ok(names)
}

/// The nodes that words number.
#[tactic(auto, unfolding(crate::specs::Reading::nodes_in))]
pub(crate) fn nodes_in(alloc: Global, words: &[u8]) -> Result<Seq<NodeId>, OutOfMemory>
    ensures { IfOk result (λ nodes. nodes ≡ nodes_in words.now) }
{
    let mut nodes = Seq::new(alloc);
    let mut rest = words;
    for _count in 0..words.len() {
        if rest.is_empty() {
            return Ok(nodes);
        }
        let (word, behind) = cut(rest);
        nodes.push(NodeId(u32_of(word)))?;
        rest = behind;
    }
    Ok(nodes)
}

/// The node that a word numbers, or the greatest one.
pub fn node_in(word: &[u8]) -> NodeId
    ensures { result ≡ node_in word.now }
{
    NodeId(u32_of(word))
}

/// Puts the nodes that the words number into the places, as many as there are: how many it puts.
fn read_nodes(places: &mut [NodeId], words: &[u8]) -> usize
    ensures count { result ≤ length places.new }
    ensures nodes { take result places.new ≡ nodes_of (length places.old) words.now }
{
    let mut rest = words;
    for count in 0..places.len() {
        if rest.is_empty() {
            return count;
        }
        let (word, behind) = cut(rest);
        places[count] = node_in(word);
        rest = behind;
    }
    places.len()
}

/// These nodes, where they are one to nine different ones.
fn as_members(nodes: &[NodeId]) -> Option<Members>
    ensures { result ≡ as_members nodes.now }
{
    Members::new(nodes).ok()
}

/// The members of a file that the words number.
#[tactic(auto, unfolding(crate::specs::Reading::members_at))]
pub fn members_at(words: &[u8]) -> Option<Members>
    ensures { result ≡ members_at words.now }
{
    let mut places = [NodeId(0); 9];
    let count = read_nodes(&mut places, words);
    as_members(&places[..count])
}
