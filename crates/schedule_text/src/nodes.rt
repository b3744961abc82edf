//! Nodes, the members of a file and where it lies, as the words of a line give them.
ghost use Rattle.std.specs.Prelude.{◌≡◌};
ghost use Rattle.schedule_text.specs.LineReading.{node_at, location_at};

use server_text::{cut, kind_of, members_at, node_in, u32_at};
use xt_base::NodeId;
use xt_messages::Location;

/// The node that the first word numbers, or the greatest one, and the other words.
#[tactic(auto, unfolding(crate::specs::LineReading::node_at))]
pub(crate) fn node_at(words: &[u8]) -> (NodeId, &[u8])
    ensures node { result.0 ≡ (node_at words.now).0 }
    ensures rest { result.1.now ≡ (node_at words.now).1 }
{
    let (word, rest) = cut(words);
    (node_in(word), rest)
}

/// Where a file lies: `rep|str STRIPE NODE ..`
#[tactic(auto, unfolding(crate::specs::LineReading::location_at))]
pub(crate) fn location_at(words: &[u8]) -> Option<Location>
    ensures { result ≡ location_at words.now }
{
    let (kind, words) = cut(words);
    let (stripe, words) = u32_at(words);
    Some(Location {
        version: 1,
        kind: kind_of(kind),
        stripe,
        members: members_at(words)?,
    })
}
