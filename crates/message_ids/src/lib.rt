//! Which message a part is of: who sent it, in which boot, and the number that the sender gave it.
//!
//! `is` distinguishes two messages by all three. A sender that starts again numbers its messages from 1 once more, so two
//! messages may differ in their boot alone.
#![tactic(auto)]

ghost use Rattle.std.specs.Prelude.{◌≡◌};
ghost use Rattle.message_ids.specs.Same.{is_same};

use xt_base::{Boot, NodeId};

/// Which message of which start of which node. A sender numbers its messages from 1 in each boot.
#[derive(Clone, Copy)]
pub struct MessageId {
    pub sender: NodeId,
    pub boot: Boot,
    pub number: u64,
}

impl MessageId {
    /// Whether it is that message.
    pub fn is(&self, other: &MessageId) -> bool
        ensures { result ≡ is_same self.now other.now }
    {
        self.sender == other.sender && self.boot == other.boot && self.number == other.number
    }
}
