//! A message that is packed to be sent.
ghost use Rattle.std.specs.Prelude.{◌≤◌, length};
ghost use Rattle.xt_base.specs.declared.TheConstants.{FRAME};

use message_ids::MessageId;
use xt_base::{Address, Octets};

/// A message that is packed, and can be sent without any more memory: where to, which one it is, and its frame.
#[derive(Drop)]
pub struct Post {
    pub address: Address,
    pub id: MessageId,
    pub frame: Octets,
    pub ghost short: { length frame ≤ FRAME },
}
