//! The limits that a line can reach.
ghost use Rattle.std.specs.Prelude.{◌≡◌};
ghost use Rattle.world_step.specs.Steps.{limit_of};

use time_line::{LINE_BYTES, LINES};
use world_hull::WorldErr;
use world_spec::{MESSAGE_BYTES, MESSAGES, NODES};
use xt_base::COUNTS;
use xt_messages::Limited;

/// The limit of a count.
fn limit_of(what: Limited) -> u64
    ensures { result ≡ limit_of what }
{
    match what {
        Limited::Lines => LINES,
        Limited::Line => LINE_BYTES,
        Limited::Nodes => NODES,
        Limited::Messages => MESSAGES,
        Limited::Bytes => MESSAGE_BYTES,
        Limited::Boots | Limited::Numbers => COUNTS - 1,
    }
}

/// A count came to its limit.
pub fn limit(what: Limited) -> WorldErr
    ensures { result ≡ WorldErr.Limit what (limit_of what) }
{
    WorldErr::Limit {
        what,
        limit: limit_of(what),
    }
}
