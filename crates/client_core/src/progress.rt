//! How a call that waits for a node goes on.
ghost use Rattle.std.specs.Prelude.{◌≡◌};
ghost use Rattle.client_rows.specs.Waiting as rows;

use client_rows::{CallResult, Learnt, Next, Progress};

/// Nothing.
pub fn waits_on() -> Progress
    ensures { result ≡ rows.waits_on }
{
    Progress {
        learnt: Learnt::Nothing,
        next: Next::Wait,
    }
}

/// The call ends so.
pub fn ends(how: CallResult) -> Progress
    ensures { result ≡ rows.ends how }
{
    Progress {
        learnt: Learnt::Nothing,
        next: Next::End { how },
    }
}
