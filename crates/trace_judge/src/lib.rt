//! The verdict on a trace: whether it is safe, or where it is broken first.
#![tactic(auto)]

mod calls;
mod dealing;
mod ends;
mod kept;
mod leases;
mod order;
mod places;
mod readings;
mod sets;
mod told;
mod verdict;
mod whole;
mod writes;

ghost use Rattle.trace_judge.specs.Short.{ReadingsTell};

pub use calls::Calls;
pub use dealing::DealtTrace;
pub use kept::{Judging, Says};
pub use leases::Leases;
pub use order::Order;
pub use places::{Locations, Places};
pub use readings::{Reading, Readings};
pub use sets::{Answers, Ids};
pub use told::{Answer, Claim, answer_on, claim_on, ok_told};
pub use verdict::{Verdict, judge};
pub use whole::{audit, files_of, least};
pub use writes::Writes;

/// A clock that no tick touches, with the sum of the ticks when it was reported, says as well who holds the file.
pub fn readings_tell()
    ensures { ReadingsTell }
{}
