//! The primary of a file, in its turns: it draws an epoch, gathers statuses, chooses a head and fetches its bodies, feeds its
//! peers, serves reads, issues updates and counts who has acknowledged them; a wake sends again what wasn't answered.
//!
//! Each call computes exactly its row of the definitions in `xt_protocol`. Contracts see where the primary stands, and its state in
//! the rows' own terms. A call that fails, since memory ran out or a body can't be read, leaves the primary as it was; but one that takes
//! a message other than an acknowledgement or the report of a staged body leaves it idle. The head that a commit leaves is a copy of the
//! own one.
#![tactic(auto)]

mod acking;
mod copying;
mod drawing;
mod feeding;
mod fetching;
mod gathering;
mod hearing;
mod known;
mod moving;
mod peers;
mod primary;
mod sending;
mod serving;
mod staging;
mod waking;

pub use primary::{Phase, Primary};
pub use sending::send_any;
pub use xt_protocol::Turned as Led;
