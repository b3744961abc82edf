//! A change of a replicated file's list of members, as the metadata server carries it out: the closings of old members are counted, a head
//! is chosen of what they report once a majority has closed the file and no lease of the old list can be held any more, and the
//! installations of new members are counted.
//!
//! Each call equals its definition in `change_rows` (`Changes`). Clocks are in milliseconds, below 2^62.
#![tactic(auto)]

mod change;
mod seats;

pub use change::Change;
pub use change_rows::Choice;
