//! The removal of files from the store of an OSD that has stopped: those that the metadata server has unlinked, once all that was granted on
//! them is over.
//!
//! `judge_files` tells of each file of the store what is to become of it, by what the metadata server knows: it goes where it was unlinked
//! long enough ago, and stays where it wasn't, or where the server never made it. `sweep` removes those that go, each by a record of its
//! own, and then has the records rewritten, so that the store needs no room for them any more. Its contract (`Sweeps`) says what the
//! records say then, and what a crash on the way leaves.
#![tactic(auto)]

mod fate;
mod judging;
mod laws;
mod sweeping;

pub use fate::Fate;
pub use judging::judge_files;
pub use laws::{judged_files_fit, others_stay};
pub use sweeping::sweep;
