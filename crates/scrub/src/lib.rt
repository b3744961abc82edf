//! The scrub of a store: whether the bodies that its heads name still have the digests that were kept of them.
//!
//! `items` are the bodies that are to be checked, each with the last digest that was kept of it, if there is one. `scrub` reads them, 64 at a
//! time, and computes their SHA-256 beside each other; its report is that of one thread that takes one item after the other, for every gate.
//! `mend` takes bytes in place of a damaged body exactly when their digest is the one that was kept.
//!
//! What is kept of a scrub, digests of new bodies and bodies in place of damaged ones, changes nothing of what the records say of any file.
#![tactic(auto)]

mod checking;
mod found;
mod laws;
mod listing;
mod mending;
mod reading;
mod scrubbing;

pub use found::Found;
pub use laws::{loaded_bodies_are_there, scrubs_say_nothing};
pub use listing::{Item, items};
pub use mending::mend;
pub use reading::ScrubErr;
pub use scrubbing::scrub;
