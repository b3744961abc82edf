//! How far a primary has come with each peer that it brings up to date: which versions of its head it need not look for again.
//!
//! A peer is sent the bodies that it lacks one by one, and what is known of it only grows by that. So the search for the next version
//! that it lacks goes on where the last one ended (`first_unknown`), and `Searches` keeps where that was. `AreSound` says what makes that
//! right; it holds of `Searches::new` whatever the head is, and is lost where the head's versions change.
#![tactic(auto)]

mod searches;
mod unknown;

pub use searches::{Search, Searches};
pub use unknown::first_unknown;
