//! How the step of a running node ends: whole, cut in its sending, or stopped in the append of its record.
//!
//! Its record is kept first; then its messages to other nodes are numbered, within the limits; then, if the hull rewrites its records
//! now, the node forgets the bodies that it doesn't need; only then are its marks reported and its messages to itself queued. So of a
//! step that isn't finished nothing is reported, and of one that was stopped in its append nothing but that its node is down. What a
//! step makes of a world equals its definition in `world_spec`.
#![tactic(auto)]

mod ending;
mod entries;
mod limits;
mod stepper;

pub use entries::{tell, tell_all};
pub use limits::limit;
pub use stepper::Stepper;
