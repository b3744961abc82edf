//! The versions of a file's objects, and the bodies that are kept of them: the orders of epochs, stamps and versions; the lists that rise
//! by them; what gives back the bodies that records put, what a write makes of one and what a read shows of one; which held bodies are
//! needed, and which are forgotten.
//!
//! Each call computes exactly its definition in `xt_protocol`. Where a list rises it is searched by halves, and changed in place without
//! memory. `Bodies` says which body is given, and that its call fails only where the count of its faults rose.
#![tactic(auto)]

mod bodies;
mod bytes;
mod errors;
mod heads;
mod held;
mod keeping;
mod orders;
mod sessions;
mod versions;

pub use bodies::{Bodies, seen};
pub use bytes::{overlay, readable, shown};
pub use errors::{BodyErr, StepErr};
pub use heads::{sessions_after, take_update, update_head, versions_after};
pub use held::{first_missing, has_version, held_from, held_rise, hold, holds, is_held, let_go};
pub use keeping::{NeededVersions, SoughtBodies, SoughtVersions, forget_held, keep_needed};
pub use orders::{comes_before, is_below, is_earlier, is_epoch, is_stamp, is_version};
pub use sessions::{put_session, session_of};
pub use versions::{drop_versions, objects_below, put_version, version_of};
