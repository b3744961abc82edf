//! The members that a client's call has asked: which of them answered what, which one is asked next, and what the end of a
//! call reports of them.
//!
//! Each function equals its definition in `client_rows`: no member is asked twice, and an end reports the members in the
//! order of the file's list.
#![tactic(auto)]

mod tried;

pub use tried::{answers_in, next_target, was_tried, with_outcome};
