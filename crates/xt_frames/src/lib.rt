//! Messages as frames: a length, a version, a kind, two nodes and the fields of the kind, replies and answers among them.
//!
//! Each message within the limits of `xt_messages` has one frame. `encode` gives it, `decode` reads it again whatever
//! follows it, and bytes that don't begin with a frame are refused for the first reason in a fixed order. The fields that
//! frames alone have are calls on the reader and the writer of basic fields, with one spelling each.
#![tactic(auto)]

mod answers;
mod decoding;
mod encoding;
mod fault;
mod reading;
mod reply;
mod spelling;
mod writing;

pub use decoding::decode;
pub use encoding::encode;
pub use fault::FrameErr;
pub use spelling::answers_have_one_spelling;
