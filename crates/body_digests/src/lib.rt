//! The digests of bodies that records keep, by file and version: an index of them, made in one pass over the records.
#![tactic(auto)]

mod digests;

pub use digests::{BodyDigest, Digests};
