//! What the bytes of a journal stand for, when it has areas.
//!
//! A journal begins with a header and one area: records, each after an open gate, up to a gate that isn't open. A record of a kind of its
//! own, the superblock, may be among the first area's records, once. It has two slots, each with a gate, and each says where
//! another area is. While no slot is open the journal goes on after the superblock; else what it stands for is the area of the open slot
//! with the greater number, from its place on, and nothing before that counts.
//!
//! So a whole new area is written where nothing counts, and then one byte, the gate of a slot, makes it the one that counts.
#![tactic(auto)]

mod site;
mod soundness;
mod superblock;

pub use site::{Area, Site, area_of, next_number, site_of};
pub use superblock::{Slot, Superblock};
