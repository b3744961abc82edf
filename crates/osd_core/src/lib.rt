//! An OSD: its whole step on an event, over any number of files; which of the bodies that it holds it needs, and
//! how it forgets the others.
//!
//! Contracts see an OSD as the state of `xt_protocol`, and each call equals its definition there: a start from what the records
//! say, silence, a message for the file that it concerns, a Wake for all of them, what is needed, and what is there without the rest.
//! A file is found by its order, and stays a row of the records until a message concerns it; a Wake looks only at files that may have
//! something to do. A step fails only where memory runs out or a body can't be read, and leaves the OSD as it was then.
#![tactic(auto)]

mod messages;
mod met;
mod osd;
mod slot;
mod slots;

pub use osd::Osd;
