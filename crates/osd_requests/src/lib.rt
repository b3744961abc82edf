//! The asks of a file that aren't answered: those that wait, and that of the issued update.
//!
//! Each call equals its definition in `xt_protocol`, or fails where memory runs out, and then the asks are as they were. The answers
//! that asks get are made by one call, which changes nothing, and the asks that got them go by another one, which takes no memory.
//! Clocks and deadlines are in milliseconds.
#![tactic(auto)]

mod open;

pub use open::OpenAsks;
