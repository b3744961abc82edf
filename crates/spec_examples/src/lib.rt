//! Worked values of the definitions, computed.
//!
//! Each function does nothing, and promises that a table of inputs has the values that stand in it, which were worked out without the
//! definitions: bytes and lines, refusals in their order, answers, and the courses of leases and calls. So the definitions mean what
//! is meant; and since the contracts of code equate it with the definitions, it gives these values too, to every caller.
#![tactic(auto)]

pub mod bytes;
pub mod catching_up;
pub mod clients;
pub mod disks;
pub mod leases;
pub mod parts;
pub mod placing;
pub mod sealing;
pub mod servers;
