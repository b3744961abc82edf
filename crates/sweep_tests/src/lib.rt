//! Tests of a sweep over disks in memory: at the edge of the time, with a journal that has no room, with stores that aren't there, and with
//! each call of a device that fails.
//!
//! Contracts say the same of all stores. These stores, and what comes of them, were worked out without this repository.
#![tactic(auto)]

#[cfg(test)]
mod bytes;
#[cfg(test)]
mod stores;
#[cfg(test)]
mod sweeps;

/// The message where a test stops that can't go on.
#[cfg(test)]
const OTHERWISE: &str = "a call answers otherwise";
