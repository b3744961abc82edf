//! Tests of the whole program over memory: that it serves where nothing fails, and what it does with damaged input, and with devices that
//! fail or stop: journals, parts of messages, schedules, disks, links, clocks and children. Most go over a table, whose answers were worked
//! out by hand from the formats.
//!
//! Contracts say the same of all input. A table shows that they mean what the formats say.
#![tactic(auto)]

#[cfg(test)]
mod appends;
#[cfg(test)]
mod batches;
#[cfg(test)]
mod bytes;
#[cfg(test)]
mod datagrams;
#[cfg(test)]
mod devices;
#[cfg(test)]
mod journals;
#[cfg(test)]
mod parts;
#[cfg(test)]
mod runs;
#[cfg(test)]
mod schedules;
#[cfg(test)]
mod serving;
#[cfg(test)]
mod starts;
#[cfg(test)]
mod torn;

/// The message where a test stops that can't go on.
#[cfg(test)]
const OTHERWISE: &str = "a call answers otherwise";
