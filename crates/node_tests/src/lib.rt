//! Tests of what no contract and no theorem can say: that calls succeed where there is memory, of what no run of the program comes to
//! yet (the two servers, a client of them, pieces of striped files, journals and records that are refused, a hull in memory); and that
//! a real file keeps its bytes and bodies, and is kept from a second disk, a real reader is a source and a real writer a sink, a socket
//! takes what another one sends, the clock of this machine moves, and children are started, waited for and stopped.
//!
//! Worked values of definitions stand in `spec_examples`, as theorems.
#![tactic(auto)]

#[cfg(test)]
mod adapters;
#[cfg(test)]
mod bodies;
#[cfg(test)]
mod calls;
#[cfg(test)]
mod file;
#[cfg(test)]
mod journals;
#[cfg(test)]
mod links;
#[cfg(test)]
mod refusals;
#[cfg(test)]
mod services;
#[cfg(test)]
mod sockets;
#[cfg(test)]
mod stripes;

/// The message where a test stops that can't go on.
#[cfg(test)]
const OTHERWISE: &str = "a call answers otherwise";
