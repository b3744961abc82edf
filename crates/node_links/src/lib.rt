//! What a node and a replay have to do with the outside: a source of bytes and a sink for bytes, a link of datagrams, a clock,
//! and what starts this program again, each with a count of its faults, in memory and real.
//!
//! A call fails only where its own object's count rose in it. What is left of a source, what a sink holds, what a link gives
//! and takes, what a clock reads, what a spawner is called for and which calls fail is known of the forms in memory, and not of
//! the real ones.
#![tactic(auto)]

mod children;
mod clock;
mod link;
mod memory_link;
mod sink;
mod source;
mod udp_link;

pub use children::{ChildCall, ChildSpawner, NoSpawner, Spawner};
pub use clock::{Clock, FixedClock, Readings, SystemClock};
pub use link::{Datagram, Datagrams, Got, Link};
pub use memory_link::MemoryLink;
pub use sink::{MemorySink, Sink, StdoutSink};
pub use source::{MemorySource, Source, StdinSource};
pub use udp_link::UdpLink;
