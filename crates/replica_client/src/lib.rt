//! A client's calls on replicated files, one at a time.
//!
//! Each step equals the definitions of `client_rows` (`call_of_client`, `step_of_client`): a call asks one member after the
//! other until one answers, and ends by a retry only once each was asked. A step fails only where memory runs out, and then the
//! client is as it was. Clocks are in milliseconds, below 2^62.
#![tactic(auto)]

mod asking;
mod client;
mod known;

pub use asking::{begins, first_member, gives};
pub use client::ReplicaClient;
