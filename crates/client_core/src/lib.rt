//! A client: its calls on replicated and striped files, to the metadata server and to the directory service, one at a time.
//!
//! Each step equals the definitions in `specs/` (`called`, `called_again`, `stepped`), in which a call on a replicated file is
//! one of `replica_client`. It keeps what it holds of files, the call that it made last and how that ended. Running out of
//! memory leaves it as it was. Clocks are in milliseconds, below 2^62.
#![tactic(auto)]

mod calls;
mod client;
mod ends;
mod holding;
mod progress;
mod requests;
mod striped;
mod waiting;

pub use client::{CallErr, Client};
