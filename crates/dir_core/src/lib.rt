//! The directory service: which nodes are registered, of which kind and at which address.
//!
//! `Dir::step` computes the step of `server_rows`: a row changes only under the version that the client expects, each request that
//! may change a row is recorded, and a repeated one gets the same answer. `Dir::start` gives the state that the records determine, so
//! that a service that starts again goes on where it was (`server_rows::records_tell_the_directory`).
#![tactic(auto)]

mod directory;

pub use directory::Dir;
