//! The job of a node: it binds its link, loads or makes its store, appends its boot, reads the clock, writes that it is ready, and serves.
#![tactic(auto)]

mod booting;
mod directory;
mod metadata;
mod opening;
mod osd;
mod readiness;
mod starting;

pub use directory::serve_directory;
pub use metadata::serve_metadata;
pub use osd::serve_osd;
