//! The directory service, the metadata server and an OSD as nodes that are served: each runs on the records that it keeps.
#![tactic(auto)]

mod directory;
mod metadata;
mod osd;

pub use directory::ServedDir;
pub use metadata::ServedMrc;
pub use osd::ServedOsd;
