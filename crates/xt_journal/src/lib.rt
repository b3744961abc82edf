//! A journal on a disk: payloads that are appended one by one, and each of them kept through a crash from then on.
//!
//! A record counts by its gate alone. The gate is closed on the disk while the record is written after it, and is
//! opened by a write of its own once the record is synced. So a crash at any moment leaves the payloads from before an
//! append, with the new one or without it; after `Ok` it leaves the new one. Loading gives exactly what counts, or
//! refuses the bytes by name, and then writes nothing.
#![tactic(auto)]

mod ahead;
mod append;
mod errors;
mod format;
mod journal;
mod load;
mod next;
mod swap;
mod walk;

pub use ahead::ReadAhead;
pub use append::push_record;
pub use errors::{AppendErr, LoadErr};
pub use journal::Journal;
