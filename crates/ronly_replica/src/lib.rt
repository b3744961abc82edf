//! A read-only replica of a replicated file: the file as it stood at a count of writes, kept in a store of its own.
//!
//! A pin says which file, and how many writes it had; in a store it is a place and a head without versions. Objects are fetched from an
//! origin when they are read, and each is put as a staged body under the pin's version. An origin that has gone on answers with another
//! count and is refused, so that a replica never shows two counts at once. What was fetched is read from the store alone.
#![tactic(auto)]

mod errors;
mod memory_fetching;
mod memory_origin;
mod origin;
mod pin;
mod replica;
mod ronly;
mod showing;

pub use errors::{MakeErr, RonlyErr};
pub use memory_origin::{Contents, MemoryOrigin};
pub use origin::{Fetched, Origin, OriginErr};
pub use pin::Pin;
pub use replica::Ronly;
