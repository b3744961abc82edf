//! A store of a node's records: each of them in a journal on a disk, and all of them in memory but for the bodies of objects.
//!
//! A store is loaded from a journal whose payloads are records, each in its place after those before it; else the first
//! payload that isn't is reported. A record that is put is on the disk before it is in the store, and a crash at any moment
//! leaves the records from before, with the new one or without it. Several may be put at once, and a crash then leaves all of these or none
//! of them; until then they wait in memory. All records may be swapped for others at once, and a crash then leaves
//! the old ones or the new ones. A body is found by its file, object and version, and is read from the disk.
#![tactic(auto)]

mod bare;
mod copied;
mod errors;
mod finding;
mod laws;
mod layered;
mod loading;
mod log;
mod place;
mod preparing;
mod read_body;
mod reader;
mod sought;
mod store;
mod swapping;
mod waiting;

pub use copied::Copied;
pub use errors::{AppendErr, PutAllErr, StoreErr};
pub use laws::loads_what_was_put;
pub use layered::Layered;
pub use log::StoreLog;
pub use place::BodyPlace;
pub use read_body::ReadBody;
pub use reader::Reader;
pub use store::Store;
pub use waiting::{StageErr, Waiting};
