//! The records of a node, rewritten with the bodies that are kept: shorter ones that say the same of all else.
//!
//! `rewritten` makes the list of the definition in `xt_protocol`, with the places of the bodies on the store's disk: the last start, the
//! recorded requests in their order, and then file by file its list of nodes, which list is closed, its kept bodies and its head. Where the old records are
//! within their limits and in their places, and no version that a head names is forgotten, so are the new ones: so they can take the place
//! of the old ones in a store, and `compact` puts them there.
#![tactic(auto)]

mod compacting;
mod laws;
mod rewriting;
mod worked;

pub use compacting::compact;
pub use laws::{heads_name_what_must_stay, rewritten_records_may_be_kept};
pub use rewriting::rewritten;
pub use worked::worked_rewriting;
