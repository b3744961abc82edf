use xt_messages::{Folded, Record};

/// The records of a node as they were loaded for a start, and what they say.
#[derive(Drop)]
pub struct Loaded {
    pub records: Vec<Record>,
    pub folded: Folded,
}
