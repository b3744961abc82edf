use crate::place::BodyPlace;
use xt_messages::Record;

/// A record that goes to a new area: without its body, which is copied from its place in the area that counts.
#[derive(Drop)]
pub struct Copied {
    pub bare: Record,
    pub body: BodyPlace,
}
