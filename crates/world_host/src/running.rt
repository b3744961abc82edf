use crate::node_core::NodeCore;
use disk_model::Stop;
use xt_base::Boot;

/// A running node.
#[derive(Drop)]
pub struct Running<C: NodeCore> {
    pub boot: Boot,
    /// What its clock reads, in milliseconds.
    pub clock: u64,
    /// Where its next append stops.
    pub crash: Option<Stop>,
    /// After how many messages its next step that sends stops.
    pub cut: Option<u128>,
    pub core: C,
}

/// What a running node's clock reads, and what is planned for it.
#[derive(Clone, Copy)]
pub struct Moment {
    pub clock: u64,
    pub crash: Option<Stop>,
    pub cut: Option<u128>,
}
