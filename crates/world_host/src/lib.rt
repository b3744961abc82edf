//! A declared node of a world, without what is stored for it: its clock, what is planned for it, and the core that runs there.
//!
//! A `NodeCore` is the code of a node of any role: its steps equal those of `world_spec`. Over any core, `Host::handle` equals
//! `core_step` on an event, `Host::call` the step of a client's call, and `Host::again` that of its last call once more. They take the
//! node's bodies at most, and nothing that appends or sends: who holds the world does what comes of a step. `Host::keep`
//! gives the held bodies that an OSD needs, and `Host::forget` lets the others go. Once memory has run out a node isn't to be used
//! again.
#![tactic(auto)]

mod bodies;
mod calls;
mod host;
mod loaded;
mod node_core;
mod running;

pub use bodies::HullBodies;
pub use calls::{called_file, declared_file};
pub use host::Host;
pub use loaded::Loaded;
pub use node_core::NodeCore;
pub use running::Moment;
