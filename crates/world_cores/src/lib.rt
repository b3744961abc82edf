//! The core of a running node of a world, as code: an OSD, a client, the metadata server (MRC) or the directory service (DIR).
//!
//! `Core` is a `NodeCore` of `world_host`: its step on an event equals `core_step` of `world_spec`, and a client's call, and its last call
//! once more, are the steps that they are there. An OSD and the servers have the key of the world. A client that is about to use a
//! declared file is given the capability of it, sealed under that key. The servers start from what their records say.
#![tactic(auto)]

mod calls;
mod files;
mod roles;

pub use roles::Core;
