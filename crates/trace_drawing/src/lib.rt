//! A trace as a picture: a lane a node, a row an entry, time downwards, as an SVG without scripts, which is read on light and on dark
//! backgrounds.
#![tactic(auto)]

mod calls;
mod drawing;
mod labels;
mod lanes;
mod legend;
mod marks;
mod nodes;
mod paths;
mod rows;
mod scene;
mod sheet;
mod words;

pub use drawing::{DrawErr, draw};

/// How many entries a picture may have.
pub const ENTRIES: usize = 65_536;

/// How many nodes a picture may have.
pub const NODES: usize = 64;
