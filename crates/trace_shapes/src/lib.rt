//! What a picture of a trace is made of, and its text: an SVG without scripts, which is read on light and on dark grounds.
//!
//! `print_picture` promises the text exactly, and that it is well formed: one element, in which each element ends where one of its
//! name began, with attributes of different names, and in whose texts and values nothing but printable ASCII stands.
#![tactic(auto)]

mod shape;
mod style;
mod svg;

pub use shape::{Colour, Picture, Point, Script, Shape, Style};
pub use svg::print_picture;
