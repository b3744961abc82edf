use crate::lists::Seq;
use std::error::Error;
use std::fmt;

/// The numbers, from 1, of the calls of an object in memory that are to fail.
pub type CallList = Seq<u64>;

/// The outside failed. The object's count of faults has risen.
#[derive(Clone, Copy, Debug)]
pub struct Failed;

impl fmt::Display for Failed {
    fn fmt<W: fmt::Write>(&self, f: &mut fmt::Formatter<W>) -> fmt::Result {
        write!(f, "the outside failed")
    }
}

impl Error for Failed {}
