//! Numbers, bytes and texts as fields: numbers with the high byte first, bytes and texts after their length.
//!
//! A reader takes fields from the front of bytes, and a writer puts one field after the other. What is written is
//! the one spelling of a value, what is read is the value whose spelling is there, and no second spelling is
//! taken. What is refused leaves a reader as it was.
#![tactic(auto)]

mod fault;
mod reader;
mod writer;

pub use fault::FieldErr;
pub use reader::FieldReader;
pub use writer::FieldWriter;
