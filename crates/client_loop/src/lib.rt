//! A client's end of a link: where nodes are reached, what is heard, what is sent, and how many receives it may make.
//!
//! It waits for a message until its clock reads a time: it reads the clock before each receive, which waits for what is left. And it
//! carries out a call of a client: what comes is handed to the client at a further reading, with a Wake each eighth of a lease, and a
//! call that ends as one that may be made again is made again, half a lease later, as long as a try is left.
#![tactic(auto)]

mod carrying;
mod course;
mod driver;
mod errors;
mod giving;
mod listening;
mod mailing;
mod terms;

pub use driver::Driver;
pub use errors::DriveErr;
pub use terms::Terms;
