//! Serving a node: its turns, its events (the step, its record, its messages), its messages to itself, and what waits to be put at once.
#![tactic(auto)]

mod batch;
mod compacting;
mod event;
mod laws;
mod node;
mod opening;
mod sending;
mod serving;
mod site;
mod turn;

pub use batch::Batch;
pub use compacting::{Rewritten, is_due, rewrite};
pub use event::{Ended, Stop};
pub use laws::no_older_records_come_back;
pub use node::Node;
pub use sending::{mail, send_all};
pub use serving::serve;
pub use site::Site;
pub use turn::{Bounds, Next};
