use node_mail::Sender;
use xt_base::Times;

/// The terms on which an end of a link works: who sends, and whom messages are for; by which times; and how many receives it has made
/// of those that it may make.
#[derive(Clone, Copy)]
pub struct Terms {
    pub sender: Sender,
    pub times: Times,
    pub turns: u64,
    pub spent: u64,
}
