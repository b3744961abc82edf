//! The tables of a world of nodes: the messages that were ever sent, those of the stepping node to itself, the declared files, and which
//! of the files that the metadata server has made aren't reported yet.
//!
//! Contracts see each of them as the list that the definitions of a run speak of. Beside the messages stand the bytes of
//! their frames, which are counted without making them, and the place of the first one that is pending; beside the files a map
//! says where each is. A call that runs out of memory leaves its table as it was.
#![tactic(auto)]

mod files;
mod lengths;
mod made;
mod sent;

pub use files::DeclaredFiles;
pub use made::untold;
pub use own_messages::OwnMessages;
pub use sent::SentMessages;
