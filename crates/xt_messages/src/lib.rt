//! What nodes send, report and keep: locations, capabilities, operations, replies, messages, calls, marks, records and
//! statuses.
//!
//! Contracts see each of them as plain data, as they see the values of `xt_base` of which these are made. What holds a list is
//! not `Copy` and has `copy`, which gives an equal value or runs out of memory. The limits of the fields are in
//! `specs/Limits.antt`, the length of a message's frame in `specs/FrameLength.antt`.
#![tactic(auto)]

mod event;
mod file;
mod message;
mod meta;
mod record;
mod registry;
mod reply;
mod status;

pub use event::{Call, Event, Mark, Marks, MetaOutcome, Outcome, RegistryOutcome};
pub use file::{
    Capability, FileHead, Kind, Location, ObjectVersion, Op, Session, Sessions, Update, Versions,
};
pub use message::{Msg, Msgs, Payload};
pub use meta::{MetaAnswer, MetaRefusal, MetaReq, Names, RowKind};
pub use record::{FileRow, FileTable, Folded, HeldPairs, HeldSet, Keep, KeepBody, Logged, Record};
pub use registry::{RegistryAnswer, RegistryReq, RegistryRow, RegistryRows};
pub use reply::{Answered, Answers, Denial, Reply, Retry};
pub use status::{AskRefusal, Limited, Refusal, Rule, Status};
