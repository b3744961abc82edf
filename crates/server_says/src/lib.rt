//! What a metadata server that changes lists marks, keeps, sends and remembers: the files that it makes, or that a list is a file's; and
//! nothing but answers, orders to close and to install, and its question to the directory service.
//!
//! Definitions and theorems alone; nothing runs here.
#![tactic(auto)]

ghost use Rattle.server_says.specs.Says.{ServersSay};

/// Each step marks the files that it makes, or it keeps that a list is its file's and marks that; it remembers its clock; and what it sends
/// is an answer, an order, or a question.
pub fn servers_say()
    ensures { ServersSay }
{}
