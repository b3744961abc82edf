//! What the commands of a session share, and the terms on which each of them works.
ghost use Rattle.std.specs.Prelude.{◌≡◌, ◌≤◌, ◌<◌, ◌^◌};
ghost use Rattle.client_jobs.specs.Running.{new_client};
ghost use Rattle.client_jobs.specs.Lines as lines;

use client_core::Client;
use client_loop::{Driver, Terms};
use command_words::ClientJob;
use node_mail::Sender;
use std::alloc::Global;
use xt_base::Boot;

/// What the commands of a session share, which runs them one after the other: an end of the link, and the client of the last
/// command, whose numbers the next one continues.
#[derive(Drop)]
pub struct CommandSession {
    pub driver: Driver,
    pub client: Client,
}

impl CommandSession {
    /// The session over an end of a link, in which no number was used yet.
    pub fn new(alloc: Global, driver: Driver) -> CommandSession
        ensures driver { result.driver ≡ driver }
        ensures client { result.client ≡ new_client driver.sender.node driver.times 0 }
    {
        let terms = driver.terms();
        let client = Client::new(alloc, terms.sender.node, terms.times, 0);
        CommandSession { driver, client }
    }
}

/// Whether a command is one of the client whose session it is.
fn is_own(job: &ClientJob, kept: &Terms) -> bool
    ensures { result ≡ lines.is_own job.now kept.now }
{
    job.who.id == kept.sender.node
}

/// The sender of a command: another client's messages are numbered from 1, in a boot of its own.
fn sender_for(job: &ClientJob, first: u64, kept: &Terms) -> Sender
    ensures { result ≡ lines.sender_for job.now first kept.now }
{
    if is_own(job, kept) {
        kept.sender
    } else {
        Sender {
            node: job.who.id,
            boot: Boot(first),
            count: 0,
        }
    }
}

/// Whether a command names fewer receives than are left.
fn has_fewer(job: &ClientJob, kept: &Terms) -> bool
    ensures { result ≡ lines.has_fewer job.now kept.now }
{
    job.settings.turns < kept.turns.saturating_sub(kept.spent)
}

/// The terms of a command whose first call has this number.
pub(crate) fn terms_for(job: &ClientJob, first: u64, kept: &Terms) -> Terms
    requires kept { (kept.now.spent ≤ kept.now.turns) × (kept.now.turns < 2 ^ 62) }
    ensures value { result ≡ lines.terms_for job.now first kept.now }
    ensures turns { (result.spent ≤ result.turns) × (result.turns < 2 ^ 62) }
{
    let fewer = has_fewer(job, kept);
    Terms {
        sender: sender_for(job, first, kept),
        times: job.settings.times,
        turns: if fewer {
            job.settings.turns
        } else {
            kept.turns
        },
        spent: if fewer { 0 } else { kept.spent },
    }
}

/// The session's terms after a command that left these.
pub(crate) fn terms_after(job: &ClientJob, kept: &Terms, left: &Terms) -> Terms
    requires kept { (kept.now.spent ≤ kept.now.turns) × (kept.now.turns < 2 ^ 62) }
    requires left { left.now.spent ≤ (lines.terms_for job.now 0 kept.now).turns }
    ensures value { result ≡ lines.terms_after job.now kept.now left.now }
    ensures turns { (result.spent ≤ result.turns) × (result.turns < 2 ^ 62) }
{
    let sender = if is_own(job, kept) {
        left.sender
    } else {
        kept.sender
    };
    let spent = if has_fewer(job, kept) {
        kept.spent + left.spent
    } else {
        left.spent
    };
    Terms {
        sender,
        times: kept.times,
        turns: kept.turns,
        spent,
    }
}
