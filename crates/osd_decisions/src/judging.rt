ghost use Rattle.std.specs.Prelude.{◌≡◌, ◌<◌, ◌≤◌, ◌^◌, Some, None};
ghost use Rattle.xt_protocol.specs.Writes as rows;
ghost use Rattle.osd_decisions.specs.Shown.{shown_standing};
ghost use Rattle.object_versions.specs.Rising.{HeadRises};

use object_versions::session_of;
use xt_base::{CLIENTS, OpId, SizeMark};
use xt_messages::{FileHead, Op, Reply, Session};

/// How a write stands to a head.
#[derive(Drop)]
pub enum WriteStanding {
    /// It is its client's last one, and was the write of this count.
    Repeated { count: u64 },
    /// Its client has made a later one.
    Older,
    /// It is refused for good.
    TurnedAway { reply: Reply },
    /// It may be issued.
    Fresh,
}

/// Whether the capability's truncate epoch is too old: a truncation needs a greater one than the file's.
fn is_old_epoch(mark: SizeMark, epoch: u64, op: &Op) -> bool
    ensures { result ≡ rows.is_old_epoch mark epoch op.now }
{
    match op {
        Op::Truncate { .. } => epoch <= mark.epoch,
        Op::Read { .. } | Op::Write { .. } => epoch < mark.epoch,
    }
}

/// The object that is too far for a file of so many objects of `stripe` bytes, if one is.
fn too_far(objects: u64, stripe: u32, op: &Op) -> Option<u64>
    requires few { objects < 2 ^ 32 }
    requires some { 1 ≤ stripe }
    ensures { result ≡ rows.too_far objects stripe op.now }
{
    let stripe = u64::from(stripe);
    match op {
        Op::Write { object, .. } if *object >= objects => Some(*object),
        Op::Truncate { size } if *size > objects * stripe => Some(*size / stripe),
        _ => None,
    }
}

/// Whether there is room for a client's session: it has one, or fewer have written than may.
fn room_for_client(head: &FileHead, session: Option<Session>) -> WriteStanding
    ensures { result ≡ shown_standing (rows.room_for_client head.now session) }
{
    if session.is_some() || head.sessions.len() < CLIENTS {
        WriteStanding::Fresh
    } else {
        WriteStanding::TurnedAway {
            reply: Reply::ClientsFull,
        }
    }
}

/// How a write that its client's session doesn't know stands: old epoch, too far, clients full, or fresh.
fn judged(
    objects: u64,
    stripe: u32,
    head: &FileHead,
    session: Option<Session>,
    epoch: u64,
    op: &Op,
) -> WriteStanding
    requires few { objects < 2 ^ 32 }
    requires some { 1 ≤ stripe }
    ensures { result ≡ shown_standing (rows.judged objects stripe head.now session epoch op.now) }
{
    if is_old_epoch(head.mark, epoch, op) {
        return WriteStanding::TurnedAway {
            reply: Reply::OldEpoch {
                epoch: head.mark.epoch,
            },
        };
    }
    match too_far(objects, stripe, op) {
        Some(object) => WriteStanding::TurnedAway {
            reply: Reply::TooFar { object },
        },
        None => room_for_client(head, session),
    }
}

/// How a write stands to a head, in a file of `objects` objects of `stripe` bytes at most: repeated, older, old epoch, too far,
/// clients full, or fresh.
#[tactic(auto, unfolding(xt_protocol::specs::Writes::standing))]
pub fn standing_of(
    objects: u64,
    stripe: u32,
    head: &FileHead,
    id: OpId,
    epoch: u64,
    op: &Op,
) -> WriteStanding
    requires few { objects < 2 ^ 32 }
    requires some { 1 ≤ stripe }
    requires rising { HeadRises head.now }
    ensures { result ≡ shown_standing (rows.standing objects stripe head.now id epoch op.now) }
{
    let session = session_of(head.sessions.as_slice(), id.client);
    match session {
        Some(last) if id.number == last.number => WriteStanding::Repeated { count: last.count },
        Some(last) if id.number < last.number => WriteStanding::Older,
        _ => judged(objects, stripe, head, session, epoch, op),
    }
}
