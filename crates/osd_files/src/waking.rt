ghost use Rattle.std.specs.Prelude.{◌≡◌, ◌<◌, ◌^◌, ℕ, List, Bool, IfOk};
ghost use Rattle.xt_messages.specs.declared.message.Payload.TheVariants as payload;
ghost use Rattle.xt_protocol.specs.LeaseRows.{Held, held};
ghost use Rattle.flease.specs.Moves.{IsSettled};
ghost use Rattle.osd_invariants.specs.Sound.{IsStored, ListUnder};
ghost use Rattle.xt_protocol.specs.FileSteps as rows;
ghost use Rattle.xt_protocol.specs.Overdue.{expired};
ghost use Rattle.xt_protocol.specs.Turns.{to_each, sends};
ghost use Rattle.osd_files.specs.Views.{shown};
ghost use Rattle.osd_files.specs.Rows.{Gives, Becomes};
ghost use Rattle.osd_files.specs.Whole.{IsWhole, IsWoken, Wakes};

use crate::joining::{both, join_next};
use crate::overdue::{end_overdue, overdue};
use crate::parts::Parts;
use flease::FileLease;
use std::alloc::Global;
use xt_base::{Ballot, FileId, Members, NodeId, OutOfMemory};
use xt_messages::Payload;
use xt_protocol::{Turned, quiet, sends, to_each};

/// What a Wake gives at a file: of what was overdue, and of what is sent again or renewed.
#[derive(Drop)]
pub struct Woken {
    pub overdue: Turned,
    pub again: Turned,
}

/// A Read of the round's ballot to each of these.
pub fn reads_of(
    alloc: Global,
    node: NodeId,
    file: FileId,
    members: &Members,
    ballot: Ballot,
) -> Result<Turned, OutOfMemory>
    ensures { IfOk result (λ turned. turned ≡
        sends (to_each node members.now (payload.Read file ballot))) }
{
    let read = Payload::Read { file, ballot };
    let outs = to_each(alloc, node, members.as_slice(), &read)?;
    Ok(sends(alloc, outs))
}

/// Renewal starts of such a lease of the file, where it is due: its Read goes to all members.
fn told_renewal(file: &Parts, lease: &mut FileLease, now: u64) -> Result<Turned, OutOfMemory>
    requires clock { now < 2 ^ 62 }
    requires settled { IsSettled lease.old now }
    requires stored { IsStored file.now.lead.location }
    ensures { IfOk result (λ turned. (h : Held) → lease.old ≡ held h →
        Gives (λ site s. rows.renews site s h) now (shown file.now) turned) }
{
    let Some(location) = file.lead.location() else {
        unreachable!()
    };
    let Some(ballot) = lease.renew(now, file.used, &location.members) else {
        return Ok(quiet(file.alloc));
    };
    let (alloc, node, id) = (file.alloc, file.awake.node(), file.replica.file());
    reads_of(alloc, node, id, &location.members, ballot)
}

/// What the rows of a Wake give at a file, after what is overdue.
fn told_again(file: &Parts, now: u64) -> Result<Turned, OutOfMemory>
    requires clock { now < 2 ^ 62 }
    requires stored { ListUnder file.now.lease file.now.lead.location }
    ensures { IfOk result (λ turned.
        Gives (λ site s. rows.wake_of_file site (expired site s).state) now (shown file.now)
        turned) }
{
    let mut lease = file.lease.same();
    lease.expire(now);
    let Some(turn) = lease.turn(now) else {
        return Ok(quiet(file.alloc));
    };
    let woke = file.lead.wake(&turn)?;
    let renewed = told_renewal(file, &mut lease, now);
    join_next(woke, renewed)
}

/// What a Wake gives at a file at the clock `now`: of what is overdue, and then of the rows of a Wake. The file stays as it is
/// until `end_wake`.
pub fn wake(file: &Parts, now: u64) -> Result<Woken, OutOfMemory>
    requires clock { now < 2 ^ 62 }
    requires whole { IsWhole (shown file.now) }
    ensures { IfOk result (λ woken. Wakes now (shown file.now) woken) }
{
    let overdue = overdue(file, now)?;
    let (overdue, again) = both(overdue, told_again(file, now))?;
    Ok(Woken { overdue, again })
}

/// A renewal that is due starts.
fn start_renewal(file: &mut Parts, now: u64)
    requires clock { now < 2 ^ 62 }
    requires settled { IsSettled file.old.lease now }
    requires stored { ListUnder file.old.lease file.old.lead.location }
    ensures { Becomes rows.wake_of_file now (shown file.old) (shown file.new) }
{
    if let Some(location) = file.lead.location() {
        file.lease.renew(now, file.used, &location.members);
    }
}

/// The file after a Wake at the clock `now`: what was overdue has ended, and a renewal that was due runs. It takes no memory.
pub fn end_wake(file: &mut Parts, now: u64)
    requires clock { now < 2 ^ 62 }
    requires whole { IsWhole (shown file.old) }
    ensures { IsWoken now (shown file.old) (shown file.new) }
{
    end_overdue(file, now);
    start_renewal(file, now);
}
