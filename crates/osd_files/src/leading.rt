ghost use Rattle.std.specs.Prelude.{◌≡◌, ◌<◌, ◌^◌, List, IfOk, OnErr, is_some, true};
ghost use Rattle.std.specs.List.{AllByRecursion};
ghost use Rattle.xt_messages.specs.declared.record.Record.{Record};
ghost use Rattle.xt_protocol.specs.SeenBodies.{body_by};
ghost use Rattle.flease.specs.Moves.{IsSettled, turn_of};
ghost use Rattle.object_versions.specs.KeptBodies.{fault_of, ReadsOnly};
ghost use Rattle.osd_invariants.specs.Sound.{IsStored, ListUnder};
ghost use Rattle.osd_invariants.specs.OpenAsks.{IsWithinLimits};
ghost use Rattle.xt_protocol.specs.FileLeases.{leads_to};
ghost use Rattle.xt_protocol.specs.FileStates.{ground_of};
ghost use Rattle.xt_protocol.specs.FileSteps as rows;
ghost use Rattle.xt_protocol.specs.PrimaryRows.{hears};
ghost use Rattle.replica_primary.specs.Moves.{is_light_led};
ghost use Rattle.osd_files.specs.Answers.{HasTurn};
ghost use Rattle.osd_files.specs.Light.{asks_rest};
ghost use Rattle.osd_files.specs.Rows.{IsRowBy};
ghost use Rattle.osd_files.specs.Views.{shown};

use crate::joining::join_rest;
use crate::leases::stay_in_range;
use crate::light::asks_rest;
use crate::noting::noted;
use crate::parts::Parts;
use crate::serving::{asks_follow, asks_settle};
use flease::FileLease;
use object_versions::{Bodies, StepErr};
use xt_base::NodeId;
use xt_messages::Payload;
use xt_protocol::{Turned, quiet};

/// The primary hears a message in its turn, and its own replica notes what it records. After an error the file is as it was if the
/// message is an acknowledgement or reports a staged body, of which nothing is recorded.
fn primary_led<B: Bodies>(
    file: &mut Parts,
    bodies: &mut B,
    now: u64,
    from: NodeId,
    content: &Payload,
) -> Result<Turned, StepErr>
    requires clock { now < 2 ^ 62 }
    requires turn { HasTurn file.old.lease now }
    requires stored { IsStored file.old.lead.location }
    ensures row { IfOk result (λ turned. (records : List Record) → B.agrees bodies.new records →
        IsRowBy (λ site s. leads_to s (hears (ground_of site s) s.primary from content.now)) now
        (body_by records) (shown file.old) (shown file.new) turned) }
    ensures same { OnErr result (is_light_led content.now ≡ true →
        shown file.new ≡ shown file.old) }
    ensures reads { ReadsOnly B.agrees B.fault_count bodies.old bodies.new (fault_of result) }
{
    stay_in_range(file.awake.node());
    let Some(turn) = file.lease.turn(now) else {
        unreachable!()
    };
    let turned = file.lead.take(
        &turn,
        bodies,
        &mut file.searches,
        file.replica.head(),
        file.replica.held(),
        from,
        content,
    )?;
    Ok(noted(
        &mut file.replica,
        &mut file.staged,
        &mut file.searches,
        turned,
    )?)
}

/// Whether the lease gives a turn.
fn has_turn(lease: &FileLease, now: u64) -> bool
    requires { now < 2 ^ 62 }
    ensures { result ≡ is_some (turn_of lease.now now) }
{
    lease.turn(now).is_some()
}

/// A message to the primary: it counts only while the lease is held. The primary hears it in its turn, and the asks follow. After an
/// error the file is as it was if the message is an acknowledgement or reports a staged body, and the asks rested.
pub fn primary_hears<B: Bodies>(
    file: &mut Parts,
    bodies: &mut B,
    now: u64,
    from: NodeId,
    content: &Payload,
) -> Result<Turned, StepErr>
    requires clock { now < 2 ^ 62 }
    requires settled { IsSettled file.old.lease now }
    requires stored { ListUnder file.old.lease file.old.lead.location }
    requires fits { AllByRecursion IsWithinLimits file.old.asks.waiting }
    ensures row { IfOk result (λ turned. (records : List Record) → B.agrees bodies.new records →
        IsRowBy (λ site s. rows.primary_hears site s s.lease from content.now) now (body_by records)
        (shown file.old) (shown file.new) turned) }
    ensures same { OnErr result (is_light_led content.now ≡ true →
        asks_rest (shown file.old).state ≡ true → shown file.new ≡ shown file.old) }
    ensures reads { ReadsOnly B.agrees B.fault_count bodies.old bodies.new (fault_of result) }
{
    if !has_turn(&file.lease, now) {
        return Ok(quiet(file.alloc));
    }
    let was_ready = file.lead.is_ready();
    let led = primary_led(file, bodies, now, from, content)?;
    if asks_rest(file) {
        asks_settle(file, was_ready);
        return Ok(led);
    }
    let followed = asks_follow(file, bodies, now, was_ready);
    join_rest(led, followed)
}
