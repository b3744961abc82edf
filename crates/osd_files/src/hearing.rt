ghost use Rattle.std.specs.Prelude.{◌≡◌, [], ℕ, List, true, IfOk, IfSome, OnErr};
ghost use Rattle.xt_messages.specs.Limits.{FitsPayload};
ghost use Rattle.xt_messages.specs.declared.record.Record.{Record};
ghost use Rattle.xt_protocol.specs.Primaries.{if_any};
ghost use Rattle.xt_protocol.specs.FileSteps as rows;
ghost use Rattle.osd_files.specs.Views.{shown};
ghost use Rattle.osd_files.specs.Asking.{fetch_row};
ghost use Rattle.osd_files.specs.Kinds.{acted_on, is_for_replica};
ghost use Rattle.osd_files.specs.Rows.{IsRow, IsRowBy};
ghost use Rattle.xt_protocol.specs.SeenBodies.{body_by};
ghost use Rattle.object_versions.specs.KeptBodies.{fault_of, ReadsOnly};
ghost use Rattle.replica_state.specs.Kept.{IsNotable};

use crate::joining::both;
use crate::noting::noted;
use crate::parts::Parts;
use object_versions::{Bodies, StepErr};
use replica_primary::send_any;
use replica_state::{Replica, fetched_from};
use std::alloc::Global;
use xt_base::{Epoch, NodeId, OptionalBox, OutOfMemory, Seq, Stamp};
use xt_messages::{Msgs, Payload};
use xt_protocol::{Acted, Turned, message, sends_one};

/// The answer to whoever asked, if there is one.
fn answered(
    alloc: Global,
    node: NodeId,
    from: NodeId,
    answer: Option<Payload>,
) -> Result<Msgs, OutOfMemory>
    ensures { IfOk result (λ outs. outs ≡ if_any node from answer) }
{
    let mut outs = Seq::new(alloc);
    send_any(&mut outs, node, from, answer)?;
    Ok(outs)
}

/// A row of the replica: its record, and its answer to whoever asked.
fn replica_acts(
    alloc: Global,
    node: NodeId,
    from: NodeId,
    acted: Acted,
) -> Result<Turned, OutOfMemory>
    ensures { IfOk result (λ turned. turned ≡
        record { rec = acted.rec; outs = if_any node from acted.answer; marks = [] }) }
{
    let rec = OptionalBox::of(alloc, acted.rec)?;
    let (rec, outs) = both(rec, answered(alloc, node, from, acted.answer))?;
    Ok(Turned {
        rec,
        outs,
        marks: Seq::new(alloc),
    })
}

/// A row that was decided: the replica takes its record, and its answer goes to whoever asked. Where memory runs out, the file
/// is as it was.
pub fn replica_takes(file: &mut Parts, from: NodeId, acted: Acted) -> Result<Turned, OutOfMemory>
    requires { IfSome acted.rec (IsNotable file.old.replica) }
    ensures row { IfOk result (λ turned. (now : ℕ) →
        IsRow (λ site s. rows.replica_acts site s from acted) now (shown file.old) (shown file.new)
        turned) }
    ensures same { OnErr result (shown file.new ≡ shown file.old) }
{
    let turned = replica_acts(file.alloc, file.awake.node(), from, acted)?;
    noted(
        &mut file.replica,
        &mut file.staged,
        &mut file.searches,
        turned,
    )
}

/// What the replica makes of a message; nothing of one that isn't to it. It stays as it is.
fn acts(replica: &Replica, content: &Payload) -> Result<Acted, OutOfMemory>
    requires { FitsPayload content.now }
    ensures row { IfOk result (λ acted. acted ≡
        acted_on replica.now.file replica.now.head replica.now.held content.now) }
    ensures notable { IfOk result (λ acted. IfSome acted.rec (IsNotable replica.now)) }
{
    match content {
        Payload::Gather { epoch, .. } => replica.on_gather(epoch),
        Payload::Stage {
            epoch,
            object,
            version,
            bytes,
            ..
        } => replica.on_stage(epoch, *object, version, bytes),
        Payload::Head { epoch, head, .. } => replica.on_head(epoch, head),
        Payload::Update { update, .. } => replica.on_update(update),
        _ => Ok(Acted {
            rec: None,
            answer: None,
        }),
    }
}

/// A message to the replica comes: Gather, Stage, Head or Update. Where memory runs out, the file is as it was.
pub fn replica_comes(
    file: &mut Parts,
    from: NodeId,
    content: &Payload,
) -> Result<Turned, OutOfMemory>
    requires { FitsPayload content.now }
    ensures row { IfOk result (λ turned. is_for_replica content.now ≡ true → (now : ℕ) →
        IsRow (λ site s. rows.message_comes site s from content.now) now (shown file.old)
        (shown file.new) turned) }
    ensures same { OnErr result (shown file.new ≡ shown file.old) }
{
    let acted = acts(&file.replica, content)?;
    replica_takes(file, from, acted)
}

/// Fetch comes: the body is sent where it is held, whatever is promised. The file stays as it is.
pub fn fetch_comes<B: Bodies>(
    file: &Parts,
    bodies: &mut B,
    from: NodeId,
    epoch: &Epoch,
    object: u64,
    version: &Stamp,
) -> Result<Turned, StepErr>
    ensures row { IfOk result (λ turned. (records : List Record) → B.agrees bodies.new records →
        (now : ℕ) →
        IsRowBy (λ site s. fetch_row site s from epoch.now object version.now) now (body_by records)
        (shown file.now) (shown file.now) turned) }
    ensures reads { ReadsOnly B.agrees B.fault_count bodies.old bodies.new (fault_of result) }
{
    let (alloc, node, id) = (file.alloc, file.awake.node(), file.replica.file());
    let held = file.replica.held();
    let content = fetched_from(alloc, bodies, &id, held, epoch, object, version)?;
    Ok(sends_one(alloc, message(node, from, content))?)
}
