ghost use Rattle.std.specs.Prelude.{◌≡◌, List, Bool, IfOk, IfSome, OnErr};
ghost use Rattle.xt_messages.specs.Limits.{FitsCapability, FitsHead, FitsOp, FitsOpId};
ghost use Rattle.xt_messages.specs.declared.file.Capability.{Capability};
ghost use Rattle.xt_messages.specs.declared.file.Kind.TheVariants as kind;
ghost use Rattle.xt_messages.specs.declared.record.Record.{Record};
ghost use Rattle.xt_protocol.specs.SeenBodies.{body_by};
ghost use Rattle.xt_protocol.specs.FileSteps as steps;
ghost use Rattle.xt_protocol.specs.PlainRows as plain;
ghost use Rattle.xt_protocol.specs.StripedRows as rows;
ghost use Rattle.object_versions.specs.KeptBodies.{fault_of, ReadsOnly};
ghost use Rattle.replica_state.specs.Kept.{IsNotable};
ghost use Rattle.osd_files.specs.Rows.{IsStep};
ghost use Rattle.osd_files.specs.Views.{shown, site_at};

use crate::hearing::replica_takes;
use crate::parts::Parts;
use object_versions::{Bodies, StepErr};
use osd_decisions::striped_refusal_of;
use osd_plain::{Member, PlainActed};
use xt_base::{FileId, OpId};
use xt_messages::{Capability, Op, Payload, Reply};
use xt_protocol::{Acted, Turned};

/// The client is sent the reply of a member, if there is one.
fn to_client(file: &FileId, id: OpId, acted: PlainActed) -> Acted
    ensures { result ≡ rows.to_client file.now id acted }
{
    let PlainActed { rec, reply } = acted;
    let answer = match reply {
        Some(reply) => Some(Payload::Reply {
            number: id.number,
            file: *file,
            reply,
        }),
        None => None,
    };
    Acted { rec, answer }
}

/// An ask that is refused gets this reply, and nothing is kept.
fn refused(reply: Reply) -> PlainActed
    ensures { result ≡ plain.only reply }
{
    PlainActed {
        rec: None,
        reply: Some(reply),
    }
}

/// The node as a member of the file, over the replica's head.
fn member(file: &Parts) -> Member<'_>
    ensures value { result ≡
        record {
          file = file.now.replica.file;
          node = file.now.awake.node;
          head = file.now.replica.head;
        } }
    ensures fits { FitsHead file.now.replica.head }
{
    let (own, node) = (file.replica.file(), file.awake.node());
    Member::new(file.alloc, own, node, file.replica.head())
}

/// What a member of a striped file makes of an ask, where `sealed` says whether the capability's tag is the key's: it is refused, or goes
/// by the rows over the replica's head. The file stays as it is.
fn member_acts<B: Bodies>(
    file: &Parts,
    bodies: &mut B,
    now: u64,
    sealed: bool,
    id: OpId,
    capability: &Capability,
    op: &Op,
) -> Result<Acted, StepErr>
    requires who { FitsOpId id }
    requires seal { FitsCapability capability.now }
    requires fits { FitsOp op.now }
    ensures row { IfOk result (λ acted. (records : List Record) → B.agrees bodies.new records →
        (test : Capability → Bool) → test capability.now ≡ sealed →
        acted ≡ rows.handle_striped (site_at file.now.awake now test (body_by records))
        (shown file.now).state.kept id capability.now op.now) }
    ensures notable { IfOk result (λ acted. IfSome acted.rec (IsNotable file.now.replica)) }
    ensures reads { ReadsOnly B.agrees B.fault_count bodies.old bodies.new (fault_of result) }
{
    let (own, stored) = (file.replica.file(), file.lead.location());
    match striped_refusal_of(now, sealed, &stored, capability, op) {
        Some(reply) => Ok(to_client(&own, id, refused(reply))),
        None => {
            let location = &capability.location;
            let acted = member(file).step(bodies, id, capability.epoch, location, op)?;
            Ok(to_client(&own, id, acted))
        }
    }
}

/// An ask on a striped file: the replica takes the update that the member made, and the client is sent the reply. After an error
/// the file is as it was.
pub fn handle_striped<B: Bodies>(
    file: &mut Parts,
    bodies: &mut B,
    now: u64,
    sealed: bool,
    id: OpId,
    capability: &Capability,
    op: &Op,
) -> Result<Turned, StepErr>
    requires who { FitsOpId id }
    requires seal { FitsCapability capability.now }
    requires fits { FitsOp op.now }
    ensures row { IfOk result (λ turned. (records : List Record) → B.agrees bodies.new records →
        (test : Capability → Bool) → test capability.now ≡ sealed →
        IsStep (λ site s. steps.ask_comes site s kind.Striped id capability.now op.now)
        (site_at file.old.awake now test (body_by records)) (shown file.old) (shown file.new)
        turned) }
    ensures same { OnErr result (shown file.new ≡ shown file.old) }
    ensures reads { ReadsOnly B.agrees B.fault_count bodies.old bodies.new (fault_of result) }
{
    let acted = member_acts(file, bodies, now, sealed, id, capability, op)?;
    Ok(replica_takes(file, id.client, acted)?)
}
