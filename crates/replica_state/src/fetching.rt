ghost use Rattle.std.specs.Prelude.{◌≡◌, IfOk, List};
ghost use Rattle.xt_messages.specs.declared.record.Record.{Record};
ghost use Rattle.xt_protocol.specs.SeenBodies.{body_by};
ghost use Rattle.xt_protocol.specs.ReplicaRows.{fetched_from};
ghost use Rattle.object_versions.specs.KeptBodies.{fault_of, ReadsOnly};

use object_versions::{Bodies, StepErr, holds, seen};
use std::alloc::Global;
use xt_base::{Epoch, FileId, Stamp};
use xt_messages::{HeldSet, ObjectVersion, Payload};

/// Fetched from: the body of a version that is held, whatever is promised; one that isn't held is missing.
#[tactic(auto, unfolding(xt_protocol::specs::ReplicaRows::fetched_from))]
pub fn fetched_from<B: Bodies>(
    alloc: Global,
    bodies: &mut B,
    file: &FileId,
    held: &HeldSet,
    epoch: &Epoch,
    object: u64,
    version: &Stamp,
) -> Result<Payload, StepErr>
    ensures row { IfOk result (λ answer. (records : List Record) → B.agrees bodies.new records →
        answer ≡ fetched_from file.now held.now (body_by records file.now) epoch.now object
        version.now) }
    ensures reads { ReadsOnly B.agrees B.fault_count bodies.old bodies.new (fault_of result) }
{
    let (file, epoch, version) = (*file, *epoch, *version);
    let asked = ObjectVersion { object, version };
    if !holds(held, asked) {
        return Ok(Payload::Missing {
            file,
            epoch,
            object,
            version,
        });
    }
    let bytes = seen(bodies, alloc, &file, object, &version)?;
    Ok(Payload::Object {
        file,
        epoch,
        object,
        version,
        bytes,
    })
}
