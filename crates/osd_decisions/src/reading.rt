ghost use Rattle.std.specs.Prelude.{◌≡◌, [], List, IfOk};
ghost use Rattle.xt_messages.specs.declared.record.Record.{Record};
ghost use Rattle.xt_messages.specs.declared.file.FileHead.{FileHead};
ghost use Rattle.xt_messages.specs.declared.file.ObjectVersion.{ObjectVersion};
ghost use Rattle.xt_protocol.specs.Objects as plain;
ghost use Rattle.xt_protocol.specs.SeenBodies.{body_by};
ghost use Rattle.xt_protocol.specs.Serving.{reads_under};
ghost use Rattle.xt_protocol.specs.Writes as rows;
ghost use Rattle.object_versions.specs.KeptBodies.{fault_of, ReadsOnly};
ghost use Rattle.object_versions.specs.Rising.{HeadRises};
ghost use Rattle.osd_decisions.specs.Committed.{CommittedUnder};

use object_versions::{Bodies, StepErr, readable, seen, shown, version_of};
use std::alloc::Global;
use xt_base::{FileId, Octets, Stamp};
use xt_messages::{FileHead, Op, Reply};
use xt_protocol::{Place, Progress, Tenure};

/// The body of an object in its present version: empty where it has none.
pub fn present_body<B: Bodies>(
    bodies: &mut B,
    alloc: Global,
    file: &FileId,
    object: u64,
    version: Option<Stamp>,
) -> Result<Octets, StepErr>
    ensures value { IfOk result (λ body. (records : List Record) → B.agrees bodies.new records →
        body ≡ plain.present_body (body_by records file.now) version object) }
    ensures reads { ReadsOnly B.agrees B.fault_count bodies.old bodies.new (fault_of result) }
{
    match version {
        None => Ok(Octets::new(alloc)),
        Some(version) => seen(bodies, alloc, file, object, &version),
    }
}

/// The bytes that an operation shows of a head, in a file with objects of `stripe` bytes: clipped to the size, with zeros where
/// the body has none. Only a read shows any.
pub fn bytes_shown<B: Bodies>(
    bodies: &mut B,
    alloc: Global,
    file: &FileId,
    stripe: u32,
    head: &FileHead,
    op: &Op,
) -> Result<Octets, StepErr>
    requires { HeadRises head.now }
    ensures value { IfOk result (λ bytes. (records : List Record) → B.agrees bodies.new records →
        bytes ≡ rows.bytes_shown stripe (body_by records file.now) head.now op.now) }
    ensures reads { ReadsOnly B.agrees B.fault_count bodies.old bodies.new (fault_of result) }
{
    let Op::Read { object, at, len } = op else {
        return Ok(Octets::new(alloc));
    };
    let version = version_of(head.versions.as_slice(), *object);
    let body = present_body(bodies, alloc, file, *object, version)?;
    let size = readable(head.mark.size, stripe, *object, *at, *len);
    Ok(shown(alloc, body, *at as usize, size as usize)?)
}

/// Read served: what the committed head of a primary shows, its count and its mark; none where the primary isn't active. An issued
/// update shows nothing, since no majority may have it yet.
pub fn reads_under<B: Bodies>(
    bodies: &mut B,
    alloc: Global,
    place: &Place,
    tenure: &Option<Tenure>,
    op: &Op,
) -> Result<Option<Reply>, StepErr>
    requires { CommittedUnder tenure.now }
    ensures value { IfOk result (λ answer. (records : List Record) → B.agrees bodies.new records →
        (own : FileHead) (held : List ObjectVersion) →
        answer ≡
        reads_under (record {
          place = place.now;
          own = own;
          held = held;
          body = body_by records place.now.file;
        }) tenure.now op.now) }
    ensures reads { ReadsOnly B.agrees B.fault_count bodies.old bodies.new (fault_of result) }
{
    let Some(
        Tenure {
            progress: Progress::Active { committed, .. },
            ..
        },
    ) = tenure
    else {
        return Ok(None);
    };
    let bytes = bytes_shown(bodies, alloc, &place.file, place.stripe, committed, op)?;
    Ok(Some(Reply::Ok {
        count: committed.stamp.count,
        mark: committed.mark,
        bytes,
    }))
}
