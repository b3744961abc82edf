//! Records without their bodies.
ghost use Rattle.std.specs.Prelude.{◌≡◌, IfOk};
ghost use Rattle.object_store.specs.Bare.{bare, with_body};

use std::alloc::Global;
use xt_base::{Copies, Octets, OutOfMemory};
use xt_messages::{Record, Update};

/// Takes its body from a record.
pub fn strip(alloc: Global, rec: &mut Record)
    ensures { rec.new ≡ bare rec.old }
{
    match rec {
        Record::Update { update, .. } => update.body = Octets::new(alloc),
        Record::Stage { bytes, .. } => *bytes = Octets::new(alloc),
        Record::OldUpdate { update, .. } => update.body = Octets::new(alloc),
        Record::OldStage { bytes, .. } => *bytes = Octets::new(alloc),
        _ => {}
    }
}

/// A copy of an update with this body in place of its own.
fn update_with(update: &Update, body: Octets) -> Update
    ensures { result ≡ record update.now { body = body } }
{
    Update {
        stamp: update.stamp,
        id: update.id,
        mark: update.mark,
        drop_from: update.drop_from,
        object: update.object,
        body,
    }
}

/// A copy of a record with this body in place of its own, where it puts one.
pub fn copy_with(alloc: Global, rec: &Record, body: Octets) -> Result<Record, OutOfMemory>
    ensures { IfOk result (λ made. made ≡ with_body body rec.now) }
{
    match rec {
        Record::Update { file, update } => Ok(Record::Update {
            file: *file,
            update: update_with(update, body),
        }),
        Record::Stage {
            file,
            object,
            version,
            ..
        } => Ok(Record::Stage {
            file: *file,
            object: *object,
            version: *version,
            bytes: body,
        }),
        Record::OldUpdate { file, update } => Ok(Record::OldUpdate {
            file: *file,
            update: update_with(update, body),
        }),
        Record::OldStage {
            file,
            object,
            version,
            ..
        } => Ok(Record::OldStage {
            file: *file,
            object: *object,
            version: *version,
            bytes: body,
        }),
        _ => rec.copy(alloc),
    }
}
