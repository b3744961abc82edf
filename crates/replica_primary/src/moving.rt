ghost use Rattle.std.specs.Prelude.{◌≡◌, IfOk};
ghost use Rattle.xt_protocol.specs.Turns.{quiet};
ghost use Rattle.replica_primary.specs.declared.moving.Next.TheVariants as step;
ghost use Rattle.replica_primary.specs.Moves.{kept_of};

use std::alloc::Global;
use std::mem;
use xt_base::{FileId, Octets, OptionalBox, OutOfMemory, Stamp};
use xt_messages::{FileHead, HeldSet, ObjectVersion, Record};
use xt_protocol::{Progress, Tenure, Turned, quiet};

/// How a tenure goes on after a message, as it is known before a body is read for it.
#[derive(Drop)]
pub enum Next {
    /// This is given.
    Gives {
        turned: Turned,
    },
    /// The sender, of which these versions are known, is fed on, where there is a head to which peers are brought.
    Feeds {
        known: HeldSet,
    },
    /// This head is installed, and the body is kept that was just fetched for it, if one was.
    Installs {
        chosen: FileHead,
        fetched: Option<FetchedBody>,
    },
}

/// What a message makes of a tenure.
#[derive(Drop)]
pub enum Heard {
    /// It goes on.
    GoesOn { next: Next },
    /// It goes on, and no more is known of a peer that is fed. This is given.
    Counts { turned: Turned },
    /// It goes on. The sender has this body now, and is fed on.
    Staged { version: ObjectVersion },
    /// It goes on. The sender lacks this body after all, and is fed on.
    Missed { version: ObjectVersion },
    /// It ends, and a new epoch is drawn above this number.
    Redraws { above: u64 },
}

/// A body that has just come from its source, and that no record keeps yet.
#[derive(Drop)]
pub struct FetchedBody {
    pub object: u64,
    pub version: Stamp,
    pub bytes: Octets,
}

/// Nothing comes of a message.
pub fn unmoved(alloc: Global) -> Next
    ensures { result ≡ step.Gives quiet }
{
    Next::Gives {
        turned: quiet(alloc),
    }
}

/// The record of a fetched body, where there is one.
pub fn kept_of(file: &FileId, fetched: Option<FetchedBody>) -> Option<Record>
    ensures { result ≡ kept_of file.now fetched }
{
    let FetchedBody {
        object,
        version,
        bytes,
    } = fetched?;
    Some(Record::Stage {
        file: *file,
        object,
        version,
        bytes,
    })
}

/// Puts a value in the place of another one, which is dropped.
pub fn put<T: Drop>(place: &mut T, value: T)
    ensures { place.new ≡ value }
{
    drop(mem::replace(place, value));
}

/// The tenure comes this far.
pub fn advance(tenure: &mut Tenure, progress: Progress)
    ensures { tenure.new ≡ record tenure.old { progress = progress } }
{
    put(&mut tenure.progress, progress);
}

/// What a row gives that keeps this record first, if there is one.
pub fn after_keeping(
    alloc: Global,
    rec: Option<Record>,
    mut turned: Turned,
) -> Result<Turned, OutOfMemory>
    ensures { IfOk result (λ next. next ≡ record turned { rec = rec }) }
{
    turned.rec = OptionalBox::of(alloc, rec)?;
    Ok(turned)
}
