ghost use Rattle.std.specs.Prelude.{◌≡◌, ◌≢◌, ◌≤◌, ◌+◌, ◌^◌, IfOk, IsTrue, Err};
ghost use Rattle.xt_messages.specs.Limits.{FitsStripe};
ghost use Rattle.object_store.specs.Access.{records_of};
ghost use Rattle.ronly_replica.specs.Pins as rows;
ghost use Rattle.ronly_replica.specs.Holding.{Shows};
ghost use Rattle.ronly_replica.specs.declared.showing.ShowErr.TheVariants as show;
ghost use Rattle.ronly_replica.specs.declared.showing.ShowErr.TheVariants.{OutOfMemory};

use crate::pin::Pin;
use disk_model::Disk;
use object_store::Store;
use object_versions::shown;
use replica_records::BodyErr;
use std::alloc::{AllocError, Global};
use striping::{Piece, pieces};
use xt_base::Octets;

/// Why bytes aren't shown.
#[derive(Clone, Copy)]
pub(crate) enum ShowErr {
    /// A read of the disk failed.
    Failed,
    OutOfMemory,
}

impl From<AllocError> for ShowErr {
    ghost from_gives = { λ _ made. made ≡ OutOfMemory };

    fn from(_: AllocError) -> ShowErr {
        ShowErr::OutOfMemory
    }
}

/// The body of an object under a pin: empty where none is held.
fn body_of<D: Disk>(
    alloc: Global,
    store: &Store<D>,
    pin: &Pin,
    object: u64,
) -> Result<Octets, ShowErr>
    ensures value { IsTrue D.is_told → IfOk result (λ bytes.
        bytes ≡ rows.or_empty (rows.held_in pin.now (records_of store.now) object)) }
    ensures sure { IsTrue D.is_told → result ≢ Err show.Failed }
{
    match store.find(alloc, &pin.file, object, &pin.version()) {
        Ok(bytes) => Ok(bytes),
        Err(BodyErr::NoSuchVersion) => Ok(Octets::new(alloc)),
        Err(BodyErr::Failed { .. }) => Err(ShowErr::Failed),
        Err(BodyErr::OutOfMemory) => Err(ShowErr::OutOfMemory),
    }
}

/// The bytes of a piece under a pin: those of the body from the piece's place on, with zeros where it has none.
fn piece_of<D: Disk>(
    alloc: Global,
    store: &Store<D>,
    pin: &Pin,
    piece: Piece,
) -> Result<Octets, ShowErr>
    ensures value { IsTrue D.is_told → IfOk result (λ bytes.
        bytes ≡ rows.shown_in pin.now (records_of store.now) piece) }
    ensures sure { IsTrue D.is_told → result ≢ Err show.Failed }
{
    let body = body_of(alloc, store, pin, piece.object)?;
    Ok(shown(alloc, body, piece.at as usize, piece.len as usize)?)
}

/// The bytes of a range under a pin, object by object.
pub(crate) fn range_of<D: Disk>(
    alloc: Global,
    store: &Store<D>,
    pin: &Pin,
    from: u64,
    len: u64,
) -> Result<Octets, ShowErr>
    requires stripe { FitsStripe pin.now.location.stripe }
    requires range { from + len ≤ 2 ^ 48 }
    ensures value { IsTrue D.is_told → IfOk result (Shows pin.now (records_of store.now) from len) }
    ensures sure { IsTrue D.is_told → result ≢ Err show.Failed }
{
    let pieces = pieces(alloc, pin.location.stripe, 1, from, len)?;
    let mut made = Vec::new(alloc);
    for piece in pieces.as_slice() {
        let bytes = piece_of(alloc, store, pin, *piece)?;
        made.extend_from_slice(bytes.as_slice())?;
    }
    Ok(Octets::from_vec(made)?)
}
