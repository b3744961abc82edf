//! What is found of bodies that were read, beside each other.
ghost use Rattle.std.specs.Prelude.{◌≡◌, IfOk, map};
ghost use Rattle.sha2.specs.Sha256.{sha256};
ghost use Rattle.scrub.specs.Reading.{found_in};

use crate::found::{Found, found_by};
use crate::reading::ReadItem;
use body_digests::BodyDigest;
use par_halves::{Gate, map_halves};
use sha2::{Digest, Sha256};
use std::alloc::Global;
use std::thread::Threads;
use xt_base::{Octets, OutOfMemory};

/// The SHA-256 of a body.
pub(crate) fn digest_of(body: &Octets) -> BodyDigest
    ensures { result ≡ sha256 body.now }
{
    Sha256::digest(body.as_slice())
}

/// What is found of an item that was read.
fn found_in(read: &ReadItem) -> Found
    ensures { result ≡ found_in read.now }
{
    found_by(read.item.seal, digest_of(&read.bytes))
}

/// What is found of each of these items, in order, for every gate.
pub(crate) fn found_in_each<R: Threads + Sync, G: Gate>(
    rt: &R,
    alloc: Global,
    items: &[ReadItem],
    gate: &G,
) -> Result<Vec<Found>, OutOfMemory>
    ensures { IfOk result (λ found. found.items ≡ map found_in items.now) }
{
    map_halves(
        rt,
        alloc,
        items,
        &|read: &ReadItem| -> Found
            ensures { result ≡ found_in read.now }
        { found_in(read) },
        gate,
    )
}
