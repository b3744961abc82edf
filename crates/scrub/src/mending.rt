//! Bytes in place of a damaged body.

ghost use Rattle.std.specs.Prelude.{◌≡◌, IfOk};
ghost use Rattle.scrub.specs.Report.{is_sealed_by, mend_of};

use crate::checking::digest_of;
use crate::listing::Item;
use std::alloc::Global;
use xt_base::{Copies, Octets, OutOfMemory};
use xt_messages::Record;

/// Whether the digest of these bytes is the one that was kept of an item.
fn is_sealed(item: &Item, bytes: &Octets) -> bool
    ensures { result ≡ is_sealed_by item.now.seal bytes.now }
{
    match item.seal {
        None => false,
        Some(seal) => digest_of(bytes).as_slice() == seal.as_slice(),
    }
}

/// The record that puts these bytes in place of a damaged body, exactly when their digest is the one that was kept.
pub fn mend(alloc: Global, item: &Item, bytes: &Octets) -> Result<Option<Record>, OutOfMemory>
    ensures { IfOk result (λ rec. rec ≡ mend_of item.now bytes.now) }
{
    if !is_sealed(item, bytes) {
        return Ok(None);
    }
    Ok(Some(Record::Stage {
        file: item.file,
        object: item.object,
        version: item.version,
        bytes: bytes.copy(alloc)?,
    }))
}
