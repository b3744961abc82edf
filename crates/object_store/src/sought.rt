ghost use Rattle.std.specs.Prelude.{◌≡◌, ◌≢◌, IfOk, IfErr, IfSome, IfNone, Contains};
ghost use Rattle.std.specs.List.{All};
ghost use Rattle.object_versions.specs.declared.errors.BodyErr.TheVariants.{OutOfMemory};

use crate::read_body::ReadBody;
use replica_records::{BodyErr, BodyKey};
use std::alloc::Global;
use xt_base::{Copies, Octets};

/// What was read as this body, if it was.
pub fn sought<'b>(read: &'b [ReadBody], key: &BodyKey) -> Option<&'b Octets>
    ensures found { IfSome result (λ bytes.
        Contains read.now (record { key = key.now; bytes = bytes.now })) }
    ensures fresh { IfNone result (All (λ body. body.key ≢ key.now) read.now) }
{
    for body in read {
        if body.key == *key {
            return Some(&body.bytes);
        }
    }
    None
}

/// A copy of a body.
pub fn copied(alloc: Global, bytes: &Octets) -> Result<Octets, BodyErr>
    ensures copy { IfOk result (λ made. made ≡ bytes.now) }
    ensures memory { IfErr result (λ error. error ≡ OutOfMemory) }
{
    match bytes.copy(alloc) {
        Ok(made) => Ok(made),
        Err(_) => Err(BodyErr::OutOfMemory),
    }
}
