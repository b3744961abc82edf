ghost use Rattle.std.specs.Prelude.{◌≡◌, IfOk, IfSome};
ghost use Rattle.xt_protocol.specs.OsdSteps.{file_concerned};
ghost use Rattle.osd_files.specs.Whole.{IsSealedBy};
ghost use Rattle.osd_core.specs.Keys.{FitsKey, sealed_by, stops_by};

use capabilities::{CapErr, check, is_stop};
use std::alloc::{AllocError, Global};
use xt_base::{FileId, Octets, OutOfMemory};
use xt_messages::{Capability, Payload};

/// The file that a message concerns, if any.
pub fn file_concerned(payload: &Payload) -> Option<FileId>
    ensures { result ≡ file_concerned payload.now }
{
    match payload {
        Payload::Read { file, .. }
        | Payload::Promise { file, .. }
        | Payload::Write { file, .. }
        | Payload::Accepted { file, .. }
        | Payload::Outrun { file, .. }
        | Payload::Gather { file, .. }
        | Payload::Status { file, .. }
        | Payload::Fetch { file, .. }
        | Payload::Object { file, .. }
        | Payload::Stage { file, .. }
        | Payload::Staged { file, .. }
        | Payload::Head { file, .. }
        | Payload::Update { file, .. }
        | Payload::Ack { file, .. }
        | Payload::Refused { file, .. }
        | Payload::Behind { file, .. }
        | Payload::Missing { file, .. }
        | Payload::Reply { file, .. } => Some(*file),
        Payload::Ask { capability, .. } => Some(capability.file),
        _ => None,
    }
}

/// Whether a capability has its tag under the key: whether it passes the first test of a check. The others pass, as the use is
/// a read of its own file at the clock 0.
fn has_tag(alloc: Global, key: &[u8], capability: &Capability) -> Result<bool, OutOfMemory>
    requires { FitsKey key.now }
    ensures { IfOk result (λ sealed. sealed_by (Some key.now) capability.now ≡ sealed) }
{
    match check(alloc, key, capability, &capability.file, 0, false) {
        Ok(()) => Ok(true),
        Err(CapErr::Denied { .. }) => Ok(false),
        Err(CapErr::OutOfMemory) => Err(AllocError),
    }
}

/// Whether the tag of an ask's capability is the key's: without a key it is.
pub fn is_sealed(
    alloc: Global,
    key: &Option<Octets>,
    payload: &Payload,
) -> Result<bool, OutOfMemory>
    requires { IfSome key.now FitsKey }
    ensures { IfOk result (λ sealed. IsSealedBy (sealed_by key.now) payload.now sealed) }
{
    match (key, payload) {
        (Some(key), Payload::Ask { capability, .. }) => has_tag(alloc, key.as_slice(), capability),
        _ => Ok(true),
    }
}

/// Whether a message ends an OSD with this key. Without a key no message does.
pub fn stops(key: &Option<Octets>, payload: &Payload) -> Result<bool, OutOfMemory>
    requires { IfSome key.now FitsKey }
    ensures { result ≡ Ok (stops_by key.now payload.now) }
{
    match key {
        Some(key) => is_stop(key.as_slice(), payload),
        None => Ok(false),
    }
}
