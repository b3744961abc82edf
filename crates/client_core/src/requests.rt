//! What calls ask, and whom.
ghost use Rattle.std.specs.Prelude.{◌≡◌, IfOk};
ghost use Rattle.client_rows.specs.Holding.{held_of};
ghost use Rattle.client_rows.specs.Requests as spec;

use crate::holding::HeldFiles;
use crate::striped::first_of;
use client_rows::Request;
use replica_client::{begins, gives};
use std::alloc::Global;
use xt_base::{Copies, DIR_NODE, MRC_NODE, NodeId, OutOfMemory};
use xt_messages::{Call, Capability, Kind, MetaReq, Msgs, Op, Payload};
use xt_protocol::{Turned, message, one};

/// An operation on a file, as one of its kind.
fn on_file(capability: &Capability, op: Op) -> Request
    ensures { result ≡ spec.on_file capability.now.location.kind capability.now op }
{
    match capability.location.kind {
        Kind::Replicated => Request::Replicated {
            capability: *capability,
            op,
        },
        Kind::Striped => Request::Striped {
            capability: *capability,
            op,
        },
    }
}

/// An operation on a file under the capability that is held. None where none is.
fn under_held(held: &HeldFiles, file: u64, op: Op) -> Option<Request>
    ensures { result ≡ spec.under_held op (held_of held.now file) }
{
    match held.get(file) {
        None => None,
        Some(held) => Some(on_file(&held.capability, op)),
    }
}

/// A report of what is held of a file. None where nothing is.
fn report_of(held: &HeldFiles, user: u32, group: u32, file: u64) -> Option<Request>
    ensures { result ≡ spec.report_of user group (held_of held.now file) }
{
    match held.get(file) {
        None => None,
        Some(held) => Some(Request::Meta {
            user,
            group,
            request: MetaReq::Report {
                capability: held.capability,
                mark: held.mark,
            },
        }),
    }
}

/// What a call asks. None where it uses a file that isn't held.
pub fn request_of(
    alloc: Global,
    held: &HeldFiles,
    call: &Call,
) -> Result<Option<Request>, OutOfMemory>
    ensures { IfOk result (λ asked. asked ≡ spec.request_of held.now call.now) }
{
    match call {
        Call::Read {
            file,
            object,
            at,
            len,
        } => {
            let op = Op::Read {
                object: *object,
                at: *at,
                len: *len,
            };
            Ok(under_held(held, *file, op))
        }
        Call::Write {
            file,
            object,
            at,
            bytes,
        } => {
            let op = Op::Write {
                object: *object,
                at: *at,
                bytes: bytes.copy(alloc)?,
            };
            Ok(under_held(held, *file, op))
        }
        Call::Truncate { file, size, .. } => {
            Ok(under_held(held, *file, Op::Truncate { size: *size }))
        }
        Call::Meta {
            user,
            group,
            request,
        } => Ok(Some(Request::Meta {
            user: *user,
            group: *group,
            request: request.copy(alloc)?,
        })),
        Call::Report { user, group, file } => Ok(report_of(held, *user, *group, *file)),
        Call::Registry { request } => Ok(Some(Request::Registry {
            request: request.copy(alloc)?,
        })),
    }
}

/// The number of the file that is asked for, and 0 where none is.
pub fn file_of(request: &Request) -> u64
    ensures { result ≡ spec.file_of request.now }
{
    match request {
        Request::Replicated { capability, .. } | Request::Striped { capability, .. } => {
            capability.file.number
        }
        Request::Meta { .. } | Request::Registry { .. } => 0,
    }
}

/// Whom a request asks first, where it isn't on a replicated file.
pub fn first_asked(request: &Request) -> NodeId
    ensures { result ≡ spec.first_asked request.now }
{
    match request {
        Request::Replicated { capability, op } | Request::Striped { capability, op } => {
            first_of(&capability.location.members, op)
        }
        Request::Meta { .. } => MRC_NODE,
        Request::Registry { .. } => DIR_NODE,
    }
}

/// What is sent for a request.
fn payload_of(alloc: Global, number: u64, request: &Request) -> Result<Payload, OutOfMemory>
    ensures { IfOk result (λ content. content ≡ spec.payload_of number request.now) }
{
    match request {
        Request::Replicated { capability, op } | Request::Striped { capability, op } => {
            Ok(Payload::Ask {
                number,
                capability: *capability,
                op: op.copy(alloc)?,
            })
        }
        Request::Meta {
            user,
            group,
            request,
        } => Ok(Payload::Meta {
            number,
            user: *user,
            group: *group,
            request: request.copy(alloc)?,
        }),
        Request::Registry { request } => Ok(Payload::Registry {
            number,
            request: request.copy(alloc)?,
        }),
    }
}

/// A node asks for this, under this number.
pub fn asks(
    alloc: Global,
    node: NodeId,
    number: u64,
    request: &Request,
    target: NodeId,
) -> Result<Msgs, OutOfMemory>
    ensures { IfOk result (λ outs. outs ≡ spec.asks node number request.now target) }
{
    let content = payload_of(alloc, number, request)?;
    one(alloc, message(node, target, content))
}

/// A call that asks for this is marked, and asks its first node.
pub fn begin(
    alloc: Global,
    node: NodeId,
    number: u64,
    call: &Call,
    request: &Request,
) -> Result<Turned, OutOfMemory>
    ensures { IfOk result (λ turned. turned ≡ spec.begins node number call.now request.now) }
{
    let marks = begins(alloc, number, call)?;
    let outs = asks(alloc, node, number, request, first_asked(request))?;
    Ok(gives(outs, marks))
}
