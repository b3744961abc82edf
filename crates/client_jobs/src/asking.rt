//! The call of a stage.
ghost use Rattle.std.specs.Prelude.{◌≡◌, ◌≤◌, IfOk};
ghost use Rattle.client_plans.specs.Plans as plan;
ghost use Rattle.client_plans.specs.Plans.{operation_of, task_of, end_of};

use crate::pieces::{end_in, object_size, piece_length, place_of};
use client_plans::Stage;
use command_words::{ClientJob, Layout, Order, Who};
use std::alloc::Global;
use xt_base::{Address, Copies, Name, NodeId, Octets, OutOfMemory};
use xt_messages::{Call, Capability, Kind, MetaReq, RegistryReq};

/// The requests of the commands that have one metadata call.
fn once(alloc: Global, order: &Order) -> Result<Option<MetaReq>, OutOfMemory>
    ensures { IfOk result (λ request. request ≡ plan.once order.now) }
{
    Ok(match order {
        Order::Mkdir { path } => Some(MetaReq::Mkdir {
            path: path.copy(alloc)?,
            mode: 0o755,
        }),
        Order::Rmdir { path } => Some(MetaReq::Rmdir {
            path: path.copy(alloc)?,
        }),
        Order::Rm { path } => Some(MetaReq::Unlink {
            path: path.copy(alloc)?,
        }),
        Order::Mv { from, to } => {
            let from = from.copy(alloc)?;
            let to = to.copy(alloc)?;
            Some(MetaReq::Rename { from, to })
        }
        Order::Chmod { path, mode } => Some(MetaReq::Chmod {
            path: path.copy(alloc)?,
            mode: *mode,
        }),
        Order::Stat { path } => Some(MetaReq::Stat {
            path: path.copy(alloc)?,
        }),
        Order::Replicas { path } => Some(MetaReq::Locate {
            path: path.copy(alloc)?,
        }),
        _ => None,
    })
}

/// The request for a page of the names after this one.
fn names_above(alloc: Global, order: &Order, above: &Name) -> Result<Option<MetaReq>, OutOfMemory>
    ensures { IfOk result (λ request. request ≡ plan.names_above order.now above.now) }
{
    match order {
        Order::Ls { path } => {
            let path = path.copy(alloc)?;
            let after = above.copy(alloc)?;
            Ok(Some(MetaReq::List { path, after }))
        }
        _ => Ok(None),
    }
}

/// How many OSDs a new file has, and its layout.
fn lies_on(layout: &Layout) -> (Kind, u8)
    ensures { result ≡ plan.lies_on layout.now }
{
    match layout {
        Layout::Replicated(n) => (Kind::Replicated, *n),
        Layout::Striped(n) => (Kind::Striped, *n),
    }
}

/// The request to create a file that all can read and its owner can write (mode 644).
fn create_of(alloc: Global, order: &Order) -> Result<Option<MetaReq>, OutOfMemory>
    ensures { IfOk result (λ request. request ≡ plan.create_of order.now) }
{
    match order {
        Order::Put {
            path,
            layout,
            stripe,
            ..
        } => {
            let (kind, n) = lies_on(layout);
            Ok(Some(MetaReq::Create {
                path: path.copy(alloc)?,
                mode: 0o644,
                kind,
                n,
                stripe: *stripe,
            }))
        }
        _ => Ok(None),
    }
}

/// A capability on a file: 1 to read, 2 to write, 3 to truncate.
fn grant(alloc: Global, path: &Name, want: u8) -> Result<Option<MetaReq>, OutOfMemory>
    ensures { IfOk result (λ request. request ≡ plan.grant path.now want) }
{
    Ok(Some(MetaReq::Grant {
        path: path.copy(alloc)?,
        want,
    }))
}

/// The capability that a command needs.
fn grant_of(alloc: Global, order: &Order) -> Result<Option<MetaReq>, OutOfMemory>
    ensures { IfOk result (λ request. request ≡ plan.grant_of order.now) }
{
    match order {
        Order::Get { path, .. } => grant(alloc, path, 1),
        Order::Put { path, .. } => grant(alloc, path, 2),
        Order::Truncate { path, .. } => grant(alloc, path, 3),
        _ => Ok(None),
    }
}

/// A request to the MRC of this user in this group.
fn meta_call(who: &Who, request: Option<MetaReq>) -> Option<Call>
    ensures { result ≡ plan.meta_call who.now.user who.now.group request }
{
    match request {
        None => None,
        Some(request) => Some(Call::Meta {
            user: who.user,
            group: who.group,
            request,
        }),
    }
}

/// The request for the row that is set or removed.
fn get_of(order: &Order) -> Option<Call>
    ensures { result ≡ plan.get_of order.now }
{
    match order {
        Order::Register { node, .. } | Order::Unregister { node } => Some(Call::Registry {
            request: RegistryReq::Get { node: *node },
        }),
        _ => None,
    }
}

/// The request to set a row of the registry, over the version that it has.
fn set(
    alloc: Global,
    node: NodeId,
    kind: u8,
    address: &Address,
    expected: u64,
) -> Result<Option<Call>, OutOfMemory>
    ensures { IfOk result (λ call. call ≡ plan.set node kind address.now expected) }
{
    let address = Name::of(alloc, address.as_str())?;
    Ok(Some(Call::Registry {
        request: RegistryReq::Set {
            node,
            kind,
            address,
            expected,
        },
    }))
}

/// The setting or the removal of a row of the registry, under the version that it has.
fn set_of(alloc: Global, order: &Order, version: u64) -> Result<Option<Call>, OutOfMemory>
    ensures { IfOk result (λ call. call ≡ plan.set_of order.now version) }
{
    match order {
        Order::Register {
            node,
            kind,
            address,
        } => set(alloc, *node, *kind, address, version),
        Order::Unregister { node } => Ok(Some(Call::Registry {
            request: RegistryReq::Remove {
                node: *node,
                expected: version,
            },
        })),
        _ => Ok(None),
    }
}

/// The write of a piece that begins at this place.
fn write_of(
    alloc: Global,
    capability: &Capability,
    from: u64,
    piece: &Octets,
) -> Result<Option<Call>, OutOfMemory>
    ensures { IfOk result (λ call. call ≡ plan.write_of capability.now from piece.now) }
{
    let (object, at) = place_of(object_size(capability), from);
    let bytes = piece.copy(alloc)?;
    Ok(Some(Call::Write {
        file: capability.file.number,
        object,
        at,
        bytes,
    }))
}

/// The read of the piece at this place.
fn read_of(order: &Order, capability: &Capability, from: u64) -> Option<Call>
    requires { end_of order.now ≤ 281474976710656 }
    ensures { result ≡ plan.read_of order.now capability.now from }
{
    match order {
        Order::Get { range, .. } => {
            let stripe = object_size(capability);
            let (object, at) = place_of(stripe, from);
            Some(Call::Read {
                file: capability.file.number,
                object,
                at,
                len: piece_length(stripe, from, end_in(*range)),
            })
        }
        _ => None,
    }
}

/// The truncation of a file.
fn truncate_of(order: &Order, capability: &Capability) -> Option<Call>
    ensures { result ≡ plan.truncate_of order.now capability.now }
{
    match order {
        Order::Truncate { size, .. } => Some(Call::Truncate {
            file: capability.file.number,
            size: *size,
            epoch: capability.epoch,
        }),
        _ => None,
    }
}

/// The rows of a kind, with nodes above this one.
fn rows_above(kind: u8, above: NodeId) -> Option<Call>
    ensures { result ≡ plan.rows_above kind above }
{
    Some(Call::Registry {
        request: RegistryReq::List { kind, after: above },
    })
}

/// The report of a file's size.
fn report_of(who: &Who, capability: &Capability) -> Option<Call>
    ensures { result ≡ plan.report_of who.now.user who.now.group capability.now }
{
    Some(Call::Report {
        user: who.user,
        group: who.group,
        file: capability.file.number,
    })
}

/// The metadata request of a stage.
fn request_of(alloc: Global, order: &Order, stage: &Stage) -> Result<Option<MetaReq>, OutOfMemory>
    ensures { IfOk result (λ request. request ≡ plan.request_of order.now stage.now) }
{
    match stage {
        Stage::AsksOnce => once(alloc, order),
        Stage::Pages { above } => names_above(alloc, order, above),
        Stage::Creates => create_of(alloc, order),
        Stage::Grants => grant_of(alloc, order),
        _ => Ok(None),
    }
}

/// The call of a stage; none if the command is over.
#[tactic(auto, unfolding(client_plans::specs::Plans::operation_of))]
pub fn operation_of(
    alloc: Global,
    job: &ClientJob,
    stage: &Stage,
) -> Result<Option<Call>, OutOfMemory>
    requires { end_of job.now.order ≤ 281474976710656 }
    ensures { IfOk result (λ call. call ≡ operation_of (task_of job.now) stage.now) }
{
    match stage {
        Stage::Lists { kind, above } | Stage::Collects { kind, above, .. } => {
            Ok(rows_above(*kind, *above))
        }
        Stage::Looks => Ok(get_of(&job.order)),
        Stage::Sets { version } => set_of(alloc, &job.order, *version),
        Stage::AsksOnce | Stage::Pages { .. } | Stage::Creates | Stage::Grants => {
            let request = request_of(alloc, &job.order, stage)?;
            Ok(meta_call(&job.who, request))
        }
        Stage::Writes {
            capability,
            from,
            piece,
            ..
        } => write_of(alloc, capability, *from, piece),
        Stage::Reads {
            capability,
            from,
            ..
        } => Ok(read_of(&job.order, capability, *from)),
        Stage::Truncates { capability, .. } => Ok(truncate_of(&job.order, capability)),
        Stage::Reports { capability, .. } => Ok(report_of(&job.who, capability)),
        Stage::Fetches { .. } | Stage::Over { .. } => Ok(None),
    }
}
