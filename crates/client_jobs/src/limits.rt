//! Which calls can be made: those within the limits of their message.
ghost use Rattle.std.specs.Prelude.{◌≡◌, ◌≤◌, ◌<◌, ◌^◌, true, nat_le, length};
ghost use Rattle.xt_base.specs.FieldLimits.{AreBytes, FitsBytes, FitsPath, FitsName};
ghost use Rattle.xt_messages.specs.Limits.{FitsMembers, FitsMetaReq, FitsRegistryReq, FitsStripe};
ghost use Rattle.client_limits.specs.Fits.{FitsCall};
ghost use Rattle.client_jobs.specs.Limits as limits;

use xt_base::{COUNTS, Members, Name, NodeId};
use xt_messages::{AskRefusal, Call, MetaReq, Refusal, RegistryReq, Status};

/// How many objects a command can write or read. A message has room for greater numbers.
const NUMBERED: u64 = 1 << 32;

/// Whether there are at most `most` bytes.
fn are_few(bytes: &[u8], most: usize) -> bool
    ensures value { result ≡ nat_le (length bytes.now) most }
    ensures few { result ≡ true → length bytes.now ≤ most }
    ensures bytes { AreBytes bytes.now }
{
    bytes.len() <= most
}

/// Whether a text is short enough for a path.
fn is_path(path: &Name) -> bool
    ensures value { result ≡ limits.is_path path.now }
    ensures fits { result ≡ true → FitsPath path.now }
{
    let text = path.as_str();
    are_few(text.as_bytes(), 65_535)
}

/// Whether a text is short enough for a name.
fn is_name(name: &Name) -> bool
    ensures value { result ≡ limits.is_name name.now }
    ensures fits { result ≡ true → FitsName name.now }
{
    let text = name.as_str();
    are_few(text.as_bytes(), 255)
}

/// Whether a stripe is 1 to 128 times 1,024 bytes.
fn is_stripe(stripe: u32) -> bool
    ensures value { result ≡ limits.is_stripe stripe }
    ensures fits { result ≡ true → FitsStripe stripe }
{
    1_024 <= stripe && stripe <= 131_072 && stripe % 1_024 == 0
}

/// Whether each node's number is below 2^32, as it always is.
fn are_nodes(nodes: &[NodeId]) -> bool
    ensures { result ≡ limits.are_nodes nodes.now }
{
    nodes.iter().all(|node| u64::from(node.0) < 1 << 32)
}

/// Whether the nodes are one to nine different ones.
#[tactic(auto, using(crate::proofs::Nodes::nodes_fit))]
fn are_members(nodes: &[NodeId]) -> bool
    ensures value { result ≡ limits.are_listed nodes.now }
    ensures fits { result ≡ true → FitsMembers nodes.now }
{
    are_nodes(nodes) && Members::new(nodes).is_ok()
}

/// Whether a command can read this many bytes of an object with this number.
fn is_piece(object: u64, count: u64) -> bool
    ensures value { result ≡ limits.is_piece object count }
    ensures fits { result ≡ true →
        (object < 2 ^ 64) × (1 ≤ count) × (count ≤ 131072) }
{
    object < NUMBERED && 1 <= count && count <= 131_072
}

/// Whether a request to the MRC is within its limits.
fn fits_meta(request: &MetaReq) -> bool
    ensures value { result ≡ limits.fits_meta request.now }
    ensures fits { result ≡ true → FitsMetaReq request.now }
{
    match request {
        MetaReq::Create {
            path,
            mode,
            kind: _,
            n,
            stripe,
        } => {
            let _mode = *mode;
            is_path(path) && 1 <= *n && *n <= 9 && is_stripe(*stripe)
        }
        MetaReq::Rename { from, to } => is_path(from) && is_path(to),
        MetaReq::List { path, after } => is_path(path) && is_path(after),
        MetaReq::Grant { path, want } => is_path(path) && 1 <= *want && *want <= 3,
        MetaReq::Report { .. } => false,
        MetaReq::Mkdir { path, mode } | MetaReq::Chmod { path, mode } => {
            let _mode = *mode;
            is_path(path)
        }
        MetaReq::Change { path, nodes } => is_path(path) && are_members(nodes.as_slice()),
        MetaReq::Unlink { path }
        | MetaReq::Rmdir { path }
        | MetaReq::Stat { path }
        | MetaReq::Locate { path } => is_path(path),
    }
}

/// Whether a request to the DIR is within its limits.
fn fits_registry(request: &RegistryReq) -> bool
    ensures value { result ≡ limits.fits_registry request.now }
    ensures fits { result ≡ true → FitsRegistryReq request.now }
{
    match request {
        RegistryReq::Set {
            node,
            kind,
            address,
            expected,
        } => {
            let (_node, _kind) = (node.0, *kind);
            is_name(address) && *expected < COUNTS
        }
        RegistryReq::Remove { node, expected } => {
            let _node = node.0;
            *expected < COUNTS
        }
        RegistryReq::Get { node } => {
            let _node = node.0;
            true
        }
        RegistryReq::List { kind, after } => {
            let (_kind, _after) = (*kind, after.0);
            true
        }
    }
}

/// Whether bytes are a piece that a command can write to an object with this number.
fn is_written(object: u64, bytes: &[u8]) -> bool
    ensures value { result ≡ limits.is_piece object (length bytes.now) }
    ensures fits { result ≡ true →
        (object < 2 ^ 64) × FitsBytes bytes.now × (1 ≤ length bytes.now) }
{
    let few = are_few(bytes, 131_072);
    object < NUMBERED && !bytes.is_empty() && few
}

/// Whether a call is within the limits of its message.
pub fn fits_call(call: &Call) -> bool
    ensures value { result ≡ limits.fits_call call.now }
    ensures fits { result ≡ true → FitsCall call.now }
{
    match call {
        Call::Read {
            file: _,
            object,
            at,
            len,
        } => {
            let _at = *at;
            is_piece(*object, u64::from(*len))
        }
        Call::Write {
            file: _,
            object,
            at,
            bytes,
        } => {
            let _at = *at;
            is_written(*object, bytes.as_slice())
        }
        Call::Meta {
            user,
            group,
            request,
        } => {
            let (_user, _group) = (*user, *group);
            fits_meta(request)
        }
        Call::Registry { request } => fits_registry(request),
        Call::Truncate { size, .. } => {
            let _size = *size;
            true
        }
        Call::Report { user, group, .. } => {
            let (_user, _group) = (*user, *group);
            true
        }
    }
}

/// How a command ends whose next call can't be made.
pub fn unasked(call: &Call) -> Status
    ensures { result ≡ limits.unasked call.now }
{
    match call {
        Call::Write { object, .. } => Status::Refused {
            rule: Refusal::Ask {
                refusal: AskRefusal::TooFar { object: *object },
            },
        },
        _ => Status::Usage,
    }
}
