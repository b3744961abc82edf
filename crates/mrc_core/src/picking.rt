ghost use Rattle.std.specs.Prelude.{◌≡◌, ◌≤◌, IsTrue, IfOk};
ghost use Rattle.xt_base.specs.MemberList.{are_distinct};
ghost use Rattle.server_rows.specs.Requests as rows;
ghost use Rattle.server_rows.specs.Metadata.{nodes_of};
ghost use Rattle.mrc_core.specs.Picking.{WantsSome};

use replica_lists::{PickErr, pick};
use std::alloc::{AllocError, Global};
use volume_rows::Picked;
use xt_base::{FileId, Members, NodeId, OutOfMemory, Seq, has_node};
use xt_messages::{Kind, Location, Mark, Marks, MetaReq, RegistryRow};

/// The nodes of rows, each once.
pub fn nodes_of(alloc: Global, rows: &[RegistryRow]) -> Result<Vec<NodeId>, OutOfMemory>
    ensures nodes { IfOk result (λ nodes. nodes.items ≡ nodes_of rows.now) }
    ensures different { IfOk result (λ nodes. IsTrue (are_distinct nodes.items)) }
{
    let mut nodes = Vec::new(alloc);
    for row in rows {
        if !has_node(nodes.as_slice(), row.node) {
            nodes.push(row.node)?;
        }
    }
    Ok(nodes)
}

/// The nodes in the record of a new file: those that are picked for it, or all OSDs that there are, where these are too few.
fn nodes_picked(
    alloc: Global,
    osds: &[NodeId],
    next: u64,
    n: u8,
) -> Result<Option<Members>, OutOfMemory>
    requires some { 1 ≤ n }
    requires few { n ≤ 9 }
    requires different { IsTrue (are_distinct osds.now) }
    ensures { IfOk result (λ nodes. nodes ≡ rows.nodes_picked osds.now next n) }
{
    match pick(alloc, osds, next, n) {
        Ok(members) => Ok(Some(members)),
        Err(PickErr::TooFew { .. }) => Ok(Members::new(osds).ok()),
        Err(PickErr::OutOfMemory) => Err(AllocError),
    }
}

/// The nodes in the record of a request.
pub fn nodes_for(
    alloc: Global,
    osds: &[NodeId],
    next: u64,
    request: &MetaReq,
) -> Result<Option<Members>, OutOfMemory>
    requires wants { WantsSome request.now }
    requires different { IsTrue (are_distinct osds.now) }
    ensures { IfOk result (λ nodes. nodes ≡ rows.nodes_for osds.now next request.now) }
{
    match request {
        MetaReq::Create { n, .. } => nodes_picked(alloc, osds, next, *n),
        _ => Ok(None),
    }
}

/// The location of a new file: the first version of its list.
fn location_on(kind: Kind, stripe: u32, members: Members) -> Location
    ensures { result ≡ rows.location_on kind stripe members }
{
    Location {
        version: 1,
        kind,
        stripe,
        members,
    }
}

/// Where a new file goes, by the nodes in its record.
fn placed(kind: Kind, n: u8, stripe: u32, nodes: &Option<Members>) -> Picked
    requires { 1 ≤ n }
    ensures { result ≡ rows.placed kind n stripe (rows.nodes_in nodes.now) }
{
    let Some(members) = nodes else {
        return Picked::TooFew { have: 0 };
    };
    let have = members.as_slice().len();
    if have < n as usize {
        Picked::TooFew { have: have as u8 }
    } else {
        Picked::On {
            location: location_on(kind, stripe, *members),
        }
    }
}

/// Where what a request makes goes: a new file, by the nodes in its record.
pub fn place_of(nodes: &Option<Members>, request: &MetaReq) -> Picked
    requires { WantsSome request.now }
    ensures { result ≡ rows.place_of nodes.now request.now }
{
    match request {
        MetaReq::Create {
            kind,
            n,
            stripe,
            ..
        } => placed(*kind, *n, *stripe, nodes),
        _ => Picked::TooFew { have: 0 },
    }
}

/// The mark of a new file, where it was placed.
pub fn marks_on(alloc: Global, file: &Option<FileId>, place: &Picked) -> Result<Marks, OutOfMemory>
    ensures { IfOk result (λ marks. marks ≡ rows.marks_on file.now place.now) }
{
    let mut marks = Seq::new(alloc);
    if let (Some(file), Picked::On { location }) = (file, place) {
        marks.push(Mark::File {
            file: *file,
            location: *location,
        })?;
    }
    Ok(marks)
}
