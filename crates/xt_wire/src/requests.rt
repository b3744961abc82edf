ghost use Rattle.std.specs.Prelude.{◌≡◌, ◌<◌, ◌^◌, ◌++◌, length, OnOk};
ghost use Rattle.xt_messages.specs.Limits.{FitsMetaReq, FitsRegistryReq};
ghost use Rattle.xt_fields.specs.Reading.{Gives, Tries};
ghost use Rattle.xt_fields.specs.BasicFields.{byte_bytes, half_bytes, word_bytes, long_bytes, text_bytes};
ghost use Rattle.xt_wire.specs.IdFields.{node_bytes, mark_bytes};
ghost use Rattle.xt_wire.specs.FileFields.{kind_bytes, members_bytes, capability_bytes};
ghost use Rattle.xt_wire.specs.MetaFields.{meta_req_bytes, meta_req_at, meta_req_arms, mkdir_at, create_at, rename_at, list_names_at, chmod_at, grant_at, size_report_at, change_at};
ghost use Rattle.xt_wire.specs.RegistryFields.{registry_req_bytes, registry_req_at, registry_req_arms, set_row_at, list_rows_at, remove_row_at};

use crate::file::{ReadFiles, WriteFiles};
use crate::ids::{ReadIds, WriteIds};
use std::alloc::Global;
use xt_base::{Members, NodeId, OutOfMemory, SizeMark};
use xt_fields::{FieldErr, FieldReader, FieldWriter};
use xt_messages::{Capability, Kind, MetaReq, RegistryReq};

/// The longest address, in bytes.
const ADDRESS_LIMIT: u16 = 255;

/// Reads requests to the metadata server and to the directory service. One that is refused leaves the reader as it was.
pub trait ReadRequests {
    /// A request to the metadata server.
    fn meta_req(&mut self, alloc: Global) -> Result<MetaReq, FieldErr>;

    /// A request to the directory service.
    fn registry_req(&mut self, alloc: Global) -> Result<RegistryReq, FieldErr>;
}

/// The request of this number.
#[tactic(auto, unfolding(crate::specs::MetaFields::meta_req_arms, crate::specs::MetaFields::unlink_at, crate::specs::MetaFields::rmdir_at, crate::specs::MetaFields::stat_at, crate::specs::MetaFields::locate_at))]
fn meta_req_arm(
    fields: &mut FieldReader<'_>,
    number: u8,
    alloc: Global,
) -> Result<MetaReq, FieldErr>
    ensures { Gives result fields.new (meta_req_arms number fields.old) }
{
    match number {
        1 => mkdir(fields, alloc),
        2 => create(fields, alloc),
        3 => rename(fields, alloc),
        4 => Ok(MetaReq::Unlink {
            path: fields.text(alloc, u16::MAX)?,
        }),
        5 => Ok(MetaReq::Rmdir {
            path: fields.text(alloc, u16::MAX)?,
        }),
        6 => list_names(fields, alloc),
        7 => Ok(MetaReq::Stat {
            path: fields.text(alloc, u16::MAX)?,
        }),
        8 => chmod(fields, alloc),
        9 => grant(fields, alloc),
        10 => size_report(fields),
        11 => change(fields, alloc),
        12 => Ok(MetaReq::Locate {
            path: fields.text(alloc, u16::MAX)?,
        }),
        _ => Err(FieldErr::Unfit),
    }
}

/// A directory to be made.
#[tactic(auto, unfolding(crate::specs::MetaFields::mkdir_at))]
fn mkdir(fields: &mut FieldReader<'_>, alloc: Global) -> Result<MetaReq, FieldErr>
    ensures { Gives result fields.new (mkdir_at fields.old) }
{
    let path = fields.text(alloc, u16::MAX)?;
    let mode = fields.half()?;
    Ok(MetaReq::Mkdir { path, mode })
}

/// A file to be made.
#[tactic(auto, unfolding(crate::specs::MetaFields::create_at))]
fn create(fields: &mut FieldReader<'_>, alloc: Global) -> Result<MetaReq, FieldErr>
    ensures { Gives result fields.new (create_at fields.old) }
{
    let path = fields.text(alloc, u16::MAX)?;
    let mode = fields.half()?;
    let kind = fields.kind()?;
    let n = fields.byte_within(1, 9)?;
    let stripe = fields.stripe()?;
    Ok(MetaReq::Create {
        path,
        mode,
        kind,
        n,
        stripe,
    })
}

/// A row to be moved.
#[tactic(auto, unfolding(crate::specs::MetaFields::rename_at))]
fn rename(fields: &mut FieldReader<'_>, alloc: Global) -> Result<MetaReq, FieldErr>
    ensures { Gives result fields.new (rename_at fields.old) }
{
    let from = fields.text(alloc, u16::MAX)?;
    let to = fields.text(alloc, u16::MAX)?;
    Ok(MetaReq::Rename { from, to })
}

/// A directory to be listed.
#[tactic(auto, unfolding(crate::specs::MetaFields::list_names_at))]
fn list_names(fields: &mut FieldReader<'_>, alloc: Global) -> Result<MetaReq, FieldErr>
    ensures { Gives result fields.new (list_names_at fields.old) }
{
    let path = fields.text(alloc, u16::MAX)?;
    let after = fields.text(alloc, u16::MAX)?;
    Ok(MetaReq::List { path, after })
}

/// A mode to be set.
#[tactic(auto, unfolding(crate::specs::MetaFields::chmod_at))]
fn chmod(fields: &mut FieldReader<'_>, alloc: Global) -> Result<MetaReq, FieldErr>
    ensures { Gives result fields.new (chmod_at fields.old) }
{
    let path = fields.text(alloc, u16::MAX)?;
    let mode = fields.half()?;
    Ok(MetaReq::Chmod { path, mode })
}

/// A capability that is wanted.
#[tactic(auto, unfolding(crate::specs::MetaFields::grant_at))]
fn grant(fields: &mut FieldReader<'_>, alloc: Global) -> Result<MetaReq, FieldErr>
    ensures { Gives result fields.new (grant_at fields.old) }
{
    let path = fields.text(alloc, u16::MAX)?;
    let want = fields.byte_within(1, 3)?;
    Ok(MetaReq::Grant { path, want })
}

/// A size that a client learnt.
#[tactic(auto, unfolding(crate::specs::MetaFields::size_report_at))]
fn size_report(fields: &mut FieldReader<'_>) -> Result<MetaReq, FieldErr>
    ensures { Gives result fields.new (size_report_at fields.old) }
{
    let capability = fields.capability()?;
    let mark = fields.mark()?;
    Ok(MetaReq::Report { capability, mark })
}

/// A new list of members.
#[tactic(auto, unfolding(crate::specs::MetaFields::change_at))]
fn change(fields: &mut FieldReader<'_>, alloc: Global) -> Result<MetaReq, FieldErr>
    ensures { Gives result fields.new (change_at fields.old) }
{
    let path = fields.text(alloc, u16::MAX)?;
    let nodes = fields.members()?;
    Ok(MetaReq::Change { path, nodes })
}

/// The request of this number.
#[tactic(auto, unfolding(crate::specs::RegistryFields::registry_req_arms, crate::specs::RegistryFields::get_row_at))]
fn registry_req_arm(
    fields: &mut FieldReader<'_>,
    number: u8,
    alloc: Global,
) -> Result<RegistryReq, FieldErr>
    ensures { Gives result fields.new (registry_req_arms number fields.old) }
{
    match number {
        1 => set_row(fields, alloc),
        2 => Ok(RegistryReq::Get {
            node: fields.node()?,
        }),
        3 => list_rows(fields),
        4 => remove_row(fields),
        _ => Err(FieldErr::Unfit),
    }
}

/// A node to be registered.
#[tactic(auto, unfolding(crate::specs::RegistryFields::set_row_at))]
fn set_row(fields: &mut FieldReader<'_>, alloc: Global) -> Result<RegistryReq, FieldErr>
    ensures { Gives result fields.new (set_row_at fields.old) }
{
    let node = fields.node()?;
    let kind = fields.byte()?;
    let address = fields.text(alloc, ADDRESS_LIMIT)?;
    let expected = fields.count()?;
    Ok(RegistryReq::Set {
        node,
        kind,
        address,
        expected,
    })
}

/// Rows to be listed.
#[tactic(auto, unfolding(crate::specs::RegistryFields::list_rows_at))]
fn list_rows(fields: &mut FieldReader<'_>) -> Result<RegistryReq, FieldErr>
    ensures { Gives result fields.new (list_rows_at fields.old) }
{
    let kind = fields.byte()?;
    let after = fields.node()?;
    Ok(RegistryReq::List { kind, after })
}

/// A node to be removed.
#[tactic(auto, unfolding(crate::specs::RegistryFields::remove_row_at))]
fn remove_row(fields: &mut FieldReader<'_>) -> Result<RegistryReq, FieldErr>
    ensures { Gives result fields.new (remove_row_at fields.old) }
{
    let node = fields.node()?;
    let expected = fields.count()?;
    Ok(RegistryReq::Remove { node, expected })
}

impl ReadRequests for FieldReader<'_> {
    #[tactic(auto, unfolding(crate::specs::MetaFields::meta_req_at))]
    fn meta_req(&mut self, alloc: Global) -> Result<MetaReq, FieldErr>
        ensures { Tries result self.old self.new (meta_req_at self.old) }
    {
        let mut ahead = self.ahead();
        let number = ahead.byte()?;
        let meta_req = meta_req_arm(&mut ahead, number, alloc)?;
        *self = ahead;
        Ok(meta_req)
    }

    #[tactic(auto, unfolding(crate::specs::RegistryFields::registry_req_at))]
    fn registry_req(&mut self, alloc: Global) -> Result<RegistryReq, FieldErr>
        ensures { Tries result self.old self.new (registry_req_at self.old) }
    {
        let mut ahead = self.ahead();
        let number = ahead.byte()?;
        let registry_req = registry_req_arm(&mut ahead, number, alloc)?;
        *self = ahead;
        Ok(registry_req)
    }
}

/// Writes requests to the metadata server and to the directory service.
pub trait WriteRequests {
    /// A request to the metadata server.
    fn meta_req(&mut self, meta_req: &MetaReq) -> Result<(), OutOfMemory>
        requires { FitsMetaReq meta_req.now };

    /// A request to the directory service.
    fn registry_req(&mut self, registry_req: &RegistryReq) -> Result<(), OutOfMemory>
        requires { FitsRegistryReq registry_req.now };
}

/// The number of a request and a path.
fn put_path(fields: &mut FieldWriter, number: u8, path: &str) -> Result<(), OutOfMemory>
    requires { length path.now < 2 ^ 16 }
    ensures { OnOk result (fields.new ≡ fields.old ++ (byte_bytes number ++ text_bytes path.now)) }
{
    fields.byte(number)?;
    fields.text(path)
}

/// The number of a request, a path and a mode.
fn put_path_and_mode(
    fields: &mut FieldWriter,
    number: u8,
    path: &str,
    mode: u16,
) -> Result<(), OutOfMemory>
    requires { length path.now < 2 ^ 16 }
    ensures { OnOk result (fields.new ≡ fields.old
        ++ (byte_bytes number ++ text_bytes path.now ++ half_bytes mode)) }
{
    put_path(fields, number, path)?;
    fields.half(mode)
}

/// The number of a request and two paths, or a path and a name.
fn put_paths(
    fields: &mut FieldWriter,
    number: u8,
    first: &str,
    second: &str,
) -> Result<(), OutOfMemory>
    requires first_fits { length first.now < 2 ^ 16 }
    requires second_fits { length second.now < 2 ^ 16 }
    ensures { OnOk result (fields.new ≡ fields.old
        ++ (byte_bytes number ++ text_bytes first.now ++ text_bytes second.now)) }
{
    put_path(fields, number, first)?;
    fields.text(second)
}

/// A file to be made.
fn put_create(
    fields: &mut FieldWriter,
    path: &str,
    mode: u16,
    kind: Kind,
    n: u8,
    stripe: u32,
) -> Result<(), OutOfMemory>
    requires { length path.now < 2 ^ 16 }
    ensures { OnOk result (fields.new ≡ fields.old
        ++ (byte_bytes 2 ++ text_bytes path.now ++ half_bytes mode ++ kind_bytes kind
        ++ byte_bytes n ++ word_bytes stripe)) }
{
    put_path_and_mode(fields, 2, path, mode)?;
    fields.kind(kind)?;
    fields.byte(n)?;
    fields.word(stripe)
}

/// A capability that is wanted.
fn put_grant(fields: &mut FieldWriter, path: &str, want: u8) -> Result<(), OutOfMemory>
    requires { length path.now < 2 ^ 16 }
    ensures { OnOk result (fields.new ≡ fields.old
        ++ (byte_bytes 9 ++ text_bytes path.now ++ byte_bytes want)) }
{
    put_path(fields, 9, path)?;
    fields.byte(want)
}

/// A size that a client learnt.
fn put_size_report(
    fields: &mut FieldWriter,
    capability: &Capability,
    mark: SizeMark,
) -> Result<(), OutOfMemory>
    ensures { OnOk result (fields.new ≡ fields.old
        ++ (byte_bytes 10 ++ capability_bytes capability.now ++ mark_bytes mark)) }
{
    fields.byte(10)?;
    fields.capability(capability)?;
    fields.mark(mark)
}

/// A new list of members.
fn put_change(fields: &mut FieldWriter, path: &str, nodes: Members) -> Result<(), OutOfMemory>
    requires { length path.now < 2 ^ 16 }
    ensures { OnOk result (fields.new ≡ fields.old
        ++ (byte_bytes 11 ++ text_bytes path.now ++ members_bytes nodes)) }
{
    put_path(fields, 11, path)?;
    fields.members(nodes)
}

/// A node to be registered.
fn put_set_row(
    fields: &mut FieldWriter,
    node: NodeId,
    kind: u8,
    address: &str,
    expected: u64,
) -> Result<(), OutOfMemory>
    requires { length address.now < 2 ^ 16 }
    ensures { OnOk result (fields.new ≡ fields.old
        ++ (byte_bytes 1 ++ node_bytes node ++ byte_bytes kind ++ text_bytes address.now
        ++ long_bytes expected)) }
{
    fields.byte(1)?;
    fields.node(node)?;
    fields.byte(kind)?;
    fields.text(address)?;
    fields.long(expected)
}

/// The request for a row.
fn put_get_row(fields: &mut FieldWriter, node: NodeId) -> Result<(), OutOfMemory>
    ensures { OnOk result (fields.new ≡ fields.old ++ (byte_bytes 2 ++ node_bytes node)) }
{
    fields.byte(2)?;
    fields.node(node)
}

/// Rows to be listed.
fn put_list_rows(fields: &mut FieldWriter, kind: u8, after: NodeId) -> Result<(), OutOfMemory>
    ensures { OnOk result (fields.new ≡ fields.old
        ++ (byte_bytes 3 ++ byte_bytes kind ++ node_bytes after)) }
{
    fields.byte(3)?;
    fields.byte(kind)?;
    fields.node(after)
}

/// A node to be removed.
fn put_remove_row(fields: &mut FieldWriter, node: NodeId, expected: u64) -> Result<(), OutOfMemory>
    ensures { OnOk result (fields.new ≡ fields.old
        ++ (byte_bytes 4 ++ node_bytes node ++ long_bytes expected)) }
{
    fields.byte(4)?;
    fields.node(node)?;
    fields.long(expected)
}

impl WriteRequests for FieldWriter {
    fn meta_req(&mut self, meta_req: &MetaReq) -> Result<(), OutOfMemory>
        requires { FitsMetaReq meta_req.now }
        ensures { OnOk result (self.new ≡ self.old ++ meta_req_bytes meta_req.now) }
    {
        match meta_req {
            MetaReq::Mkdir { path, mode } => put_path_and_mode(self, 1, path.as_str(), *mode),
            MetaReq::Create {
                path,
                mode,
                kind,
                n,
                stripe,
            } => put_create(self, path.as_str(), *mode, *kind, *n, *stripe),
            MetaReq::Rename { from, to } => put_paths(self, 3, from.as_str(), to.as_str()),
            MetaReq::Unlink { path } => put_path(self, 4, path.as_str()),
            MetaReq::Rmdir { path } => put_path(self, 5, path.as_str()),
            MetaReq::List { path, after } => put_paths(self, 6, path.as_str(), after.as_str()),
            MetaReq::Stat { path } => put_path(self, 7, path.as_str()),
            MetaReq::Chmod { path, mode } => put_path_and_mode(self, 8, path.as_str(), *mode),
            MetaReq::Grant { path, want } => put_grant(self, path.as_str(), *want),
            MetaReq::Report { capability, mark } => put_size_report(self, capability, *mark),
            MetaReq::Change { path, nodes } => put_change(self, path.as_str(), *nodes),
            MetaReq::Locate { path } => put_path(self, 12, path.as_str()),
        }
    }

    fn registry_req(&mut self, registry_req: &RegistryReq) -> Result<(), OutOfMemory>
        requires { FitsRegistryReq registry_req.now }
        ensures { OnOk result (self.new ≡ self.old ++ registry_req_bytes registry_req.now) }
    {
        match registry_req {
            RegistryReq::Set {
                node,
                kind,
                address,
                expected,
            } => put_set_row(self, *node, *kind, address.as_str(), *expected),
            RegistryReq::Get { node } => put_get_row(self, *node),
            RegistryReq::List { kind, after } => put_list_rows(self, *kind, *after),
            RegistryReq::Remove { node, expected } => put_remove_row(self, *node, *expected),
        }
    }
}
