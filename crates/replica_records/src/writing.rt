ghost use Rattle.std.specs.Prelude.{◌≡◌, ◌<◌, ◌^◌, ◌++◌, length, OnOk};
ghost use Rattle.xt_messages.specs.Limits.{FitsHead, FitsUpdate, FitsMetaReq, FitsRegistryReq, FitsLogged, FitsRecord};
ghost use Rattle.xt_fields.specs.BasicFields.{byte_bytes, word_bytes, long_bytes, octets_bytes};
ghost use Rattle.xt_wire.specs.IdFields.{node_bytes, boot_bytes, file_bytes, epoch_bytes, stamp_bytes};
ghost use Rattle.xt_wire.specs.FileFields.{location_bytes, update_bytes, head_bytes};
ghost use Rattle.xt_wire.specs.MetaFields.{meta_req_bytes};
ghost use Rattle.xt_wire.specs.RegistryFields.{registry_req_bytes};
ghost use Rattle.replica_records.specs.RecordText.{nodes_bytes, logged_bytes, record_text};

use crate::old_writing::{
    put_old_choice, put_old_head, put_old_install, put_old_stage, put_old_update,
};
use xt_base::{Boot, Epoch, FileId, Members, NodeId, OutOfMemory, Stamp};
use xt_messages::{FileHead, Location, Logged, MetaReq, Record, RegistryReq, Update};
use xt_wire::{FieldWriter, WriteFiles, WriteIds, WriteRequests};

/// A record.
pub(crate) fn put_record(writer: &mut FieldWriter, rec: &Record) -> Result<(), OutOfMemory>
    requires { FitsRecord rec.now }
    ensures { OnOk result (writer.new ≡ writer.old ++ record_text rec.now) }
{
    match rec {
        Record::Boot { boot } => put_boot(writer, *boot),
        Record::Promise { file, epoch } => put_promise(writer, *file, *epoch),
        Record::Update { file, update } => put_update(writer, *file, update),
        Record::Stage {
            file,
            object,
            version,
            bytes,
        } => put_stage(writer, *file, *object, *version, bytes.as_slice()),
        Record::Head { file, head } => put_head(writer, *file, head),
        Record::View { file, location } => put_view(writer, *file, *location),
        Record::Meta {
            from,
            number,
            now,
            nodes,
            request,
        } => put_meta(writer, *from, *number, *now, *nodes, request),
        Record::Close { file, version } => put_version(writer, 9, *file, *version),
        Record::Install {
            file,
            location,
            head,
        } => put_install(writer, *file, *location, head),
        Record::Choice {
            file,
            location,
            head,
            source,
        } => put_choice(writer, *file, *location, head, *source),
        Record::Listed { file, version } => put_version(writer, 12, *file, *version),
        Record::Seal {
            file,
            object,
            version,
            digest,
        } => put_seal(writer, *file, *object, *version, *digest),
        Record::Forget { file } => put_forget(writer, *file),
        Record::OldUpdate { file, update } => put_old_update(writer, *file, update),
        Record::OldStage {
            file,
            object,
            version,
            bytes,
        } => put_old_stage(writer, *file, *object, *version, bytes.as_slice()),
        Record::OldHead { file, head } => put_old_head(writer, *file, head),
        Record::OldInstall {
            file,
            location,
            head,
        } => put_old_install(writer, *file, *location, head),
        Record::OldChoice {
            file,
            location,
            head,
            source,
        } => put_old_choice(writer, *file, *location, head, *source),
    }
}

/// A start.
fn put_boot(writer: &mut FieldWriter, boot: Boot) -> Result<(), OutOfMemory>
    ensures { OnOk result (writer.new ≡ writer.old ++ (byte_bytes 1 ++ boot_bytes boot)) }
{
    writer.byte(1)?;
    writer.boot(boot)
}

/// A replica's promise.
fn put_promise(writer: &mut FieldWriter, file: FileId, epoch: Epoch) -> Result<(), OutOfMemory>
    ensures { OnOk result (writer.new ≡ writer.old
        ++ (byte_bytes 2 ++ (file_bytes file ++ epoch_bytes epoch))) }
{
    writer.byte(2)?;
    writer.file(file)?;
    writer.epoch(epoch)
}

/// A write or truncation.
fn put_update(writer: &mut FieldWriter, file: FileId, update: &Update) -> Result<(), OutOfMemory>
    requires { FitsUpdate update.now }
    ensures { OnOk result (writer.new ≡ writer.old
        ++ (byte_bytes 13 ++ (file_bytes file ++ update_bytes update.now))) }
{
    writer.byte(13)?;
    writer.file(file)?;
    writer.update(update)
}

/// Bytes that are held.
fn put_stage(
    writer: &mut FieldWriter,
    file: FileId,
    object: u64,
    version: Stamp,
    bytes: &[u8],
) -> Result<(), OutOfMemory>
    requires { length bytes.now < 2 ^ 32 }
    ensures { OnOk result (writer.new ≡ writer.old
        ++ (byte_bytes 14
        ++ (file_bytes file ++ long_bytes object ++ stamp_bytes version
        ++ octets_bytes bytes.now))) }
{
    writer.byte(14)?;
    writer.file(file)?;
    writer.object(object)?;
    writer.stamp(version)?;
    writer.octets(bytes)
}

/// A head that is taken.
fn put_head(writer: &mut FieldWriter, file: FileId, head: &FileHead) -> Result<(), OutOfMemory>
    requires { FitsHead head.now }
    ensures { OnOk result (writer.new ≡ writer.old
        ++ (byte_bytes 15 ++ (file_bytes file ++ head_bytes head.now))) }
{
    writer.byte(15)?;
    writer.file(file)?;
    writer.head(head)
}

/// Where a file's content is kept.
fn put_view(writer: &mut FieldWriter, file: FileId, location: Location) -> Result<(), OutOfMemory>
    ensures { OnOk result (writer.new ≡ writer.old
        ++ (byte_bytes 6 ++ (file_bytes file ++ location_bytes location))) }
{
    writer.byte(6)?;
    writer.file(file)?;
    writer.location(location)
}

/// A recorded request.
fn put_meta(
    writer: &mut FieldWriter,
    from: NodeId,
    number: u64,
    now: u64,
    nodes: Option<Members>,
    request: &Logged,
) -> Result<(), OutOfMemory>
    requires { FitsLogged request.now }
    ensures { OnOk result (writer.new ≡ writer.old
        ++ (byte_bytes 7
        ++ (node_bytes from ++ long_bytes number ++ long_bytes now ++ nodes_bytes nodes
        ++ logged_bytes request.now))) }
{
    writer.byte(7)?;
    writer.node(from)?;
    writer.long(number)?;
    writer.long(now)?;
    put_nodes(writer, nodes)?;
    put_logged(writer, request)
}

/// A file and the version of its list, under this kind.
fn put_version(
    writer: &mut FieldWriter,
    kind: u8,
    file: FileId,
    version: u32,
) -> Result<(), OutOfMemory>
    ensures { OnOk result (writer.new ≡ writer.old
        ++ (byte_bytes kind ++ (file_bytes file ++ word_bytes version))) }
{
    writer.byte(kind)?;
    writer.file(file)?;
    writer.word(version)
}

/// A file, its list and the head with which that begins.
fn put_list(
    writer: &mut FieldWriter,
    file: FileId,
    location: Location,
    head: &FileHead,
) -> Result<(), OutOfMemory>
    requires { FitsHead head.now }
    ensures { OnOk result (writer.new ≡ writer.old
        ++ (file_bytes file ++ location_bytes location ++ head_bytes head.now)) }
{
    writer.file(file)?;
    writer.location(location)?;
    writer.head(head)
}

/// A list that is taken.
fn put_install(
    writer: &mut FieldWriter,
    file: FileId,
    location: Location,
    head: &FileHead,
) -> Result<(), OutOfMemory>
    requires { FitsHead head.now }
    ensures { OnOk result (writer.new ≡ writer.old
        ++ (byte_bytes 16 ++ (file_bytes file ++ location_bytes location ++ head_bytes head.now))) }
{
    writer.byte(16)?;
    put_list(writer, file, location, head)
}

/// The choice for a change.
fn put_choice(
    writer: &mut FieldWriter,
    file: FileId,
    location: Location,
    head: &FileHead,
    source: NodeId,
) -> Result<(), OutOfMemory>
    requires { FitsHead head.now }
    ensures { OnOk result (writer.new ≡ writer.old
        ++ (byte_bytes 17
        ++ (file_bytes file ++ location_bytes location ++ head_bytes head.now
        ++ node_bytes source))) }
{
    writer.byte(17)?;
    put_list(writer, file, location, head)?;
    writer.node(source)
}

/// The digest of a body.
fn put_seal(
    writer: &mut FieldWriter,
    file: FileId,
    object: u64,
    version: Stamp,
    digest: [u8; 32],
) -> Result<(), OutOfMemory>
    ensures { OnOk result (writer.new ≡ writer.old
        ++ (byte_bytes 18
        ++ (file_bytes file ++ long_bytes object ++ stamp_bytes version ++ digest))) }
{
    writer.byte(18)?;
    writer.file(file)?;
    writer.object(object)?;
    writer.stamp(version)?;
    writer.tag(digest)
}

/// A file that is removed.
fn put_forget(writer: &mut FieldWriter, file: FileId) -> Result<(), OutOfMemory>
    ensures { OnOk result (writer.new ≡ writer.old ++ (byte_bytes 19 ++ file_bytes file)) }
{
    writer.byte(19)?;
    writer.file(file)
}

/// The nodes that were picked from, or that there were none.
fn put_nodes(writer: &mut FieldWriter, nodes: Option<Members>) -> Result<(), OutOfMemory>
    ensures { OnOk result (writer.new ≡ writer.old ++ nodes_bytes nodes) }
{
    match nodes {
        Some(members) => writer.members(members),
        None => writer.byte(0),
    }
}

/// A request, under the kind of its message.
fn put_logged(writer: &mut FieldWriter, request: &Logged) -> Result<(), OutOfMemory>
    requires { FitsLogged request.now }
    ensures { OnOk result (writer.new ≡ writer.old ++ logged_bytes request.now) }
{
    match request {
        Logged::Meta {
            user,
            group,
            request,
        } => put_meta_logged(writer, *user, *group, request),
        Logged::Registry { request } => put_registry_logged(writer, request),
    }
}

/// A request to the metadata server.
fn put_meta_logged(
    writer: &mut FieldWriter,
    user: u32,
    group: u32,
    request: &MetaReq,
) -> Result<(), OutOfMemory>
    requires { FitsMetaReq request.now }
    ensures { OnOk result (writer.new ≡ writer.old
        ++ (byte_bytes 20 ++ (word_bytes user ++ word_bytes group ++ meta_req_bytes request.now))) }
{
    writer.byte(20)?;
    writer.word(user)?;
    writer.word(group)?;
    writer.meta_req(request)
}

/// A request to the directory service.
fn put_registry_logged(writer: &mut FieldWriter, request: &RegistryReq) -> Result<(), OutOfMemory>
    requires { FitsRegistryReq request.now }
    ensures { OnOk result (writer.new ≡ writer.old
        ++ (byte_bytes 22 ++ registry_req_bytes request.now)) }
{
    writer.byte(22)?;
    writer.registry_req(request)
}
