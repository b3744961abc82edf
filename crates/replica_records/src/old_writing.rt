//! How records of old kinds are spelled. Nothing makes such a record anew; one that was read can be written as it was.
ghost use Rattle.std.specs.Prelude.{◌≡◌, ◌<◌, ◌^◌, ◌++◌, length, OnOk};
ghost use Rattle.std.specs.List.{AllByRecursion};
ghost use Rattle.xt_messages.specs.Limits.{IsOldObject, IsOldObjectOrNone, IsOldVersion, FitsOldUpdate, FitsOldHead};
ghost use Rattle.xt_fields.specs.BasicFields.{byte_bytes, word_bytes, octets_bytes};
ghost use Rattle.xt_wire.specs.IdFields.{node_bytes, file_bytes, stamp_bytes, op_id_bytes, mark_bytes};
ghost use Rattle.xt_wire.specs.FileFields.{location_bytes};
ghost use Rattle.replica_records.specs.OldFields.{slot_bytes, update_bytes, object_version_bytes, versions_bytes, head_bytes};

use xt_base::{FileId, NO_OBJECT, NodeId, OutOfMemory, Stamp};
use xt_messages::{FileHead, Location, ObjectVersion, Update, Versions};
use xt_wire::{FieldWriter, WriteFiles, WriteIds};

/// The word that stands for no object.
const NO_OBJECT_WORD: u32 = u32::MAX;

/// An object, or `NO_OBJECT`.
#[tactic(auto, unfolding(crate::specs::OldFields::slot_bytes))]
fn put_slot(writer: &mut FieldWriter, object: u64) -> Result<(), OutOfMemory>
    requires { IsOldObjectOrNone object }
    ensures { OnOk result (writer.new ≡ writer.old ++ slot_bytes object) }
{
    if object == NO_OBJECT {
        writer.word(NO_OBJECT_WORD)
    } else {
        writer.word(object as u32)
    }
}

/// A write or truncation, up to its body.
pub(crate) fn put_old_update_front(
    writer: &mut FieldWriter,
    file: FileId,
    update: &Update,
    len: usize,
) -> Result<(), OutOfMemory>
    requires drops { IsOldObjectOrNone update.now.drop_from }
    requires gets { IsOldObjectOrNone update.now.object }
    requires body_fits { len < 2 ^ 32 }
    ensures { OnOk result (writer.new ≡ writer.old
        ++ (byte_bytes 3 ++ (file_bytes file
        ++ (stamp_bytes update.now.stamp ++ op_id_bytes update.now.id ++ mark_bytes update.now.mark
        ++ slot_bytes update.now.drop_from ++ slot_bytes update.now.object ++ word_bytes len)))) }
{
    writer.byte(3)?;
    writer.file(file)?;
    writer.stamp(update.stamp)?;
    writer.op_id(update.id)?;
    writer.mark(update.mark)?;
    put_slot(writer, update.drop_from)?;
    put_slot(writer, update.object)?;
    writer.word(len as u32)
}

/// A write or truncation.
pub(crate) fn put_old_update(
    writer: &mut FieldWriter,
    file: FileId,
    update: &Update,
) -> Result<(), OutOfMemory>
    requires { FitsOldUpdate update.now }
    ensures { OnOk result (writer.new ≡ writer.old
        ++ (byte_bytes 3 ++ (file_bytes file ++ update_bytes update.now))) }
{
    writer.byte(3)?;
    writer.file(file)?;
    writer.stamp(update.stamp)?;
    writer.op_id(update.id)?;
    writer.mark(update.mark)?;
    put_slot(writer, update.drop_from)?;
    put_slot(writer, update.object)?;
    writer.octets(update.body.as_slice())
}

/// Bytes that are held, up to these bytes.
pub(crate) fn put_old_stage_front(
    writer: &mut FieldWriter,
    file: FileId,
    object: u64,
    version: Stamp,
    len: usize,
) -> Result<(), OutOfMemory>
    requires object_fits { IsOldObject object }
    requires body_fits { len < 2 ^ 32 }
    ensures { OnOk result (writer.new ≡ writer.old
        ++ (byte_bytes 4
        ++ (file_bytes file ++ word_bytes object ++ stamp_bytes version ++ word_bytes len))) }
{
    writer.byte(4)?;
    writer.file(file)?;
    writer.word(object as u32)?;
    writer.stamp(version)?;
    writer.word(len as u32)
}

/// Bytes that are held.
pub(crate) fn put_old_stage(
    writer: &mut FieldWriter,
    file: FileId,
    object: u64,
    version: Stamp,
    bytes: &[u8],
) -> Result<(), OutOfMemory>
    requires object_fits { IsOldObject object }
    requires bytes_fits { length bytes.now < 2 ^ 32 }
    ensures { OnOk result (writer.new ≡ writer.old
        ++ (byte_bytes 4
        ++ (file_bytes file ++ word_bytes object ++ stamp_bytes version
        ++ octets_bytes bytes.now))) }
{
    writer.byte(4)?;
    writer.file(file)?;
    writer.word(object as u32)?;
    writer.stamp(version)?;
    writer.octets(bytes)
}

/// The version of an object.
fn put_version(writer: &mut FieldWriter, entry: ObjectVersion) -> Result<(), OutOfMemory>
    requires { IsOldVersion entry }
    ensures { OnOk result (writer.new ≡ writer.old ++ object_version_bytes entry) }
{
    writer.word(entry.object as u32)?;
    writer.stamp(entry.version)
}

/// The versions of objects.
fn put_versions(writer: &mut FieldWriter, versions: &Versions) -> Result<(), OutOfMemory>
    requires few { length versions.now < 2 ^ 32 }
    requires small { AllByRecursion IsOldVersion versions.now }
    ensures { OnOk result (writer.new ≡ writer.old ++ versions_bytes versions.now) }
{
    let list = versions.as_slice();
    writer.word(list.len() as u32)?;
    for entry in list {
        put_version(writer, *entry)?;
    }
    Ok(())
}

/// The state of a replica.
fn put_head(writer: &mut FieldWriter, head: &FileHead) -> Result<(), OutOfMemory>
    requires { FitsOldHead head.now }
    ensures { OnOk result (writer.new ≡ writer.old ++ head_bytes head.now) }
{
    writer.epoch(head.promised)?;
    writer.stamp(head.stamp)?;
    writer.op_id(head.last)?;
    writer.mark(head.mark)?;
    put_versions(writer, &head.versions)?;
    writer.sessions(&head.sessions)
}

/// A head that is taken.
pub(crate) fn put_old_head(
    writer: &mut FieldWriter,
    file: FileId,
    head: &FileHead,
) -> Result<(), OutOfMemory>
    requires { FitsOldHead head.now }
    ensures { OnOk result (writer.new ≡ writer.old
        ++ (byte_bytes 5 ++ (file_bytes file ++ head_bytes head.now))) }
{
    writer.byte(5)?;
    writer.file(file)?;
    put_head(writer, head)
}

/// A list that is taken.
pub(crate) fn put_old_install(
    writer: &mut FieldWriter,
    file: FileId,
    location: Location,
    head: &FileHead,
) -> Result<(), OutOfMemory>
    requires { FitsOldHead head.now }
    ensures { OnOk result (writer.new ≡ writer.old
        ++ (byte_bytes 10 ++ (file_bytes file ++ location_bytes location ++ head_bytes head.now))) }
{
    writer.byte(10)?;
    writer.file(file)?;
    writer.location(location)?;
    put_head(writer, head)
}

/// The choice for a change.
pub(crate) fn put_old_choice(
    writer: &mut FieldWriter,
    file: FileId,
    location: Location,
    head: &FileHead,
    source: NodeId,
) -> Result<(), OutOfMemory>
    requires { FitsOldHead head.now }
    ensures { OnOk result (writer.new ≡ writer.old
        ++ (byte_bytes 11
        ++ (file_bytes file ++ location_bytes location ++ head_bytes head.now
        ++ node_bytes source))) }
{
    writer.byte(11)?;
    writer.file(file)?;
    writer.location(location)?;
    put_head(writer, head)?;
    writer.node(source)
}
