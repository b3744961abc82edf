//! What comes before the body in a record's spelling.
ghost use Rattle.std.specs.Prelude.{◌≡◌, ◌<◌, ◌^◌, ◌+◌, ◌++◌, ℕ, List, length, IfOk, OnOk};
ghost use Rattle.xt_fields.specs.BasicFields.{byte_bytes, word_bytes, long_bytes};
ghost use Rattle.xt_wire.specs.IdFields.{file_bytes, stamp_bytes, op_id_bytes, mark_bytes};
ghost use Rattle.replica_records.specs.Bare.{with_body};
ghost use Rattle.replica_records.specs.Fronts.{FitsWith, front_text};
ghost use Rattle.replica_records.specs.RecordText.{record_text};

use crate::old_writing::{put_old_stage_front, put_old_update_front};
use crate::writing::put_record;
use std::alloc::Global;
use xt_base::{FileId, Octets, OutOfMemory, Stamp};
use xt_messages::{Record, Update};
use xt_wire::{FieldWriter, WriteFiles, WriteIds};

/// Room for what comes before a body that is held, in bytes. Others make more.
const ROOM: usize = 64;

/// What comes before the body in the spelling of a record whose body has so many bytes; the whole spelling of a record that puts none.
///
/// The record's own body doesn't matter.
pub fn record_front(alloc: Global, rec: &Record, len: usize) -> Result<Octets, OutOfMemory>
    requires { FitsWith len rec.now }
    ensures text { IfOk result (λ front. front ≡ front_text len rec.now) }
    ensures before { IfOk result (λ front. (body : List ℕ) → length body ≡ len →
        record_text (with_body body rec.now) ≡ front ++ body) }
    ensures short { IfOk result (λ front. length front + len < 2 ^ 32) }
{
    let mut writer = FieldWriter::with_capacity(alloc, ROOM)?;
    put_front(&mut writer, rec, len)?;
    let made = writer.finish()?;
    Ok(made)
}

/// What comes before a body of so many bytes; all of a record that puts none.
fn put_front(writer: &mut FieldWriter, rec: &Record, len: usize) -> Result<(), OutOfMemory>
    requires { FitsWith len rec.now }
    ensures { OnOk result (writer.new ≡ writer.old ++ front_text len rec.now) }
{
    match rec {
        Record::Update { file, update } => put_update_front(writer, *file, update, len),
        Record::Stage {
            file,
            object,
            version,
            ..
        } => put_stage_front(writer, *file, *object, *version, len),
        Record::OldUpdate { file, update } => put_old_update_front(writer, *file, update, len),
        Record::OldStage {
            file,
            object,
            version,
            ..
        } => put_old_stage_front(writer, *file, *object, *version, len),
        _ => put_record(writer, rec),
    }
}

/// A write or truncation, up to its body.
fn put_update_front(
    writer: &mut FieldWriter,
    file: FileId,
    update: &Update,
    len: usize,
) -> Result<(), OutOfMemory>
    requires { len < 2 ^ 32 }
    ensures { OnOk result (writer.new ≡ writer.old
        ++ (byte_bytes 13 ++ (file_bytes file
        ++ (stamp_bytes update.now.stamp ++ op_id_bytes update.now.id ++ mark_bytes update.now.mark
        ++ long_bytes update.now.drop_from ++ long_bytes update.now.object ++ word_bytes len)))) }
{
    writer.byte(13)?;
    writer.file(file)?;
    writer.stamp(update.stamp)?;
    writer.op_id(update.id)?;
    writer.mark(update.mark)?;
    writer.object(update.drop_from)?;
    writer.object(update.object)?;
    writer.word(len as u32)
}

/// Bytes that are held, up to these bytes.
fn put_stage_front(
    writer: &mut FieldWriter,
    file: FileId,
    object: u64,
    version: Stamp,
    len: usize,
) -> Result<(), OutOfMemory>
    requires { len < 2 ^ 32 }
    ensures { OnOk result (writer.new ≡ writer.old
        ++ (byte_bytes 14
        ++ (file_bytes file ++ long_bytes object ++ stamp_bytes version ++ word_bytes len))) }
{
    writer.byte(14)?;
    writer.file(file)?;
    writer.object(object)?;
    writer.stamp(version)?;
    writer.word(len as u32)
}
