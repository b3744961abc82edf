//! The kinds of records that were written while objects had 32 bits. They are read, and no longer written.
ghost use Rattle.std.specs.Prelude.{◌≡◌};
ghost use Rattle.xt_fields.specs.Reading.{Gives};
ghost use Rattle.xt_fields.specs.BasicFields.{list_at};
ghost use Rattle.replica_records.specs.OldFields.{slot_at, update_at, object_version_at, versions_at, head_at};
ghost use Rattle.replica_records.specs.RecordFields.{old_update_at, old_stage_at, old_head_at, old_install_at, old_choice_at, old_arms};

use std::alloc::Global;
use xt_base::{BODY, NO_OBJECT, Seq};
use xt_messages::{FileHead, ObjectVersion, Record, Update};
use xt_wire::{FieldErr, FieldReader, ReadFiles, ReadIds, is_at_most, objects_rise};

/// The longest `bytes` field, in bytes.
const BODY_LIMIT: u32 = BODY as u32;

/// The word that was written for no object.
const NO_OBJECT_WORD: u32 = u32::MAX;

/// How many versions a head could have.
const OBJECTS_LIMIT: u32 = 4_096;

/// A record of a kind that is no longer written.
#[tactic(auto, unfolding(crate::specs::RecordFields::old_arms))]
pub(crate) fn old_record(
    reader: &mut FieldReader<'_>,
    alloc: Global,
    kind: u8,
) -> Result<Record, FieldErr>
    ensures { Gives result reader.new (old_arms kind reader.old) }
{
    match kind {
        3 => old_update(reader, alloc),
        4 => old_stage(reader, alloc),
        5 => old_head(reader, alloc),
        10 => old_install(reader, alloc),
        11 => old_choice(reader, alloc),
        _ => Err(FieldErr::Unfit),
    }
}

/// An object, or `NO_OBJECT`.
#[tactic(auto, unfolding(crate::specs::OldFields::slot_at))]
fn slot(reader: &mut FieldReader<'_>) -> Result<u64, FieldErr>
    ensures { Gives result reader.new (slot_at reader.old) }
{
    let word = reader.word()?;
    Ok(if word == NO_OBJECT_WORD {
        NO_OBJECT
    } else {
        u64::from(word)
    })
}

/// An update.
#[tactic(auto, unfolding(crate::specs::OldFields::update_at))]
fn update(reader: &mut FieldReader<'_>, alloc: Global) -> Result<Update, FieldErr>
    ensures { Gives result reader.new (update_at reader.old) }
{
    let stamp = reader.stamp()?;
    let id = reader.op_id()?;
    let mark = reader.mark()?;
    let drop_from = slot(reader)?;
    let object = slot(reader)?;
    let body = reader.octets(alloc, BODY_LIMIT)?;
    if body.as_slice().is_empty() != (object == NO_OBJECT) {
        return Err(FieldErr::Unfit);
    }
    Ok(Update {
        stamp,
        id,
        mark,
        drop_from,
        object,
        body,
    })
}

/// The version of an object.
#[tactic(auto, unfolding(crate::specs::OldFields::object_version_at))]
fn object_version(reader: &mut FieldReader<'_>) -> Result<ObjectVersion, FieldErr>
    ensures { Gives result reader.new (object_version_at reader.old) }
{
    let object = u64::from(reader.word()?);
    let version = reader.stamp()?;
    Ok(ObjectVersion { object, version })
}

/// So many versions.
fn version_list(
    reader: &mut FieldReader<'_>,
    alloc: Global,
    count: u32,
) -> Result<Seq<ObjectVersion>, FieldErr>
    ensures { Gives result reader.new (list_at object_version_at count reader.old) }
{
    let mut list = Seq::new(alloc);
    for _ in 0..count {
        let entry = object_version(reader)?;
        list.push(entry)?;
    }
    Ok(list)
}

/// At most 4,096 versions, rising by object.
#[tactic(auto, unfolding(crate::specs::OldFields::versions_at))]
fn versions(reader: &mut FieldReader<'_>, alloc: Global) -> Result<Seq<ObjectVersion>, FieldErr>
    ensures { Gives result reader.new (versions_at reader.old) }
{
    let count = reader.word()?;
    if count > OBJECTS_LIMIT {
        return Err(FieldErr::Over);
    }
    let list = version_list(reader, alloc, count)?;
    if !objects_rise(list.as_slice()) {
        return Err(FieldErr::Unfit);
    }
    Ok(list)
}

/// The state of a replica.
#[tactic(auto, unfolding(crate::specs::OldFields::head_at))]
fn head(reader: &mut FieldReader<'_>, alloc: Global) -> Result<FileHead, FieldErr>
    ensures { Gives result reader.new (head_at reader.old) }
{
    let promised = reader.epoch()?;
    let stamp = reader.stamp()?;
    let last = reader.op_id()?;
    let mark = reader.mark()?;
    let versions = versions(reader, alloc)?;
    let sessions = reader.sessions(alloc)?;
    if !is_at_most(stamp.epoch, promised) {
        return Err(FieldErr::Unfit);
    }
    Ok(FileHead {
        promised,
        stamp,
        last,
        mark,
        versions,
        sessions,
    })
}

/// A write or truncation.
#[tactic(auto, unfolding(crate::specs::RecordFields::old_update_at))]
fn old_update(reader: &mut FieldReader<'_>, alloc: Global) -> Result<Record, FieldErr>
    ensures { Gives result reader.new (old_update_at reader.old) }
{
    let file = reader.file()?;
    let update = update(reader, alloc)?;
    Ok(Record::OldUpdate { file, update })
}

/// Bytes that are held.
#[tactic(auto, unfolding(crate::specs::RecordFields::old_stage_at))]
fn old_stage(reader: &mut FieldReader<'_>, alloc: Global) -> Result<Record, FieldErr>
    ensures { Gives result reader.new (old_stage_at reader.old) }
{
    let file = reader.file()?;
    let object = u64::from(reader.word()?);
    let version = reader.stamp()?;
    let bytes = reader.octets(alloc, BODY_LIMIT)?;
    Ok(Record::OldStage {
        file,
        object,
        version,
        bytes,
    })
}

/// A head that is taken.
#[tactic(auto, unfolding(crate::specs::RecordFields::old_head_at))]
fn old_head(reader: &mut FieldReader<'_>, alloc: Global) -> Result<Record, FieldErr>
    ensures { Gives result reader.new (old_head_at reader.old) }
{
    let file = reader.file()?;
    let head = head(reader, alloc)?;
    Ok(Record::OldHead { file, head })
}

/// A list that is taken.
#[tactic(auto, unfolding(crate::specs::RecordFields::old_install_at))]
fn old_install(reader: &mut FieldReader<'_>, alloc: Global) -> Result<Record, FieldErr>
    ensures { Gives result reader.new (old_install_at reader.old) }
{
    let file = reader.file()?;
    let location = reader.location()?;
    let head = head(reader, alloc)?;
    Ok(Record::OldInstall {
        file,
        location,
        head,
    })
}

/// The choice for a change.
#[tactic(auto, unfolding(crate::specs::RecordFields::old_choice_at))]
fn old_choice(reader: &mut FieldReader<'_>, alloc: Global) -> Result<Record, FieldErr>
    ensures { Gives result reader.new (old_choice_at reader.old) }
{
    let file = reader.file()?;
    let location = reader.location()?;
    let head = head(reader, alloc)?;
    let source = reader.node()?;
    Ok(Record::OldChoice {
        file,
        location,
        head,
        source,
    })
}
