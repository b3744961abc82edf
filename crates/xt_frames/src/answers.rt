ghost use Rattle.std.specs.Prelude.{◌≡◌, ◌++◌, OnOk};
ghost use Rattle.xt_messages.specs.Limits.{FitsMetaAnswer, FitsNames, FitsRegistryAnswer, FitsRow, FitsRows};
ghost use Rattle.xt_messages.specs.declared.meta.MetaAnswer.TheVariants.{Refused};
ghost use Rattle.xt_fields.specs.Reading.{Gives, Tries, made};
ghost use Rattle.xt_fields.specs.BasicFields.{byte_bytes, half_bytes, word_bytes, text_at, list_at};
ghost use Rattle.xt_wire.specs.IdFields.{node_bytes, mark_bytes};
ghost use Rattle.xt_wire.specs.FileFields.{location_bytes, capability_bytes};
ghost use Rattle.xt_frames.specs.MetaAnswers.{refusal_bytes, refusal_arms, flag_bytes, flag_at, names_bytes, names_at, row_kind_bytes, row_kind_at, meta_answer_bytes, meta_answer_at, meta_answer_arms, names_answer_at, row_answer_at, granted_at, located_at};
ghost use Rattle.xt_frames.specs.RegistryAnswers.{row_bytes, row_at, rows_bytes, rows_at, registry_answer_bytes, registry_answer_at, registry_answer_arms};

use crate::reply::{ReadReplies, put_denied, put_long};
use std::alloc::Global;
use xt_base::{NodeId, OutOfMemory, Seq, SizeMark};
use xt_fields::{FieldErr, FieldReader, FieldWriter};
use xt_messages::{
    Capability, Location, MetaAnswer, MetaRefusal, Names, RegistryAnswer, RegistryRow,
    RegistryRows, RowKind,
};
use xt_wire::{ReadFiles, ReadIds, WriteFiles, WriteIds};

/// The longest name in a list of names, and the longest address, in bytes.
const NAME_LIMIT: u16 = 255;

/// How many names an answer may have.
const NAMES_LIMIT: u32 = 512;

/// How many rows an answer may have.
const ROWS_LIMIT: u32 = 256;

/// Reads answers of the metadata server and of the directory service. One that is refused leaves the reader as it was.
pub trait ReadAnswers {
    /// At most 512 names.
    fn names(&mut self, alloc: Global) -> Result<Names, FieldErr>;

    /// An answer of the metadata server.
    fn meta_answer(&mut self, alloc: Global) -> Result<MetaAnswer, FieldErr>;

    /// A row of the registry.
    fn row(&mut self, alloc: Global) -> Result<RegistryRow, FieldErr>;

    /// At most 256 rows.
    fn rows(&mut self, alloc: Global) -> Result<RegistryRows, FieldErr>;

    /// An answer of the directory service.
    fn registry_answer(&mut self, alloc: Global) -> Result<RegistryAnswer, FieldErr>;
}

/// What a row is.
#[tactic(auto, unfolding(crate::specs::MetaAnswers::row_kind_at, crate::specs::MetaAnswers::row_kind_arms))]
fn row_kind(fields: &mut FieldReader<'_>) -> Result<RowKind, FieldErr>
    ensures { Gives result fields.new (row_kind_at fields.old) }
{
    match fields.byte()? {
        1 => Ok(RowKind::Directory),
        2 => Ok(RowKind::File),
        _ => Err(FieldErr::Unfit),
    }
}

/// Whether something is so.
#[tactic(auto, unfolding(crate::specs::MetaAnswers::flag_at, crate::specs::MetaAnswers::flag_arms))]
fn flag(fields: &mut FieldReader<'_>) -> Result<bool, FieldErr>
    ensures { Gives result fields.new (flag_at fields.old) }
{
    match fields.byte()? {
        0 => Ok(false),
        1 => Ok(true),
        _ => Err(FieldErr::Unfit),
    }
}

/// So many names.
fn name_list(fields: &mut FieldReader<'_>, alloc: Global, count: u32) -> Result<Names, FieldErr>
    ensures { Gives result fields.new (list_at (text_at 255) count fields.old) }
{
    let mut names = Seq::new(alloc);
    for _ in 0..count {
        let name = fields.text(alloc, NAME_LIMIT)?;
        names.push(name)?;
    }
    Ok(names)
}

/// The refusal of this number.
#[tactic(auto, unfolding(crate::specs::MetaAnswers::refusal_arms, crate::specs::MetaAnswers::forbidden_at, crate::specs::MetaAnswers::too_few_at, crate::specs::MetaAnswers::report_denied_at, crate::specs::MetaAnswers::changing_at, crate::specs::MetaAnswers::unknown_osd_at))]
fn refusal(fields: &mut FieldReader<'_>, number: u8) -> Result<MetaRefusal, FieldErr>
    ensures { Gives result fields.new (refusal_arms number fields.old) }
{
    match number {
        1 => Ok(MetaRefusal::NotFound),
        2 => Ok(MetaRefusal::Exists),
        3 => Ok(MetaRefusal::NotDir),
        4 => Ok(MetaRefusal::IsDir),
        5 => Ok(MetaRefusal::NotEmpty),
        6 => Ok(MetaRefusal::IntoSelf),
        7 => Ok(MetaRefusal::OtherVolume),
        8 => Ok(MetaRefusal::Forbidden {
            rule: fields.byte_within(1, 4)?,
        }),
        9 => Ok(MetaRefusal::NameBad),
        10 => Ok(MetaRefusal::TooFew {
            have: fields.byte()?,
        }),
        11 => Ok(MetaRefusal::Denied {
            rule: fields.denial()?,
        }),
        16 => Ok(MetaRefusal::Changing {
            version: fields.version()?,
        }),
        17 => Ok(MetaRefusal::NotReplicated),
        18 => Ok(MetaRefusal::UnknownOsd {
            node: fields.node()?,
        }),
        _ => Err(FieldErr::Unfit),
    }
}

/// The answer that makes a refusal known.
fn refused(fields: &mut FieldReader<'_>, number: u8) -> Result<MetaAnswer, FieldErr>
    ensures { Gives result fields.new (made Refused (refusal_arms number) fields.old) }
{
    let refusal = refusal(fields, number)?;
    Ok(MetaAnswer::Refused { refusal })
}

/// The answer of this number.
#[tactic(auto, unfolding(crate::specs::MetaAnswers::meta_answer_arms))]
fn meta_answer_arm(
    fields: &mut FieldReader<'_>,
    number: u8,
    alloc: Global,
) -> Result<MetaAnswer, FieldErr>
    ensures { Gives result fields.new (meta_answer_arms number fields.old) }
{
    match number {
        0 => Ok(MetaAnswer::Done),
        12 => names_answer(fields, alloc),
        13 => row_answer(fields),
        14 => granted(fields),
        15 => located(fields),
        _ => refused(fields, number),
    }
}

/// The names of a directory.
#[tactic(auto, unfolding(crate::specs::MetaAnswers::names_answer_at))]
fn names_answer(fields: &mut FieldReader<'_>, alloc: Global) -> Result<MetaAnswer, FieldErr>
    ensures { Gives result fields.new (names_answer_at fields.old) }
{
    let names = fields.names(alloc)?;
    Ok(MetaAnswer::Names { names })
}

/// A row.
#[tactic(auto, unfolding(crate::specs::MetaAnswers::row_answer_at))]
fn row_answer(fields: &mut FieldReader<'_>) -> Result<MetaAnswer, FieldErr>
    ensures { Gives result fields.new (row_answer_at fields.old) }
{
    let kind = row_kind(fields)?;
    let owner = fields.word()?;
    let group = fields.word()?;
    let mode = fields.half()?;
    let mark = fields.mark()?;
    Ok(MetaAnswer::Row {
        kind,
        owner,
        group,
        mode,
        mark,
    })
}

/// A capability and the size.
#[tactic(auto, unfolding(crate::specs::MetaAnswers::granted_at))]
fn granted(fields: &mut FieldReader<'_>) -> Result<MetaAnswer, FieldErr>
    ensures { Gives result fields.new (granted_at fields.old) }
{
    let capability = fields.capability()?;
    let mark = fields.mark()?;
    Ok(MetaAnswer::Granted { capability, mark })
}

/// Where a file is, and whether its list is being changed.
#[tactic(auto, unfolding(crate::specs::MetaAnswers::located_at))]
fn located(fields: &mut FieldReader<'_>) -> Result<MetaAnswer, FieldErr>
    ensures { Gives result fields.new (located_at fields.old) }
{
    let location = fields.location()?;
    let changing = flag(fields)?;
    Ok(MetaAnswer::Located { location, changing })
}

/// So many rows.
fn row_list(
    fields: &mut FieldReader<'_>,
    alloc: Global,
    count: u32,
) -> Result<RegistryRows, FieldErr>
    ensures { Gives result fields.new (list_at row_at count fields.old) }
{
    let mut rows = Seq::new(alloc);
    for _ in 0..count {
        let row = fields.row(alloc)?;
        rows.push(row)?;
    }
    Ok(rows)
}

/// The answer of this number.
#[tactic(auto, unfolding(crate::specs::RegistryAnswers::registry_answer_arms, crate::specs::RegistryAnswers::done_at, crate::specs::RegistryAnswers::changed_at, crate::specs::RegistryAnswers::row_told_at, crate::specs::RegistryAnswers::rows_told_at))]
fn registry_answer_arm(
    fields: &mut FieldReader<'_>,
    number: u8,
    alloc: Global,
) -> Result<RegistryAnswer, FieldErr>
    ensures { Gives result fields.new (registry_answer_arms number fields.old) }
{
    match number {
        0 => Ok(RegistryAnswer::Done {
            version: fields.count()?,
        }),
        1 => Ok(RegistryAnswer::Changed {
            version: fields.count()?,
        }),
        2 => Ok(RegistryAnswer::Absent),
        3 => Ok(RegistryAnswer::Row {
            row: fields.row(alloc)?,
        }),
        4 => Ok(RegistryAnswer::Rows {
            rows: fields.rows(alloc)?,
        }),
        _ => Err(FieldErr::Unfit),
    }
}

impl ReadAnswers for FieldReader<'_> {
    #[tactic(auto, unfolding(crate::specs::MetaAnswers::names_at))]
    fn names(&mut self, alloc: Global) -> Result<Names, FieldErr>
        ensures { Tries result self.old self.new (names_at self.old) }
    {
        let mut ahead = self.ahead();
        let count = ahead.word()?;
        if count > NAMES_LIMIT {
            return Err(FieldErr::Over);
        }
        let names = name_list(&mut ahead, alloc, count)?;
        *self = ahead;
        Ok(names)
    }

    #[tactic(auto, unfolding(crate::specs::MetaAnswers::meta_answer_at))]
    fn meta_answer(&mut self, alloc: Global) -> Result<MetaAnswer, FieldErr>
        ensures { Tries result self.old self.new (meta_answer_at self.old) }
    {
        let mut ahead = self.ahead();
        let number = ahead.byte()?;
        let meta_answer = meta_answer_arm(&mut ahead, number, alloc)?;
        *self = ahead;
        Ok(meta_answer)
    }

    #[tactic(auto, unfolding(crate::specs::RegistryAnswers::row_at))]
    fn row(&mut self, alloc: Global) -> Result<RegistryRow, FieldErr>
        ensures { Tries result self.old self.new (row_at self.old) }
    {
        let mut ahead = self.ahead();
        let node = ahead.node()?;
        let kind = ahead.byte()?;
        let address = ahead.text(alloc, NAME_LIMIT)?;
        let version = ahead.count()?;
        *self = ahead;
        Ok(RegistryRow {
            node,
            kind,
            address,
            version,
        })
    }

    #[tactic(auto, unfolding(crate::specs::RegistryAnswers::rows_at))]
    fn rows(&mut self, alloc: Global) -> Result<RegistryRows, FieldErr>
        ensures { Tries result self.old self.new (rows_at self.old) }
    {
        let mut ahead = self.ahead();
        let count = ahead.word()?;
        if count > ROWS_LIMIT {
            return Err(FieldErr::Over);
        }
        let rows = row_list(&mut ahead, alloc, count)?;
        *self = ahead;
        Ok(rows)
    }

    #[tactic(auto, unfolding(crate::specs::RegistryAnswers::registry_answer_at))]
    fn registry_answer(&mut self, alloc: Global) -> Result<RegistryAnswer, FieldErr>
        ensures { Tries result self.old self.new (registry_answer_at self.old) }
    {
        let mut ahead = self.ahead();
        let number = ahead.byte()?;
        let registry_answer = registry_answer_arm(&mut ahead, number, alloc)?;
        *self = ahead;
        Ok(registry_answer)
    }
}

/// Writes answers of the metadata server and of the directory service.
pub trait WriteAnswers {
    /// Names.
    fn names(&mut self, names: &Names) -> Result<(), OutOfMemory>
        requires { FitsNames names.now };

    /// An answer of the metadata server.
    fn meta_answer(&mut self, meta_answer: &MetaAnswer) -> Result<(), OutOfMemory>
        requires { FitsMetaAnswer meta_answer.now };

    /// A row of the registry.
    fn row(&mut self, row: &RegistryRow) -> Result<(), OutOfMemory>
        requires { FitsRow row.now };

    /// Rows of the registry.
    fn rows(&mut self, rows: &RegistryRows) -> Result<(), OutOfMemory>
        requires { FitsRows rows.now };

    /// An answer of the directory service.
    fn registry_answer(&mut self, registry_answer: &RegistryAnswer) -> Result<(), OutOfMemory>
        requires { FitsRegistryAnswer registry_answer.now };
}

/// What a row is.
fn put_row_kind(fields: &mut FieldWriter, kind: RowKind) -> Result<(), OutOfMemory>
    ensures { OnOk result (fields.new ≡ fields.old ++ row_kind_bytes kind) }
{
    fields.byte(match kind {
        RowKind::Directory => 1,
        RowKind::File => 2,
    })
}

/// The number of a refusal, and one of a byte.
fn put_small(fields: &mut FieldWriter, number: u8, value: u8) -> Result<(), OutOfMemory>
    ensures { OnOk result (fields.new ≡ fields.old ++ (byte_bytes number ++ byte_bytes value)) }
{
    fields.byte(number)?;
    fields.byte(value)
}

/// The number of the refusal of a change that runs, and the version to come.
fn put_changing(fields: &mut FieldWriter, version: u32) -> Result<(), OutOfMemory>
    ensures { OnOk result (fields.new ≡ fields.old ++ (byte_bytes 16 ++ word_bytes version)) }
{
    fields.byte(16)?;
    fields.word(version)
}

/// The number of the refusal of a list, and the node that isn't there.
fn put_unknown_osd(fields: &mut FieldWriter, node: NodeId) -> Result<(), OutOfMemory>
    ensures { OnOk result (fields.new ≡ fields.old ++ (byte_bytes 18 ++ node_bytes node)) }
{
    fields.byte(18)?;
    fields.node(node)
}

/// A refusal.
fn put_refusal(fields: &mut FieldWriter, refusal: MetaRefusal) -> Result<(), OutOfMemory>
    ensures { OnOk result (fields.new ≡ fields.old ++ refusal_bytes refusal) }
{
    match refusal {
        MetaRefusal::NotFound => fields.byte(1),
        MetaRefusal::Exists => fields.byte(2),
        MetaRefusal::NotDir => fields.byte(3),
        MetaRefusal::IsDir => fields.byte(4),
        MetaRefusal::NotEmpty => fields.byte(5),
        MetaRefusal::IntoSelf => fields.byte(6),
        MetaRefusal::OtherVolume => fields.byte(7),
        MetaRefusal::Forbidden { rule } => put_small(fields, 8, rule),
        MetaRefusal::NameBad => fields.byte(9),
        MetaRefusal::TooFew { have } => put_small(fields, 10, have),
        MetaRefusal::Denied { rule } => put_denied(fields, 11, rule),
        MetaRefusal::Changing { version } => put_changing(fields, version),
        MetaRefusal::NotReplicated => fields.byte(17),
        MetaRefusal::UnknownOsd { node } => put_unknown_osd(fields, node),
    }
}

/// The names of a directory.
fn put_names_answer(fields: &mut FieldWriter, names: &Names) -> Result<(), OutOfMemory>
    requires { FitsNames names.now }
    ensures { OnOk result (fields.new ≡ fields.old ++ (byte_bytes 12 ++ names_bytes names.now)) }
{
    fields.byte(12)?;
    fields.names(names)
}

/// A row.
fn put_row_answer(
    fields: &mut FieldWriter,
    kind: RowKind,
    owner: u32,
    group: u32,
    mode: u16,
    mark: SizeMark,
) -> Result<(), OutOfMemory>
    ensures { OnOk result (fields.new ≡ fields.old
        ++ (byte_bytes 13 ++ row_kind_bytes kind ++ word_bytes owner ++ word_bytes group
        ++ half_bytes mode ++ mark_bytes mark)) }
{
    fields.byte(13)?;
    put_row_kind(fields, kind)?;
    fields.word(owner)?;
    fields.word(group)?;
    fields.half(mode)?;
    fields.mark(mark)
}

/// A capability and the size.
fn put_granted(
    fields: &mut FieldWriter,
    capability: &Capability,
    mark: SizeMark,
) -> Result<(), OutOfMemory>
    ensures { OnOk result (fields.new ≡ fields.old
        ++ (byte_bytes 14 ++ capability_bytes capability.now ++ mark_bytes mark)) }
{
    fields.byte(14)?;
    fields.capability(capability)?;
    fields.mark(mark)
}

/// Where a file is, and whether its list is being changed.
fn put_located(
    fields: &mut FieldWriter,
    location: Location,
    changing: bool,
) -> Result<(), OutOfMemory>
    ensures { OnOk result (fields.new ≡ fields.old
        ++ (byte_bytes 15 ++ location_bytes location ++ flag_bytes changing)) }
{
    fields.byte(15)?;
    fields.location(location)?;
    fields.byte(if changing { 1 } else { 0 })
}

/// The row.
fn put_row_told(fields: &mut FieldWriter, row: &RegistryRow) -> Result<(), OutOfMemory>
    requires { FitsRow row.now }
    ensures { OnOk result (fields.new ≡ fields.old ++ (byte_bytes 3 ++ row_bytes row.now)) }
{
    fields.byte(3)?;
    fields.row(row)
}

/// The rows.
fn put_rows_told(fields: &mut FieldWriter, rows: &RegistryRows) -> Result<(), OutOfMemory>
    requires { FitsRows rows.now }
    ensures { OnOk result (fields.new ≡ fields.old ++ (byte_bytes 4 ++ rows_bytes rows.now)) }
{
    fields.byte(4)?;
    fields.rows(rows)
}

impl WriteAnswers for FieldWriter {
    fn names(&mut self, names: &Names) -> Result<(), OutOfMemory>
        requires { FitsNames names.now }
        ensures { OnOk result (self.new ≡ self.old ++ names_bytes names.now) }
    {
        let names = names.as_slice();
        self.word(names.len() as u32)?;
        for name in names {
            self.text(name.as_str())?;
        }
        Ok(())
    }

    fn meta_answer(&mut self, meta_answer: &MetaAnswer) -> Result<(), OutOfMemory>
        requires { FitsMetaAnswer meta_answer.now }
        ensures { OnOk result (self.new ≡ self.old ++ meta_answer_bytes meta_answer.now) }
    {
        match meta_answer {
            MetaAnswer::Done => self.byte(0),
            MetaAnswer::Names { names } => put_names_answer(self, names),
            MetaAnswer::Row {
                kind,
                owner,
                group,
                mode,
                mark,
            } => put_row_answer(self, *kind, *owner, *group, *mode, *mark),
            MetaAnswer::Granted { capability, mark } => put_granted(self, capability, *mark),
            MetaAnswer::Located { location, changing } => put_located(self, *location, *changing),
            MetaAnswer::Refused { refusal } => put_refusal(self, *refusal),
        }
    }

    fn row(&mut self, row: &RegistryRow) -> Result<(), OutOfMemory>
        requires { FitsRow row.now }
        ensures { OnOk result (self.new ≡ self.old ++ row_bytes row.now) }
    {
        self.node(row.node)?;
        self.byte(row.kind)?;
        self.text(row.address.as_str())?;
        self.long(row.version)
    }

    fn rows(&mut self, rows: &RegistryRows) -> Result<(), OutOfMemory>
        requires { FitsRows rows.now }
        ensures { OnOk result (self.new ≡ self.old ++ rows_bytes rows.now) }
    {
        let rows = rows.as_slice();
        self.word(rows.len() as u32)?;
        for row in rows {
            self.row(row)?;
        }
        Ok(())
    }

    fn registry_answer(&mut self, registry_answer: &RegistryAnswer) -> Result<(), OutOfMemory>
        requires { FitsRegistryAnswer registry_answer.now }
        ensures { OnOk result (self.new ≡ self.old ++ registry_answer_bytes registry_answer.now) }
    {
        match registry_answer {
            RegistryAnswer::Done { version } => put_long(self, 0, *version),
            RegistryAnswer::Changed { version } => put_long(self, 1, *version),
            RegistryAnswer::Absent => self.byte(2),
            RegistryAnswer::Row { row } => put_row_told(self, row),
            RegistryAnswer::Rows { rows } => put_rows_told(self, rows),
        }
    }
}
