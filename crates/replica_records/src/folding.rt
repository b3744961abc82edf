ghost use Rattle.std.specs.Prelude.{◌≡◌, ◌↔◌, IsTrue, IfOk, IfSome, OnOk, OnErr, MatchOption, Contains, None, Some};
ghost use Rattle.std.specs.List.{All};
ghost use Rattle.xt_protocol.specs.Heads.{later_epoch, head_installed, head_after};
ghost use Rattle.xt_messages.specs.Limits.{FitsRecord, FitsUpdate, is_at_most};
ghost use Rattle.xt_protocol.specs.Folds.{row_in, with_row, without_row, forgets, new_row, row_after, body_of, held_after, boot_after, rows_after, file_of, folded_after, nothing_kept, fold_of, FollowsHead, IsInPlace};
ghost use Rattle.replica_records.specs.RowPlaces.{FilesRise, IsFilePlace};
ghost use Rattle.replica_records.specs.Sound.{FitsFold, IsSoundRow, AreSoundRows};

use crate::head::{head_after, new_head};
use crate::order::{are_held, fits_fold, follows_fitting, follows_head};
use object_versions::hold;
use std::alloc::Global;
use std::marker::Model;
use xt_base::{Boot, Copies, Epoch, FileId, NO_OBJECT, OutOfMemory, Seq, Stamp};
use xt_messages::{
    FileHead, FileRow, FileTable, Folded, HeldSet, Location, ObjectVersion, Record, Update,
};
use xt_wire::is_at_most;

/// What records say, taken one by one. Contracts see what those so far say.
#[derive(Drop)]
pub struct Folding {
    folded: Folded,
    /// Whether each record so far was within its limits. Heads are searched by halves then.
    within: bool,
}

impl Model for Folding {
    ghost use Rattle.xt_messages.specs.declared.record.Folded.{Folded};
    ghost use Rattle.replica_records.specs.Sound.{AreSoundRows};

    ghost Value = { Folded };

    ghost view = { λ f. f.folded };

    ghost invariant = { λ f. AreSoundRows f.within f.folded.files };
}

/// Where the row of a file stands, or else where it belongs.
fn file_place(rows: &[FileRow], file: &FileId) -> Result<usize, usize>
    requires { FilesRise rows.now }
    ensures { IsFilePlace rows.now file.now result }
{
    rows.binary_search_by_key(file, |row| row.file)
}

/// What a file begins as.
fn new_row(alloc: Global, file: FileId) -> FileRow
    ensures { result ≡ new_row file }
{
    FileRow {
        file,
        head: new_head(alloc),
        held: HeldSet::new(alloc),
        location: None,
        closed: None,
    }
}

/// What an update makes of the row of its file, by halves where the lists of its head rise. Where memory runs out, the
/// row is as it was.
fn take_update(
    alloc: Global,
    row: &mut FileRow,
    update: &Update,
    within: bool,
) -> Result<(), OutOfMemory>
    requires { IsSoundRow within row.old }
    ensures ok { OnOk result (row.new ≡
        record row.old {
          head = head_after row.old.head update.now;
          held = held_after row.old.held update.now;
        }) }
    ensures err { OnErr result (row.new ≡ row.old) }
{
    if within {
        return object_versions::take_update(&mut row.head, &mut row.held, update);
    }
    let head = head_after(alloc, &row.head, update)?;
    if update.object != NO_OBJECT {
        hold(&mut row.held, body_of(update.object, update.stamp))?;
    }
    row.head = head;
    Ok(())
}

/// A body that is held.
fn body_of(object: u64, version: Stamp) -> ObjectVersion
    ensures { result ≡ body_of object version }
{
    ObjectVersion { object, version }
}

/// The greater of two epochs.
fn later_epoch(first: Epoch, second: Epoch) -> Epoch
    ensures { result ≡ later_epoch first second }
{
    if is_at_most(first, second) {
        second
    } else {
        first
    }
}

/// A later list, and the head with which it begins: what was promised stays promised. Where memory runs out, the row is as it was.
fn install(
    alloc: Global,
    row: &mut FileRow,
    location: Location,
    head: &FileHead,
) -> Result<(), OutOfMemory>
    ensures ok { OnOk result (row.new ≡
        record row.old {
          head = head_installed row.old.head head.now;
          location = Some location;
        }) }
    ensures err { OnErr result (row.new ≡ row.old) }
{
    let mut head = head.copy(alloc)?;
    head.promised = later_epoch(row.head.promised, head.promised);
    row.head = head;
    row.location = Some(location);
    Ok(())
}

/// What a record makes of the row of its file. Where memory runs out, the row is as it was.
fn change_row(
    alloc: Global,
    row: &mut FileRow,
    rec: &Record,
    within: bool,
) -> Result<(), OutOfMemory>
    requires { IsSoundRow within row.old }
    ensures after { OnOk result (row.new ≡ row_after row.old rec.now) }
    ensures err { OnErr result (row.new ≡ row.old) }
{
    match rec {
        Record::Promise { epoch, .. } => row.head.promised = *epoch,
        Record::Update { update, .. } | Record::OldUpdate { update, .. } => {
            take_update(alloc, row, update, within)?;
        }
        Record::Stage {
            object,
            version,
            ..
        }
        | Record::OldStage {
            object,
            version,
            ..
        } => {
            hold(&mut row.held, body_of(*object, *version))?;
        }
        Record::Head { head, .. } | Record::OldHead { head, .. } => row.head = head.copy(alloc)?,
        Record::View { location, .. } => row.location = Some(*location),
        Record::Close { version, .. } => row.closed = Some(*version),
        Record::Install { location, head, .. } | Record::OldInstall { location, head, .. } => {
            install(alloc, row, *location, head)?;
        }
        Record::Boot { .. }
        | Record::Meta { .. }
        | Record::Choice { .. }
        | Record::Listed { .. }
        | Record::Seal { .. }
        | Record::OldChoice { .. } => {}
        Record::Forget { .. } => *row = new_row(alloc, row.file),
    }
    Ok(())
}

/// What a record of a file makes of the rows. Where memory runs out, they are as they were.
fn change_rows(
    alloc: Global,
    rows: &mut FileTable,
    file: &FileId,
    rec: &Record,
    within: bool,
) -> Result<(), OutOfMemory>
    requires { AreSoundRows within rows.old }
    ensures after { OnOk result (rows.new ≡
        with_row rows.old (row_after (row_in rows.old file.now) rec.now)) }
    ensures err { OnErr result (rows.new ≡ rows.old) }
{
    match file_place(rows.as_slice(), file) {
        Ok(place) => change_row(alloc, &mut rows.items[place], rec, within)?,
        Err(place) => {
            let mut row = new_row(alloc, *file);
            change_row(alloc, &mut row, rec, within)?;
            rows.items.insert(place, row)?;
        }
    }
    Ok(())
}

/// Removes the row of a file, if there is one.
fn remove_row(rows: &mut FileTable, file: &FileId)
    requires { FilesRise rows.old }
    ensures { rows.new ≡ without_row rows.old file.now }
{
    if let Ok(place) = file_place(rows.as_slice(), file) {
        rows.items.remove(place);
    }
}

/// Whether a record removes its file.
fn forgets(rec: &Record) -> bool
    ensures { result ≡ forgets rec.now }
{
    match rec {
        Record::Forget { .. } => true,
        _ => false,
    }
}

/// What a record makes of the rows. Where memory runs out, they are as they were.
fn change_files(
    alloc: Global,
    rows: &mut FileTable,
    rec: &Record,
    within: bool,
) -> Result<(), OutOfMemory>
    requires { AreSoundRows within rows.old }
    ensures after { OnOk result (rows.new ≡ rows_after rows.old rec.now (file_of rec.now)) }
    ensures err { OnErr result (rows.new ≡ rows.old) }
{
    let Some(file) = file_of(rec) else {
        return Ok(());
    };
    if forgets(rec) {
        remove_row(rows, file);
        return Ok(());
    }
    change_rows(alloc, rows, file, rec, within)
}

/// Whether all records are within their limits with this one.
fn stays_within(within: bool, rec: &Record) -> bool
    ensures { IsTrue result ↔ (IsTrue within × FitsFold rec.now) }
{
    within && fits_fold(rec)
}

/// The row of a file, none where no record is of it.
fn row_of<'a>(rows: &'a [FileRow], file: &FileId) -> Option<&'a FileRow>
    requires { FilesRise rows.now }
    ensures row { MatchOption result (row_in rows.now file.now ≡ new_row file.now) (λ row.
        row_in rows.now file.now ≡ row.now) }
    ensures among { IfSome result (λ row. Contains rows.now row.now) }
{
    match file_place(rows, file) {
        Ok(place) => Some(&rows[place]),
        Err(_) => None,
    }
}

/// The file whose row a record changes, if any.
fn file_of(rec: &Record) -> Option<&FileId>
    ensures { MatchOption result (file_of rec.now ≡ None) (λ file. file_of rec.now ≡
        Some file.now) }
{
    match rec {
        Record::Promise { file, .. }
        | Record::Update { file, .. }
        | Record::Stage { file, .. }
        | Record::Head { file, .. }
        | Record::View { file, .. }
        | Record::Close { file, .. }
        | Record::Install { file, .. }
        | Record::Forget { file }
        | Record::OldUpdate { file, .. }
        | Record::OldStage { file, .. }
        | Record::OldHead { file, .. }
        | Record::OldInstall { file, .. } => Some(file),
        Record::Boot { .. }
        | Record::Meta { .. }
        | Record::Choice { .. }
        | Record::Listed { .. }
        | Record::Seal { .. }
        | Record::OldChoice { .. } => None,
    }
}

impl Folding {
    /// What no record says.
    pub fn new(alloc: Global) -> Folding
        ensures { result ≡ nothing_kept }
    {
        Folding {
            folded: Folded {
                boot: Boot(0),
                files: Seq::new(alloc),
            },
            within: true,
        }
    }

    /// Takes the next record. Where memory runs out, the folding is as it was.
    pub fn take(&mut self, alloc: Global, rec: &Record) -> Result<(), OutOfMemory>
        ensures ok { OnOk result (self.new ≡ folded_after self.old rec.now) }
        ensures err { OnErr result (self.new ≡ self.old) }
    {
        change_files(alloc, &mut self.folded.files, rec, self.within)?;
        self.within = stays_within(self.within, rec);
        if let Record::Boot { boot } = rec {
            self.folded.boot = *boot;
        }
        Ok(())
    }

    /// What the records said.
    pub fn folded(self) -> Folded
        ensures value { result ≡ self }
        ensures rising { FilesRise result.files }
    {
        self.folded
    }

    /// Whether a promise of this epoch may follow.
    fn allows_promise(&self, file: &FileId, epoch: Epoch) -> bool
        ensures { result ≡ is_at_most (row_in self.now.files file.now).head.promised epoch }
    {
        match row_of(self.folded.files.as_slice(), file) {
            Some(row) => is_at_most(row.head.promised, epoch),
            None => true,
        }
    }

    /// Whether this update may follow.
    fn allows_update(
        &self,
        alloc: Global,
        file: &FileId,
        update: &Update,
    ) -> Result<bool, OutOfMemory>
        requires { FitsUpdate update.now }
        ensures { IfOk result (λ answer. IsTrue answer
            ↔ FollowsHead (row_in self.now.files file.now).head update.now) }
    {
        match row_of(self.folded.files.as_slice(), file) {
            Some(row) if self.within => Ok(follows_fitting(&row.head, update)),
            Some(row) => follows_head(alloc, &row.head, update),
            None => follows_head(alloc, &new_head(alloc), update),
        }
    }

    /// Whether this head may follow.
    fn allows_head(&self, file: &FileId, head: &FileHead) -> bool
        ensures { IsTrue result
            ↔ All (Contains (row_in self.now.files file.now).held) head.now.versions }
    {
        match row_of(self.folded.files.as_slice(), file) {
            Some(row) => are_held(&row.held, head.versions.as_slice()),
            None => head.versions.as_slice().is_empty(),
        }
    }

    /// Whether a record within its limits may follow.
    pub fn is_in_place(&self, alloc: Global, rec: &Record) -> Result<bool, OutOfMemory>
        requires { FitsRecord rec.now }
        ensures { IfOk result (λ answer. IsTrue answer ↔ IsInPlace self.now rec.now) }
    {
        match rec {
            Record::Promise { file, epoch } => Ok(self.allows_promise(file, *epoch)),
            Record::Update { file, update } => self.allows_update(alloc, file, update),
            Record::OldUpdate { file, update } => self.allows_update(alloc, file, update),
            Record::Head { file, head } => Ok(self.allows_head(file, head)),
            Record::Install { file, head, .. } => Ok(self.allows_head(file, head)),
            Record::OldHead { file, head } => Ok(self.allows_head(file, head)),
            Record::OldInstall { file, head, .. } => Ok(self.allows_head(file, head)),
            _ => Ok(true),
        }
    }
}

/// What these records say, the first of them first.
pub fn fold(alloc: Global, records: &[Record]) -> Result<Folded, OutOfMemory>
    ensures { IfOk result (λ folded. folded ≡ fold_of records.now) }
{
    let mut folding = Folding::new(alloc);
    for rec in records {
        folding.take(alloc, rec)?;
    }
    Ok(folding.folded())
}
