ghost use Rattle.std.specs.Prelude.{◌≡◌, ◌++◌, ◌∷◌, ◌⊎◌, [], IfOk, OnOk, Contains, filter, flat_map, map};
ghost use Rattle.std.specs.List.{All};
ghost use Rattle.xt_messages.specs.declared.record.Record.TheVariants as kept;
ghost use Rattle.xt_protocol.specs.Folds.{digests_kept, is_logged, logged_of, widened};
ghost use Rattle.xt_protocol.specs.Forgetting.{close_of, is_kept, records_of_row, records_of_rows, rewritten, row_without, sealed_stage_of, stage_of, view_of};
ghost use Rattle.xt_protocol.specs.SeenBodies.{body_by};
ghost use Rattle.body_digests.specs.Digests.{AreDigestsIn};
ghost use Rattle.object_store.specs.Access.{disk_of, log_of, records_of};
ghost use Rattle.object_store.specs.Logs.{places_in};
ghost use Rattle.object_store.specs.Places.{bytes_at};
ghost use Rattle.store_compact.specs.Adding.{AreAdded, IsOf, all_copied_of, copied_of, plain};

use body_digests::{BodyDigest, Digests};
use disk_model::Disk;
use object_store::{BodyPlace, Copied, Store};
use object_versions::SoughtBodies;
use replica_records::fold;
use std::alloc::Global;
use xt_base::{Copies, FileId, Octets, OutOfMemory};
use xt_messages::{FileRow, Keep, Location, ObjectVersion, Record};

/// No bytes.
const NOWHERE: BodyPlace = BodyPlace { at: 0, len: 0 };

/// Where the bytes are that were put last as this body of the file. They are none where no record put it, which can't happen to a body that
/// is held.
fn body<D: Disk>(store: &Store<D>, file: &FileId, version: ObjectVersion) -> BodyPlace
    ensures bytes { bytes_at D.is_told (D.kept (disk_of store.now)).read result ≡
        body_by (records_of store.now) file.now version.object version.version }
    ensures place { (result.len ≡ 0) ⊎ Contains (places_in (log_of store.now)) result }
{
    match store.log().place(file, version.object, &version.version) {
        Some(place) => place,
        None => NOWHERE,
    }
}

/// The record that puts a body of the file, which is copied.
fn stage<D: Disk>(alloc: Global, store: &Store<D>, file: &FileId, version: ObjectVersion) -> Copied
    ensures is { copied_of store.now result ≡
        stage_of (body_by (records_of store.now)) file.now version }
    ensures of { IsOf store.now result }
{
    Copied {
        bare: Record::Stage {
            file: *file,
            object: version.object,
            version: version.version,
            bytes: Octets::new(alloc),
        },
        body: body(store, file, version),
    }
}

/// Whether the record is of a request.
fn is_logged(rec: &Record) -> bool
    ensures { result ≡ is_logged rec.now }
{
    match rec {
        Record::Meta { .. }
        | Record::Choice { .. }
        | Record::Listed { .. }
        | Record::OldChoice { .. } => true,
        _ => false,
    }
}

/// A copy of the record, of the kind that is written now.
fn copy_widened(alloc: Global, rec: &Record) -> Result<Record, OutOfMemory>
    ensures { IfOk result (λ made. made ≡ widened rec.now) }
{
    match rec {
        Record::OldUpdate { file, update } => Ok(Record::Update {
            file: *file,
            update: update.copy(alloc)?,
        }),
        Record::OldStage {
            file,
            object,
            version,
            bytes,
        } => Ok(Record::Stage {
            file: *file,
            object: *object,
            version: *version,
            bytes: bytes.copy(alloc)?,
        }),
        Record::OldHead { file, head } => Ok(Record::Head {
            file: *file,
            head: head.copy(alloc)?,
        }),
        Record::OldInstall {
            file,
            location,
            head,
        } => Ok(Record::Install {
            file: *file,
            location: *location,
            head: head.copy(alloc)?,
        }),
        Record::OldChoice {
            file,
            location,
            head,
            source,
        } => Ok(Record::Choice {
            file: *file,
            location: *location,
            head: head.copy(alloc)?,
            source: *source,
        }),
        _ => rec.copy(alloc),
    }
}

/// Puts a record after the others.
fn put(made: &mut Vec<Copied>, copied: Copied) -> Result<(), OutOfMemory>
    ensures { OnOk result (made.new.items ≡ made.old.items ++ copied ∷ []) }
{
    made.push(copied)?;
    Ok(())
}

/// Puts a record that puts no body after the others.
fn put_plain(made: &mut Vec<Copied>, rec: Record) -> Result<(), OutOfMemory>
    ensures { OnOk result (made.new.items ≡ made.old.items ++ plain rec ∷ []) }
{
    put(
        made,
        Copied {
            bare: rec,
            body: NOWHERE,
        },
    )
}

/// Puts copies of those records that are of requests after the others, in their order, of the kinds that are written now.
#[tactic(auto, unfolding(xt_protocol::specs::Folds::logged_of))]
fn put_logged(alloc: Global, made: &mut Vec<Copied>, records: &[Record]) -> Result<(), OutOfMemory>
    ensures { OnOk result (made.new.items ≡ made.old.items ++ map plain (map widened (logged_of records.now))) }
{
    for rec in records {
        if is_logged(rec) {
            put_plain(made, copy_widened(alloc, rec)?)?;
        }
    }
    Ok(())
}

/// Puts the record of the file's list after the others, where it has one.
fn put_view(
    made: &mut Vec<Copied>,
    file: &FileId,
    location: &Option<Location>,
) -> Result<(), OutOfMemory>
    ensures { OnOk result (made.new.items ≡ made.old.items ++ map plain (view_of file.now location.now)) }
{
    if let Some(location) = location {
        let rec = Record::View {
            file: *file,
            location: *location,
        };
        put_plain(made, rec)?;
    }
    Ok(())
}

/// Puts the record of which list of the file is closed after the others, where one is.
fn put_close(made: &mut Vec<Copied>, file: &FileId, closed: &Option<u32>) -> Result<(), OutOfMemory>
    ensures { OnOk result (made.new.items ≡ made.old.items ++ map plain (close_of file.now closed.now)) }
{
    if let Some(version) = closed {
        let rec = Record::Close {
            file: *file,
            version: *version,
        };
        put_plain(made, rec)?;
    }
    Ok(())
}

/// Puts a record for each digest of this version of the file's object after the others, in their order.
fn put_seals(
    made: &mut Vec<Copied>,
    file: &FileId,
    version: ObjectVersion,
    digests: &[BodyDigest],
) -> Result<(), OutOfMemory>
    ensures { OnOk result (made.new.items ≡ made.old.items ++ map plain
        (map (λ digest. kept.Seal file.now version.object version.version digest) digests.now)) }
{
    for digest in digests {
        let rec = Record::Seal {
            file: *file,
            object: version.object,
            version: version.version,
            digest: *digest,
        };
        put_plain(made, rec)?;
    }
    Ok(())
}

/// Puts a held body of a file after the others, and then its digests.
fn put_body<D: Disk>(
    alloc: Global,
    made: &mut Vec<Copied>,
    store: &Store<D>,
    digests: &Digests,
    file: &FileId,
    version: ObjectVersion,
) -> Result<(), OutOfMemory>
    requires { AreDigestsIn digests.now (records_of store.now) }
    ensures { OnOk result (AreAdded store.now made.old.items made.new.items
        (sealed_stage_of (body_by (records_of store.now)) (digests_kept (records_of store.now))
        file.now version)) }
{
    put(made, stage(alloc, store, file, version))?;
    put_seals(made, file, version, digests.of_version(file, &version))?;
    Ok(())
}

/// Puts the held bodies of a file that are kept after the others, in their order, each with its digests after it.
fn put_bodies<D: Disk>(
    alloc: Global,
    made: &mut Vec<Copied>,
    store: &Store<D>,
    digests: &Digests,
    row: &FileRow,
    keep: &SoughtBodies<'_>,
) -> Result<(), OutOfMemory>
    requires { AreDigestsIn digests.now (records_of store.now) }
    ensures { OnOk result (AreAdded store.now made.old.items made.new.items
        (flat_map (sealed_stage_of (body_by (records_of store.now))
        (digests_kept (records_of store.now)) row.now.file)
        (filter (is_kept keep.now row.now.file) row.now.held))) }
{
    for version in &row.held.versions {
        if keep.has(&row.file, *version) {
            put_body(alloc, made, store, digests, &row.file, *version)?;
        }
    }
    Ok(())
}

/// Puts what says of a file what its row says after the others: its list, which list is closed, its bodies that are kept, each with its
/// digests, and its head.
fn put_row<D: Disk>(
    alloc: Global,
    made: &mut Vec<Copied>,
    store: &Store<D>,
    digests: &Digests,
    row: &FileRow,
    keep: &SoughtBodies<'_>,
) -> Result<(), OutOfMemory>
    requires { AreDigestsIn digests.now (records_of store.now) }
    ensures { OnOk result (AreAdded store.now made.old.items made.new.items
        (records_of_row (body_by (records_of store.now)) (digests_kept (records_of store.now))
        (row_without keep.now row.now))) }
{
    put_view(made, &row.file, &row.location)?;
    put_close(made, &row.file, &row.closed)?;
    put_bodies(alloc, made, store, digests, row, keep)?;
    let rec = Record::Head {
        file: row.file,
        head: row.head.copy(alloc)?,
    };
    put_plain(made, rec)?;
    Ok(())
}

/// Puts what says of these files what their rows say after the others, file by file.
fn put_rows<D: Disk>(
    alloc: Global,
    made: &mut Vec<Copied>,
    store: &Store<D>,
    digests: &Digests,
    rows: &[FileRow],
    keep: &SoughtBodies<'_>,
) -> Result<(), OutOfMemory>
    requires { AreDigestsIn digests.now (records_of store.now) }
    ensures { OnOk result (AreAdded store.now made.old.items made.new.items
        (records_of_rows (body_by (records_of store.now)) (digests_kept (records_of store.now))
        (map (row_without keep.now) rows.now))) }
{
    for row in rows {
        put_row(alloc, made, store, digests, row, keep)?;
    }
    Ok(())
}

/// The records that say what the store's say, but for the held bodies that aren't to be kept: the last start, the requests in their order,
/// and then file by file its list, which list is closed, its kept bodies, each with its digests after it, and its head. None of them is of
/// an old kind.
///
/// It goes through the records a few times, and finds each body by its place and its digests by its version. No body is read: each is to
/// be copied from there.
#[tactic(auto, unfolding(xt_protocol::specs::Forgetting::rewritten))]
pub fn rewritten<D: Disk>(
    alloc: Global,
    store: &Store<D>,
    keep: &Keep,
) -> Result<Vec<Copied>, OutOfMemory>
    ensures are { IfOk result (λ made.
        all_copied_of store.now made.items ≡ rewritten keep.now (records_of store.now)) }
    ensures of { IfOk result (λ made. All (IsOf store.now) made.items) }
{
    let keep = SoughtBodies::of(keep);
    let records = store.records();
    let folded = fold(alloc, records)?;
    let digests = Digests::of(alloc, records)?;
    let mut made = Vec::new(alloc);
    put_plain(&mut made, Record::Boot { boot: folded.boot })?;
    put_logged(alloc, &mut made, records)?;
    put_rows(
        alloc,
        &mut made,
        store,
        &digests,
        folded.files.as_slice(),
        &keep,
    )?;
    Ok(made)
}
