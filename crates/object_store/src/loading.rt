//! Records from the payloads of a journal.
ghost use Rattle.std.specs.Prelude.{◌≡◌, ◌≢◌, ◌≤◌, ◌+◌, true, Err, IsTrue, IsErrOf, OnOk, IfOk, IfSome, IfNone};
ghost use Rattle.journal_moves.specs.Extents.{bytes_in};
ghost use Rattle.xt_messages.specs.Limits.{FitsRecord};
ghost use Rattle.xt_messages.specs.declared.record.Record.{Record};
ghost use Rattle.xt_protocol.specs.Folds.{IsInPlace};
ghost use Rattle.xt_journal.specs.Access.{disk_of, place_of};
ghost use Rattle.xt_journal.specs.Ahead.{size_of, source_of};
ghost use Rattle.xt_journal.specs.Placed.{AreWithin};
ghost use Rattle.replica_records.specs.RecordText.{record_text};
ghost use Rattle.object_store.specs.Refused.{IsReadFrom};
ghost use Rattle.object_store.specs.declared.finding.LookErr.TheVariants as look;
ghost use Rattle.object_store.specs.declared.loading.Trouble.TheVariants.{OutOfMemory};

use crate::bare::strip;
use crate::finding::LookErr;
use crate::log::StoreLog;
use crate::place::BodyPlace;
use disk_model::Disk;
use journal_moves::Extent;
use replica_records::{Folding, RecordErr, read_record};
use std::alloc::{AllocError, Global};
use xt_base::{Failed, OutOfMemory};
use xt_journal::{Journal, ReadAhead};
use xt_messages::Record;

/// Why payloads aren't read as records.
#[derive(Clone, Copy)]
pub enum Trouble {
    /// The payload at this index isn't a record in its place, and those before it are.
    BadRecord(usize),
    /// The disk failed. That isn't counted yet.
    DiskFault,
    OutOfMemory,
}

impl From<AllocError> for Trouble {
    ghost from_gives = { λ _ trouble. trouble ≡ OutOfMemory };

    fn from(_: AllocError) -> Trouble {
        Trouble::OutOfMemory
    }
}

/// Reads a payload as a record; none where it isn't one in its place.
fn record_in_place(
    alloc: Global,
    folding: &Folding,
    payload: &[u8],
) -> Result<Option<Record>, OutOfMemory>
    ensures found { IfOk result (λ given. IfSome given (λ rec.
        FitsRecord rec × (payload.now ≡ record_text rec) × IsInPlace folding.now rec)) }
    ensures bad { IfOk result (λ given. IfNone given ((rec : Record) →
        FitsRecord rec → payload.now ≡ record_text rec → IsInPlace folding.now rec → ⊥)) }
{
    match read_record(alloc, payload) {
        Ok(rec) => Ok(if folding.is_in_place(alloc, &rec)? {
            Some(rec)
        } else {
            None
        }),
        Err(RecordErr::BadRecord) => Ok(None),
        Err(RecordErr::OutOfMemory) => Err(AllocError),
    }
}

/// Reads the payload at an extent into a buffer, which then has its bytes alone.
fn read_payload<D: Disk>(
    ahead: &mut ReadAhead<'_, D>,
    extent: Extent,
    payload: &mut Vec<u8>,
) -> Result<(), LookErr>
    requires { extent.at + extent.len ≤ size_of ahead.old }
    ensures value { IsTrue D.is_told → OnOk result (payload.new.items ≡
        bytes_in true (D.kept (source_of ahead.old)).read extent) }
    ensures sure { IsTrue D.is_told → result ≢ Err look.Failed }
    ensures source { source_of ahead.new ≡ source_of ahead.old }
    ensures size { size_of ahead.new ≡ size_of ahead.old }
{
    payload.resize(extent.len, 0)?;
    match ahead.read(extent.at, payload.as_mut_slice()) {
        Ok(()) => Ok(()),
        Err(Failed) => Err(LookErr::Failed),
    }
}

/// Reads the payloads at these extents as records, one at a time, and each in its place after those before it. Their bodies aren't kept.
pub fn read_all<D: Disk>(
    alloc: Global,
    journal: &Journal<D>,
    extents: &[Extent],
) -> Result<StoreLog, Trouble>
    requires { AreWithin (place_of journal.now) extents.now }
    ensures read { IsReadFrom D.is_told (D.kept (disk_of journal.now)).read extents.now result }
    ensures sure { IsTrue D.is_told → IsErrOf result Trouble.DiskFault → ⊥ }
{
    let mut ahead = journal.read_ahead(alloc)?;
    let mut payload = Vec::new(alloc);
    let mut log = StoreLog::new(alloc);
    let mut folding = Folding::new(alloc);
    for extent in extents {
        match read_payload(&mut ahead, *extent, &mut payload) {
            Ok(()) => {}
            Err(LookErr::Failed) => return Err(Trouble::DiskFault),
            Err(LookErr::OutOfMemory) => return Err(Trouble::OutOfMemory),
        }
        let bytes = payload.as_slice();
        let Some(mut rec) = record_in_place(alloc, &folding, bytes)? else {
            return Err(Trouble::BadRecord(log.len()));
        };
        folding.take(alloc, &rec)?;
        let place = BodyPlace::of(&rec, extent.at - 5, bytes.len());
        strip(alloc, &mut rec);
        log.push(rec, place)?;
    }
    Ok(log)
}
