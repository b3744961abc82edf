//! What can fail before a record is put.
ghost use Rattle.std.specs.Prelude.{◌≡◌, ◌≢◌, ◌<◌, ◌≤◌, ◌^◌, ◌++◌, ◌∷◌, [], IfOk, OnOk, length, map, slice_index};
ghost use Rattle.xt_messages.specs.Limits.{FitsRecord};
ghost use Rattle.replica_records.specs.RecordText.{record_text};
ghost use Rattle.xt_journal.specs.Format.{superblock_kind};
ghost use Rattle.object_store.specs.Bare.{bare};
ghost use Rattle.object_store.specs.Logs.{HasRoom, bare_in, places_in};
ghost use Rattle.object_store.specs.Places.{later, place_of};
ghost use Rattle.object_store.specs.Waits.{Adds};

use crate::bare::copy_with;
use crate::log::StoreLog;
use crate::place::BodyPlace;
use crate::store::Store;
use crate::waiting::StageErr;
use disk_model::Disk;
use replica_records::record_bytes;
use std::alloc::Global;
use xt_base::{Octets, OutOfMemory};
use xt_journal::push_record;
use xt_messages::Record;

/// A record that is to be put.
#[derive(Drop)]
pub struct Prepared {
    /// Its payload.
    pub bytes: Octets,
    /// A copy of it without its body.
    pub bare: Record,
    pub place: BodyPlace,
}

/// Makes room for a record, and what is to be put where the gate of its payload is at this place. No record's bytes begin as a
/// superblock's do.
#[tactic(auto, using(crate::proofs::RecordKinds::no_superblock))]
pub fn prepare(
    alloc: Global,
    log: &mut StoreLog,
    rec: &Record,
    gate: u64,
) -> Result<Prepared, OutOfMemory>
    requires { FitsRecord rec.now }
    ensures bytes { IfOk result (λ made. made.bytes ≡ record_text rec.now) }
    ensures some { IfOk result (λ made. 1 ≤ length made.bytes) }
    ensures kind { IfOk result (λ made. slice_index made.bytes 0 ≢ superblock_kind) }
    ensures fits { IfOk result (λ made. length made.bytes < 2 ^ 32) }
    ensures bare { IfOk result (λ made. made.bare ≡ bare rec.now) }
    ensures place { IfOk result (λ made. made.place ≡
        place_of (record { gate = gate; bytes = record_text rec.now }) rec.now) }
    ensures room { IfOk result (λ made. HasRoom log.new made.bare) }
    ensures records { bare_in log.new ≡ bare_in log.old }
    ensures places { places_in log.new ≡ places_in log.old }
{
    let bytes = record_bytes(alloc, rec)?;
    let bare = copy_with(alloc, rec, Octets::new(alloc))?;
    log.make_room(&bare)?;
    let place = BodyPlace::of(rec, gate, bytes.as_slice().len());
    Ok(Prepared { bytes, bare, place })
}

/// Adds a record to those that wait to be put after the records of this store: to their bytes, and to their log.
pub fn add<D: Disk>(
    alloc: Global,
    bytes: &mut Vec<u8>,
    log: &mut StoreLog,
    store: &Store<D>,
    rec: &Record,
) -> Result<(), StageErr>
    requires { FitsRecord rec.now }
    ensures { Adds store.now rec.now bytes.old.items bytes.new.items log.old log.new result }
{
    let made = prepare(alloc, log, rec, bytes.len() as u64)?;
    let payload = made.bytes.as_slice();
    store.room_for(bytes.len(), payload.len())?;
    push_record(bytes, payload)?;
    log.put(made.bare, made.place);
    Ok(())
}

/// All that needs memory before records are put at once where the gate of the first payload is at this place: they are in the log then, and
/// after their bytes there is the next gate, closed.
pub fn prepare_all(
    log: &mut StoreLog,
    bytes: &mut Vec<u8>,
    more: StoreLog,
    gate: u64,
) -> Result<(), OutOfMemory>
    ensures bytes { OnOk result (bytes.new.items ≡ bytes.old.items ++ 0 ∷ []) }
    ensures records { OnOk result (bare_in log.new ≡ bare_in log.old ++ bare_in more) }
    ensures places { OnOk result (places_in log.new ≡
        places_in log.old ++ map (later gate) (places_in more)) }
{
    log.append(more, gate)?;
    bytes.push(0)?;
    Ok(())
}
