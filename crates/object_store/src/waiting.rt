//! Records that wait in memory to be put on a disk, all of them at once.
ghost use Rattle.std.specs.Prelude.{◌≡◌, true};
ghost use Rattle.std.specs.List.{All};
ghost use Rattle.xt_messages.specs.Limits.{FitsRecord};
ghost use Rattle.xt_journal.specs.Format.{records};
ghost use Rattle.xt_journal.specs.Reading.{placed_from};
ghost use Rattle.object_store.specs.FitProps.{all_fit_prop};
ghost use Rattle.object_store.specs.Logs.{places_in, records_in};
ghost use Rattle.object_store.specs.Places.{places_of};
ghost use Rattle.object_store.specs.Texts.{texts_of};
ghost use Rattle.object_store.specs.declared.waiting.StageErr.TheVariants.{OutOfMemory};

use crate::log::StoreLog;
use crate::preparing::add;
use crate::store::Store;
use disk_model::Disk;
use std::alloc::{AllocError, Global};
use xt_base::{FileId, Stamp};
use xt_messages::Record;

/// Records that come after those of a store, and wait to be put on its disk: until then they are in memory alone.
#[derive(Drop)]
pub struct Waiting {
    /// The records as they will be on the disk from the end of the store's journal on: each payload after an open gate and its length.
    pub(crate) bytes: Vec<u8>,
    /// The same without their bodies, which are in these places of the bytes.
    pub(crate) log: StoreLog,
    pub ghost written: { bytes.items ≡ records (texts_of (records_in true bytes.items log)) },
    pub ghost laid: { places_in log ≡ places_of
        (placed_from 0 (texts_of (records_in true bytes.items log))) (records_in true bytes.items log) },
    /// Each is within its limits.
    pub ghost fit: { All FitsRecord (records_in true bytes.items log) } by { all_fit_prop (records_in true bytes.items log) },
}

/// Why a record doesn't wait.
#[derive(Clone, Copy)]
pub enum StageErr {
    /// With it the journal would need this many bytes, at most `u64::MAX`, which passes the limit.
    Full { need: u64, limit: u64 },
    OutOfMemory,
}

impl From<AllocError> for StageErr {
    ghost from_gives = { λ _ error. error ≡ OutOfMemory };

    fn from(_: AllocError) -> StageErr {
        StageErr::OutOfMemory
    }
}

impl Waiting {
    ghost use Rattle.std.specs.Prelude.{◌≡◌, ◌==◌, [], length};
    ghost use Rattle.std.specs.Option.{option_map};
    ghost use Rattle.xt_messages.specs.Limits.{FitsRecord};
    ghost use Rattle.xt_protocol.specs.Folds.{body_kept, fold_of, IsInPlace};
    ghost use Rattle.object_store.specs.Waits.{CanBePut, Stages, bytes_of, records_with, recs_of};

    /// No record.
    pub fn new(alloc: Global) -> Waiting
        ensures recs { recs_of result ≡ [] }
        ensures bytes { bytes_of result ≡ [] }
    {
        Waiting {
            bytes: Vec::new(alloc),
            log: StoreLog::new(alloc),
        }
    }

    /// Lets a record wait after the others, to be put after those of this store. `Full` comes exactly when the store's journal has no room for
    /// all of them; what waited before waits as it was then, and also where memory runs out.
    pub fn stage<D: Disk>(
        &mut self,
        alloc: Global,
        store: &Store<D>,
        rec: &Record,
    ) -> Result<(), StageErr>
        requires fits { FitsRecord rec.now }
        requires placed { IsInPlace (fold_of (records_with store.now (recs_of self.old))) rec.now }
        requires others { CanBePut store.now (recs_of self.old) }
        ensures { Stages store.now self.old rec.now self.new result }
    {
        add(alloc, &mut self.bytes, &mut self.log, store, rec)
    }

    /// Whether no record waits.
    pub fn is_empty(&self) -> bool
        ensures { result ≡ (length (recs_of self.now) == 0) }
    {
        self.log.len() == 0
    }

    /// How many bytes the records will take on the disk.
    pub fn len(&self) -> usize
        ensures { result ≡ length (bytes_of self.now) }
    {
        self.bytes.len()
    }

    /// The body that the last of the waiting records put as this version of this object of the file; none where none of them did.
    pub fn body(&self, file: &FileId, object: u64, version: &Stamp) -> Option<&[u8]>
        ensures { option_map (λ body. body.now) result ≡
            body_kept (recs_of self.now) file.now object version.now }
    {
        let place = self.log.place(file, object, version)?;
        let from = place.at as usize;
        Some(&self.bytes.as_slice()[from..from + place.len])
    }
}
