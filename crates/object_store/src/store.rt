ghost use Rattle.std.specs.Prelude.{IsTrue};
ghost use Rattle.xt_journal.specs.Format.{KeepsJournal};
ghost use Rattle.xt_journal.specs.Access.{disk_of, superblock_of};
ghost use Rattle.object_store.specs.KeptJournals.{told_keeps_prop};
ghost use Rattle.object_store.specs.Laid.{IsLaid, told_laid_prop};
ghost use Rattle.object_store.specs.Logs.{records_in};
ghost use Rattle.object_store.specs.Texts.{texts_of, AreRecords};

use crate::errors::{AppendErr, PutAllErr, StoreErr};
use crate::loading::{Trouble, read_all};
use crate::log::StoreLog;
use crate::preparing::{prepare, prepare_all};
use crate::waiting::{StageErr, Waiting};
use disk_model::Disk;
use journal_areas::Area;
use journal_moves::Extent;
use std::alloc::Global;
use xt_journal::Journal;
use xt_messages::Record;

/// The records of a node, each of them on a disk, and in memory without its body.
#[derive(Drop)]
pub struct Store<D: Disk> {
    pub(crate) journal: Journal<D>,
    pub(crate) log: StoreLog,
    /// The disk keeps the records' bytes.
    pub ghost keeps: { IsTrue D.is_told → KeepsJournal (D.kept (disk_of journal))
        (texts_of (records_in D.is_told (D.kept (disk_of journal)).read log)) } by { told_keeps_prop D.is_told (D.kept (disk_of journal))
            (texts_of (records_in D.is_told (D.kept (disk_of journal)).read log)) },
    /// The places in the log are those of the bodies.
    pub ghost laid: { IsTrue D.is_told → IsLaid (superblock_of journal)
        (records_in D.is_told (D.kept (disk_of journal)).read log) log } by { told_laid_prop D.is_told (superblock_of journal)
            (records_in D.is_told (D.kept (disk_of journal)).read log) log },
    /// Each record is within its limits, and in its place.
    pub ghost sound: { ∥ AreRecords (records_in D.is_told (D.kept (disk_of journal)).read log) ∥₁ },
}

impl<D: Disk> Store<D> {
    ghost use Rattle.std.specs.Prelude.{◌≡◌, ◌≤◌, ◌<◌, ◌+◌, ◌^◌, length, OnOk, IfErr};
    ghost use Rattle.xt_messages.specs.Limits.{FitsRecord};
    ghost use Rattle.xt_protocol.specs.Folds.{fold_of, IsInPlace};
    ghost use Rattle.xt_journal.specs.Access.{limit_of, place_of};
    ghost use Rattle.xt_journal.specs.Placed.{AreWithin};
    ghost use Rattle.object_store.specs.Access as store;
    ghost use Rattle.object_store.specs.Bare.{bare_of};
    ghost use Rattle.object_store.specs.Loading.{ArePlaced, IsLoadFrom};
    ghost use Rattle.object_store.specs.Puts.{Puts, PutsAll};
    ghost use Rattle.object_store.specs.Waits.{CanBePut, IsRefused, recs_of};

    /// The store of the records that the journal's payloads are. Their extents are those that its loading gave. The payloads are read one
    /// at a time.
    ///
    /// `BadRecord` comes exactly where one isn't a record in its place, and tells the first such one. `Broken` can't come where contracts
    /// know what the disk keeps.
    pub fn load(
        alloc: Global,
        journal: Journal<D>,
        extents: &[Extent],
    ) -> Result<Store<D>, StoreErr<D>>
        requires placed { IsTrue D.is_told → ArePlaced journal extents.now }
        requires within { AreWithin (place_of journal) extents.now }
        ensures { IsLoadFrom journal extents.now result }
    {
        match read_all(alloc, &journal, extents) {
            Ok(log) => Ok(Store { journal, log }),
            Err(Trouble::BadRecord(index)) => Err(StoreErr::BadRecord { index, journal }),
            Err(Trouble::DiskFault) => {
                let mut disk = journal.close();
                let count = disk.count_fault();
                Err(StoreErr::Broken { count, disk })
            }
            Err(Trouble::OutOfMemory) => Err(StoreErr::OutOfMemory { journal }),
        }
    }

    /// Puts a record after the others, on the disk and then in memory. At `Ok` each crash leaves it from then on.
    ///
    /// Memory can only run out before the first device call. A store whose disk has failed is gone, and must be loaded
    /// again.
    pub fn put(self, alloc: Global, rec: &Record) -> Result<Store<D>, AppendErr<D>>
        requires fits { FitsRecord rec.now }
        requires placed { IsInPlace (fold_of (store.records_of self)) rec.now }
        ensures { Puts self rec.now result }
    {
        let Store { journal, mut log } = self;
        let Ok(made) = prepare(alloc, &mut log, rec, journal.end()) else {
            let store = Store { journal, log };
            return Err(AppendErr::OutOfMemory { store });
        };
        match journal.append(alloc, made.bytes.as_slice()) {
            Ok(journal) => {
                log.put(made.bare, made.place);
                Ok(Store { journal, log })
            }
            Err(xt_journal::AppendErr::Broken { count, disk }) => Err(AppendErr::Broken {
                count,
                disk,
            }),
            Err(
                xt_journal::AppendErr::Full {
                    journal,
                    need,
                    limit,
                },
            ) => {
                let store = Store { journal, log };
                Err(AppendErr::Full { store, need, limit })
            }
            Err(xt_journal::AppendErr::OutOfMemory { journal }) => {
                let store = Store { journal, log };
                Err(AppendErr::OutOfMemory { store })
            }
        }
    }

    /// Puts all records that wait after the others, on the disk at once and then in memory. At `Ok` each crash leaves all of them from then on;
    /// at any moment before, a crash leaves the store's records with all of these or with none of them.
    ///
    /// It makes as many device calls as a put of one record. Memory can only run out before the first of them. After an error the store is
    /// gone, and must be loaded again.
    pub fn put_all(self, waiting: Waiting) -> Result<Store<D>, PutAllErr<D>>
        requires some { 1 ≤ length (recs_of waiting) }
        requires can { CanBePut self (recs_of waiting) }
        ensures { PutsAll self (recs_of waiting) result }
    {
        let Store { journal, mut log } = self;
        let Waiting {
            mut bytes,
            log: more,
        } = waiting;
        let Ok(()) = prepare_all(&mut log, &mut bytes, more, journal.end()) else {
            let disk = journal.close();
            return Err(PutAllErr::OutOfMemory { disk });
        };
        match journal.append_all(&bytes.as_slice()[1..]) {
            Ok(journal) => Ok(Store { journal, log }),
            Err(xt_journal::AppendErr::Broken { count, disk }) => Err(PutAllErr::Broken {
                count,
                disk,
            }),
            Err(xt_journal::AppendErr::Full { .. }) => unreachable!(),
            Err(xt_journal::AppendErr::OutOfMemory { journal }) => {
                let disk = journal.close();
                Err(PutAllErr::OutOfMemory { disk })
            }
        }
    }

    /// Whether the journal has room for as many bytes of records as wait, and for a payload more.
    pub(crate) fn room_for(&self, waiting: usize, payload: usize) -> Result<(), StageErr>
        requires { payload < 2 ^ 32 }
        ensures room { OnOk result ((place_of (store.journal_of self.now) + waiting) + (6 + payload)
            ≤ limit_of (store.journal_of self.now)) }
        ensures full { IfErr result (IsRefused self.now
            ((place_of (store.journal_of self.now) + waiting) + (6 + payload))) }
    {
        let len = (waiting as u64).saturating_add(5 + payload as u64);
        match self.journal.need_after(len) {
            Ok(_) => Ok(()),
            Err(need) => Err(StageErr::Full {
                need,
                limit: self.journal.limit(),
            }),
        }
    }

    /// The records without their bodies, in the order in which they were put.
    pub fn records(&self) -> &[Record]
        ensures { result.now ≡ bare_of (store.records_of self.now) }
    {
        self.log.as_slice()
    }

    /// The records as they are in memory, with the places of their bodies.
    pub fn log(&self) -> &StoreLog
        ensures { result.now ≡ store.log_of self.now }
    {
        &self.log
    }

    /// The area of its journal that counts.
    pub fn area(&self) -> Area
        ensures { result ≡ store.area_of self.now }
    {
        self.journal.area()
    }

    /// The disk, to be looked at.
    pub fn disk(&self) -> &D
        ensures { result.now ≡ store.disk_of self.now }
    {
        self.journal.disk()
    }

    /// Hands the disk back.
    pub fn close(self) -> D
        ensures { result ≡ store.disk_of self }
    {
        self.journal.close()
    }
}
