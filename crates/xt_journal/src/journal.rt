ghost use Rattle.std.specs.Prelude.{IsTrue};
ghost use Rattle.xt_journal.specs.Format.{EndsAt};
ghost use Rattle.xt_journal.specs.Located.{IsLocated, located_prop};

use crate::ahead::ReadAhead;
use crate::append::{Refusal, append_run, append_to, need_after, need_of};
use crate::errors::{AppendErr, LoadErr};
use crate::format::{Found, Trouble};
use crate::load::load_from;
use disk_model::Disk;
use journal_areas::{Area, Superblock, area_of};
use journal_moves::Extent;
use std::alloc::Global;
use xt_base::OutOfMemory;

/// A journal on a disk. Each crash leaves the payloads that were appended, in order.
#[derive(Drop)]
pub struct Journal<D: Disk> {
    pub(crate) disk: D,
    pub(crate) end: u64,
    pub(crate) limit: u64,
    pub(crate) superblock: Option<Superblock>,
    pub ghost located: { IsLocated superblock end } by { located_prop superblock end },
    pub ghost ends: { IsTrue D.is_told → ∥ EndsAt superblock (D.kept disk) end ∥₁ },
}

impl<D: Disk> Journal<D> {
    ghost use Rattle.std.specs.Prelude.{◌≡◌, ◌≢◌, ◌≤◌, ◌<◌, ◌+◌, ◌^◌, ◌++◌, ◌∷◌, [], ℕ, true, List, IfOk, IfSome, OnOk, OnErr, IsSome, MatchResult, is_some, length, slice_index};
    ghost use Rattle.disk_model.specs.Disk.{IsImage, LeavesOnly, at_rest};
    ghost use Rattle.xt_base.specs.Faults.{counted, fault_count_after};
    ghost use Rattle.journal_areas.specs.Sites.{area_of};
    ghost use Rattle.xt_journal.specs.Access.{disk_of, place_of, limit_of, superblock_of};
    ghost use Rattle.xt_journal.specs.Ahead.{size_of, source_of};
    ghost use Rattle.xt_journal.specs.Answers.{IsFullExactly, append_fault, disk_after_append, disk_after_load, load_fault, reading_of, without_memory};
    ghost use Rattle.xt_journal.specs.Append.{AreStopped, IsRunOf, IsStopped, IsWithAllOrNone, IsWithOrWithout};
    ghost use Rattle.journal_records.specs.Calls.{AllSucceed, GoesOn};
    ghost use Rattle.xt_journal.specs.Format.{KeepsJournal, StandsFor, StandsIn, end_in, journal_of, superblock_kind};
    ghost use Rattle.xt_journal.specs.Loaded.{LeavesAsBefore, LeavesDisk, FailedCall, MadeCalls};
    ghost use Rattle.xt_journal.specs.Placed.{AreWithin, placed_on};
    ghost use Rattle.xt_journal.specs.Reading.{IsTheReading, payloads_on};

    /// Loads what is on a disk, and tells where the payloads are whose gates are open, from the first up to the first that isn't. From
    /// the superblock on it goes on at the area that counts, and what came before that doesn't count. The payloads aren't read.
    ///
    /// A disk of at most 13 bytes that isn't a journal is made one with no record. Nothing else is written. The
    /// journal doesn't grow past `limit` bytes.
    pub fn load(alloc: Global, disk: D, limit: u64) -> Result<(Journal<D>, Vec<Extent>), LoadErr<D>>
        ensures reads { IsTrue D.is_told → IfSome (reading_of (D.kept disk).read result)
            (IsTheReading (D.kept disk).read) }
        ensures keeps { IsTrue D.is_told → IfOk result (λ loaded.
            KeepsJournal (D.kept (disk_of loaded.0))
            (payloads_on (D.kept disk).read loaded.1.items)) }
        ensures place { IsTrue D.is_told → IfOk result (λ loaded. place_of loaded.0 ≡
            end_in (superblock_of loaded.0) (payloads_on (D.kept disk).read loaded.1.items)) }
        ensures superblock { IsTrue D.is_told → IfOk result (λ loaded.
            StandsIn (superblock_of loaded.0) (D.kept disk).read
            (payloads_on (D.kept disk).read loaded.1.items)) }
        ensures within { IfOk result (λ loaded. AreWithin (place_of loaded.0) loaded.1.items) }
        ensures stays { IsTrue D.is_told → IfOk result (λ loaded.
            placed_on true (D.kept (disk_of loaded.0)).read loaded.1.items
            ≡ placed_on true (D.kept disk).read loaded.1.items) }
        ensures limit { IfOk result (λ loaded. limit_of loaded.0 ≡ limit) }
        ensures fresh { IsTrue D.is_told → length (D.kept disk).read ≤ 13 →
            IfOk result (λ loaded. D.kept (disk_of loaded.0) ≡ at_rest (journal_of [])) }
        ensures same { IsTrue D.is_told → 13 < length (D.kept disk).read →
            (D.kept (disk_after_load result)).read ≡ (D.kept disk).read }
        ensures left { IsTrue D.is_told → OnErr result
            (LeavesDisk (D.kept disk) (D.kept (disk_after_load result))) }

        // A crash at any moment leaves what it might have left before. Where a short disk is made a journal, it may leave
        // any bytes in the place of those 13 that it has, and of those up to 13 that it gets.
        ensures any_moment { IsTrue D.is_told →
            LeavesOnly D.moment D.left_since disk (disk_after_load result)
            (LeavesAsBefore (D.kept disk)) }

        // It doesn't give up by itself.
        ensures count { D.fault_count (disk_after_load result) ≡
            fault_count_after (is_some (load_fault result)) (D.fault_count disk) }
        ensures fault { IfSome (load_fault result) (λ count. count ≡
            D.fault_count (disk_after_load result)) }
        ensures failed { IsTrue D.is_told →
            IsSome (load_fault result) → FailedCall (D.fails disk) (D.kept disk).read }
        ensures plan { IsTrue D.is_told → OnOk result
            (MadeCalls (D.fails disk) (D.fails (disk_after_load result)) (D.kept disk).read) }
    {
        let mut disk = disk;
        match load_from(alloc, &mut disk) {
            Ok(
                Found {
                    end,
                    superblock,
                    extents,
                },
            ) => Ok((
                Journal {
                    disk,
                    end,
                    limit,
                    superblock,
                },
                extents,
            )),
            Err(Trouble::DiskFault) => Err(LoadErr::DiskFault {
                count: disk.faults(),
                disk,
            }),
            Err(Trouble::NotOurs { first }) => Err(LoadErr::NotOurs { first, disk }),
            Err(Trouble::Layout { version }) => Err(LoadErr::Layout { version, disk }),
            Err(Trouble::Damaged { place }) => Err(LoadErr::Damaged { place, disk }),
            Err(Trouble::OutOfMemory) => Err(LoadErr::OutOfMemory { disk }),
        }
    }

    /// Appends a payload in four device calls. At `Ok` its record is synced: from then on each crash leaves it.
    ///
    /// A payload that begins with 8 would be read as the superblock, and may not be given.
    ///
    /// `OutOfMemory` comes before the first device call. A journal whose disk has failed is gone, and must be loaded again.
    pub fn append(self, alloc: Global, payload: &[u8]) -> Result<Journal<D>, AppendErr<D>>
        requires some { 1 ≤ length payload.now }
        requires fits { length payload.now < 2 ^ 32 }
        requires kind { slice_index payload.now 0 ≢ superblock_kind }
        ensures done { IsTrue D.is_told → (payloads : List (List ℕ)) →
            KeepsJournal (D.kept (disk_of self)) payloads →
            IfOk result (λ journal.
            KeepsJournal (D.kept (disk_of journal)) (payloads ++ payload.now ∷ [])) }
        ensures acknowledged { IsTrue D.is_told → (payloads : List (List ℕ)) →
            KeepsJournal (D.kept (disk_of self)) payloads →
            IfOk result (λ journal. (image : List ℕ) → IsImage (D.kept (disk_of journal)) image →
            StandsFor image (payloads ++ payload.now ∷ [])) }
        ensures place { IfOk result (λ journal. place_of journal ≡
            place_of self + (5 + length payload.now)) }
        ensures limit { IfOk result (λ journal. limit_of journal ≡ limit_of self) }
        ensures superblock { IfOk result (λ journal. superblock_of journal ≡ superblock_of self) }

        // A crash at any moment leaves the payloads from before the call, with the new one or without.
        ensures any_moment { IsTrue D.is_told → (payloads : List (List ℕ)) →
            KeepsJournal (D.kept (disk_of self)) payloads →
            LeavesOnly D.moment D.left_since (disk_of self) (disk_after_append result)
            (IsWithOrWithout payloads payload.now) }
        ensures broken { IsTrue D.is_told → (payloads : List (List ℕ)) →
            KeepsJournal (D.kept (disk_of self)) payloads →
            IsSome (append_fault result) →
            (image : List ℕ) → IsImage (D.kept (disk_after_append result)) image →
            IsWithOrWithout payloads payload.now image }

        // It fails exactly where one of its calls does, and which one that is decides what a crash leaves.
        ensures stopped { IsTrue D.is_told → (payloads : List (List ℕ)) →
            KeepsJournal (D.kept (disk_of self)) payloads →
            IsSome (append_fault result) →
            IsStopped (superblock_of self) (D.fails (disk_of self)) (D.kept (disk_after_append result))
            payloads payload.now }
        ensures succeeded { IsTrue D.is_told → OnOk result (AllSucceed (D.fails (disk_of self)) 4) }
        ensures plan { IsTrue D.is_told →
            OnOk result (GoesOn 0 4 (D.fails (disk_of self)) (D.fails (disk_after_append result))) }
        ensures count { D.fault_count (disk_after_append result) ≡
            fault_count_after (is_some (append_fault result)) (D.fault_count (disk_of self)) }
        ensures fault { IfSome (append_fault result) (λ count. count ≡
            D.fault_count (disk_after_append result)) }

        ensures full { IsFullExactly self (place_of self + (6 + length payload.now)) result }
        ensures memory { IfSome (without_memory result) (λ journal.
            (D.kept (disk_of journal) ≡ D.kept (disk_of self))
            × (place_of journal ≡ place_of self) × (limit_of journal ≡ limit_of self)
            × (superblock_of journal ≡ superblock_of self)) }
        ensures no_call { IsTrue D.is_told → IfSome (without_memory result) (λ journal.
            GoesOn 0 0 (D.fails (disk_of self)) (D.fails (disk_of journal))) }
    {
        let need = match need_of(self.end, payload.len(), self.limit) {
            Ok(need) => need,
            Err(need) => {
                return Err(AppendErr::Full {
                    need,
                    limit: self.limit,
                    journal: self,
                });
            }
        };
        let Journal {
            mut disk,
            end,
            limit,
            superblock,
        } = self;
        match append_to(alloc, &mut disk, end, need, payload) {
            Ok(()) => Ok(Journal {
                disk,
                end: need - 1,
                limit,
                superblock,
            }),
            Err(Refusal::Broken) => Err(AppendErr::Broken {
                count: disk.faults(),
                disk,
            }),
            Err(Refusal::OutOfMemory) => Err(AppendErr::OutOfMemory {
                journal: Journal {
                    disk,
                    end,
                    limit,
                    superblock,
                },
            }),
        }
    }

    /// Appends payloads at once in four device calls, as many as for one. At `Ok` their records are synced: from then on each crash leaves
    /// them all. `piece` is what comes after the first one's gate: their records, each but the first after an open gate, and a closed gate.
    ///
    /// `OutOfMemory` comes before the first device call. A journal whose disk has failed is gone, and must be loaded again.
    pub fn append_all(self, piece: &[u8]) -> Result<Journal<D>, AppendErr<D>>
        requires some { 1 ≤ length piece.now }
        requires run { ∥ ((more : List (List ℕ)) × IsRunOf piece.now more) ∥₁ }
        ensures done { IsTrue D.is_told → (payloads more : List (List ℕ)) →
            KeepsJournal (D.kept (disk_of self)) payloads → IsRunOf piece.now more →
            IfOk result (λ journal.
            KeepsJournal (D.kept (disk_of journal)) (payloads ++ more)) }
        ensures acknowledged { IsTrue D.is_told → (payloads more : List (List ℕ)) →
            KeepsJournal (D.kept (disk_of self)) payloads → IsRunOf piece.now more →
            IfOk result (λ journal. (image : List ℕ) → IsImage (D.kept (disk_of journal)) image →
            StandsFor image (payloads ++ more)) }
        ensures place { IfOk result (λ journal. place_of journal ≡
            place_of self + length piece.now) }
        ensures limit { IfOk result (λ journal. limit_of journal ≡ limit_of self) }
        ensures superblock { IfOk result (λ journal. superblock_of journal ≡ superblock_of self) }

        // A crash at any moment leaves the payloads from before the call, with all of the new ones or with none of them.
        ensures any_moment { IsTrue D.is_told → (payloads more : List (List ℕ)) →
            KeepsJournal (D.kept (disk_of self)) payloads → IsRunOf piece.now more →
            LeavesOnly D.moment D.left_since (disk_of self) (disk_after_append result)
            (IsWithAllOrNone payloads more) }
        ensures broken { IsTrue D.is_told → (payloads more : List (List ℕ)) →
            KeepsJournal (D.kept (disk_of self)) payloads → IsRunOf piece.now more →
            IsSome (append_fault result) →
            (image : List ℕ) → IsImage (D.kept (disk_after_append result)) image →
            IsWithAllOrNone payloads more image }

        // It fails exactly when one of its calls does, and which one that is decides what a crash leaves.
        ensures stopped { IsTrue D.is_told → (payloads more : List (List ℕ)) →
            KeepsJournal (D.kept (disk_of self)) payloads → IsRunOf piece.now more →
            IsSome (append_fault result) →
            AreStopped (superblock_of self) (D.fails (disk_of self)) (D.kept (disk_after_append result))
            payloads more }
        ensures succeeded { IsTrue D.is_told → OnOk result (AllSucceed (D.fails (disk_of self)) 4) }
        ensures plan { IsTrue D.is_told →
            OnOk result (GoesOn 0 4 (D.fails (disk_of self)) (D.fails (disk_after_append result))) }
        ensures count { D.fault_count (disk_after_append result) ≡
            fault_count_after (is_some (append_fault result)) (D.fault_count (disk_of self)) }
        ensures fault { IfSome (append_fault result) (λ count. count ≡
            D.fault_count (disk_after_append result)) }

        ensures full { IsFullExactly self (place_of self + (1 + length piece.now)) result }
        ensures memory { IfSome (without_memory result) (λ journal.
            (D.kept (disk_of journal) ≡ D.kept (disk_of self))
            × (place_of journal ≡ place_of self) × (limit_of journal ≡ limit_of self)
            × (superblock_of journal ≡ superblock_of self)) }
        ensures no_call { IsTrue D.is_told → IfSome (without_memory result) (λ journal.
            GoesOn 0 0 (D.fails (disk_of self)) (D.fails (disk_of journal))) }
    {
        let need = match self.need_after(piece.len() as u64) {
            Ok(need) => need,
            Err(need) => {
                return Err(AppendErr::Full {
                    need,
                    limit: self.limit,
                    journal: self,
                });
            }
        };
        let Journal {
            mut disk,
            end,
            limit,
            superblock,
        } = self;
        match append_run(&mut disk, end, need, piece) {
            Ok(()) => Ok(Journal {
                disk,
                end: need - 1,
                limit,
                superblock,
            }),
            Err(Refusal::Broken) => Err(AppendErr::Broken {
                count: disk.faults(),
                disk,
            }),
            Err(Refusal::OutOfMemory) => Err(AppendErr::OutOfMemory {
                journal: Journal {
                    disk,
                    end,
                    limit,
                    superblock,
                },
            }),
        }
    }

    /// How many bytes the journal needs for this many bytes of records more and the next gate; `Err` where they pass its limit, and then at
    /// most `u64::MAX`.
    pub fn need_after(&self, len: u64) -> Result<u64, u64>
        ensures { MatchResult result
            (λ need. (need ≡ place_of self.now + (1 + len)) × (need ≤ limit_of self.now) × (need < 2 ^ 64))
            (λ need. (need ≡ counted (place_of self.now + (1 + len)))
            × (limit_of self.now < place_of self.now + (1 + len))) }
    {
        need_after(self.end, len, self.limit)
    }

    /// The place of the closed gate where the next record goes.
    pub fn end(&self) -> u64
        ensures { result ≡ place_of self.now }
    {
        self.end
    }

    /// The area that counts.
    pub fn area(&self) -> Area
        ensures { result ≡ area_of (superblock_of self.now) (place_of self.now) }
    {
        let slot = match &self.superblock {
            None => None,
            Some(superblock) => superblock.current(),
        };
        area_of(&slot, self.end)
    }

    /// The disk, to be looked at.
    pub fn disk(&self) -> &D
        ensures { result.now ≡ disk_of self.now }
    {
        &self.disk
    }

    /// A read-ahead over the disk, for its payloads.
    pub fn read_ahead(&self, alloc: Global) -> Result<ReadAhead<'_, D>, OutOfMemory>
        ensures source { IfOk result (λ ahead. source_of ahead ≡ disk_of self.now) }
        ensures size { IfOk result (λ ahead. size_of ahead ≡ place_of self.now) }
    {
        ReadAhead::new(alloc, &self.disk, self.end)
    }

    /// Hands the disk back.
    pub fn close(self) -> D
        ensures { result ≡ disk_of self }
    {
        let Journal {
            disk,
            end: _,
            limit: _,
            superblock: _,
        } = self;
        disk
    }
}
