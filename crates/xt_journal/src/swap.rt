use crate::errors::AppendErr;
use crate::journal::Journal;
use disk_model::Disk;
use journal_moves::{Gathered, Located, Refusal, move_to};
use std::alloc::Global;

impl<D: Disk> Journal<D> {
    ghost use Rattle.std.specs.Prelude.{◌≡◌, ◌-◌, ℕ, List, Some, IfOk, IfSome, OnOk, IsSome, IsTrue, is_some};
    ghost use Rattle.disk_model.specs.Disk.{IsImage, LeavesOnly};
    ghost use Rattle.std.specs.List.{All};
    ghost use Rattle.xt_base.specs.Faults.{fault_count_after};
    ghost use Rattle.journal_records.specs.Calls.{GoesOn};
    ghost use Rattle.journal_areas.specs.Sites.{area_of, area_size, moved, need_for, new_area_of};
    ghost use Rattle.journal_moves.specs.Answers.{full_need};
    ghost use Rattle.journal_moves.specs.Gathering.{IsThere, sizes_of};
    ghost use Rattle.journal_moves.specs.Moves.{FailsWithin, IsEither, IsMoveStopped, MakesCalls, move_calls};
    ghost use Rattle.xt_journal.specs.Access.{disk_of, place_of, limit_of, superblock_of};
    ghost use Rattle.xt_journal.specs.Answers.{append_fault, disk_after_append, without_memory};
    ghost use Rattle.xt_journal.specs.Format.{AreGiven, KeepsJournal, StandsFor};
    ghost use Rattle.xt_journal.specs.Swapped.{IsFullBy, gathered_on};

    /// Puts these payloads in place of all others, in a new area. At `Ok` the area is synced and counts: from then on each crash leaves
    /// these payloads alone.
    ///
    /// The area is written where nothing counts, and the gate of its slot is opened last. It goes through a buffer, so memory is taken
    /// for about a mebibyte and the longest payload; what the disk has of a payload is read meanwhile from the area that counts.
    ///
    /// `Full` reports how many bytes that would need, or the limit where the numbers of areas are used up. Nothing is written then, nor
    /// where memory runs out, which comes before the first device call. A journal whose disk has failed is gone, and must be loaded
    /// again.
    pub fn swap(self, alloc: Global, payloads: &[Gathered]) -> Result<Journal<D>, AppendErr<D>>
        requires there { IsTrue D.is_told →
            All (IsThere (D.kept (disk_of self)).read (area_of (superblock_of self) (place_of self)))
            payloads.now }
        requires given { AreGiven (gathered_on self payloads.now) }
        ensures done { IsTrue D.is_told → (old : List (List ℕ)) →
            KeepsJournal (D.kept (disk_of self)) old →
            IfOk result (λ journal. KeepsJournal (D.kept (disk_of journal)) (gathered_on self payloads.now)) }
        ensures acknowledged { IsTrue D.is_told → (old : List (List ℕ)) →
            KeepsJournal (D.kept (disk_of self)) old →
            IfOk result (λ journal. (image : List ℕ) → IsImage (D.kept (disk_of journal)) image →
            StandsFor image (gathered_on self payloads.now)) }
        ensures superblock { IfOk result (λ journal. superblock_of journal ≡
            Some (moved (superblock_of self) (place_of self) (area_size (gathered_on self payloads.now)))) }
        ensures place { IfOk result (λ journal. place_of journal ≡
            need_for (superblock_of self) (place_of self) (area_size (gathered_on self payloads.now)) - 1) }
        ensures area { IfOk result (λ journal. area_of (superblock_of journal) (place_of journal) ≡
            new_area_of (superblock_of self) (place_of self) (area_size (gathered_on self payloads.now))) }
        ensures limit { IfOk result (λ journal. limit_of journal ≡ limit_of self) }

        // A crash at any moment leaves the payloads from before the call, or these.
        ensures any_moment { IsTrue D.is_told → (old : List (List ℕ)) →
            KeepsJournal (D.kept (disk_of self)) old →
            LeavesOnly D.moment D.left_since (disk_of self) (disk_after_append result)
            (IsEither old (gathered_on self payloads.now)) }
        ensures broken { IsTrue D.is_told → (old : List (List ℕ)) →
            KeepsJournal (D.kept (disk_of self)) old →
            IsSome (append_fault result) →
            (image : List ℕ) → IsImage (D.kept (disk_after_append result)) image →
            IsEither old (gathered_on self payloads.now) image }

        // It fails exactly where one of its calls does: those that add a superblock, write the area, and fill and open its slot. Which one
        // that is decides what a crash leaves.
        ensures made { IsTrue D.is_told → OnOk result
            (MakesCalls (move_calls (superblock_of self) (place_of self) (sizes_of payloads.now))
            (D.fails (disk_of self)) (D.fails (disk_after_append result))) }
        ensures failed { IsTrue D.is_told → IsSome (append_fault result) →
            FailsWithin (move_calls (superblock_of self) (place_of self) (sizes_of payloads.now))
            (D.fails (disk_of self)) }
        ensures stopped { IsTrue D.is_told → (old : List (List ℕ)) →
            KeepsJournal (D.kept (disk_of self)) old →
            IsSome (append_fault result) →
            IsMoveStopped (move_calls (superblock_of self) (place_of self) (sizes_of payloads.now))
            (D.fails (disk_of self)) (D.kept (disk_after_append result)) old (gathered_on self payloads.now) }
        ensures count { D.fault_count (disk_after_append result) ≡
            fault_count_after (is_some (append_fault result)) (D.fault_count (disk_of self)) }
        ensures fault { IfSome (append_fault result) (λ count. count ≡
            D.fault_count (disk_after_append result)) }

        ensures full { IsFullBy self (full_need (superblock_of self) (place_of self)
            (area_size (gathered_on self payloads.now)) (limit_of self)) result }
        ensures memory { IfSome (without_memory result) (λ journal.
            (D.kept (disk_of journal) ≡ D.kept (disk_of self))
            × (place_of journal ≡ place_of self) × (limit_of journal ≡ limit_of self)
            × (superblock_of journal ≡ superblock_of self)) }
        ensures no_call { IsTrue D.is_told → IfSome (without_memory result) (λ journal.
            GoesOn 0 0 (D.fails (disk_of self)) (D.fails (disk_of journal))) }
    {
        let Journal {
            mut disk,
            end,
            limit,
            superblock,
        } = self;
        let at = Located { superblock, end };
        match move_to(alloc, &mut disk, &at, payloads, limit) {
            Ok(new) => Ok(Journal {
                disk,
                end: new.end,
                limit,
                superblock: new.superblock,
            }),
            Err(Refusal::Broken) => Err(AppendErr::Broken {
                count: disk.faults(),
                disk,
            }),
            Err(Refusal::Full { need }) => Err(AppendErr::Full {
                journal: Journal {
                    disk,
                    end,
                    limit,
                    superblock,
                },
                need,
                limit,
            }),
            Err(Refusal::OutOfMemory) => Err(AppendErr::OutOfMemory {
                journal: Journal {
                    disk,
                    end,
                    limit,
                    superblock,
                },
            }),
        }
    }

    /// The length in bytes past which it doesn't grow.
    pub fn limit(&self) -> u64
        ensures { result ≡ limit_of self.now }
    {
        self.limit
    }
}
