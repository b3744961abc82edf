//! What holds of the state of a file at an OSD at every moment, proved of the rows of `xt_protocol`.
//!
//! A file is sound when its node starts, and expiry, every message and every Wake keep it so: it leads only while it holds
//! the lease, an issued ask stands exactly where an update is issued, nothing waits while the lease is free, and a primary's
//! peers are the members of the stored list. What is kept of a file changes by the records of its steps alone, and its open asks
//! stay within their limits where those that come are. What nothing speaks against comes at once.
#![tactic(auto)]

ghost use Rattle.osd_invariants.specs.Sound.{StaysSound};
ghost use Rattle.osd_invariants.specs.Keeping.{KeepsByRecord};
ghost use Rattle.osd_invariants.specs.Promises.{PromisesAlone};
ghost use Rattle.osd_invariants.specs.OpenAsks.{AsksStay, IsWithinLimits};
ghost use Rattle.osd_invariants.specs.AtOnce.{AnswersReads, AnswersWrites, HoldsLeases, RenewsLeases, StartsRounds};

/// A file is sound when its node starts, and every step keeps it so.
pub fn files_stay_sound()
    ensures { StaysSound }
{}

/// What is kept of a file follows the records of its steps.
pub fn files_follow_records()
    ensures { KeepsByRecord }
{}

/// A Gather of a later epoch changes the head of a replica and leaves its primary, also an active one.
pub fn a_promise_moves_the_head()
    ensures { PromisesAlone }
{}

/// The operations of a file's open asks stay within their limits, where those that come are.
pub fn operations_stay_within_limits()
    ensures { AsksStay IsWithinLimits }
{}

/// What nothing speaks against comes in that very step: the answer to a read and to a write, a lease and its renewal, and the
/// Reads of a round.
pub fn steps_answer_at_once()
    ensures reads { AnswersReads }
    ensures writes { AnswersWrites }
    ensures leases { HoldsLeases }
    ensures renewals { RenewsLeases }
    ensures rounds { StartsRounds }
{}
