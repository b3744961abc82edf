//! The lease of one replicated file, as an abstract history: boots start and stop, clocks advance, proposers begin rounds
//! and count promises, acceptors promise and accept, and a round that a majority accepted is held.
//!
//! After every legal history at most one node holds the lease, and while a node holds, whatever another node held at any
//! time before is over for good. The moves, what each asks and why stand in `specs/`; no condition can be left out.
#![tactic(auto)]

ghost use Rattle.std.specs.Prelude.{◌≡◌, ◌≢◌, ◌<◌, ◌+◌, ℕ, List, ◌++◌, true, false, Some};
ghost use Rattle.lease_safety.specs.Rounds.{Round, end_of};
ghost use Rattle.lease_safety.specs.State.{Setting, State, Has};
ghost use Rattle.lease_safety.specs.Moves.{Move, Round_held, after, state_after};
ghost use Rattle.lease_safety.specs.Legal.{IsHistory, every_rule};
ghost use Rattle.lease_safety.specs.Leases.{Holds, IsOver};
ghost use Rattle.lease_safety.specs.Weaker.{AreUnsafe, SilentForLease, CountedOfNode, HighestHarmless, silent_for_a_lease, accepted_by_another_boot, highest_report_alone, CountedFromEnd, counted_from_the_end};
ghost use Rattle.lease_safety.specs.Examples.{trio, one_holds, another_holds, TwoHold, boot_twice, clocks_back, clocks_apart, next_boots_round_begun, counted_from_ahead, lower_round_begun, never_begun, promised_while_stopped, promised_in_silence, lower_round_promised, invented_promise_counted, live_report_counted, counted_while_stopped, promise_broken, accepted_uncounted, earlier_boots_lease_held, held_by_a_minority};

/// At any moment of a legal history at most one node holds the lease.
pub fn one_holder()
    ensures { (setting : Setting) (moves : List Move) (a b : ℕ) → IsHistory setting moves →
        Holds setting (state_after moves) a → Holds setting (state_after moves) b → a ≡ b }
{}

/// At a moment when a node holds the lease, each lease that another node held at any time before is over, and stays over,
/// whatever comes later. A node whose last lease is over doesn't hold.
pub fn earlier_leases_are_over()
    ensures over { (setting : Setting) (later moves : List Move) (node : ℕ) (lease : Round) →
        IsHistory setting (later ++ moves) → Holds setting (state_after moves) node →
        Has lease (state_after moves).leases → lease.ballot.node ≢ node →
        IsOver setting (state_after (later ++ moves)).nodes lease }
    ensures unheld { (setting : Setting) (moves : List Move) (node : ℕ) (lease : Round) →
        IsHistory setting moves → (state_after moves).held node ≡ Some lease →
        IsOver setting (state_after moves).nodes lease → Holds setting (state_after moves) node →
        ⊥ }
{}

/// A node that runs holds the lease that it was just granted, unless that is nearly over.
pub fn a_granted_lease_is_held()
    ensures { (setting : Setting) (state : State) (lease : Round) →
        state.nodes.runs lease.ballot.node ≡ true →
        state.nodes.clock lease.ballot.node + setting.drift < end_of setting.lease lease →
        Holds setting (after state (Round_held lease)) lease.ballot.node }
{}

/// In a legal history a ballot names one round.
pub fn a_ballot_names_a_round()
    ensures { (setting : Setting) (moves : List Move) (j k : Round) → IsHistory setting moves →
        Has j (state_after moves).rounds → Has k (state_after moves).rounds → j.ballot ≡ k.ballot →
        j ≡ k }
{}

/// There are legal histories in which a node holds the lease, and in which another takes it when it is over.
pub fn a_lease_is_held_and_passes_on()
    ensures legal { IsHistory trio one_holds }
    ensures holds { Holds trio (state_after one_holds) 1 }
    ensures then_legal { IsHistory trio another_holds }
    ensures then_holds { Holds trio (state_after another_holds) 2 }
{}

/// Without any one of the rules there is a history, legal by all others, in which two nodes hold at once.
pub fn every_rule_is_needed()
    ensures boots_rise { TwoHold (record every_rule { boots_rise = false }) boot_twice }
    ensures clocks_rise { TwoHold (record every_rule { clocks_rise = false }) clocks_back }
    ensures clocks_are_close { TwoHold (record every_rule { clocks_are_close = false })
        clocks_apart }
    ensures rounds_are_of_the_present_boot { TwoHold
        (record every_rule { rounds_are_of_the_present_boot = false }) next_boots_round_begun }
    ensures leases_count_from_the_beginning { TwoHold
        (record every_rule { leases_count_from_the_beginning = false }) counted_from_ahead }
    ensures counts_rise { TwoHold (record every_rule { counts_rise = false }) lower_round_begun }
    ensures promised_rounds_have_begun { TwoHold
        (record every_rule { promised_rounds_have_begun = false }) never_begun }
    ensures promising_boots_run { TwoHold (record every_rule { promising_boots_run = false })
        promised_while_stopped }
    ensures boots_are_silent { TwoHold (record every_rule { boots_are_silent = false })
        promised_in_silence }
    ensures promises_rise { TwoHold (record every_rule { promises_rise = false })
        lower_round_promised }
    ensures promises_are_made { TwoHold (record every_rule { promises_are_made = false })
        invented_promise_counted }
    ensures live_reports_stop { TwoHold (record every_rule { live_reports_stop = false })
        live_report_counted }
    ensures counting_boots_run { TwoHold (record every_rule { counting_boots_run = false })
        counted_while_stopped }
    ensures promises_are_kept { TwoHold (record every_rule { promises_are_kept = false })
        promise_broken }
    ensures accepts_are_counted { TwoHold (record every_rule { accepts_are_counted = false })
        accepted_uncounted }
    ensures leases_are_of_the_present_boot { TwoHold
        (record every_rule { leases_are_of_the_present_boot = false }) earlier_boots_lease_held }
    ensures majorities_accept { TwoHold (record every_rule { majorities_accept = false })
        held_by_a_minority }
{}

/// Rules that come close don't do: a boot that is silent for the lease length alone; an accept by another boot than the one
/// whose promise was counted; a round that looks at the report of the highest round alone; a lease that counts from the end of
/// its round. In a history that keeps one of these, and all other rules, two nodes hold at once.
pub fn weaker_rules_are_unsafe()
    ensures shorter_silence { AreUnsafe (record every_rule { boots_are_silent = false })
        SilentForLease silent_for_a_lease }
    ensures another_boot { AreUnsafe (record every_rule { accepts_are_counted = false })
        CountedOfNode accepted_by_another_boot }
    ensures highest_report { AreUnsafe (record every_rule { live_reports_stop = false })
        HighestHarmless highest_report_alone }
    ensures from_the_end { AreUnsafe (record every_rule { leases_count_from_the_beginning = false })
        CountedFromEnd counted_from_the_end }
{}
