//! The course of a lease, of its promises and of its reports.
ghost use Rattle.std.specs.Prelude.{◌≡◌, true, Some, None, Ok, Err, [], ◌∷◌, map, fold};
ghost use Rattle.std.specs.Option.{option_map};
ghost use Rattle.xt_protocol.specs.LeaseRows.{awake_at, turn_at, lapsed_at, renewal_starts, held};
ghost use Rattle.xt_protocol.specs.Register.{new_acceptor, write_refused};
ghost use Rattle.spec_examples.specs.Values.{node};
ghost use Rattle.spec_examples.specs.LeaseLife as lease;
ghost use Rattle.spec_examples.specs.Promises as promises;

/// A node that started at 3900 is silent for the lease length of 1000 and the drift of 100.
pub fn a_start_is_silent()
    ensures before { awake_at lease.started 4999 ≡ None }
    ensures behind { awake_at lease.started 5000 ≡ Some lease.awake }
{}

/// What is seen of a lease after each event: rounds that are given up, outrun, ended by another's lease, won too late,
/// and won; and a lease that lapses.
pub fn a_lease_lives()
    ensures { lease.seen_after lease.start lease.life ≡ map lease.wanted lease.life }
{}

/// A round that is won at its start makes a holder, which acts until the drift before the lease's end, at 6000.
pub fn a_holder_acts()
    ensures wins { lease.seen_after lease.start lease.first_round ≡
        map lease.wanted lease.first_round }
    ensures holder { fold lease.after lease.start lease.first_round ≡ held lease.holder }
    ensures turn { turn_at lease.holder 5899 ≡ Some (record { node = node 1; moment = 5899 }) }
    ensures no_turn { turn_at lease.holder 5900 ≡ None }
    ensures stays { lapsed_at lease.holder 5899 ≡ Ok lease.holder }
    ensures lapses { lapsed_at lease.holder 5900 ≡ Err (lease.proposer 1) }
{}

/// A renewal that starts at 5500 asks by the next count, and moves the end to 6500 by a second acceptance of three.
pub fn a_lease_is_renewed()
    ensures starts { option_map (λ round. round.start)
        (renewal_starts lease.holder 5500 lease.members).renewal ≡ Some 5500 }
    ensures count { (renewal_starts lease.holder 5500 lease.members).proposer.known ≡ 2 }
    ensures ends { lease.seen_after (held lease.holder) lease.renewal ≡
        map lease.wanted lease.renewal }
    ensures behind { fold lease.after (held lease.holder) lease.renewal
        ≡ held (record { proposer = lease.proposer 2; end = 6500; renewal = None }) }
{}

/// Node 3 starts again between its promise and the Write, and its new boot knows nothing of the promise: each of two
/// proposers gets two acceptances of five, so neither holds the lease.
pub fn a_promise_is_forgotten()
    ensures before { promises.came_after promises.start promises.before ≡
        map promises.wanted promises.before }
    ensures behind { promises.came_after promises.third_anew promises.behind ≡
        map promises.wanted promises.behind }
    ensures leases { promises.lease_nodes (fold promises.after promises.third_anew promises.behind)
        ≡ Some (node 1) ∷ Some (node 2) ∷ None ∷ Some (node 2) ∷ Some (node 1) ∷ [] }
{}

/// A Write before any promise is shown the least ballot.
pub fn nothing_is_promised()
    ensures { (promises.write_by_first (new_acceptor lease.first_boot)).answer ≡
        write_refused promises.least }
{}

/// A report of a lease of another ends a round until the lease is over, and one of the round's own node never does.
pub fn reports_end_a_round()
    ensures others { promises.came_of_reports ≡ map promises.report_wanted promises.reports }
    ensures own { promises.came_of_own ≡ (true, promises.comes_counted) }
{}
