//! What a peer is sent that is brought up to date.
ghost use Rattle.std.specs.Prelude.{◌≡◌, Some, None};
ghost use Rattle.xt_protocol.specs.Choice.{difference};
ghost use Rattle.xt_protocol.specs.ReplicaRows.{first_missing};
ghost use Rattle.spec_examples.specs.CatchUp.{version, had, wanted, lacking, after_one, after_both};

/// A peer that has one of three objects as it is wanted lacks the two others. They are sent in turn, and then the head: nothing is missing
/// any more.
#[tactic(auto, unfolding(xt_protocol::specs::Choice::difference))]
pub fn a_peer_is_sent_what_it_lacks()
    ensures difference { difference had wanted ≡ lacking }
    ensures first { first_missing had wanted ≡ Some (version 1 3) }
    ensures second { first_missing after_one wanted ≡ Some (version 2 4) }
    ensures over { first_missing after_both wanted ≡ None }
{}
