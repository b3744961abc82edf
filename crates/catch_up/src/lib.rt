//! How a primary brings a peer up to date: whatever it takes the peer to hold at first, the dialogue ends, and the peer has the
//! same head then; and a worked example of what is sent. Definitions and theorems alone; nothing runs here.
#![tactic(auto)]

ghost use Rattle.std.specs.Prelude.{◌≡◌, [], ◌∷◌};
ghost use Rattle.xt_protocol.specs.Choice.{difference};
ghost use Rattle.xt_protocol.specs.Folds.{body_of};
ghost use Rattle.catch_up.specs.Exchanges.{CatchesUp, EndsWithOneHead};
ghost use Rattle.catch_up.specs.Scene as scene;

/// A peer that has promised the epoch acknowledges the target after at most one exchange more than there are bodies that aren't
/// known of it, and twice those that are known and not held. However many it takes, its head is then the target, or its own one
/// where that isn't below it, whatever was known of it at first.
pub fn a_peer_catches_up()
    ensures ends { CatchesUp }
    ensures one { EndsWithOneHead }
{}

/// What is wanted of a peer's versions and isn't known of it: another version of object 1, and object 2.
pub fn what_is_lacked_is_wanted()
    ensures { difference scene.have scene.want ≡
        body_of 1 scene.c ∷ body_of 2 scene.d ∷ [] }
{}

/// A peer whose status has one object of three as the primary has it gets the bodies of the two others, one by one, and then the
/// head: no body of object 0.
pub fn a_peer_gets_what_it_lacks()
    ensures { scene.sent scene.primary scene.told ≡ scene.lacked }
{}
