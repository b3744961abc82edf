//! What a scrub needs of the records of a loaded store, and what it leaves of what they say.

ghost use Rattle.scrub.specs.Laws.{BodiesAreThere, ScrubsSayNothing};

/// Records that are each in their place, as those of a loaded store, have the body of each of their items. So `scrub` never answers `NoBody`
/// over them.
pub fn loaded_bodies_are_there()
    ensures { BodiesAreThere }
{}

/// Digests and bodies of items that are kept after such records change nothing of what they say: a scrub that ends at any moment leaves
/// each file as it was.
pub fn scrubs_say_nothing()
    ensures { ScrubsSayNothing }
{}
