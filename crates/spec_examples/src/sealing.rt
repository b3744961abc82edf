//! The tags of messages and capabilities.
ghost use Rattle.std.specs.Prelude.{◌≡◌, true, false, [], ◌∷◌, codes, map};
ghost use Rattle.capabilities.specs.Tags.{hmac_of};
ghost use Rattle.spec_examples.specs.Sealing.{denied, published, stops, uses};

/// Messages have the published tags.
pub fn messages_have_tags()
    ensures { map (λ row. hmac_of row.0 row.1) published ≡ map (λ row. row.2) published }
{}

/// A use of a capability is denied by the first test that it fails.
pub fn uses_are_denied_in_order()
    ensures { map denied uses ≡ map (λ row. row.5) uses }
{}

/// A Stop ends a node under the tag of its word, and not under that of another one.
pub fn a_stop_has_the_tag_of_its_word()
    ensures { map stops (codes "stop" ∷ codes "halt" ∷ []) ≡ true ∷ false ∷ [] }
{}
