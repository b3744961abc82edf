//! Messages that are cut into parts, and parts that are joined.
ghost use Rattle.std.specs.Prelude.{◌≡◌, true, Some, [], ◌∷◌, map, fold};
ghost use Rattle.std.specs.List.{list_all};
ghost use Rattle.xt_parts.specs.Part.{parts_of};
ghost use Rattle.xt_parts.specs.Joining.{after_part};
ghost use Rattle.xt_parts.specs.Runs.{whole_of};
ghost use Rattle.spec_examples.specs.PartRows as parts;

/// `abc` is one part, which gives it back.
pub fn a_message_is_cut_and_joined()
    ensures cut { parts_of (parts.id 2 3) parts.abc ≡ parts.part_of_abc ∷ [] }
    ensures joined { after_part [] parts.part_of_abc
        ≡ Some (record { held = []; whole = Some (whole_of (parts.id 2 3) parts.abc) }) }
{}

/// No part are the beginnings of the part of `abc`, it with a byte more, and it with another byte.
pub fn other_bytes_are_no_part()
    ensures { list_all parts.is_refused parts.no_parts ≡ true }
{}

/// What parts give to one joiner, in whatever order they come.
pub fn parts_are_taken()
    ensures lengths { map parts.lengths_in (map parts.size parts.sizes) ≡
        map parts.lengths parts.sizes }
    ensures given { parts.given_after [] parts.rows ≡ map parts.wanted parts.rows }
{}

/// Of 65 messages that have begun, the oldest is forgotten.
pub fn the_oldest_of_65_is_dropped()
    ensures first { parts.given_after [] parts.firsts ≡ map parts.wanted parts.firsts }
    ensures second { parts.given_after (fold parts.after [] parts.firsts) parts.seconds
        ≡ map parts.wanted parts.seconds }
{}
