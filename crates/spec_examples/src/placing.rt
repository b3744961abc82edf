//! Where files and their parts are placed, and how large a file is.
ghost use Rattle.std.specs.Prelude.{◌≡◌, map, codes};
ghost use Rattle.std.specs.List.{concat};
ghost use Rattle.spec_examples.specs.Placing as placing;
ghost use Rattle.spec_examples.specs.Ranges.{FallsSo, in_two, empty, in_four, last_byte, parts};

/// OSDs are picked in the order of their ids, from the place of the file's number on.
pub fn osds_are_picked_in_turn()
    ensures { map placing.got placing.picks ≡ map placing.picks_wanted placing.picks }
{}

/// The mark of a file whose mark was (0, 0) is the greatest one that was reported.
pub fn a_mark_is_the_greatest_report()
    ensures { placing.marks_after placing.reports ≡ map placing.mark_wanted placing.reports }
{}

/// A range falls into one piece of each object that it meets, and into no other pieces.
pub fn ranges_fall_into_pieces()
    ensures two { FallsSo in_two }
    ensures none { FallsSo empty }
    ensures four { FallsSo in_four }
    ensures last { FallsSo last_byte }
{}

/// The parts `ab`, none and `c` are `abc` together.
pub fn parts_are_joined()
    ensures { concat parts ≡ codes "abc" }
{}
