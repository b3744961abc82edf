ghost use Rattle.store_compact.specs.Rewriting.{HeadsNameThem, StayKept};

/// Where each of some records is within its limits and in its place, and no version that a head names is forgotten, each of the
/// rewritten ones is within its limits and in its place.
pub fn rewritten_records_may_be_kept()
    ensures { StayKept }
{}

/// With the bodies that the heads of all files name, no version that a head names is forgotten.
pub fn heads_name_what_must_stay()
    ensures { HeadsNameThem }
{}
