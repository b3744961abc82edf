//! What loading promises of a store that was kept, as the contract of a function that does nothing. Callers that need a
//! promise in a proof call it.

ghost use Rattle.object_store.specs.Laws.{AreOfOneList, NoneIsBad};

/// Where the payloads of a journal are those of records that a store had, loading gives these very records, and never
/// reports one as bad.
pub fn loads_what_was_put()
    ensures one { AreOfOneList }
    ensures sound { NoneIsBad }
{}
