ghost use Rattle.std.specs.Prelude.{◌≡◌, None, slice_get, take};
ghost use Rattle.xt_protocol.specs.ReplicaRows.{first_missing};

use object_versions::holds;
use xt_messages::{HeldSet, ObjectVersion};

/// The place of the first version that isn't known, or how many there are where each is known. The first `passed` of them are known, and
/// aren't looked up again.
pub fn first_unknown(known: &HeldSet, versions: &[ObjectVersion], passed: usize) -> usize
    requires { first_missing known.now (take passed versions.now) ≡ None }
    ensures found { slice_get versions.now result ≡ first_missing known.now versions.now }
    ensures passed { first_missing known.now (take result versions.now) ≡ None }
{
    for place in passed..versions.len() {
        let version = versions[place];
        if !holds(known, version) {
            return place;
        }
    }
    versions.len()
}
