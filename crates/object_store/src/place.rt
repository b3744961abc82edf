//! Where a record's body is on a disk.
ghost use Rattle.std.specs.Prelude.{◌≡◌, map};
ghost use Rattle.object_store.specs.Places.{later};

use replica_records::body_in;
use xt_messages::Record;

/// Where the bytes of a body are on the disk, and how many they are.
#[derive(Clone, Copy)]
pub struct BodyPlace {
    pub at: u64,
    pub len: usize,
}

impl BodyPlace {
    ghost use Rattle.std.specs.Prelude.{◌≡◌, length};
    ghost use Rattle.xt_messages.specs.Limits.{FitsRecord};
    ghost use Rattle.replica_records.specs.RecordText.{record_text};
    ghost use Rattle.object_store.specs.Places.{place_of};

    /// The place of a record's body, where the gate of its payload is at this place, and the payload has so many bytes.
    pub fn of(rec: &Record, gate: u64, payload: usize) -> BodyPlace
        requires fits { FitsRecord rec.now }
        requires whole { payload ≡ length (record_text rec.now) }
        ensures { result ≡ place_of (record { gate = gate; bytes = record_text rec.now }) rec.now }
    {
        let len = body_in(rec).len();
        let before = 5 + (payload - len) as u64;
        BodyPlace {
            at: gate.saturating_add(before),
            len,
        }
    }
}

/// Moves places so many bytes further on.
pub fn move_on(places: &mut [BodyPlace], by: u64)
    ensures { places.new ≡ map (later by) places.old }
{
    for place in places.iter_mut() {
        place.at = by.saturating_add(place.at);
    }
}
