//! Where the bodies stand among the records.

ghost use Rattle.std.specs.Prelude.{◌≡◌};
ghost use Rattle.replica_records.specs.Places.{body_in};

use std::alloc::Global;
use std::collections::BTreeMap;
use xt_base::{FileId, NO_OBJECT, OutOfMemory, Stamp};
use xt_messages::{Record, Update};

/// Which version of which object of which file.
#[derive(Clone, Copy, PartialEq, Eq, PartialOrd, Ord)]
pub struct BodyKey {
    pub file: FileId,
    pub object: u64,
    pub version: Stamp,
}

/// Where the last record stands that put each body. A key with no place is room for one.
#[derive(Drop)]
pub struct Places {
    places: BTreeMap<BodyKey, Option<usize>>,
}

/// The body that a record puts; empty where it puts none.
pub fn body_in(rec: &Record) -> &[u8]
    ensures { result.now ≡ body_in rec.now }
{
    match rec {
        Record::Update { update, .. } | Record::OldUpdate { update, .. } => update.body.as_slice(),
        Record::Stage { bytes, .. } | Record::OldStage { bytes, .. } => bytes.as_slice(),
        _ => &[],
    }
}

impl BodyKey {
    ghost use Rattle.std.specs.Prelude.{◌≡◌};
    ghost use Rattle.replica_records.specs.Places.{key_made, key_put};

    /// Which body the update makes, if it makes one.
    fn of_update(file: &FileId, update: &Update) -> Option<BodyKey>
        ensures { result ≡ key_made file.now update.now }
    {
        if update.object == NO_OBJECT {
            return None;
        }
        Some(BodyKey {
            file: *file,
            object: update.object,
            version: update.stamp,
        })
    }

    /// Which body the record puts, if it puts one.
    pub fn of(rec: &Record) -> Option<BodyKey>
        ensures { result ≡ key_put rec.now }
    {
        match rec {
            Record::Update { file, update } | Record::OldUpdate { file, update } => {
                BodyKey::of_update(file, update)
            }
            Record::Stage {
                file,
                object,
                version,
                ..
            }
            | Record::OldStage {
                file,
                object,
                version,
                ..
            } => Some(BodyKey {
                file: *file,
                object: *object,
                version: *version,
            }),
            _ => None,
        }
    }
}

impl Places {
    ghost use Rattle.std.specs.Prelude.{◌≡◌, ◌++◌, ◌∷◌, [], List, OnOk, OnErr, length};
    ghost use Rattle.xt_messages.specs.declared.record.Record.{Record};
    ghost use Rattle.replica_records.specs.Places.{ArePlacesIn, HasRoomFor, key_put, place_in};

    /// The places in no records.
    pub fn new(alloc: Global) -> Places
        ensures { ArePlacesIn result [] }
    {
        Places {
            places: BTreeMap::new(alloc),
        }
    }

    /// Makes room for the place of the body that the record puts.
    pub fn make_room(&mut self, rec: &Record) -> Result<(), OutOfMemory>
        ensures room { OnOk result (HasRoomFor self.new rec.now) }
        ensures same { (records : List Record) → ArePlacesIn self.old records →
            ArePlacesIn self.new records }
    {
        if let Some(key) = BodyKey::of(rec) {
            if !self.places.contains_key(&key) {
                self.places.insert(key, None)?;
            }
        }
        Ok(())
    }

    /// Takes the record at the end of the list, which is this place. It may be any that puts this record's body, with any bytes.
    pub fn put(&mut self, rec: &Record, place: usize)
        requires { HasRoomFor self.old rec.now }
        ensures { (records : List Record) (like : Record) → key_put like ≡ key_put rec.now →
            place ≡ length records → ArePlacesIn self.old records →
            ArePlacesIn self.new (records ++ like ∷ []) }
    {
        if let Some(key) = BodyKey::of(rec) {
            let put: Result<_, _> = self.places.insert(key, Some(place));
            let _before = put.unwrap();
        }
    }

    /// Where the record stands that put the body last.
    pub fn place(&self, key: &BodyKey) -> Option<usize>
        ensures { result ≡ place_in self.now key.now }
    {
        self.places.get(key).copied().flatten()
    }
}
