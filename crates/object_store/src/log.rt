ghost use Rattle.object_store.specs.Places.{ArePairs, AreFound, are_pairs_prop, are_found_prop};

use crate::place::{BodyPlace, move_on};
use replica_records::{BodyKey, Places};
use std::alloc::Global;
use xt_base::{FileId, OutOfMemory, Stamp};
use xt_messages::Record;

/// The records of a store in memory, each without its body, and where the bodies are on the disk.
#[derive(Drop)]
pub struct StoreLog {
    records: Vec<Record>,
    /// Of each record the place of its body.
    bodies: Vec<BodyPlace>,
    /// Which record put each body last.
    last: Places,
    /// Each record has a place for its body.
    ghost pairs: { ArePairs records.items bodies.items } by { are_pairs_prop records.items bodies.items },
    /// The bodies are found.
    ghost found: { AreFound last records.items bodies.items } by { are_found_prop last records.items bodies.items },
}

impl StoreLog {
    ghost use Rattle.std.specs.Prelude.{◌≡◌, ◌++◌, ◌∷◌, ℕ, Bool, List, [], OnOk, IfSome, Contains, length, map};
    ghost use Rattle.std.specs.Option.{option_map};
    ghost use Rattle.xt_protocol.specs.Folds.{body_kept};
    ghost use Rattle.object_store.specs.Logs.{HasRoom, bare_in, places_in, records_in};
    ghost use Rattle.object_store.specs.Places.{IsPair, bytes_at, later};

    /// No record.
    pub fn new(alloc: Global) -> StoreLog
        ensures bare { bare_in result ≡ [] }
        ensures places { places_in result ≡ [] }
    {
        StoreLog {
            records: Vec::new(alloc),
            bodies: Vec::new(alloc),
            last: Places::new(alloc),
        }
    }

    /// Makes room for a record, whose body doesn't matter.
    pub fn make_room(&mut self, rec: &Record) -> Result<(), OutOfMemory>
        ensures room { OnOk result (HasRoom self.new rec.now) }
        ensures bare { bare_in self.new ≡ bare_in self.old }
        ensures places { places_in self.new ≡ places_in self.old }
    {
        self.records.reserve(1)?;
        self.bodies.reserve(1)?;
        self.last.make_room(rec)
    }

    /// Puts a record without its body after the others, where there is room for it.
    pub fn put(&mut self, rec: Record, place: BodyPlace)
        requires room { HasRoom self.old rec }
        requires pair { IsPair rec place }
        ensures bare { bare_in self.new ≡ bare_in self.old ++ rec ∷ [] }
        ensures places { places_in self.new ≡ places_in self.old ++ place ∷ [] }
    {
        self.last.put(&rec, self.records.len());
        self.records.push(rec).unwrap();
        self.bodies.push(place).unwrap();
    }

    /// Makes room for a record without its body, and puts it after the others.
    pub fn push(&mut self, rec: Record, place: BodyPlace) -> Result<(), OutOfMemory>
        requires { IsPair rec place }
        ensures bare { OnOk result (bare_in self.new ≡ bare_in self.old ++ rec ∷ []) }
        ensures places { OnOk result (places_in self.new ≡ places_in self.old ++ place ∷ []) }
    {
        self.make_room(&rec)?;
        self.put(rec, place);
        Ok(())
    }

    /// Puts all records of another log after these, each with the place of its body this many bytes further on.
    pub fn append(&mut self, mut more: StoreLog, by: u64) -> Result<(), OutOfMemory>
        ensures bare { OnOk result (bare_in self.new ≡ bare_in self.old ++ bare_in more) }
        ensures places { OnOk result (places_in self.new ≡
            places_in self.old ++ map (later by) (places_in more)) }
    {
        more.move_on(by);
        let StoreLog {
            records,
            bodies,
            last: _,
        } = more;
        let mut index = 0;
        for rec in records {
            self.push(rec, bodies[index])?;
            index += 1;
        }
        Ok(())
    }

    /// Moves the places of all bodies so many bytes further on.
    pub fn move_on(&mut self, by: u64)
        ensures bare { bare_in self.new ≡ bare_in self.old }
        ensures places { places_in self.new ≡ map (later by) (places_in self.old) }
    {
        move_on(self.bodies.as_mut_slice(), by);
    }

    /// How many records there are.
    pub fn len(&self) -> usize
        ensures { result ≡ length (bare_in self.now) }
    {
        self.records.len()
    }

    /// The records without their bodies, in order.
    pub fn as_slice(&self) -> &[Record]
        ensures { result.now ≡ bare_in self.now }
    {
        self.records.as_slice()
    }

    /// Where the body is that was put last as this version of this object of the file; none where no record put it.
    pub fn place(&self, file: &FileId, object: u64, version: &Stamp) -> Option<BodyPlace>
        ensures found { (told : Bool) (read : List ℕ) → option_map (bytes_at told read) result ≡
            body_kept (records_in told read self.now) file.now object version.now }
        ensures among { IfSome result (Contains (places_in self.now)) }
    {
        let key = BodyKey {
            file: *file,
            object,
            version: *version,
        };
        match self.last.place(&key) {
            Some(index) => Some(self.bodies[index]),
            None => None,
        }
    }
}
