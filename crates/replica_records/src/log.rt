ghost use Rattle.replica_records.specs.Places.{ArePlacesIn, are_places_prop};

use crate::places::{BodyKey, Places, body_in};
use object_versions::BodyErr;
use std::alloc::Global;
use xt_base::{Copies, FileId, Octets, OutOfMemory, Stamp};
use xt_messages::Record;

/// The records of one node in memory, and where the last record stands that put each body.
#[derive(Drop)]
pub struct RecordLog {
    records: Vec<Record>,
    places: Places,
    /// The bodies are found.
    ghost found: { ArePlacesIn places records.items } by { are_places_prop places records.items },
}

impl RecordLog {
    ghost use Rattle.std.specs.Prelude.{◌≡◌, ◌↔◌, ◌++◌, ◌∷◌, [], Some, None, Err, IfOk, OnOk, OnErr, length};
    ghost use Rattle.std.specs.Option.{option_map};
    ghost use Rattle.xt_protocol.specs.Folds.{body_kept};
    ghost use Rattle.object_versions.specs.declared.errors.BodyErr.TheVariants.{NoSuchVersion};
    ghost use Rattle.object_versions.specs.KeptBodies.{fault_in};
    ghost use Rattle.replica_records.specs.Logs.{records_in, HasRoom};

    /// No record.
    pub fn new(alloc: Global) -> RecordLog
        ensures { records_in result ≡ [] }
    {
        RecordLog {
            records: Vec::new(alloc),
            places: Places::new(alloc),
        }
    }

    /// Makes room for a record.
    pub fn make_room(&mut self, rec: &Record) -> Result<(), OutOfMemory>
        ensures room { OnOk result (HasRoom self.new rec.now) }
        ensures same { records_in self.new ≡ records_in self.old }
    {
        self.records.reserve(1)?;
        self.places.make_room(rec)
    }

    /// Puts a record after the others, where there is room for it.
    pub fn put(&mut self, rec: Record)
        requires { HasRoom self.old rec }
        ensures { records_in self.new ≡ records_in self.old ++ rec ∷ [] }
    {
        self.places.put(&rec, self.records.len());
        self.records.push(rec).unwrap();
    }

    /// Makes room for a record, and puts it after the others.
    pub fn push(&mut self, rec: Record) -> Result<(), OutOfMemory>
        ensures ok { OnOk result (records_in self.new ≡ records_in self.old ++ rec ∷ []) }
        ensures err { OnErr result (records_in self.new ≡ records_in self.old) }
    {
        self.make_room(&rec)?;
        self.put(rec);
        Ok(())
    }

    /// How many records there are.
    pub fn len(&self) -> usize
        ensures { result ≡ length (records_in self.now) }
    {
        self.records.len()
    }

    /// The records in order.
    pub fn as_slice(&self) -> &[Record]
        ensures { result.now ≡ records_in self.now }
    {
        self.records.as_slice()
    }

    /// Copies of the records, in order.
    pub fn copies(&self, alloc: Global) -> Result<Vec<Record>, OutOfMemory>
        ensures { IfOk result (λ made. made.items ≡ records_in self.now) }
    {
        let mut made = Vec::new(alloc);
        for rec in self.records.as_slice() {
            made.push(rec.copy(alloc)?)?;
        }
        Ok(made)
    }

    /// The body that was put last as this version of this object of the file. All bodies are in memory, so this never
    /// fails.
    pub fn body(
        &self,
        alloc: Global,
        file: &FileId,
        object: u64,
        version: &Stamp,
    ) -> Result<Octets, BodyErr>
        ensures found { IfOk result (λ bytes.
            body_kept (records_in self.now) file.now object version.now ≡ Some bytes) }
        ensures missing { (result ≡ Err NoSuchVersion) ↔
            (body_kept (records_in self.now) file.now object version.now ≡ None) }
        ensures sound { fault_in result ≡ None }
    {
        let key = BodyKey {
            file: *file,
            object,
            version: *version,
        };
        let Some(place) = self.places.place(&key) else {
            return Err(BodyErr::NoSuchVersion);
        };
        match Octets::of(alloc, body_in(&self.records[place])) {
            Ok(body) => Ok(body),
            Err(_) => Err(BodyErr::OutOfMemory),
        }
    }

    /// How many bytes that body has; none where no record put it. It isn't copied.
    pub fn body_length(&self, file: &FileId, object: u64, version: &Stamp) -> Option<usize>
        ensures { result ≡
            option_map length (body_kept (records_in self.now) file.now object version.now) }
    {
        let key = BodyKey {
            file: *file,
            object,
            version: *version,
        };
        match self.places.place(&key) {
            Some(place) => Some(body_in(&self.records[place]).len()),
            None => None,
        }
    }
}
