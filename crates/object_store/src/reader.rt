ghost use Rattle.object_store.specs.Access.{records_of};
ghost use Rattle.object_store.specs.Readers.{Agrees, agrees_prop, seen_of};

use crate::read_body::ReadBody;
use crate::sought::{copied, sought};
use crate::store::Store;
use disk_model::Disk;
use replica_records::{Bodies, BodyErr, BodyKey};
use std::alloc::Global;
use xt_base::{Copies, FileId, Octets, OutOfMemory, Stamp};

/// The bodies of a store that is only read, so that all that is known of the store stays known.
///
/// Each is read from the disk once, and is given as the same bytes from then on.
#[derive(Drop)]
pub struct Reader<'a, D: Disk> {
    store: &'a Store<D>,
    /// What was read, each body once.
    read: Vec<ReadBody>,
    /// How often the disk has failed, with the reads that failed here.
    faults: u64,
    /// There are records that agree with all that was read.
    pub ghost seen: { Agrees D.is_told (records_of store.now) read.items
        (seen_of D.is_told (records_of store.now) read.items) } by { agrees_prop D.is_told (records_of store.now) read.items
            (seen_of D.is_told (records_of store.now) read.items) },
}

impl<'a, D: Disk> Reader<'a, D> {
    ghost use Rattle.std.specs.Prelude.{◌≡◌, ◌++◌, ◌∷◌, List, [], IfOk, OnOk, OnErr};
    ghost use Rattle.xt_messages.specs.declared.record.Record.{Record};
    ghost use Rattle.replica_records.specs.Known.{Sees};
    ghost use Rattle.object_store.specs.Access.{disk_of, records_of};
    ghost use Rattle.object_store.specs.Readers.{MayBeRead};
    ghost use Rattle.object_store.specs.Seen.{agreed, read_of, store_of};

    /// The bodies of this store, of which nothing was read yet.
    pub fn new(alloc: Global, store: &'a Store<D>) -> Reader<'a, D>
        ensures store { store_of result ≡ store.now }
        ensures nothing { read_of result ≡ [] }
        ensures faults { result.faults ≡ D.fault_count (disk_of store.now) }
        ensures agrees { (records : List Record) →
            Sees D.is_told (records_of store.now) records → agreed result records }
    {
        Reader {
            store,
            read: Vec::new(alloc),
            faults: store.disk().faults(),
        }
    }

    /// Keeps a body that was read just now, and gives a copy of it. Where memory runs out, nothing has changed.
    fn keep(&mut self, alloc: Global, key: BodyKey, bytes: Octets) -> Result<Octets, OutOfMemory>
        requires { MayBeRead D.is_told (records_of (store_of self.old)) (read_of self.old) key bytes }
        ensures store { store_of self.new ≡ store_of self.old }
        ensures faults { self.new.faults ≡ self.old.faults }
        ensures read { OnOk result (read_of self.new ≡
            read_of self.old ++ record { key = key; bytes = bytes } ∷ []) }
        ensures same { OnErr result (read_of self.new ≡ read_of self.old) }
        ensures copy { IfOk result (λ made. made ≡ bytes) }
    {
        let copy = bytes.copy(alloc)?;
        self.read.push(ReadBody { key, bytes })?;
        Ok(copy)
    }
}

impl<'a, D: Disk> Bodies for Reader<'a, D> {
    ghost use Rattle.object_store.specs.Access.{records_of};
    ghost use Rattle.object_store.specs.Readers.{seen_of};
    ghost use Rattle.object_store.specs.Seen.{agreed, read_of, store_of};

    ghost agrees = { agreed };

    ghost some = { λ reader.
        (seen_of D.is_told (records_of (store_of reader)) (read_of reader), reader.seen) };

    ghost fault_count = { λ reader. reader.faults };

    fn body(
        &mut self,
        alloc: Global,
        file: &FileId,
        object: u64,
        version: &Stamp,
    ) -> Result<Octets, BodyErr> {
        let key = BodyKey {
            file: *file,
            object,
            version: *version,
        };
        if let Some(bytes) = sought(self.read.as_slice(), &key) {
            return copied(alloc, bytes);
        }
        match self.store.find(alloc, file, object, version) {
            Ok(bytes) => match self.keep(alloc, key, bytes) {
                Ok(copy) => Ok(copy),
                Err(_) => Err(BodyErr::OutOfMemory),
            },
            Err(BodyErr::NoSuchVersion) => Err(BodyErr::NoSuchVersion),
            Err(BodyErr::OutOfMemory) => Err(BodyErr::OutOfMemory),
            Err(BodyErr::Failed { .. }) => {
                self.faults = self.faults.saturating_add(1);
                Err(BodyErr::Failed { count: self.faults })
            }
        }
    }
}
