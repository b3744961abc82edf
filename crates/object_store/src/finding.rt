//! Bodies that are read from the disk.
ghost use Rattle.std.specs.Prelude.{◌≡◌, IfOk, length};
ghost use Rattle.xt_base.specs.FieldLimits.{AreBytes};
ghost use Rattle.object_store.specs.declared.finding.LookErr.TheVariants.{OutOfMemory};

use crate::place::BodyPlace;
use crate::store::Store;
use disk_model::Disk;
use replica_records::BodyErr;
use std::alloc::{AllocError, Global};
use xt_base::{Failed, FileId, Octets, OutOfMemory, Stamp};

/// Why bytes weren't read.
#[derive(Clone, Copy)]
pub enum LookErr {
    /// The disk failed.
    Failed,
    OutOfMemory,
}

impl From<AllocError> for LookErr {
    ghost from_gives = { λ _ made. made ≡ OutOfMemory };

    fn from(_: AllocError) -> LookErr {
        LookErr::OutOfMemory
    }
}

/// A buffer of this many bytes.
fn buffer(alloc: Global, len: usize) -> Result<Vec<u8>, OutOfMemory>
    ensures { IfOk result (λ made. length made.items ≡ len) }
{
    vec![in alloc; 0; len]
}

/// What a slice has are bytes. Callers whose contracts say so call it, and it does nothing.
fn are_bytes(_bytes: &[u8])
    ensures { AreBytes _bytes.now }
{}

impl<D: Disk> Store<D> {
    ghost use Rattle.std.specs.Prelude.{◌≡◌, ◌≢◌, ◌↔◌, List, true, Some, None, Err, IfOk, IfSome, IsTrue, Contains, length};
    ghost use Rattle.std.specs.Option.{option_map};
    ghost use Rattle.xt_base.specs.FieldLimits.{AreBytes};
    ghost use Rattle.xt_base.specs.Faults.{fault_count_after};
    ghost use Rattle.xt_protocol.specs.Folds.{body_kept};
    ghost use Rattle.object_versions.specs.declared.errors.BodyErr.TheVariants.{NoSuchVersion};
    ghost use Rattle.object_versions.specs.KeptBodies.{fault_in};
    ghost use Rattle.object_store.specs.Access.{records_of, disk_of};
    ghost use Rattle.object_store.specs.Logs.{places_in};
    ghost use Rattle.object_store.specs.Places.{bytes_at};
    ghost use Rattle.object_store.specs.declared.finding.LookErr.TheVariants as look;

    /// The bytes in this place, by one read of the disk.
    fn look(&self, alloc: Global, place: BodyPlace) -> Result<Octets, LookErr>
        requires { Contains (places_in self.now.log) place }
        ensures size { IfOk result (λ bytes. length bytes ≡ place.len) }
        ensures value { IsTrue D.is_told → IfOk result (λ bytes.
            bytes ≡ bytes_at true (D.kept (disk_of self.now)).read place) }
        ensures sure { IsTrue D.is_told → result ≢ Err look.Failed }
        ensures bytes { IfOk result AreBytes }
    {
        let mut bytes = buffer(alloc, place.len)?;
        match self.journal.disk().look(place.at, bytes.as_mut_slice()) {
            Ok(()) => {
                let bytes = Octets::from_vec(bytes)?;
                are_bytes(bytes.as_slice());
                Ok(bytes)
            }
            Err(Failed) => Err(LookErr::Failed),
        }
    }

    /// The body that was put last as this version of this object of the file, by one read of the disk.
    ///
    /// Where contracts know what the disk keeps, it is that very body, and no read fails. Elsewhere they know how long it is. A read that
    /// fails is reported with the disk's count of faults as it is once that failure is counted.
    pub fn find(
        &self,
        alloc: Global,
        file: &FileId,
        object: u64,
        version: &Stamp,
    ) -> Result<Octets, BodyErr>
        ensures size { IfOk result (λ bytes.
            option_map length (body_kept (records_of self.now) file.now object version.now)
            ≡ Some (length bytes)) }
        ensures value { IsTrue D.is_told → IfOk result (λ bytes.
            body_kept (records_of self.now) file.now object version.now ≡ Some bytes) }
        ensures missing { (result ≡ Err NoSuchVersion) ↔
            (body_kept (records_of self.now) file.now object version.now ≡ None) }
        ensures failed { IfSome (fault_in result) (λ count.
            count ≡ fault_count_after true (D.fault_count (disk_of self.now))) }
        ensures sure { IsTrue D.is_told → fault_in result ≡ None }
        ensures bytes { IfOk result AreBytes }
    {
        let Some(place) = self.log.place(file, object, version) else {
            return Err(BodyErr::NoSuchVersion);
        };
        match self.look(alloc, place) {
            Ok(bytes) => Ok(bytes),
            Err(LookErr::Failed) => Err(BodyErr::Failed {
                count: self.disk().faults().saturating_add(1),
            }),
            Err(LookErr::OutOfMemory) => Err(BodyErr::OutOfMemory),
        }
    }
}
