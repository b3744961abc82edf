ghost use Rattle.std.specs.Prelude.{◌≡◌, ◌↔◌, ℕ, List, Some, None, Err, IfOk, IfSome, IfNone};
ghost use Rattle.xt_base.specs.Faults.{Rose};
ghost use Rattle.xt_messages.specs.declared.record.Record.{Record};
ghost use Rattle.xt_protocol.specs.Folds.{body_kept};
ghost use Rattle.xt_protocol.specs.SeenBodies.{body_by};
ghost use Rattle.object_versions.specs.declared.errors.BodyErr.TheVariants.{NoSuchVersion};
ghost use Rattle.object_versions.specs.declared.errors.StepErr.TheVariants.{BodyLost};
ghost use Rattle.object_versions.specs.KeptBodies.{fault_in, fault_of, ReadsOnly};

use crate::errors::{BodyErr, StepErr};
use std::alloc::Global;
use xt_base::{FileId, Octets, Stamp};

/// What gives back the bodies that were recorded.
///
/// Contracts don't know what a real disk gives. So what a step makes of the bodies that it reads is said for each list of records that
/// agrees with them; where the contents are known, that is one list alone.
pub trait Bodies {
    /// The lists of records that agree with all that was read so far, the first record first.
    ghost agrees: { Self → List Record → Type 0 };

    /// There is such a list at any time.
    ghost some: { (bodies : Self) → (records : List Record) × agrees bodies records };

    /// How often reading has failed, up to the greatest 64-bit number.
    ghost fault_count: { Self → ℕ };

    /// The body that was recorded last as this version of this object of the file.
    fn body(
        &mut self,
        alloc: Global,
        file: &FileId,
        object: u64,
        version: &Stamp,
    ) -> Result<Octets, BodyErr>
        ensures found { IfOk result (λ bytes. (records : List Record) → agrees self.new records →
            body_kept records file.now object version.now ≡ Some bytes) }
        ensures missing { (records : List Record) → agrees self.new records →
            (result ≡ Err NoSuchVersion) ↔
            (body_kept records file.now object version.now ≡ None) }
        ensures failed { IfSome (fault_in result) (λ count.
            (count ≡ fault_count self.new) × Rose (fault_count self.old) (fault_count self.new)) }
        ensures sound { IfNone (fault_in result) (fault_count self.new ≡ fault_count self.old) }
        ensures later { (records : List Record) → agrees self.new records →
            agrees self.old records };
}

/// No record put this body.
fn lost(file: &FileId, object: u64, version: &Stamp) -> StepErr
    ensures { result ≡ BodyLost file.now object version.now }
{
    StepErr::BodyLost {
        file: *file,
        object,
        version: *version,
    }
}

/// The body as a step sees it. One that no record put is reported as lost, and never as an empty one.
pub fn seen<B: Bodies>(
    bodies: &mut B,
    alloc: Global,
    file: &FileId,
    object: u64,
    version: &Stamp,
) -> Result<Octets, StepErr>
    ensures kept { IfOk result (λ bytes. (records : List Record) → B.agrees bodies.new records →
        body_kept records file.now object version.now ≡ Some bytes) }
    ensures lost { (records : List Record) → B.agrees bodies.new records →
        (result ≡ Err (BodyLost file.now object version.now)) ↔
        (body_kept records file.now object version.now ≡ None) }
    ensures value { IfOk result (λ bytes. (records : List Record) → B.agrees bodies.new records →
        bytes ≡ body_by records file.now object version.now) }
    ensures reads { ReadsOnly B.agrees B.fault_count bodies.old bodies.new (fault_of result) }
{
    match bodies.body(alloc, file, object, version) {
        Ok(bytes) => Ok(bytes),
        Err(BodyErr::NoSuchVersion) => Err(lost(file, object, version)),
        Err(BodyErr::Failed { count }) => Err(StepErr::BodyFault { count }),
        Err(BodyErr::OutOfMemory) => Err(StepErr::OutOfMemory),
    }
}
