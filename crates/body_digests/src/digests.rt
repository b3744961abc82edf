//! The digests of bodies among records.

ghost use Rattle.std.specs.Prelude.{◌≡◌, ◌++◌, ◌∷◌, [], OnOk, if◌then◌else◌};
ghost use Rattle.std.specs.Ordering.{is_eq};
ghost use Rattle.xt_messages.specs.declared.file.ObjectVersion.{ObjectVersion};
ghost use Rattle.xt_protocol.specs.VersionOrder.{version_cmp};
ghost use Rattle.body_digests.specs.Digests.{digests_or_none, digests_under, under_or_none};

use std::alloc::Global;
use std::collections::BTreeMap;
use xt_base::{FileId, OutOfMemory};
use xt_messages::{ObjectVersion, Record};

/// The SHA-256 of a body.
pub type BodyDigest = [u8; 32];

/// The digests of each body of a file, in the order of the records.
type FileDigests = BTreeMap<ObjectVersion, Vec<BodyDigest>>;

/// The digests that records keep, by file and version: those since the file was removed last, in the order of the records.
#[derive(Drop)]
pub struct Digests {
    pub files: BTreeMap<FileId, FileDigests>,
}

/// What was found, or no digests.
fn found_or_none(alloc: Global, found: Option<Vec<BodyDigest>>) -> Vec<BodyDigest>
    ensures { result.items ≡ digests_or_none found }
{
    match found {
        Some(digests) => digests,
        None => Vec::new(alloc),
    }
}

/// What was found, or no bodies.
fn bodies_or_none(alloc: Global, found: Option<FileDigests>) -> FileDigests
    ensures { (v : ObjectVersion) → digests_under result v ≡ under_or_none found v }
{
    match found {
        Some(bodies) => bodies,
        None => BTreeMap::new(alloc),
    }
}

/// Puts a digest of this version after its others.
fn note(
    alloc: Global,
    bodies: &mut FileDigests,
    version: ObjectVersion,
    digest: BodyDigest,
) -> Result<(), OutOfMemory>
    ensures { OnOk result ((v : ObjectVersion) → digests_under bodies.new v ≡
        (if is_eq (version_cmp version v) then digests_under bodies.old v ++ digest ∷ []
        else digests_under bodies.old v)) }
{
    let mut digests = found_or_none(alloc, bodies.remove(&version));
    digests.push(digest)?;
    bodies.insert(version, digests)?;
    Ok(())
}

impl Digests {
    ghost use Rattle.std.specs.Prelude.{◌≡◌, ◌++◌, ◌∷◌, ◌&&◌, [], ℕ, List, IfOk, OnOk, if◌then◌else◌};
    ghost use Rattle.std.specs.Ordering.{is_eq};
    ghost use Rattle.xt_base.specs.declared.ids.FileId.{FileId};
    ghost use Rattle.xt_messages.specs.declared.file.ObjectVersion.{ObjectVersion};
    ghost use Rattle.xt_messages.specs.declared.record.Record.{Record};
    ghost use Rattle.xt_protocol.specs.FileIds.{file_cmp};
    ghost use Rattle.xt_protocol.specs.VersionOrder.{version_cmp};
    ghost use Rattle.body_digests.specs.Digests.{AreDigestsIn, digests_in};

    /// Puts a digest of this version after its others.
    fn put(
        &mut self,
        alloc: Global,
        file: &FileId,
        version: ObjectVersion,
        digest: BodyDigest,
    ) -> Result<(), OutOfMemory>
        ensures { OnOk result ((f : FileId) (v : ObjectVersion) → digests_in self.new f v ≡
            (if is_eq (file_cmp file.now f) && is_eq (version_cmp version v)
            then digests_in self.old f v ++ digest ∷ [] else digests_in self.old f v)) }
    {
        let mut bodies = bodies_or_none(alloc, self.files.remove(file));
        note(alloc, &mut bodies, version, digest)?;
        self.files.insert(*file, bodies)?;
        Ok(())
    }

    /// Drops the digests of a file.
    fn remove(&mut self, file: &FileId)
        ensures { (f : FileId) (v : ObjectVersion) → digests_in self.new f v ≡
            (if is_eq (file_cmp file.now f) then [] else digests_in self.old f v) }
    {
        self.files.remove(file);
    }

    /// Takes the record after the others.
    fn take(&mut self, alloc: Global, rec: &Record) -> Result<(), OutOfMemory>
        ensures { OnOk result ((records : List Record) → AreDigestsIn self.old records →
            AreDigestsIn self.new (records ++ rec.now ∷ [])) }
    {
        match rec {
            Record::Seal {
                file,
                object,
                version,
                digest,
            } => {
                let version = ObjectVersion {
                    object: *object,
                    version: *version,
                };
                self.put(alloc, file, version, *digest)
            }
            Record::Forget { file } => {
                self.remove(file);
                Ok(())
            }
            _ => Ok(()),
        }
    }

    /// The digests that these records keep. They are gone through once.
    pub fn of(alloc: Global, records: &[Record]) -> Result<Digests, OutOfMemory>
        ensures { IfOk result (λ digests. AreDigestsIn digests records.now) }
    {
        let mut digests = Digests {
            files: BTreeMap::new(alloc),
        };
        for rec in records {
            digests.take(alloc, rec)?;
        }
        Ok(digests)
    }

    /// The digests of this version of an object of the file, in the order of the records. The last one counts.
    pub fn of_version(&self, file: &FileId, version: &ObjectVersion) -> &[BodyDigest]
        ensures { result.now ≡ digests_in self.now file.now version.now }
    {
        let Some(bodies) = self.files.get(file) else {
            return &[];
        };
        match bodies.get(version) {
            Some(digests) => digests.as_slice(),
            None => &[],
        }
    }
}
