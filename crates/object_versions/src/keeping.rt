ghost use Rattle.std.specs.Prelude.{◌≡◌, ◌++◌, ◌||◌, IsTrue, OnOk, filter};
ghost use Rattle.xt_protocol.specs.Forgetting.{is_kept};
ghost use Rattle.xt_protocol.specs.Stamps.{has_version};
ghost use Rattle.object_versions.specs.Keeping.{bodies_rise, body_before, is_body, needed_among};

use crate::held::{has_version, held_rise, holds, is_held};
use crate::orders::{comes_before, is_version};
use std::cmp::Ordering;
use std::marker::Model;
use xt_base::{FileId, OutOfMemory};
use xt_messages::{HeldSet, Keep, KeepBody, ObjectVersion};

/// Versions among which others are sought: by halves where they rise, and one by one where they don't. Contracts see the list.
#[derive(Drop)]
pub struct SoughtVersions<'a> {
    versions: &'a [ObjectVersion],
    rise: bool,
}

impl<'a> Model for SoughtVersions<'a> {
    ghost use Rattle.std.specs.Prelude.{List, ◌≡◌};
    ghost use Rattle.xt_messages.specs.declared.file.ObjectVersion.{ObjectVersion};
    ghost use Rattle.object_versions.specs.Rising.{held_rise};

    ghost Value = { List ObjectVersion };

    ghost view = { λ s. s.versions.now };

    ghost invariant = { λ s. s.rise ≡ held_rise s.versions.now };
}

impl<'a> SoughtVersions<'a> {
    /// These versions. They are gone through once.
    pub fn of(versions: &'a [ObjectVersion]) -> SoughtVersions<'a>
        ensures { result ≡ versions.now }
    {
        SoughtVersions {
            versions,
            rise: held_rise(versions),
        }
    }

    /// Whether this version is among them.
    pub fn has(&self, version: ObjectVersion) -> bool
        ensures { result ≡ has_version self.now version }
    {
        if self.rise {
            is_held(self.versions, version)
        } else {
            has_version(self.versions, version)
        }
    }
}

/// Which versions of a file are needed: those of its head, those on which its primary stands, and those that were staged.
#[derive(Drop)]
pub struct NeededVersions<'a> {
    pub head: SoughtVersions<'a>,
    pub led: SoughtVersions<'a>,
    pub staged: &'a HeldSet,
}

impl<'a> NeededVersions<'a> {
    /// Whether a version is needed.
    fn has(&self, version: ObjectVersion) -> bool
        ensures { result ≡
            (has_version self.now.head version || has_version self.now.led version
            || has_version self.now.staged.now version) }
    {
        self.head.has(version) || self.led.has(version) || holds(self.staged, version)
    }
}

/// Puts the held bodies of a file that are needed after those that are to be kept already, in their order.
pub fn keep_needed(
    keep: &mut Keep,
    file: &FileId,
    needed: &NeededVersions<'_>,
    held: &HeldSet,
) -> Result<(), OutOfMemory>
    ensures { OnOk result (keep.new ≡
        keep.old ++ needed_among file.now needed.now.head needed.now.led needed.now.staged.now
        held.now) }
{
    for version in &held.versions {
        if needed.has(*version) {
            keep.push(KeepBody {
                file: *file,
                object: version.object,
                version: version.version,
            })?;
        }
    }
    Ok(())
}

/// The object and the version of a body.
fn version_in(body: &KeepBody) -> ObjectVersion
    ensures { result ≡ record { object = body.now.object; version = body.now.version } }
{
    ObjectVersion {
        object: body.object,
        version: body.version,
    }
}

/// Whether two are the same body of the same file.
fn is_body(a: &KeepBody, b: &KeepBody) -> bool
    ensures { result ≡ is_body a.now b.now }
{
    a.file == b.file && is_version(version_in(a), version_in(b))
}

/// Whether the first body comes before the second: by file, then by object and stamp.
fn body_before(a: &KeepBody, b: &KeepBody) -> bool
    ensures { result ≡ body_before a.now b.now }
{
    match a.file.cmp(&b.file) {
        Ordering::Less => true,
        Ordering::Equal => comes_before(version_in(a), version_in(b)),
        Ordering::Greater => false,
    }
}

/// Whether each of these bodies comes before the next one.
fn bodies_rise(bodies: &[KeepBody]) -> bool
    ensures { result ≡ bodies_rise bodies.now }
{
    let mut rest = bodies;
    while let [first, others @ ..] = rest {
        if let [second, ..] = others {
            if !body_before(first, second) {
                return false;
            }
        }
        rest = others;
    }
    true
}

/// Whether this body is among these, which rise and are searched by halves.
fn is_among(bodies: &[KeepBody], body: &KeepBody) -> bool
    requires { IsTrue (bodies_rise bodies.now) }
    ensures { result ≡
        is_kept bodies.now body.now.file
        (record { object = body.now.object; version = body.now.version }) }
{
    let place = bodies.partition_point(|other| body_before(other, body));
    if place == bodies.len() {
        return false;
    }
    is_body(&bodies[place], body)
}

/// Bodies that are to be kept, among which others are sought: by halves where they rise by file, then by object and stamp, and
/// one by one where they don't. Contracts see the list.
#[derive(Drop)]
pub struct SoughtBodies<'a> {
    bodies: &'a [KeepBody],
    rise: bool,
}

impl<'a> Model for SoughtBodies<'a> {
    ghost use Rattle.std.specs.Prelude.{List, ◌≡◌};
    ghost use Rattle.xt_messages.specs.declared.record.KeepBody.{KeepBody};
    ghost use Rattle.object_versions.specs.Keeping.{bodies_rise};

    ghost Value = { List KeepBody };

    ghost view = { λ s. s.bodies.now };

    ghost invariant = { λ s. s.rise ≡ bodies_rise s.bodies.now };
}

impl<'a> SoughtBodies<'a> {
    /// These bodies. They are gone through once.
    pub fn of(keep: &'a Keep) -> SoughtBodies<'a>
        ensures { result ≡ keep.now }
    {
        let bodies = keep.as_slice();
        SoughtBodies {
            bodies,
            rise: bodies_rise(bodies),
        }
    }

    /// Whether this body of this file is among them.
    pub fn has(&self, file: &FileId, version: ObjectVersion) -> bool
        ensures { result ≡ is_kept self.now file.now version }
    {
        let ObjectVersion { object, version } = version;
        let body = KeepBody {
            file: *file,
            object,
            version,
        };
        if self.rise {
            is_among(self.bodies, &body)
        } else {
            self.bodies.iter().any(|other| is_body(other, &body))
        }
    }
}

/// Forgets the held bodies of a file that aren't to be kept. It takes no memory.
pub fn forget_held(held: &mut HeldSet, file: &FileId, keep: &SoughtBodies<'_>)
    ensures { held.new ≡ filter (is_kept keep.now file.now) held.old }
{
    held.versions.retain(|version| keep.has(file, *version));
}
