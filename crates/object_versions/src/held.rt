ghost use Rattle.std.specs.Prelude.{◌≡◌, ◌≤◌, IsTrue, IfOk, OnOk, OnErr};
ghost use Rattle.xt_protocol.specs.Stamps.{has_version, held_from, with_held, without_version};
ghost use Rattle.xt_protocol.specs.ReplicaRows.{first_missing};
ghost use Rattle.object_versions.specs.Rising.{held_rise, IsHeldPlace};

use crate::orders::{comes_before, is_version};
use std::alloc::Global;
use xt_base::OutOfMemory;
use xt_messages::{HeldSet, ObjectVersion};

/// Whether each of these versions comes before the next one.
pub fn held_rise(versions: &[ObjectVersion]) -> bool
    ensures { result ≡ held_rise versions.now }
{
    let mut rest = versions;
    while let [first, others @ ..] = rest {
        if let [second, ..] = others {
            if !comes_before(*first, *second) {
                return false;
            }
        }
        rest = others;
    }
    true
}

/// Whether this version is among these, which are searched one by one.
pub fn has_version(versions: &[ObjectVersion], version: ObjectVersion) -> bool
    ensures { result ≡ has_version versions.now version }
{
    versions.iter().any(|other| is_version(version, *other))
}

/// Where this version stands, or else belongs, among versions that rise.
fn held_place(held: &[ObjectVersion], version: ObjectVersion) -> Result<usize, usize>
    requires { IsTrue (held_rise held.now) }
    ensures { IsHeldPlace held.now version result }
{
    let place = held.partition_point(|other| comes_before(*other, version));
    if place == held.len() {
        return Err(place);
    }
    if !is_version(held[place], version) {
        return Err(place);
    }
    Ok(place)
}

/// Whether this version is among these, which rise and are searched by halves.
pub fn is_held(held: &[ObjectVersion], version: ObjectVersion) -> bool
    requires { IsTrue (held_rise held.now) }
    ensures { result ≡ has_version held.now version }
{
    match held_place(held, version) {
        Ok(_) => true,
        Err(_) => false,
    }
}

/// Whether a version is held.
pub fn holds(held: &HeldSet, version: ObjectVersion) -> bool
    ensures { result ≡ has_version held.now version }
{
    held.versions.contains(&version)
}

/// The first of the versions that isn't held.
pub fn first_missing(held: &HeldSet, wanted: &[ObjectVersion]) -> Option<ObjectVersion>
    ensures { result ≡ first_missing held.now wanted.now }
{
    wanted
        .iter()
        .copied()
        .find(|version| !holds(held, *version))
}

/// Holds a version from now on. Where memory runs out, the held ones are as they were.
pub fn hold(held: &mut HeldSet, version: ObjectVersion) -> Result<(), OutOfMemory>
    ensures held { OnOk result (held.new ≡ with_held held.old version) }
    ensures same { OnErr result (held.new ≡ held.old) }
{
    let _is_new = held.versions.insert(version)?;
    Ok(())
}

/// Holds a version no longer.
pub fn let_go(held: &mut HeldSet, version: ObjectVersion)
    ensures { held.new ≡ without_version held.old version }
{
    held.versions.retain(|other| !is_version(version, *other));
}

/// These versions, held one after the other.
pub fn held_from(alloc: Global, versions: &[ObjectVersion]) -> Result<HeldSet, OutOfMemory>
    ensures { IfOk result (λ held. held ≡ held_from versions.now) }
{
    let mut held = HeldSet::new(alloc);
    for version in versions {
        hold(&mut held, *version)?;
    }
    Ok(held)
}
