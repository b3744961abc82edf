ghost use Rattle.std.specs.Prelude.{◌≡◌, ◌≤◌, ◌<◌, IsTrue, map, take, length, vec_len, vec_capacity};
ghost use Rattle.xt_base.specs.declared.ids.Stamp.{Stamp};
ghost use Rattle.xt_messages.specs.Limits.{rise};
ghost use Rattle.xt_protocol.specs.Heads.{version_of, with_version, versions_below};
ghost use Rattle.object_versions.specs.Rising.{IsVersionPlace};

use xt_base::Stamp;
use xt_messages::ObjectVersion;

/// Where the version of an object stands, or else belongs, among versions that rise by object.
fn version_place(versions: &[ObjectVersion], object: u64) -> Result<usize, usize>
    requires { IsTrue (rise (map (λ v. v.object) versions.now)) }
    ensures { IsVersionPlace versions.now object result }
{
    let place = versions.partition_point(|other| other.object < object);
    if place == versions.len() {
        return Err(place);
    }
    if versions[place].object != object {
        return Err(place);
    }
    Ok(place)
}

/// The version of an object, none where no update made it. The versions are searched by halves.
pub fn version_of(versions: &[ObjectVersion], object: u64) -> Option<Stamp>
    requires { IsTrue (rise (map (λ v. v.object) versions.now)) }
    ensures { result ≡ version_of versions.now object }
{
    match version_place(versions, object) {
        Ok(place) => Some(versions[place].version),
        Err(_) => None,
    }
}

/// How many versions there are with one of this object.
pub fn versions_with(versions: &[ObjectVersion], object: u64) -> usize
    requires { IsTrue (rise (map (λ v. v.object) versions.now)) }
    ensures { (version : Stamp) → result ≡ length (with_version versions.now object version) }
{
    match version_place(versions, object) {
        Ok(_) => versions.len(),
        Err(_) => versions.len() + 1,
    }
}

/// Puts the version of an object into its place. It takes no memory.
pub fn put_version(versions: &mut Vec<ObjectVersion>, row: ObjectVersion)
    requires rising { IsTrue (rise (map (λ v. v.object) versions.old.items)) }
    requires room { vec_len versions.old < vec_capacity versions.old }
    ensures { versions.new.items ≡ with_version versions.old.items row.object row.version }
{
    match version_place(versions.as_slice(), row.object) {
        Ok(place) => versions[place] = row,
        Err(place) => versions.insert(place, row).unwrap(),
    }
}

/// How many of the versions are of objects below this one.
pub fn objects_below(versions: &[ObjectVersion], from: u64) -> usize
    requires { IsTrue (rise (map (λ v. v.object) versions.now)) }
    ensures few { result ≤ length versions.now }
    ensures below { take result versions.now ≡ versions_below versions.now from }
{
    versions.partition_point(|other| other.object < from)
}

/// Drops the versions of the objects from this one on.
pub fn drop_versions(versions: &mut Vec<ObjectVersion>, from: u64)
    requires { IsTrue (rise (map (λ v. v.object) versions.old.items)) }
    ensures items { versions.new.items ≡ versions_below versions.old.items from }
    ensures few { vec_len versions.new ≤ vec_len versions.old }
    ensures room { vec_capacity versions.new ≡ vec_capacity versions.old }
    ensures rising { IsTrue (rise (map (λ v. v.object) versions.new.items)) }
{
    let place = objects_below(versions.as_slice(), from);
    versions.truncate(place);
}
