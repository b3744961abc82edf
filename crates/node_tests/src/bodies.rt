//! That bodies that are put in a real file are found there, and found again once it is loaded anew. Contracts know how long a body is
//! that is read from a file, and not which bytes it has.
ghost use Rattle.std.specs.Prelude.{◌≤◌, ◌<◌, ◌^◌, IfOk, length};
ghost use Rattle.xt_base.specs.declared.TheConstants.{BODY};
ghost use Rattle.xt_messages.specs.Limits.{FitsRecord};
ghost use Rattle.xt_messages.specs.declared.record.Folded.{Folded};
ghost use Rattle.xt_protocol.specs.Folds.{IsInPlace};

use crate::OTHERWISE;
use crate::journals::LIMIT;
use disk_model::{Disk, FileDisk};
use object_store::Store;
use std::alloc::Global;
use std::test::*;
use std::{env, fs};
use xt_base::{Epoch, FileId, NodeId, Octets, OutOfMemory, Stamp, VolumeId};
use xt_journal::Journal;
use xt_messages::Record;

/// The file whose objects have the bodies.
const FILE: FileId = FileId {
    volume: VolumeId::NIL,
    number: 1,
};

/// Their version.
const VERSION: Stamp = Stamp {
    epoch: Epoch {
        number: 1,
        node: NodeId(1),
    },
    count: 1,
};

/// The record that puts these bytes as the body of an object.
fn stage(alloc: Global, object: u64, body: &[u8]) -> Result<Record, OutOfMemory>
    requires { length body.now ≤ BODY }
    ensures fits { IfOk result FitsRecord }
    ensures placed { IfOk result (λ rec. (folded : Folded) → IsInPlace folded rec) }
{
    Ok(Record::Stage {
        file: FILE,
        object,
        version: VERSION,
        bytes: Octets::of(alloc, body)?,
    })
}

/// The store of the records on a disk.
fn loaded<D: Disk>(alloc: Global, disk: D) -> Option<Store<D>> {
    let Ok((journal, extents)) = Journal::load(alloc, disk, LIMIT) else {
        return None;
    };
    Store::load(alloc, journal, extents.as_slice()).ok()
}

/// The store with these bytes put as the body of an object.
fn with_body<D: Disk>(alloc: Global, store: Store<D>, object: u64, body: &[u8]) -> Option<Store<D>>
    requires { length body.now ≤ BODY }
{
    let Ok(rec) = stage(alloc, object, body) else {
        return None;
    };
    store.put(alloc, &rec).ok()
}

/// The body that is put last for object 1, after another one of the same version.
const LAST: &[u8] = b"the later one";

/// The body of object 2.
const OTHER: &[u8] = b"another";

/// The store with these bodies.
fn with_bodies<D: Disk>(alloc: Global, store: Store<D>) -> Option<Store<D>> {
    let store = with_body(alloc, store, 1, b"the first one")?;
    let store = with_body(alloc, store, 2, OTHER)?;
    with_body(alloc, store, 1, LAST)
}

/// Whether these bytes are found as the body of an object.
fn finds<D: Disk>(alloc: Global, store: &Store<D>, object: u64, body: &[u8]) -> bool {
    match store.find(alloc, &FILE, object, &VERSION) {
        Ok(found) => found.as_slice() == body,
        Err(_) => false,
    }
}

/// Whether each of the two bodies is found.
fn finds_both<D: Disk>(alloc: Global, store: &Store<D>) -> bool {
    finds(alloc, store, 1, LAST) && finds(alloc, store, 2, OTHER)
}

/// The disk with the file at this path.
fn attached<D: Disk>(disk: D, path: &str) -> Option<D> {
    let mut disk = disk;
    if disk.attach(path).is_ok() {
        Some(disk)
    } else {
        None
    }
}

/// Whether bodies that are put in the file at this path are found there.
fn keeps_bodies<D: Disk>(alloc: Global, disk: D, path: &str) -> bool {
    let Some(disk) = attached(disk, path) else {
        return false;
    };
    let Some(store) = loaded(alloc, disk) else {
        return false;
    };
    let Some(store) = with_bodies(alloc, store) else {
        return false;
    };
    finds_both(alloc, &store)
}

/// Whether they are found once the file is loaded.
fn has_bodies<D: Disk>(alloc: Global, disk: D, path: &str) -> bool {
    let Some(disk) = attached(disk, path) else {
        return false;
    };
    match loaded(alloc, disk) {
        Some(store) => finds_both(alloc, &store),
        None => false,
    }
}

#[test]
fn a_file_gives_bodies_back(rt: HostRuntime) {
    let folder = env::temp_dir(&rt).ok().expect(&rt, OTHERWISE);
    let path = folder.join(rt.alloc(), "xtfs-bodies-test");
    let path = path.ok().expect(&rt, OTHERWISE);
    let _ = fs::remove_file(&rt, path.as_path());
    assert!(rt; keeps_bodies(rt.alloc(), FileDisk::new(&rt), path.as_str()));
    assert!(rt; has_bodies(rt.alloc(), FileDisk::new(&rt), path.as_str()));
    assert!(rt; fs::remove_file(&rt, path.as_path()).is_ok());
}
