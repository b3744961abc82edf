use crate::OTHERWISE;
use crate::journals::{LIMIT, ONE, append, load};
use disk_model::{Disk, FileDisk};
use std::alloc::Global;
use std::fs::File;
use std::rt::Files;
use std::test::*;
use std::{env, fs};

/// Whether a new journal on this disk gets one record.
fn appends_one<D: Disk>(alloc: Global, disk: D) -> bool {
    let Some(loaded) = load(alloc, disk, LIMIT).ok() else {
        return false;
    };
    let appended = append(alloc, loaded.journal).ok();
    let is_appended = appended.is_some();
    drop(appended);
    is_appended
}

/// Whether a disk has no length before it is attached, and writes a journal with one record to the file at this path then.
fn writes_one<D: Disk>(alloc: Global, disk: D, path: &str) -> bool {
    let mut disk = disk;
    disk.length().is_err() && disk.attach(path).is_ok() && appends_one(alloc, disk)
}

/// Whether one disk writes that journal to the file at this path, and another one reads it there, and not a byte more.
fn keeps_one<R: Files<File = File>>(rt: &R, alloc: Global, path: &str) -> bool {
    let written = writes_one(alloc, FileDisk::new(rt), path);
    let mut disk = FileDisk::new(rt);
    let mut bytes = [0; 27];
    written
        && disk.attach(path).is_ok()
        && disk.read(0, &mut bytes).is_ok()
        && bytes == ONE
        && disk.read(1, &mut bytes).is_err()
        && disk.faults() == 1
}

/// Whether a disk that has the file at this path keeps every other one from it until it is dropped.
fn has_it_alone<R: Files<File = File>>(rt: &R, path: &str) -> bool {
    let mut one = FileDisk::new(rt);
    let mut other = FileDisk::new(rt);
    let refused = one.attach(path).is_ok() && other.attach(path).is_err() && other.faults() == 1;
    drop(one);
    refused && other.attach(path).is_ok()
}

#[test]
fn a_file_keeps_what_it_was_given(rt: HostRuntime) {
    let folder = env::temp_dir(&rt).ok().expect(&rt, OTHERWISE);
    let path = folder.join(rt.alloc(), "xtfs-disk-test");
    let path = path.ok().expect(&rt, OTHERWISE);
    let _ = fs::remove_file(&rt, path.as_path());
    assert!(rt; keeps_one(&rt, rt.alloc(), path.as_str()));
    assert!(rt; has_it_alone(&rt, path.as_str()));
    assert!(rt; fs::remove_file(&rt, path.as_path()).is_ok());
}
