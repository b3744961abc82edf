ghost use Rattle.std.specs.Prelude.{◌≡◌, ◌++◌, IfOk, OnOk};
ghost use Rattle.replica_records.specs.Heads.{heads_of, named_by};

use std::alloc::Global;
use xt_base::{OutOfMemory, Seq};
use xt_messages::{FileRow, Folded, Keep, KeepBody};

/// Puts the bodies that a row's head names after those that are there already.
fn put_named(keep: &mut Keep, row: &FileRow) -> Result<(), OutOfMemory>
    ensures { OnOk result (keep.new ≡ keep.old ++ named_by row.now) }
{
    for version in row.head.versions.as_slice() {
        keep.push(KeepBody {
            file: row.file,
            object: version.object,
            version: version.version,
        })?;
    }
    Ok(())
}

/// The bodies that the heads of all files name, file by file.
pub fn heads(alloc: Global, folded: &Folded) -> Result<Keep, OutOfMemory>
    ensures { IfOk result (λ keep. keep ≡ heads_of folded.now) }
{
    let mut keep = Seq::new(alloc);
    for row in folded.files.as_slice() {
        put_named(&mut keep, row)?;
    }
    Ok(keep)
}
