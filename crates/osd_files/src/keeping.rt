ghost use Rattle.std.specs.Prelude.{◌≡◌, ◌++◌, OnOk};
ghost use Rattle.xt_protocol.specs.Forgetting.{file_without, needed_of};
ghost use Rattle.osd_files.specs.Views.{shown};

use crate::parts::Parts;
use object_versions::{NeededVersions, SoughtBodies, SoughtVersions, keep_needed};
use xt_base::OutOfMemory;
use xt_messages::Keep;

/// Puts the held bodies that the file needs after those that are to be kept already: those of its head, those that its primary
/// needs, and those that were staged since its last head or update.
pub fn keep_held(file: &Parts, keep: &mut Keep) -> Result<(), OutOfMemory>
    ensures { OnOk result (keep.new ≡
        keep.old ++ needed_of file.now.awake.node (shown file.now).state) }
{
    let needed = NeededVersions {
        head: SoughtVersions::of(file.replica.head().versions.as_slice()),
        led: SoughtVersions::of(file.lead.needs()),
        staged: &file.staged,
    };
    keep_needed(keep, &file.replica.file(), &needed, file.replica.held())
}

/// Forgets the held bodies of the file that aren't to be kept. It takes no memory.
pub fn forget(file: &mut Parts, keep: &SoughtBodies<'_>)
    ensures { shown file.new ≡
        record (shown file.old) { state = file_without keep.now (shown file.old).state } }
{
    file.replica.forget(keep);
}
