//! The fate of each file.
ghost use Rattle.std.specs.Prelude.{◌≡◌, IfOk};
ghost use Rattle.orphan_sweep.specs.Fates.{fates_of};

use crate::fate::{Fate, fate_by};
use std::alloc::Global;
use std::collections::BTreeMap;
use xt_base::{FileId, OutOfMemory, Times};
use xt_messages::Folded;

/// The files that the metadata server made, each with the clock at which it was unlinked, if it was.
#[derive(Drop)]
pub struct MadeFiles {
    files: BTreeMap<FileId, Option<u64>>,
}

impl MadeFiles {
    ghost use Rattle.std.specs.Prelude.{◌≡◌, IfOk};
    ghost use Rattle.orphan_sweep.specs.Fates.{AreKnownIn, known_in};

    /// These files, each as the last entry of it says. They are gone through once.
    fn of(alloc: Global, files: &[(FileId, Option<u64>)]) -> Result<MadeFiles, OutOfMemory>
        ensures { IfOk result (λ made. AreKnownIn made files.now) }
    {
        let mut made = MadeFiles {
            files: BTreeMap::new(alloc),
        };
        for (file, unlinked) in files {
            made.files.insert(*file, *unlinked)?;
        }
        Ok(made)
    }

    /// What is known of a file: whether it was made, and the clock at which it was unlinked, if it was.
    fn known(&self, file: &FileId) -> Option<Option<u64>>
        ensures { result ≡ known_in self.now file.now }
    {
        self.files.get(file).copied()
    }
}

/// The fate of each file of an OSD at this clock, in the order of its files: by the files that the metadata server made, each with the clock
/// at which it was unlinked, if it was. Clocks are in milliseconds.
pub fn judge_files(
    alloc: Global,
    folded: &Folded,
    files: &[(FileId, Option<u64>)],
    times: &Times,
    now: u64,
) -> Result<Vec<(FileId, Fate)>, OutOfMemory>
    ensures { IfOk result (λ fates. fates.items ≡
        fates_of folded.now files.now times.now now) }
{
    let made = MadeFiles::of(alloc, files)?;
    let mut fates = Vec::new(alloc);
    for row in folded.files.as_slice() {
        fates.push((row.file, fate_by(made.known(&row.file), times, now)))?;
    }
    Ok(fates)
}
