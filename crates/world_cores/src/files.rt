//! The files that a metadata server has made.
ghost use Rattle.std.specs.Prelude.{◌≡◌, IfOk};
ghost use Rattle.world_spec.specs.Lines.{files_in};

use mrc_core::Mrc;
use std::alloc::Global;
use world_spec::PlacedFile;
use xt_base::OutOfMemory;

/// The files that a metadata server has made, in the order of making, and where each was placed.
#[tactic(auto, using(crate::proofs::Listing::next_placed, crate::proofs::Listing::none_placed))]
pub fn files_of(alloc: Global, mrc: &Mrc) -> Result<Vec<PlacedFile>, OutOfMemory>
    ensures { IfOk result (λ files. files.items ≡ files_in mrc.now.state.catalogue) }
{
    let count = mrc.made_count();
    let mut files = Vec::with_capacity(alloc, count)?;
    for place in 0..count {
        if let Some(made) = mrc.made_at(place) {
            files.push(PlacedFile {
                file: made.file,
                location: made.location,
            })?;
        }
    }
    Ok(files)
}
