//! The files that the metadata server has made, as the trace reports them.
ghost use Rattle.std.specs.Prelude.{◌≡◌, filter, IfOk};
ghost use Rattle.world_spec.specs.Lines.{is_untold};
ghost use Rattle.world_tables.specs.Places.{AreNumbers};

use std::alloc::Global;
use std::collections::BTreeSet;
use world_spec::PlacedFile;
use xt_base::OutOfMemory;

/// The numbers of these files.
fn numbers_of(alloc: Global, files: &[PlacedFile]) -> Result<BTreeSet<u64>, OutOfMemory>
    ensures { IfOk result (λ numbers. AreNumbers files.now numbers) }
{
    let mut numbers = BTreeSet::new(alloc);
    for file in files {
        numbers.insert(file.file.number)?;
    }
    Ok(numbers)
}

/// Those of these files whose numbers aren't reported yet, in their order. It takes time by the lengths of the two lists together,
/// not by their product, and none where there are no files.
pub fn untold(
    alloc: Global,
    told: &[PlacedFile],
    files: &[PlacedFile],
) -> Result<Vec<PlacedFile>, OutOfMemory>
    ensures { IfOk result (λ left. left.items ≡ filter (is_untold told.now) files.now) }
{
    let mut left = Vec::new(alloc);
    if files.is_empty() {
        return Ok(left);
    }
    let numbers = numbers_of(alloc, told)?;
    for file in files {
        if !numbers.contains(&file.file.number) {
            left.push(*file)?;
        }
    }
    Ok(left)
}
