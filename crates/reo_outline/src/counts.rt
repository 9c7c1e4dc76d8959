//! How many automata each region has.
ghost use Rattle.std.specs.Prelude.{◌+◌, ◌<◌, ◌^◌, All, IfOk};
ghost use Rattle.reo_outline.specs.Counts.{AreCounts, CountsOne};

use std::alloc::{AllocError, Global};

/// Counts an automaton for its region.
fn count_one(counts: &mut [usize], entry: Option<u32>)
    requires { All (λ count. count + 1 < 2 ^ 64) counts.old }
    ensures { CountsOne entry counts.old counts.new }
{
    let Some(region) = entry else {
        return;
    };
    let region = region as usize;
    if region < counts.len() {
        counts[region] += 1;
    }
}

/// How many automata each of the first regions has, by what region each automaton is of.
pub(crate) fn automata_counts(
    alloc: Global,
    region_of: &[Option<u32>],
    regions: usize,
) -> Result<Vec<usize>, AllocError>
    ensures { IfOk result (λ counts. AreCounts regions region_of.now counts.items) }
{
    let mut counts = vec![in alloc; 0usize; regions]?;
    for entry in region_of {
        count_one(counts.as_mut_slice(), *entry);
    }
    Ok(counts)
}
