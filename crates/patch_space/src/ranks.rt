//! The ranks of patches by their locations.

ghost use Rattle.std.specs.Prelude.{◌≡◌, ℕ, ◌<◌, ◌++◌, [], ◌∷◌, ◌^◌, length, map, nat_eq, if◌then◌else◌, slice_get, option_map, Some, IfOk, OnOk};
ghost use Rattle.patch_space.specs.Ranks.{lists, ranks_at};

use crate::patch::Patch;
use c_tree::NoMemory;
use std::alloc::Global;

/// As many empty lists.
fn empty_lists(alloc: Global, count: usize) -> Result<Vec<Vec<u32>>, NoMemory>
    ensures { IfOk result (λ r. (l : ℕ) → l < count → slice_get (lists r.items) l ≡ Some []) }
{
    let mut at = Vec::new(alloc);
    for _ in 0..count {
        at.push(Vec::new(alloc))?;
    }
    Ok(at)
}

/// Adds the rank to the list of that number, if there is one.
fn add_rank(at: &mut Vec<Vec<u32>>, l: usize, rank: u32) -> Result<(), NoMemory>
    ensures { OnOk result ((k : ℕ) → slice_get (lists at.new.items) k
        ≡ option_map (λ ranks. if nat_eq l k then ranks ++ rank ∷ [] else ranks)
        (slice_get (lists at.old.items) k)) }
{
    if l < at.len() {
        at[l].push(rank)?;
    }
    Ok(())
}

/// For each of as many locations the ranks of its patches, rising.
pub fn ranks_by_location(
    alloc: Global,
    patches: &[Patch],
    locations: usize,
) -> Result<Vec<Vec<u32>>, NoMemory>
    requires { length patches.now < 2 ^ 32 }
    ensures { IfOk result (λ r. (l : ℕ) → l < locations
        → slice_get (lists r.items) l ≡ Some (ranks_at l patches.now)) }
{
    let mut at = empty_lists(alloc, locations)?;
    for (i, patch) in patches.iter().enumerate() {
        add_rank(&mut at, patch.loc as usize, i as u32)?;
    }
    Ok(at)
}
