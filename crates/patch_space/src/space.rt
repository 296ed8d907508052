//! The patches of a program by rank.

ghost use Rattle.std.specs.Prelude.{◌≡◌, ◌↔◌, ◌<◌, ◌≤◌, [], List, ◌++◌, length, map, take, slice_get, IsTrue, IsFalse, Some, IfOk, IfErr, OnOk};
ghost use Rattle.std.specs.List.{flat_map};
ghost use Rattle.c_location.specs.Locations.{locations as locations_of};
ghost use Rattle.c_tree.specs.declared.place.Loc.{Loc};
ghost use Rattle.c_tree.specs.Tree.{Outer};
ghost use Rattle.c_types.specs.Shown.{tree_of};
ghost use Rattle.schemas.specs.Candidates.{candidates as candidates_of};
ghost use Rattle.patch_space.specs.Contents.{IsSpaceOf};
ghost use Rattle.patch_space.specs.Faults.{Causes};
ghost use Rattle.patch_space.specs.Ranks.{ranks_at};
ghost use Rattle.patch_space.specs.Space.{costs, patch_of, patches_from, space};

use crate::fault::SpaceFault;
use crate::patch::Patch;
use crate::ranks::ranks_by_location;
use c_tree::{Loc, LocKind, NoMemory};
use c_types::Typed;
use schemas::{Edit, LocFault, candidates};
use std::alloc::Global;
use std::marker::Model;

/// The costs that patches have, in order.
const COSTS: [u8; 6] = [1, 2, 3, 4, 5, 6];

/// The patches of a program by rank, with all locations of the program. Contracts see both lists.
#[derive(Drop)]
pub struct Space {
    patches: Vec<Patch>,
    locations: Vec<Loc>,
    /// For each location the ranks of its patches, rising.
    ranks: Vec<Vec<u32>>,
}

impl Model for Space {
    ghost use Rattle.std.specs.Prelude.{◌≡◌, ℕ, ◌<◌, ◌^◌, length, slice_get, Some};
    ghost use Rattle.patch_space.specs.Contents.{Contents};
    ghost use Rattle.patch_space.specs.Ranks.{lists, ranks_at};

    ghost Value = { Contents };

    ghost view = { λ s. record { patches = s.patches.items; locations = s.locations.items } };

    ghost invariant = { λ s. (length s.patches.items < 2 ^ 32)
        × (length s.locations.items < 2 ^ 32)
        × ((l : ℕ) → l < length s.locations.items
        → slice_get (lists s.ranks.items) l ≡ Some (ranks_at l s.patches.items)) };
}

impl Space {
    /// The first `max` patches of the program by rank: those of lower cost first, then by their locations in text
    /// order, then in the order of the candidates there. No location after the one that makes them enough is looked at.
    ///
    /// # Errors
    ///
    /// `TooManyLocations` where the program has more than 4,096 locations, and `NoMemory` where memory runs out.
    pub fn build(alloc: Global, program: &Typed, max: u32) -> Result<Space, SpaceFault>
        ensures ranked { IfOk result (λ s. s.patches ≡ space max (tree_of program.now)) }
        ensures located { IfOk result (λ s. s.locations ≡ locations_of (tree_of program.now)) }
        ensures own { IfOk result (IsSpaceOf (tree_of program.now)) }
        ensures few { IfOk result (λ s. length s.locations ≤ 4096) }
        ensures refused { IfErr result (λ fault.
            Causes fault (locations_of (tree_of program.now))) }
    {
        let locations = located(alloc, program)?;
        let patches = first_patches(alloc, program, &locations, max as usize)?;
        let ranks = ranks_by_location(alloc, &patches, locations.len())?;
        Ok(Space {
            patches,
            locations,
            ranks,
        })
    }

    /// How many patches there are. It takes no memory.
    pub fn len(&self) -> u32
        ensures { result ≡ length self.now.patches }
    {
        self.patches.len() as u32
    }

    /// Whether there is no patch. It takes no memory.
    pub fn is_empty(&self) -> bool
        ensures { IsTrue result ↔ (self.now.patches ≡ []) }
    {
        self.patches.is_empty()
    }

    /// The patch of this rank, counted from 0. It takes no memory.
    pub fn patch(&self, i: u32) -> &Patch
        requires { i < length self.now.patches }
        ensures { slice_get self.now.patches i ≡ Some result.now }
    {
        &self.patches[i as usize]
    }

    /// How many locations the program has. It takes no memory.
    pub fn locations(&self) -> u32
        ensures { result ≡ length self.now.locations }
    {
        self.locations.len() as u32
    }

    /// The location of this number, counted from 0 in text order. It takes no memory.
    pub fn location(&self, l: u32) -> &Loc
        requires { l < length self.now.locations }
        ensures { slice_get self.now.locations l ≡ Some result.now }
    {
        &self.locations[l as usize]
    }

    /// The ranks of the patches at the location of this number, rising. It takes no memory.
    pub fn at_location(&self, l: u32) -> &[u32]
        requires { l < length self.now.locations }
        ensures { result.now ≡ ranks_at l self.now.patches }
    {
        &self.ranks[l as usize]
    }

    /// All locations of the program, in text order. It takes no memory.
    pub fn all_locations(&self) -> &[Loc]
        ensures { result.now ≡ self.now.locations }
    {
        &self.locations
    }
}

/// The locations of the program, if they are few enough.
fn located(alloc: Global, program: &Typed) -> Result<Vec<Loc>, SpaceFault>
    ensures located { IfOk result (λ list. list.items ≡ locations_of (tree_of program.now)) }
    ensures few { IfOk result (λ list. length list.items ≤ 4096) }
    ensures refused { IfErr result (λ fault. Causes fault (locations_of (tree_of program.now))) }
{
    match schemas::locations(alloc, program) {
        Ok(list) => Ok(list),
        Err(LocFault::TooMany(count)) => Err(SpaceFault::TooManyLocations(count)),
        Err(LocFault::NoMemory) => Err(SpaceFault::NoMemory),
    }
}

/// Whether locations of this kind have patches of this cost: where not, they have no candidates.
fn has_cost(kind: LocKind, cost: u8) -> bool
    ensures { IsFalse result → (program : List Outer) (location : Loc)
        → location.kind ≡ kind → candidates_of program location cost ≡ [] }
{
    match kind {
        LocKind::Cond => cost <= 5,
        LocKind::Right => cost <= 3,
        LocKind::Guard => cost == 6,
    }
}

/// The candidates of this cost at the location. Where its kind has none, the program isn't looked at.
fn candidates_there(
    alloc: Global,
    program: &Typed,
    location: &Loc,
    cost: u8,
) -> Result<Vec<Edit>, NoMemory>
    ensures { IfOk result (λ edits. edits.items
        ≡ candidates_of (tree_of program.now) location.now cost) }
{
    if has_cost(location.kind, cost) {
        return candidates(alloc, program, location, cost);
    }
    Ok(Vec::new(alloc))
}

/// The patches that make the first `most` of these edits at the location of that number.
fn patches_of(
    alloc: Global,
    cost: u8,
    loc: u32,
    edits: Vec<Edit>,
    most: usize,
) -> Result<Vec<Patch>, NoMemory>
    ensures { IfOk result (λ r. r.items ≡ map (patch_of cost loc) (take most edits.items)) }
{
    edits
        .into_iter()
        .take(most)
        .map(|edit| Patch { cost, loc, edit })
        .collect(alloc)
}

/// Adds the patches of this cost, by location, up to `max` patches in all.
fn add_patches(
    alloc: Global,
    patches: &mut Vec<Patch>,
    program: &Typed,
    locations: &[Loc],
    cost: u8,
    max: usize,
) -> Result<(), NoMemory>
    requires few { length locations.now ≤ 4096 }
    requires room { length patches.old.items ≤ max }
    ensures { OnOk result (patches.new.items
        ≡ take max (patches.old.items ++ patches_from (tree_of program.now) cost 0 locations.now)) }
{
    for (i, location) in locations.iter().enumerate() {
        let room = max - patches.len();
        if room == 0 {
            return Ok(());
        }
        let edits = candidates_there(alloc, program, location, cost)?;
        let mut more = patches_of(alloc, cost, i as u32, edits, room)?;
        patches.append(&mut more)?;
    }
    Ok(())
}

/// The first `max` patches at these locations, by rank.
fn first_patches(
    alloc: Global,
    program: &Typed,
    locations: &[Loc],
    max: usize,
) -> Result<Vec<Patch>, NoMemory>
    requires { length locations.now ≤ 4096 }
    ensures { IfOk result (λ r. r.items
        ≡ take max (flat_map (λ cost. patches_from (tree_of program.now) cost 0 locations.now)
        costs)) }
{
    let mut patches = Vec::new(alloc);
    for cost in COSTS {
        add_patches(alloc, &mut patches, program, locations, cost, max)?;
    }
    Ok(patches)
}
