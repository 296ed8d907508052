//! The list of a checked program's locations.

ghost use Rattle.std.specs.Prelude.{◌≡◌, ◌≤◌, length, IfOk, IfErr};
ghost use Rattle.c_location.specs.Faults.{Causes};
ghost use Rattle.c_location.specs.Locations.{locations as locations_of};
ghost use Rattle.c_types.specs.Shown.{tree_of};

use c_location::LocFault;
use c_tree::Loc;
use c_types::Typed;
use std::alloc::Global;

/// The locations of the program, in text order, or that they are more than 4,096 and how many.
pub fn locations(alloc: Global, program: &Typed) -> Result<Vec<Loc>, LocFault>
    ensures listed { IfOk result (λ list. list.items ≡ locations_of (tree_of program.now)) }
    ensures few { IfOk result (λ list. length list.items ≤ 4096) }
    ensures refused { IfErr result (λ fault. Causes fault (locations_of (tree_of program.now))) }
{
    c_location::locations(alloc, program.program())
}
