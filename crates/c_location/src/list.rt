//! The list of a program's locations.

ghost use Rattle.std.specs.Prelude.{◌≡◌, ◌≤◌, length, IfOk, IfErr};
ghost use Rattle.c_tree.specs.Views.{program as tree_program};
ghost use Rattle.c_location.specs.Locations.{locations as locations_of};
ghost use Rattle.c_location.specs.Faults.{Causes};

use crate::fault::LocFault;
use crate::tally::{LIMIT, Tally};
use crate::walk::add_program;
use c_tree::{Loc, Program};
use std::alloc::Global;

/// The locations of the program, in text order, or that they are more than 4,096 and how many.
pub fn locations(alloc: Global, program: &Program) -> Result<Vec<Loc>, LocFault>
    ensures listed { IfOk result (λ list. list.items ≡ locations_of (tree_program program.now)) }
    ensures few { IfOk result (λ list. length list.items ≤ 4096) }
    ensures refused { IfErr result (λ fault.
        Causes fault (locations_of (tree_program program.now))) }
{
    let mut found = Tally::new(alloc);
    add_program(&mut found, program)?;
    let count = found.count();
    if count as usize > LIMIT {
        return Err(LocFault::TooMany(count));
    }
    Ok(found.into_kept())
}
