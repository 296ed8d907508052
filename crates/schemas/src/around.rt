//! The atoms at a location.

ghost use Rattle.std.specs.Prelude.{◌≡◌, ◌-◌, [], ◌∷◌, ◌++◌, map, take, length, OnOk, IfOk};
ghost use Rattle.c_types.specs.Shown.{tree_of};
ghost use Rattle.schemas.specs.Atoms.{atoms_at, variable_atom, numbers as numbers_of, first_variables as variables_of};

use crate::atom::Atom;
use crate::constants::numbers_at;
use c_tree::{Loc, NoMemory, copy_text};
use c_types::{Typed, Visible};
use std::alloc::Global;

/// How many variables are atoms.
const MOST: usize = 8;

/// Adds the variable, if it is a number and there is room for it.
fn add_variable(alloc: Global, found: &mut Vec<Atom>, v: &Visible) -> Result<(), NoMemory>
    ensures { OnOk result (found.new.items
        ≡ found.old.items
        ++ map variable_atom (take (8 - length found.old.items) (numbers_of (v.now ∷ [])))) }
{
    if v.array {
        return Ok(());
    }
    if found.len() >= MOST {
        return Ok(());
    }
    found.push(Atom::Var {
        word: copy_text(alloc, &v.word)?,
        slot: v.slot,
    })?;
    Ok(())
}

/// The first eight of the variables that are numbers.
fn first_variables(alloc: Global, visible: &[Visible]) -> Result<Vec<Atom>, NoMemory>
    ensures { IfOk result (λ r. r.items ≡ variables_of visible.now) }
{
    let mut found = Vec::new(alloc);
    for v in visible {
        add_variable(alloc, &mut found, v)?;
    }
    Ok(found)
}

/// The atoms at the location, in order: the first eight visible variables that are numbers, the innermost scope first;
/// the constants 0 and 1; and of the constants in the body of the function the first four further values, spelled as
/// there. The lengths of arrays, formats and the initialisers of file scope hold no constants of a function.
///
/// # Errors
///
/// `NoMemory` where memory runs out.
pub fn atoms(alloc: Global, program: &Typed, loc: &Loc) -> Result<Vec<Atom>, NoMemory>
    ensures { IfOk result (λ r. r.items ≡ atoms_at loc.now.at.from (tree_of program.now)) }
{
    let visible = program.scope_at(alloc, loc.at.from)?;
    let mut found = first_variables(alloc, &visible)?;
    let mut numbers = numbers_at(alloc, program.program(), loc.at.from)?;
    found.append(&mut numbers)?;
    Ok(found)
}
