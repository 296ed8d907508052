//! The bounds over some atoms.

ghost use Rattle.std.specs.Prelude.{◌≡◌, [], ◌++◌, if◌then◌else◌, OnOk, IfOk};
ghost use Rattle.std.specs.List.{flat_map};
ghost use Rattle.schemas.specs.Bounds.{is_variable as is_var, bounds_by, bounds as bounds_of};

use crate::atom::{Atom, Bound, copy_atom};
use c_tree::{BinOp, NoMemory};
use std::alloc::Global;

/// The comparisons (C11 6.5.8, 6.5.9), in the order in which they are tried.
const COMPARISONS: [BinOp; 6] = [
    BinOp::Eq,
    BinOp::Ne,
    BinOp::Lt,
    BinOp::Le,
    BinOp::Gt,
    BinOp::Ge,
];

/// Whether the atom is a variable.
fn is_variable(atom: &Atom) -> bool
    ensures { result ≡ is_var atom.now }
{
    match atom {
        Atom::Var { .. } => true,
        Atom::Num { .. } => false,
    }
}

/// Adds the comparisons of two atoms.
fn add_pair(alloc: Global, found: &mut Vec<Bound>, x: &Atom, y: &Atom) -> Result<(), NoMemory>
    ensures { OnOk result (found.new.items ≡ found.old.items ++ bounds_by x.now y.now) }
{
    for op in COMPARISONS {
        found.push(Bound {
            left: copy_atom(alloc, x)?,
            op,
            right: copy_atom(alloc, y)?,
        })?;
    }
    Ok(())
}

/// Adds the comparisons of an atom with each later one.
fn add_later(
    alloc: Global,
    found: &mut Vec<Bound>,
    x: &Atom,
    later: &[Atom],
) -> Result<(), NoMemory>
    ensures { OnOk result (found.new.items ≡ found.old.items ++ flat_map (bounds_by x.now) later.now) }
{
    for y in later {
        add_pair(alloc, found, x, y)?;
    }
    Ok(())
}

/// Adds the bounds of an atom, if it is a variable, by each later one.
fn add_bounds(
    alloc: Global,
    found: &mut Vec<Bound>,
    x: &Atom,
    later: &[Atom],
) -> Result<(), NoMemory>
    ensures { OnOk result (found.new.items
        ≡ found.old.items ++ (if is_var x.now then flat_map (bounds_by x.now) later.now else [])) }
{
    if is_variable(x) {
        return add_later(alloc, found, x, later);
    }
    Ok(())
}

/// The bounds over the atoms: the comparisons of a variable with an atom after it, by the variable, then by the atom
/// after it, then by the comparison.
///
/// # Errors
///
/// `NoMemory` where memory runs out.
pub fn bounds(alloc: Global, atoms: &[Atom]) -> Result<Vec<Bound>, NoMemory>
    ensures { IfOk result (λ r. r.items ≡ bounds_of atoms.now) }
{
    let mut found = Vec::new(alloc);
    for (i, x) in atoms.iter().enumerate() {
        add_bounds(alloc, &mut found, x, &atoms[i + 1..])?;
    }
    Ok(found)
}
