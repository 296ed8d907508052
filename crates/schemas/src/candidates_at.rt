//! The candidates at a location: its edits, but for those that make the old expression or an earlier one again.

ghost use Rattle.std.specs.Prelude.{◌≡◌, ◌-◌, ◌<◌, IsSome, Some, IfOk, OnOk, option_map};
ghost use Rattle.std.specs.List.{list_any};
ghost use Rattle.c_location.specs.Locations.{part_at as part_there};
ghost use Rattle.c_location.specs.Shown.{lent};
ghost use Rattle.c_tree.specs.Views.{tree, trees};
ghost use Rattle.c_types.specs.Shown.{tree_of};
ghost use Rattle.schemas.specs.Candidates.{is_among as is_one_of, edits_upto, and_made, and_all_made, new_edits as new_edits_of, old as old_of, candidates_of as candidates_by, candidates as candidates_there, made_at};
ghost use Rattle.schemas.specs.Same.{same as same_as};

use crate::around::atoms;
use crate::atom::Atom;
use crate::edit::{Edit, copy_edit, made};
use crate::offered::edits_of;
use c_location::{Part, part_at};
use c_tree::{Expr, Loc, LocKind, NoMemory, copy_expr, same_expr};
use c_types::Typed;
use std::alloc::Global;

/// Whether the expressions are the same but for spans, slots and the spelling of constants.
fn is_same(a: &Expr, b: &Expr) -> bool
    ensures { result ≡ same_as (tree a.now) (tree b.now) }
{
    same_expr(a, b)
}

/// Whether the expression is the same as one of these.
fn is_same_as_one(e: &Expr, seen: &[Expr]) -> bool
    ensures { result ≡ list_any (λ other. same_as (tree e.now) (tree other)) seen.now }
{
    seen.iter().any(|other| is_same(e, other))
}

/// Whether the expression is there and the same as one of these.
fn is_among(new: &Option<Expr>, seen: &[Expr]) -> bool
    ensures { result ≡ is_one_of (option_map tree new.now) (trees seen.now) }
{
    match new {
        None => false,
        Some(e) => is_same_as_one(e, seen),
    }
}

/// Adds the expression, if it is there.
fn add_made(seen: &mut Vec<Expr>, new: Option<Expr>) -> Result<(), NoMemory>
    ensures { OnOk result (trees seen.new.items
        ≡ and_made (trees seen.old.items) (option_map tree new)) }
{
    match new {
        None => Ok(()),
        Some(e) => {
            seen.push(e)?;
            Ok(())
        }
    }
}

/// Adds the expressions that the edits make of the part.
fn add_all_made(
    alloc: Global,
    part: &Part,
    seen: &mut Vec<Expr>,
    edits: &[Edit],
) -> Result<(), NoMemory>
    ensures { OnOk result (trees seen.new.items
        ≡ and_all_made (lent part.now) (trees seen.old.items) edits.now) }
{
    for edit in edits {
        let new = made(alloc, part, edit)?;
        add_made(seen, new)?;
    }
    Ok(())
}

/// The edits that make an expression which is the same as none of these, nor as one that an edit before makes.
fn new_edits(
    alloc: Global,
    part: &Part,
    seen: &mut Vec<Expr>,
    edits: &[Edit],
) -> Result<Vec<Edit>, NoMemory>
    ensures { IfOk result (λ r. r.items
        ≡ new_edits_of (lent part.now) (trees seen.old.items) edits.now) }
{
    let mut kept = Vec::new(alloc);
    for edit in edits {
        let new = made(alloc, part, edit)?;
        if is_among(&new, seen) {
            continue;
        }
        add_made(seen, new)?;
        kept.push(copy_edit(alloc, edit)?)?;
    }
    Ok(kept)
}

/// The expression that stands there.
fn old(alloc: Global, part: &Part) -> Result<Vec<Expr>, NoMemory>
    ensures { IfOk result (λ r. trees r.items ≡ old_of (lent part.now)) }
{
    let mut seen = Vec::new(alloc);
    match part {
        Part::Expr(e) => {
            seen.push(copy_expr(alloc, e)?)?;
            Ok(seen)
        }
        Part::Stmt(_) => Ok(seen),
    }
}

/// The expression that stands there, and those that the edits of lower costs make. They are made anew
/// for each cost: nothing is kept between calls.
fn before(
    alloc: Global,
    kind: LocKind,
    atoms: &[Atom],
    part: &Part,
    cost: u8,
) -> Result<Vec<Expr>, NoMemory>
    requires { 0 < cost }
    ensures { IfOk result (λ r. trees r.items
        ≡ and_all_made (lent part.now) (old_of (lent part.now))
        (edits_upto kind atoms.now (lent part.now) (cost - 1))) }
{
    let mut seen = old(alloc, part)?;
    for lower in 1..cost {
        let edits = edits_of(alloc, kind, atoms, part, lower)?;
        add_all_made(alloc, part, &mut seen, &edits)?;
    }
    Ok(seen)
}

/// The candidates of a cost at the part.
fn candidates_of(
    alloc: Global,
    kind: LocKind,
    atoms: &[Atom],
    part: &Part,
    cost: u8,
) -> Result<Vec<Edit>, NoMemory>
    ensures { IfOk result (λ r. r.items ≡ candidates_by kind atoms.now (lent part.now) cost) }
{
    if cost == 0 {
        return Ok(Vec::new(alloc));
    }
    let mut seen = before(alloc, kind, atoms, part, cost)?;
    let edits = edits_of(alloc, kind, atoms, part, cost)?;
    new_edits(alloc, part, &mut seen, &edits)
}

/// The edits of this cost, 1 to 6, that a patch can make at the location, in their order. One that makes an expression
/// which is the same as the old one, or as that of an earlier edit of the location at any cost, is left out. Expressions
/// are the same where they differ in spans, slots and the spelling of constants alone.
///
/// | cost | at | edits |
/// |---|---|---|
/// | 1 | a condition | another comparison at the top; the other of `&&` and `\|\|` |
/// | 1 | a right side | another of `+ - * / %` at the top |
/// | 2 | both | an atom in place of one of the first eight constants and names of variables |
/// | 2 | a right side | itself plus 1, minus 1 |
/// | 2 | a condition | the right operand of a comparison at the top plus 1, minus 1 |
/// | 3 | a condition | its negation |
/// | 3 | a right side | an atom |
/// | 4, 5 | a condition | itself and a bound, or a bound |
/// | 6 | a statement | an `if` with a bound before it |
///
/// Costs 1 to 3 are those of expressions without a call, an assignment, `++` and `--`. Other costs have no edits.
///
/// # Errors
///
/// `NoMemory` where memory runs out.
pub fn candidates(
    alloc: Global,
    program: &Typed,
    loc: &Loc,
    cost: u8,
) -> Result<Vec<Edit>, NoMemory>
    ensures { IfOk result (λ r. r.items ≡ candidates_there (tree_of program.now) loc.now cost) }
{
    let atoms = atoms(alloc, program, loc)?;
    match part_at(program.program(), loc) {
        None => Ok(Vec::new(alloc)),
        Some(part) => candidates_of(alloc, loc.kind, &atoms, &part, cost),
    }
}

/// The expression that the edit makes at the location: a new one that covers the old one's text, or for an edit of a
/// statement the test that is put before it. The edit is one that can be made of what stands at the location, as each
/// of its candidates is.
///
/// # Errors
///
/// `NoMemory` where memory runs out.
pub fn edited(alloc: Global, program: &Typed, loc: &Loc, edit: &Edit) -> Result<Expr, NoMemory>
    requires { IsSome (made_at (tree_of program.now) loc.now edit.now) }
    ensures { IfOk result (λ r. made_at (tree_of program.now) loc.now edit.now ≡ Some (tree r)) }
{
    match part_at(program.program(), loc) {
        None => unreachable!(),
        Some(part) => match made(alloc, &part, edit)? {
            None => unreachable!(),
            Some(new) => Ok(new),
        },
    }
}
