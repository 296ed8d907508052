//! The edits of a part by their costs, those among them that make the same expression too.

ghost use Rattle.std.specs.Prelude.{◌≡◌, [], ◌++◌, map, IfOk, OnOk};
ghost use Rattle.c_location.specs.Shown.{lent};
ghost use Rattle.c_tree.specs.Views.{tree};
ghost use Rattle.schemas.specs.declared.edit.Edit.TheVariants.{Op, Leaf, Take, Narrow, Widen, Guard};
ghost use Rattle.schemas.specs.Bounds.{bounds as bounds_of};
ghost use Rattle.schemas.specs.Candidates.{other_operators as others, other_arithmetic as other_sums, is_comparison as compares, operator_edits as operator_edits_of, leaf_edits as leaf_edits_of, side_edits as side_edits_of, if_pure, condition_edits as condition_edits_of, right_side_edits as right_side_edits_of, guard_edits as guard_edits_of, edits_of as edits_by};

use crate::atom::{Atom, copy_atom};
use crate::between::bounds;
use crate::edit::Edit;
use crate::leaves::first_leaves;
use c_location::Part;
use c_tree::{BinOp, Expr, ExprNode, LocKind, NoMemory, is_pure};
use std::alloc::Global;

/// The operators that may stand in place of this one at the top of a condition: the other comparisons
/// (C11 6.5.8, 6.5.9), or the other of `&&` and `||` (C11 6.5.13, 6.5.14).
fn other_operators(op: BinOp) -> &'static [BinOp]
    ensures { result.now ≡ others op }
{
    use BinOp::{Both, Either, Eq, Ge, Gt, Le, Lt, Ne};
    match op {
        Eq => &[Ne, Lt, Le, Gt, Ge],
        Ne => &[Eq, Lt, Le, Gt, Ge],
        Lt => &[Eq, Ne, Le, Gt, Ge],
        Le => &[Eq, Ne, Lt, Gt, Ge],
        Gt => &[Eq, Ne, Lt, Le, Ge],
        Ge => &[Eq, Ne, Lt, Le, Gt],
        Both => &[Either],
        Either => &[Both],
        _ => &[],
    }
}

/// The same at the top of a right side: the others of `+ - * / %` (C11 6.5.5, 6.5.6).
fn other_arithmetic(op: BinOp) -> &'static [BinOp]
    ensures { result.now ≡ other_sums op }
{
    use BinOp::{Add, Div, Mul, Rem, Sub};
    match op {
        Add => &[Sub, Mul, Div, Rem],
        Sub => &[Add, Mul, Div, Rem],
        Mul => &[Add, Sub, Div, Rem],
        Div => &[Add, Sub, Mul, Rem],
        Rem => &[Add, Sub, Mul, Div],
        _ => &[],
    }
}

/// Whether the operator is a comparison.
fn is_comparison(op: BinOp) -> bool
    ensures { result ≡ compares op }
{
    use BinOp::{Eq, Ge, Gt, Le, Lt, Ne};
    match op {
        Eq | Ne | Lt | Le | Gt | Ge => true,
        _ => false,
    }
}

/// The edits that put these operators in place of the one at the top.
fn operators(alloc: Global, new: &[BinOp]) -> Result<Vec<Edit>, NoMemory>
    ensures { IfOk result (λ edits. edits.items ≡ map (λ op. Op op) new.now) }
{
    new.iter().map(|op| Edit::Op(*op)).collect(alloc)
}

/// The edits of cost 1 of a condition. Where it has no call, assignment or bump: of a comparison the five others, of
/// `&&` and of `||` the other one; and else none.
fn condition_operators(alloc: Global, e: &Expr) -> Result<Vec<Edit>, NoMemory>
    ensures { IfOk result (λ edits. edits.items
        ≡ if_pure (tree e.now) (operator_edits_of others (tree e.now))) }
{
    if !is_pure(e) {
        return Ok(Vec::new(alloc));
    }
    match &e.node {
        ExprNode::Binary { op, .. } => operators(alloc, other_operators(*op)),
        _ => Ok(Vec::new(alloc)),
    }
}

/// The edits of cost 1 of a right side.
fn right_side_operators(alloc: Global, e: &Expr) -> Result<Vec<Edit>, NoMemory>
    ensures { IfOk result (λ edits. edits.items
        ≡ if_pure (tree e.now) (operator_edits_of other_sums (tree e.now))) }
{
    if !is_pure(e) {
        return Ok(Vec::new(alloc));
    }
    match &e.node {
        ExprNode::Binary { op, .. } => operators(alloc, other_arithmetic(*op)),
        _ => Ok(Vec::new(alloc)),
    }
}

/// Adds each atom in place of the constant or name of that number.
fn add_leaf(alloc: Global, edits: &mut Vec<Edit>, k: u32, atoms: &[Atom]) -> Result<(), NoMemory>
    ensures { OnOk result (edits.new.items ≡ edits.old.items ++ map (λ a. Leaf k a) atoms.now) }
{
    for atom in atoms {
        edits.push(Edit::Leaf(k, copy_atom(alloc, atom)?))?;
    }
    Ok(())
}

/// Each atom in place of each of the first constants and names.
fn leaf_edits(alloc: Global, atoms: &[Atom], count: u32) -> Result<Vec<Edit>, NoMemory>
    ensures { IfOk result (λ edits. edits.items ≡ leaf_edits_of atoms.now 0 count) }
{
    let mut edits = Vec::new(alloc);
    for k in 0..count {
        add_leaf(alloc, &mut edits, k, atoms)?;
    }
    Ok(edits)
}

/// Adds the edits of the right operand of a comparison at the top.
fn add_sides(edits: &mut Vec<Edit>, e: &Expr) -> Result<(), NoMemory>
    ensures { OnOk result (edits.new.items ≡ edits.old.items ++ side_edits_of (tree e.now)) }
{
    match &e.node {
        ExprNode::Binary { op, .. } => {
            if is_comparison(*op) {
                edits.push(Edit::Side(true))?;
                edits.push(Edit::Side(false))?;
            }
            Ok(())
        }
        _ => Ok(()),
    }
}

/// The edits of cost 2 of a condition.
fn condition_leaves(alloc: Global, atoms: &[Atom], e: &Expr) -> Result<Vec<Edit>, NoMemory>
    ensures { IfOk result (λ edits. edits.items ≡ condition_edits_of atoms.now (tree e.now) 2) }
{
    if !is_pure(e) {
        return Ok(Vec::new(alloc));
    }
    let mut edits = leaf_edits(alloc, atoms, first_leaves(e))?;
    add_sides(&mut edits, e)?;
    Ok(edits)
}

/// The edits of cost 2 of a right side.
fn right_side_leaves(alloc: Global, atoms: &[Atom], e: &Expr) -> Result<Vec<Edit>, NoMemory>
    ensures { IfOk result (λ edits. edits.items ≡ right_side_edits_of atoms.now (tree e.now) 2) }
{
    if !is_pure(e) {
        return Ok(Vec::new(alloc));
    }
    let mut edits = leaf_edits(alloc, atoms, first_leaves(e))?;
    edits.push(Edit::Plus(true))?;
    edits.push(Edit::Plus(false))?;
    Ok(edits)
}

/// The negation of a condition.
fn negation(alloc: Global, e: &Expr) -> Result<Vec<Edit>, NoMemory>
    ensures { IfOk result (λ edits. edits.items ≡ condition_edits_of [] (tree e.now) 3) }
{
    let mut edits = Vec::new(alloc);
    if is_pure(e) {
        edits.push(Edit::Negate)?;
    }
    Ok(edits)
}

/// Each atom in place of a right side.
fn takes(alloc: Global, atoms: &[Atom], e: &Expr) -> Result<Vec<Edit>, NoMemory>
    ensures { IfOk result (λ edits. edits.items ≡ right_side_edits_of atoms.now (tree e.now) 3) }
{
    let mut edits = Vec::new(alloc);
    if !is_pure(e) {
        return Ok(edits);
    }
    for atom in atoms {
        edits.push(Edit::Take(copy_atom(alloc, atom)?))?;
    }
    Ok(edits)
}

/// The edits that join a condition to a bound by `&&`.
fn narrows(alloc: Global, atoms: &[Atom]) -> Result<Vec<Edit>, NoMemory>
    ensures { IfOk result (λ edits. edits.items ≡ map (λ b. Narrow b) (bounds_of atoms.now)) }
{
    bounds(alloc, atoms)?
        .into_iter()
        .map(|b| Edit::Narrow(b))
        .collect(alloc)
}

/// The edits that join a condition to a bound by `||`.
fn widens(alloc: Global, atoms: &[Atom]) -> Result<Vec<Edit>, NoMemory>
    ensures { IfOk result (λ edits. edits.items ≡ map (λ b. Widen b) (bounds_of atoms.now)) }
{
    bounds(alloc, atoms)?
        .into_iter()
        .map(|b| Edit::Widen(b))
        .collect(alloc)
}

/// The edits that put an `if` with a bound before a statement.
fn guards(alloc: Global, atoms: &[Atom]) -> Result<Vec<Edit>, NoMemory>
    ensures { IfOk result (λ edits. edits.items ≡ map (λ b. Guard b) (bounds_of atoms.now)) }
{
    bounds(alloc, atoms)?
        .into_iter()
        .map(|b| Edit::Guard(b))
        .collect(alloc)
}

/// The edits of a condition at a cost.
fn condition_edits(alloc: Global, atoms: &[Atom], e: &Expr, cost: u8) -> Result<Vec<Edit>, NoMemory>
    ensures { IfOk result (λ edits. edits.items ≡ condition_edits_of atoms.now (tree e.now) cost) }
{
    match cost {
        1 => condition_operators(alloc, e),
        2 => condition_leaves(alloc, atoms, e),
        3 => negation(alloc, e),
        4 => narrows(alloc, atoms),
        5 => widens(alloc, atoms),
        _ => Ok(Vec::new(alloc)),
    }
}

/// The edits of a right side at a cost.
fn right_side_edits(
    alloc: Global,
    atoms: &[Atom],
    e: &Expr,
    cost: u8,
) -> Result<Vec<Edit>, NoMemory>
    ensures { IfOk result (λ edits. edits.items ≡ right_side_edits_of atoms.now (tree e.now) cost) }
{
    match cost {
        1 => right_side_operators(alloc, e),
        2 => right_side_leaves(alloc, atoms, e),
        3 => takes(alloc, atoms, e),
        _ => Ok(Vec::new(alloc)),
    }
}

/// The edits of a statement at a cost.
fn guard_edits(alloc: Global, atoms: &[Atom], cost: u8) -> Result<Vec<Edit>, NoMemory>
    ensures { IfOk result (λ edits. edits.items ≡ guard_edits_of atoms.now cost) }
{
    match cost {
        6 => guards(alloc, atoms),
        _ => Ok(Vec::new(alloc)),
    }
}

/// The edits of a part that stands at a location of this kind, at a cost.
pub fn edits_of(
    alloc: Global,
    kind: LocKind,
    atoms: &[Atom],
    part: &Part,
    cost: u8,
) -> Result<Vec<Edit>, NoMemory>
    ensures { IfOk result (λ edits. edits.items ≡ edits_by kind atoms.now (lent part.now) cost) }
{
    match part {
        Part::Expr(e) => match kind {
            LocKind::Cond => condition_edits(alloc, atoms, e, cost),
            LocKind::Right => right_side_edits(alloc, atoms, e, cost),
            LocKind::Guard => Ok(Vec::new(alloc)),
        },
        Part::Stmt(_) => match kind {
            LocKind::Guard => guard_edits(alloc, atoms, cost),
            LocKind::Cond | LocKind::Right => Ok(Vec::new(alloc)),
        },
    }
}
