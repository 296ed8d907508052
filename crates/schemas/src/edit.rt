//! The edits that a patch can make at a location, and what they make of the part there.

ghost use Rattle.std.specs.Prelude.{◌≡◌, IfOk, option_map};
ghost use Rattle.c_location.specs.Shown.{lent};
ghost use Rattle.c_location.specs.Locations.{expression};
ghost use Rattle.c_tree.specs.Parts.{span_of};
ghost use Rattle.c_tree.specs.declared.expr.UnOp.TheVariants.{Flip};
ghost use Rattle.c_tree.specs.Tree.{unary as unary_tree, binary as binary_tree};
ghost use Rattle.c_tree.specs.Views.{tree, code};
ghost use Rattle.schemas.specs.Atoms.{one as number_one};
ghost use Rattle.schemas.specs.Edits.{bound_tree, with_operator as under, by_one as plus_one, side_by_one as side_plus_one, edited as after, test_before as put_before, made as made_by};
ghost use Rattle.schemas.specs.Leaves.{atom_tree};

use crate::atom::{Atom, Bound, atom_expr, bound_expr, copy_atom, copy_bound};
use crate::build;
use crate::constants::one;
use crate::leaves::with_leaf;
use c_location::Part;
use c_tree::{BinOp, Expr, ExprNode, NoMemory, Span, Stmt, UnOp, copy_expr};
use std::alloc::Global;

/// A change of the part at one location.
#[derive(Drop)]
pub enum Edit {
    /// The operator at the top becomes this one.
    Op(BinOp),
    /// The atom stands in place of the constant or variable of that number, counted from 0 in text order.
    Leaf(u32, Atom),
    /// The right side becomes itself plus 1, or minus 1.
    Plus(bool),
    /// The right operand at the top of a condition becomes itself plus 1, or minus 1.
    Side(bool),
    /// The condition is negated.
    Negate,
    /// The right side becomes the atom.
    Take(Atom),
    /// The condition becomes `old && bound`.
    Narrow(Bound),
    /// The condition becomes `old || bound`.
    Widen(Bound),
    /// An `if` with the bound is put before the statement.
    Guard(Bound),
}

/// A copy of the edit.
pub fn copy_edit(alloc: Global, edit: &Edit) -> Result<Edit, NoMemory>
    ensures { IfOk result (λ copy. copy ≡ edit.now) }
{
    match edit {
        Edit::Op(op) => Ok(Edit::Op(*op)),
        Edit::Leaf(k, atom) => Ok(Edit::Leaf(*k, copy_atom(alloc, atom)?)),
        Edit::Plus(up) => Ok(Edit::Plus(*up)),
        Edit::Side(up) => Ok(Edit::Side(*up)),
        Edit::Negate => Ok(Edit::Negate),
        Edit::Take(atom) => Ok(Edit::Take(copy_atom(alloc, atom)?)),
        Edit::Narrow(bound) => Ok(Edit::Narrow(copy_bound(alloc, bound)?)),
        Edit::Widen(bound) => Ok(Edit::Widen(copy_bound(alloc, bound)?)),
        Edit::Guard(bound) => Ok(Edit::Guard(copy_bound(alloc, bound)?)),
    }
}

/// A copy of the expression with the operator at its top replaced, if it has one.
fn with_operator(alloc: Global, e: &Expr, op: BinOp) -> Result<Expr, NoMemory>
    ensures { IfOk result (λ copy. tree copy ≡ under op (tree e.now)) }
{
    match &e.node {
        ExprNode::Binary { left, right, .. } => {
            let left = build::boxed_copy(alloc, left)?;
            let right = build::boxed_copy(alloc, right)?;
            Ok(build::binary(op, left, right, e.span))
        }
        _ => Ok(copy_expr(alloc, e)?),
    }
}

/// The constant 1 in a box, as an expression that covers this text.
fn one_expr(alloc: Global, span: Span) -> Result<Box<Expr>, NoMemory>
    ensures { IfOk result (λ r. tree r.value ≡ atom_tree number_one span) }
{
    let number = one(alloc)?;
    build::boxed(alloc, atom_expr(alloc, &number, span)?)
}

/// A copy of the expression, plus 1 or minus 1.
#[tactic(auto, using(crate::proofs::Spans::spans))]
fn by_one(alloc: Global, e: &Expr, up: bool) -> Result<Expr, NoMemory>
    ensures { IfOk result (λ r. tree r ≡ plus_one up (tree e.now)) }
{
    let op = match up {
        true => BinOp::Add,
        false => BinOp::Sub,
    };
    let right = one_expr(alloc, e.span)?;
    let left = build::boxed_copy(alloc, e)?;
    Ok(build::binary(op, left, right, e.span))
}

/// A copy of the expression with the right operand at its top plus 1 or minus 1, if it has one.
fn side_by_one(alloc: Global, e: &Expr, up: bool) -> Result<Expr, NoMemory>
    ensures { IfOk result (λ r. tree r ≡ side_plus_one up (tree e.now)) }
{
    match &e.node {
        ExprNode::Binary { op, left, right } => {
            let right = build::boxed(alloc, by_one(alloc, right, up)?)?;
            let left = build::boxed_copy(alloc, left)?;
            Ok(build::binary(*op, left, right, e.span))
        }
        _ => Ok(copy_expr(alloc, e)?),
    }
}

/// The expression negated.
#[tactic(auto, using(crate::proofs::Spans::spans))]
fn negated(alloc: Global, e: &Expr) -> Result<Expr, NoMemory>
    ensures { IfOk result (λ r. tree r ≡ unary_tree Flip (tree e.now) (span_of (tree e.now))) }
{
    let of = build::boxed_copy(alloc, e)?;
    Ok(build::unary(UnOp::Flip, of, e.span))
}

/// The expression joined to the bound: what a change makes of it in place, as a tree of its own that
/// candidates are compared by.
#[tactic(auto, using(crate::proofs::Spans::spans))]
fn joined(alloc: Global, e: &Expr, op: BinOp, bound: &Bound) -> Result<Expr, NoMemory>
    ensures { IfOk result (λ r. tree r
        ≡ binary_tree op (tree e.now) (bound_tree bound.now (span_of (tree e.now)))
        (span_of (tree e.now))) }
{
    let right = build::boxed(alloc, bound_expr(alloc, bound, e.span)?)?;
    let left = build::boxed_copy(alloc, e)?;
    Ok(build::binary(op, left, right, e.span))
}

/// The new expression in place of this one. It covers the same text. An edit of a statement leaves it.
#[tactic(auto, using(crate::proofs::Spans::spans))]
pub fn edited_expr(alloc: Global, e: &Expr, edit: &Edit) -> Result<Expr, NoMemory>
    ensures { IfOk result (λ r. tree r ≡ after (tree e.now) edit.now) }
{
    match edit {
        Edit::Op(op) => with_operator(alloc, e, *op),
        Edit::Leaf(k, atom) => with_leaf(alloc, e, *k, atom),
        Edit::Plus(up) => by_one(alloc, e, *up),
        Edit::Side(up) => side_by_one(alloc, e, *up),
        Edit::Negate => negated(alloc, e),
        Edit::Take(atom) => atom_expr(alloc, atom, e.span),
        Edit::Narrow(bound) => joined(alloc, e, BinOp::Both, bound),
        Edit::Widen(bound) => joined(alloc, e, BinOp::Either, bound),
        Edit::Guard(_) => Ok(copy_expr(alloc, e)?),
    }
}

/// The new expression in place of this one, if the edit is one of an expression.
fn edited_part(alloc: Global, e: &Expr, edit: &Edit) -> Result<Option<Expr>, NoMemory>
    ensures { IfOk result (λ r. option_map tree r ≡ made_by (expression (tree e.now)) edit.now) }
{
    match edit {
        Edit::Guard(_) => Ok(None),
        _ => Ok(Some(edited_expr(alloc, e, edit)?)),
    }
}

/// The test that the edit puts before the statement, if it is one of a statement.
#[tactic(auto, using(crate::proofs::Spans::spans))]
fn test_before(alloc: Global, st: &Stmt, edit: &Edit) -> Result<Option<Expr>, NoMemory>
    ensures { IfOk result (λ r. option_map tree r ≡ put_before (code st.now) edit.now) }
{
    match edit {
        Edit::Guard(bound) => Ok(Some(bound_expr(alloc, bound, st.span)?)),
        _ => Ok(None),
    }
}

/// The expression that the edit makes at the part: a new one in place of an expression, the test before a statement.
pub fn made(alloc: Global, part: &Part, edit: &Edit) -> Result<Option<Expr>, NoMemory>
    ensures { IfOk result (λ r. option_map tree r ≡ made_by (lent part.now) edit.now) }
{
    match part {
        Part::Expr(e) => edited_part(alloc, e, edit),
        Part::Stmt(st) => test_before(alloc, st, edit),
    }
}
