//! The constants and the names of variables in a pure expression, by number.

ghost use Rattle.std.specs.Prelude.{◌≡◌, ◌+◌, ◌<◌, nat_eq, min, if◌then◌else◌, IfOk, MatchOption};
ghost use Rattle.c_tree.specs.declared.expr.BinOp.{BinOp};
ghost use Rattle.c_tree.specs.declared.place.Span.{Span};
ghost use Rattle.c_tree.specs.Tree.{binary, choice, comma};
ghost use Rattle.c_tree.specs.Views.{tree};
ghost use Rattle.schemas.specs.Leaves.{atom_tree, leaves, with_leaf as leaf_replaced};

use crate::atom::{Atom, atom_expr};
use crate::build;
use c_tree::{Expr, ExprNode, NoMemory, Span, copy_expr};
use std::alloc::Global;

/// At how many of them atoms are put.
const MOST: u32 = 8;

/// How many of them the expression has, up to eight.
pub fn first_leaves(e: &Expr) -> u32
    ensures { result ≡ min (leaves (tree e.now)) 8 }
{
    match &e.node {
        ExprNode::Const { .. } | ExprNode::Name { .. } => 1,
        ExprNode::Call { .. } | ExprNode::Assign { .. } | ExprNode::Bump { .. } => 0,
        ExprNode::Index { index, .. } => first_leaves(index),
        ExprNode::Unary { of, .. } | ExprNode::Cast { of, .. } => first_leaves(of),
        ExprNode::Binary { left, right, .. } | ExprNode::Comma { left, right } => {
            (first_leaves(left) + first_leaves(right)).min(MOST)
        }
        ExprNode::Choice { test, yes, no } => {
            (first_leaves(test) + first_leaves(yes) + first_leaves(no)).min(MOST)
        }
    }
}

/// The number that is left of `k` when those of the expression are passed, or none where the expression has it.
fn passed(e: &Expr, k: u32) -> Option<u32>
    ensures { MatchOption result (k < leaves (tree e.now)) (λ left. left + leaves (tree e.now) ≡ k) }
{
    match &e.node {
        ExprNode::Const { .. } | ExprNode::Name { .. } => k.checked_sub(1),
        ExprNode::Call { .. } | ExprNode::Assign { .. } | ExprNode::Bump { .. } => Some(k),
        ExprNode::Index { index, .. } => passed(index, k),
        ExprNode::Unary { of, .. } | ExprNode::Cast { of, .. } => passed(of, k),
        ExprNode::Binary { left, right, .. } | ExprNode::Comma { left, right } => {
            let left = passed(left, k)?;
            passed(right, left)
        }
        ExprNode::Choice { test, yes, no } => {
            let left = passed(test, k)?;
            let left = passed(yes, left)?;
            passed(no, left)
        }
    }
}

/// The constant or name, or an atom in its place.
fn leaf(alloc: Global, e: &Expr, k: u32, atom: &Atom) -> Result<Expr, NoMemory>
    ensures { IfOk result (λ r. tree r
        ≡ (if nat_eq k 0 then atom_tree atom.now e.now.span else tree e.now)) }
{
    if k == 0 {
        return atom_expr(alloc, atom, e.span);
    }
    Ok(copy_expr(alloc, e)?)
}

/// A copy of the pure expression, with an atom in place of the constant or name of that number, if it has one.
#[cycle(with_leaf)]
pub fn with_leaf(alloc: Global, e: &Expr, k: u32, atom: &Atom) -> Result<Expr, NoMemory>
    ensures { IfOk result (λ r. tree r ≡ leaf_replaced k atom.now (tree e.now)) }
{
    let span = e.span;
    match &e.node {
        ExprNode::Const { .. } => leaf(alloc, e, k, atom),
        ExprNode::Name { .. } => leaf(alloc, e, k, atom),
        ExprNode::Call { .. } | ExprNode::Assign { .. } | ExprNode::Bump { .. } => {
            copy_expr(alloc, e)
        }
        ExprNode::Index { word, slot, index } => {
            let index = boxed_with_leaf(alloc, index, k, atom)?;
            build::index(alloc, word, *slot, index, span)
        }
        ExprNode::Unary { op, of } => {
            let of = boxed_with_leaf(alloc, of, k, atom)?;
            Ok(build::unary(*op, of, span))
        }
        ExprNode::Cast { ty, of } => {
            let of = boxed_with_leaf(alloc, of, k, atom)?;
            Ok(build::cast(*ty, of, span))
        }
        ExprNode::Binary { op, left, right } => {
            let (left, right) = operands_with_leaf(alloc, left, right, k, atom)?;
            Ok(build::binary(*op, left, right, span))
        }
        ExprNode::Choice { test, yes, no } => choice_with_leaf(alloc, test, yes, no, k, atom, span),
        ExprNode::Comma { left, right } => {
            let (left, right) = operands_with_leaf(alloc, left, right, k, atom)?;
            Ok(build::comma(left, right, span))
        }
    }
}

/// The same in a box.
#[cycle(with_leaf)]
fn boxed_with_leaf(alloc: Global, e: &Expr, k: u32, atom: &Atom) -> Result<Box<Expr>, NoMemory>
    ensures { IfOk result (λ r. tree r.value ≡ leaf_replaced k atom.now (tree e.now)) }
{
    build::boxed(alloc, with_leaf(alloc, e, k, atom)?)
}

/// Copies of two operands, with an atom in place of the constant or name of that number in the two.
#[cycle(with_leaf)]
fn operands_with_leaf(
    alloc: Global,
    left: &Expr,
    right: &Expr,
    k: u32,
    atom: &Atom,
) -> Result<(Box<Expr>, Box<Expr>), NoMemory>
    ensures joined { IfOk result (λ r. (op : BinOp) → (s : Span) →
        binary op (tree r.0.value) (tree r.1.value) s
        ≡ leaf_replaced k atom.now (binary op (tree left.now) (tree right.now) s)) }
    ensures in_turn { IfOk result (λ r. (s : Span) →
        comma (tree r.0.value) (tree r.1.value) s
        ≡ leaf_replaced k atom.now (comma (tree left.now) (tree right.now) s)) }
{
    match passed(left, k) {
        None => {
            let left = boxed_with_leaf(alloc, left, k, atom)?;
            let right = build::boxed_copy(alloc, right)?;
            Ok((left, right))
        }
        Some(k) => {
            let right = boxed_with_leaf(alloc, right, k, atom)?;
            let left = build::boxed_copy(alloc, left)?;
            Ok((left, right))
        }
    }
}

/// A copy of the choice of these parts, with an atom in place of the constant or name of that number.
#[cycle(with_leaf)]
fn choice_with_leaf(
    alloc: Global,
    test: &Expr,
    yes: &Expr,
    no: &Expr,
    k: u32,
    atom: &Atom,
    span: Span,
) -> Result<Expr, NoMemory>
    ensures { IfOk result (λ r. tree r
        ≡ leaf_replaced k atom.now (choice (tree test.now) (tree yes.now) (tree no.now) span)) }
{
    let Some(k) = passed(test, k) else {
        let test = boxed_with_leaf(alloc, test, k, atom)?;
        let yes = build::boxed_copy(alloc, yes)?;
        let no = build::boxed_copy(alloc, no)?;
        return Ok(build::choice(test, yes, no, span));
    };
    let test = build::boxed_copy(alloc, test)?;
    match passed(yes, k) {
        None => {
            let yes = boxed_with_leaf(alloc, yes, k, atom)?;
            let no = build::boxed_copy(alloc, no)?;
            Ok(build::choice(test, yes, no, span))
        }
        Some(k) => {
            let no = boxed_with_leaf(alloc, no, k, atom)?;
            let yes = build::boxed_copy(alloc, yes)?;
            Ok(build::choice(test, yes, no, span))
        }
    }
}
