//! Expressions made of their parts, which stand in boxes.

ghost use Rattle.std.specs.Prelude.{◌≡◌, IfOk};
ghost use Rattle.c_tree.specs.Tree.{index as index_tree, unary as unary_tree, cast as cast_tree, binary as binary_tree, choice as choice_tree, comma as comma_tree};
ghost use Rattle.c_tree.specs.Views.{tree};

use c_tree::{BinOp, Expr, ExprNode, NoMemory, Slot, Span, Text, Ty, UnOp, copy_expr, copy_text};
use std::alloc::Global;

/// The expression in a box.
pub fn boxed(alloc: Global, e: Expr) -> Result<Box<Expr>, NoMemory>
    ensures { IfOk result (λ r. tree r.value ≡ tree e) }
{
    Ok(Box::new(alloc, e)?)
}

/// A copy of the expression in a box.
pub fn boxed_copy(alloc: Global, e: &Expr) -> Result<Box<Expr>, NoMemory>
    ensures { IfOk result (λ copy. tree copy.value ≡ tree e.now) }
{
    boxed(alloc, copy_expr(alloc, e)?)
}

/// An element of an array, whose word is copied.
pub fn index(
    alloc: Global,
    word: &Text,
    slot: Slot,
    index: Box<Expr>,
    span: Span,
) -> Result<Expr, NoMemory>
    ensures { IfOk result (λ r. tree r ≡ index_tree word.now slot (tree index.value) span) }
{
    let word = copy_text(alloc, word)?;
    let node = ExprNode::Index { word, slot, index };
    Ok(Expr { node, span })
}

/// A prefix operator and its operand.
pub fn unary(op: UnOp, of: Box<Expr>, span: Span) -> Expr
    ensures { tree result ≡ unary_tree op (tree of.value) span }
{
    let node = ExprNode::Unary { op, of };
    Expr { node, span }
}

/// A cast.
pub fn cast(ty: Ty, of: Box<Expr>, span: Span) -> Expr
    ensures { tree result ≡ cast_tree ty (tree of.value) span }
{
    let node = ExprNode::Cast { ty, of };
    Expr { node, span }
}

/// An operator between its operands.
pub fn binary(op: BinOp, left: Box<Expr>, right: Box<Expr>, span: Span) -> Expr
    ensures { tree result ≡ binary_tree op (tree left.value) (tree right.value) span }
{
    let node = ExprNode::Binary { op, left, right };
    Expr { node, span }
}

/// `test ? yes : no`
pub fn choice(test: Box<Expr>, yes: Box<Expr>, no: Box<Expr>, span: Span) -> Expr
    ensures { tree result ≡ choice_tree (tree test.value) (tree yes.value) (tree no.value) span }
{
    let node = ExprNode::Choice { test, yes, no };
    Expr { node, span }
}

/// `left, right`
pub fn comma(left: Box<Expr>, right: Box<Expr>, span: Span) -> Expr
    ensures { tree result ≡ comma_tree (tree left.value) (tree right.value) span }
{
    let node = ExprNode::Comma { left, right };
    Expr { node, span }
}
