//! What a patch makes of the part at its location.

ghost use Rattle.std.specs.Prelude.{◌≡◌, OnOk, IfOk};
ghost use Rattle.c_tree.specs.Parts.{span_of};
ghost use Rattle.c_tree.specs.Tree.{binary, if_then, next, done};
ghost use Rattle.c_tree.specs.Views.{tree, node_code, body_of};
ghost use Rattle.c_location.specs.Changes.{guarded as guard_of, rewrite_of};

use c_tree::{BinOp, Expr, ExprNode, Item, NoMemory, Span, Stmt, StmtNode, Text, copy_expr};
use std::alloc::Global;
use std::mem;

/// What becomes of the part at a location.
#[derive(Drop)]
pub enum Change {
    /// This expression stands in the place of a condition or a right side.
    Replaced(Expr),
    /// The condition becomes `old && bound`.
    Narrowed(Expr),
    /// The condition becomes `old || bound`.
    Widened(Expr),
    /// The statement becomes `{ if (test) statement }`.
    Guarded(Expr),
}

/// A node that holds the place of one that is moved out. It takes no memory.
pub fn nothing(alloc: Global) -> ExprNode {
    ExprNode::Const {
        value: 0,
        word: Text::new(Vec::new(alloc)),
    }
}

/// Joins the expression to a copy of the other one, in its own text.
fn join(alloc: Global, e: &mut Expr, op: BinOp, other: &Expr) -> Result<(), NoMemory>
    ensures { OnOk result (tree e.new ≡
        binary op (tree e.old) (tree other.now) (span_of (tree e.old))) }
{
    let right = Box::new(alloc, copy_expr(alloc, other)?)?;
    let span = e.span;
    let node = mem::replace(&mut e.node, nothing(alloc));
    let left = Box::new(alloc, Expr { node, span })?;
    e.node = ExprNode::Binary { op, left, right };
    Ok(())
}

/// Makes the change of an expression. One of a statement leaves it.
pub fn change_part(alloc: Global, e: &mut Expr, change: &Change) -> Result<(), NoMemory>
    ensures { OnOk result (tree e.new ≡ (rewrite_of change.now).tree (tree e.old)) }
{
    match change {
        Change::Replaced(new) => {
            *e = copy_expr(alloc, new)?;
            Ok(())
        }
        Change::Narrowed(bound) => join(alloc, e, BinOp::Both, bound),
        Change::Widened(bound) => join(alloc, e, BinOp::Either, bound),
        Change::Guarded(_) => Ok(()),
    }
}

/// An `if` with a copy of the test round the statement.
fn guard(alloc: Global, node: StmtNode, span: Span, test: &Expr) -> Result<StmtNode, NoMemory>
    ensures { IfOk result (λ r. node_code r span ≡
        if_then (tree test.now) (node_code node span) span) }
{
    let test = copy_expr(alloc, test)?;
    let yes = Box::new(alloc, Stmt { node, span })?;
    Ok(StmtNode::If {
        test,
        yes,
        no: None,
    })
}

/// The items of a block that holds the statement alone.
fn alone(alloc: Global, node: StmtNode, span: Span) -> Result<Vec<Item>, NoMemory>
    ensures { IfOk result (λ r. body_of r.items ≡ next (node_code node span) done) }
{
    let mut items = Vec::new(alloc);
    items.push(Item::Stmt(Stmt { node, span }))?;
    Ok(items)
}

/// A block that holds an `if` with a copy of the test round the statement.
fn guarded(alloc: Global, node: StmtNode, span: Span, test: &Expr) -> Result<StmtNode, NoMemory>
    ensures { IfOk result (λ r. node_code r span ≡
        (guard_of (tree test.now)).code (node_code node span)) }
{
    let node = guard(alloc, node, span, test)?;
    Ok(StmtNode::Block(alone(alloc, node, span)?))
}

/// The statement with the change made. One of an expression leaves it.
pub fn changed_statement(
    alloc: Global,
    node: StmtNode,
    span: Span,
    change: &Change,
) -> Result<StmtNode, NoMemory>
    ensures { IfOk result (λ r. node_code r span ≡
        (rewrite_of change.now).code (node_code node span)) }
{
    match change {
        Change::Replaced(_) | Change::Narrowed(_) | Change::Widened(_) => Ok(node),
        Change::Guarded(test) => guarded(alloc, node, span, test),
    }
}
