//! The printing of expressions: the text is appended to one buffer, part after part.

ghost use Rattle.std.specs.Prelude.{◌≡◌, ◌++◌, OnOk, IfOk};
ghost use Rattle.c_tree.specs.Views.{tree};
ghost use Rattle.patch_text.specs.Printed.{operand, printed, parenthesized};

use crate::operator::{cast_text, infix_text, prefix_text};
use c_tree::{Expr, ExprNode, NoMemory, Text};
use std::alloc::Global;

/// The text of an expression. Constants and names are printed as they are spelled. The text of a
/// call, of an assignment and of `++` or `--` is empty: a patch has none of them.
///
/// # Errors
///
/// `NoMemory` where memory runs out.
pub fn print_expr(alloc: Global, e: &Expr) -> Result<Text, NoMemory>
    ensures { IfOk result (λ text. text ≡ printed (tree e.now)) }
{
    let mut text = Vec::new(alloc);
    put_expr(&mut text, e)?;
    Ok(Text::new(text))
}

/// Appends the text of an expression in parentheses.
#[cycle(put)]
pub fn put_parenthesized(text: &mut Vec<u8>, e: &Expr) -> Result<(), NoMemory>
    ensures { OnOk result (text.new.items ≡ text.old.items ++
        parenthesized (printed (tree e.now))) }
{
    text.extend_from_slice(b"(")?;
    put_expr(text, e)?;
    text.extend_from_slice(b")")
}

/// Appends the text of an expression.
#[cycle(put)]
pub fn put_expr(text: &mut Vec<u8>, e: &Expr) -> Result<(), NoMemory>
    ensures { OnOk result (text.new.items ≡ text.old.items ++ printed (tree e.now)) }
{
    match &e.node {
        ExprNode::Const { word, .. } => text.extend_from_slice(word.as_slice()),
        ExprNode::Name { word, .. } => text.extend_from_slice(word.as_slice()),
        ExprNode::Call { .. } | ExprNode::Assign { .. } | ExprNode::Bump { .. } => Ok(()),
        ExprNode::Index { word, index, .. } => {
            text.extend_from_slice(word.as_slice())?;
            text.extend_from_slice(b"[")?;
            put_expr(text, index)?;
            text.extend_from_slice(b"]")
        }
        ExprNode::Unary { op, of } => {
            text.extend_from_slice(prefix_text(*op))?;
            put_operand(text, of)
        }
        ExprNode::Cast { ty, of } => {
            text.extend_from_slice(cast_text(*ty))?;
            put_operand(text, of)
        }
        ExprNode::Binary { op, left, right } => {
            put_operand(text, left)?;
            text.extend_from_slice(infix_text(*op))?;
            put_operand(text, right)
        }
        ExprNode::Choice { test, yes, no } => {
            put_operand(text, test)?;
            text.extend_from_slice(b" ? ")?;
            put_operand(text, yes)?;
            text.extend_from_slice(b" : ")?;
            put_operand(text, no)
        }
        ExprNode::Comma { left, right } => {
            put_operand(text, left)?;
            text.extend_from_slice(b", ")?;
            put_operand(text, right)
        }
    }
}

/// Appends the text of an operand: a constant, a name or an element bare, all else in parentheses.
#[cycle(put)]
fn put_operand(text: &mut Vec<u8>, e: &Expr) -> Result<(), NoMemory>
    ensures { OnOk result (text.new.items ≡ text.old.items ++
        operand (tree e.now) (printed (tree e.now))) }
{
    match &e.node {
        ExprNode::Const { .. } | ExprNode::Name { .. } => put_expr(text, e),
        ExprNode::Index { .. } => put_expr(text, e),
        _ => put_parenthesized(text, e),
    }
}
