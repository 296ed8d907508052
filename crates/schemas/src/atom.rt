//! The atoms that new expressions are made of, and the bounds over them.

ghost use Rattle.std.specs.Prelude.{◌≡◌, IfOk};
ghost use Rattle.c_tree.specs.declared.place.Span.{Span};
ghost use Rattle.c_tree.specs.Views.{tree};
ghost use Rattle.schemas.specs.Edits.{bound_tree as tree_of_bound};
ghost use Rattle.schemas.specs.Leaves.{atom_tree as tree_of_atom};

use crate::build;
use c_tree::{BinOp, Expr, ExprNode, NoMemory, Slot, Span, Text, copy_text};
use std::alloc::Global;

/// A variable or a constant.
#[derive(Drop)]
pub enum Atom {
    /// A variable, with the slot that it has where it is visible.
    Var { word: Text, slot: Slot },
    /// A constant, with its spelling.
    Num { value: i64, word: Text },
}

/// A comparison of two atoms.
#[derive(Drop)]
pub struct Bound {
    pub left: Atom,
    pub op: BinOp,
    pub right: Atom,
}

/// A copy of the atom.
pub fn copy_atom(alloc: Global, atom: &Atom) -> Result<Atom, NoMemory>
    ensures { IfOk result (λ copy. copy ≡ atom.now) }
{
    match atom {
        Atom::Var { word, slot } => Ok(Atom::Var {
            word: copy_text(alloc, word)?,
            slot: *slot,
        }),
        Atom::Num { value, word } => Ok(Atom::Num {
            value: *value,
            word: copy_text(alloc, word)?,
        }),
    }
}

/// A copy of the bound.
pub fn copy_bound(alloc: Global, bound: &Bound) -> Result<Bound, NoMemory>
    ensures { IfOk result (λ copy. copy ≡ bound.now) }
{
    Ok(Bound {
        left: copy_atom(alloc, &bound.left)?,
        op: bound.op,
        right: copy_atom(alloc, &bound.right)?,
    })
}

/// The atom as an expression that covers this text.
pub fn atom_expr(alloc: Global, atom: &Atom, span: Span) -> Result<Expr, NoMemory>
    ensures { IfOk result (λ e. tree e ≡ tree_of_atom atom.now span) }
{
    match atom {
        Atom::Var { word, slot } => Ok(Expr {
            node: ExprNode::Name {
                word: copy_text(alloc, word)?,
                slot: *slot,
            },
            span,
        }),
        Atom::Num { value, word } => Ok(Expr {
            node: ExprNode::Const {
                value: *value,
                word: copy_text(alloc, word)?,
            },
            span,
        }),
    }
}

/// The bound as an expression that covers this text.
pub fn bound_expr(alloc: Global, bound: &Bound, span: Span) -> Result<Expr, NoMemory>
    ensures { IfOk result (λ e. tree e ≡ tree_of_bound bound.now span) }
{
    let left = build::boxed(alloc, atom_expr(alloc, &bound.left, span)?)?;
    let right = build::boxed(alloc, atom_expr(alloc, &bound.right, span)?)?;
    Ok(build::binary(bound.op, left, right, span))
}
