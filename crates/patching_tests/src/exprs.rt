//! Expressions that are built by hand, to be printed.

use c_tree::{BinOp, Expr, ExprNode, NoMemory, Slot, Span, Text, Ty, UnOp};
use std::alloc::Global;

pub type Built = Result<Expr, NoMemory>;

fn expr(node: ExprNode) -> Built {
    let span = Span { from: 0, to: 0 };
    Ok(Expr { node, span })
}

fn word(alloc: Global, bytes: &[u8]) -> Result<Text, NoMemory> {
    Ok(Text::new(Vec::from_slice(alloc, bytes)?))
}

pub fn constant(alloc: Global, value: i64, spelling: &[u8]) -> Built {
    let word = word(alloc, spelling)?;
    expr(ExprNode::Const { value, word })
}

pub fn name(alloc: Global, letters: &[u8]) -> Built {
    let word = word(alloc, letters)?;
    let slot = Slot::Unset;
    expr(ExprNode::Name { word, slot })
}

pub fn element(alloc: Global, letters: &[u8], index: Built) -> Built {
    let word = word(alloc, letters)?;
    let index = Box::new(alloc, index?)?;
    let slot = Slot::Local(0);
    expr(ExprNode::Index { word, slot, index })
}

pub fn unary(alloc: Global, op: UnOp, of: Built) -> Built {
    let of = Box::new(alloc, of?)?;
    expr(ExprNode::Unary { op, of })
}

pub fn cast(alloc: Global, ty: Ty, of: Built) -> Built {
    let of = Box::new(alloc, of?)?;
    expr(ExprNode::Cast { ty, of })
}

pub fn binary(alloc: Global, op: BinOp, left: Built, right: Built) -> Built {
    let left = Box::new(alloc, left?)?;
    let right = Box::new(alloc, right?)?;
    expr(ExprNode::Binary { op, left, right })
}

pub fn choice(alloc: Global, test: Built, yes: Built, no: Built) -> Built {
    let test = Box::new(alloc, test?)?;
    let yes = Box::new(alloc, yes?)?;
    let no = Box::new(alloc, no?)?;
    expr(ExprNode::Choice { test, yes, no })
}

pub fn comma(alloc: Global, left: Built, right: Built) -> Built {
    let left = Box::new(alloc, left?)?;
    let right = Box::new(alloc, right?)?;
    expr(ExprNode::Comma { left, right })
}

pub fn a(alloc: Global) -> Built {
    name(alloc, b"a")
}

pub fn b(alloc: Global) -> Built {
    name(alloc, b"b")
}

pub fn one(alloc: Global) -> Built {
    constant(alloc, 1, b"1")
}

/// `a + 1`
pub fn sum(alloc: Global) -> Built {
    binary(alloc, BinOp::Add, a(alloc), one(alloc))
}

/// `a, 1`
pub fn pair(alloc: Global) -> Built {
    comma(alloc, a(alloc), one(alloc))
}

/// `c != 0`
pub fn differs(alloc: Global) -> Built {
    let zero = constant(alloc, 0, b"0");
    binary(alloc, BinOp::Ne, name(alloc, b"c"), zero)
}

/// `a == 1`
pub fn equals(alloc: Global) -> Built {
    binary(alloc, BinOp::Eq, a(alloc), one(alloc))
}

/// `a > b`
pub fn greater(alloc: Global) -> Built {
    binary(alloc, BinOp::Gt, a(alloc), b(alloc))
}
