//! Programs of tests: trees that are built by hand, and sources that are read and checked.

ghost use Rattle.std.specs.Prelude.{IfOk};
ghost use Rattle.c_types.specs.Evidence.{IsOrdered};
ghost use Rattle.c_types.specs.Shown.{tree_of};

use c_lex::lex;
use c_parse::parse;
use c_tree::{
    BinOp, Declarator, Expr, ExprNode, External, Func, Item, NoMemory, Program, Shape, Slot, Span,
    Start, Stmt, StmtNode, Text, Ty,
};
use c_types::{Typed, check};
use patch_print::splice;
use patch_space::Space;
use std::alloc::Global;
use std::test::Fail;

pub fn span(from: u32, to: u32) -> Span {
    Span { from, to }
}

pub fn word(alloc: Global, letter: u8) -> Result<Text, NoMemory> {
    Ok(Text::new(vec![in alloc; letter]?))
}

/// A name of one letter.
pub fn name(alloc: Global, letter: u8, at: Span) -> Result<Expr, NoMemory> {
    let node = ExprNode::Name {
        word: word(alloc, letter)?,
        slot: Slot::Unset,
    };
    Ok(Expr { node, span: at })
}

/// A number of one digit.
pub fn digit(alloc: Global, at: Span) -> Result<Expr, NoMemory> {
    let node = ExprNode::Const {
        value: 1,
        word: word(alloc, b'1')?,
    };
    Ok(Expr { node, span: at })
}

/// `a OP right`
pub fn binary(alloc: Global, op: BinOp, right: Expr, at: Span) -> Result<Expr, NoMemory> {
    let node = ExprNode::Binary {
        op,
        left: Box::new(alloc, name(alloc, b'a', at)?)?,
        right: Box::new(alloc, right)?,
    };
    Ok(Expr { node, span: at })
}

/// `a OP a`
pub fn comparison(alloc: Global, op: BinOp, at: Span) -> Result<Expr, NoMemory> {
    binary(alloc, op, name(alloc, b'a', at)?, at)
}

/// A statement as an item.
pub fn item(node: StmtNode, at: Span) -> Item {
    Item::Stmt(Stmt { node, span: at })
}

/// A statement in a box.
pub fn boxed(alloc: Global, node: StmtNode, at: Span) -> Result<Box<Stmt>, NoMemory> {
    Ok(Box::new(alloc, Stmt { node, span: at })?)
}

/// `int a=1;`
pub fn declaration(alloc: Global) -> Result<Item, NoMemory> {
    let mut declarators = Vec::new(alloc);
    declarators.push(Declarator {
        word: word(alloc, b'a')?,
        slot: Slot::Unset,
        span: span(4, 5),
        shape: Shape::Scalar,
        start: Start::One(digit(alloc, span(6, 7))?),
    })?;
    Ok(Item::Vars(Ty::Int, declarators))
}

/// The program of a function with these items.
pub fn program(alloc: Global, items: Vec<Item>) -> Result<Program, NoMemory> {
    let mut externals = Vec::new(alloc);
    externals.push(External::Func(Func {
        word: word(alloc, b'm')?,
        span: span(0, 0),
        ret: Some(Ty::Int),
        params: Vec::new(alloc),
        body: Some(items),
    }))?;
    Ok(Program { externals })
}

/// The checked program of this source.
pub fn checked(alloc: Global, source: &[u8]) -> Result<Typed, Fail>
    ensures { IfOk result (λ typed. IsOrdered (tree_of typed)) }
{
    (source.len() < 65_536).then_some(()).ok_or("too long")?;
    let end = source.len() as u32;
    let tokens = lex(alloc, source)?;
    let tree = parse(alloc, &tokens, end)?;
    Ok(check(alloc, tree, end)?)
}

/// The source with the edit of the patch of that rank.
pub fn text_with(
    alloc: Global,
    source: &[u8],
    program: &Typed,
    space: &Space,
    rank: u32,
) -> Result<Vec<u8>, Fail> {
    (rank < space.len()).then_some(()).ok_or("no such patch")?;
    let patch = space.patch(rank);
    let loc = space
        .all_locations()
        .get(patch.loc as usize)
        .ok_or("no such location")?;
    Ok(splice(alloc, source, program, loc, &patch.edit)?)
}

/// The text of a comparison operator.
fn spelled(op: BinOp) -> &'static str {
    match op {
        BinOp::Lt => "<",
        BinOp::Le => "<=",
        BinOp::Gt => ">",
        BinOp::Ge => ">=",
        BinOp::Eq => "==",
        _ => "!=",
    }
}

/// `int main(void) { int a = 1; if (a FIRST a) a; if (a SECOND a) a; }`
pub fn two_conditions(alloc: Global, first: BinOp, second: BinOp) -> Result<Typed, Fail>
    ensures { IfOk result (λ typed. IsOrdered (tree_of typed)) }
{
    let mut source = b"int main(void) { int a = 1; if (a ".to_vec(alloc)?;
    source.extend_from_slice(spelled(first).as_bytes())?;
    source.extend_from_slice(b" a) a; if (a ")?;
    source.extend_from_slice(spelled(second).as_bytes())?;
    source.extend_from_slice(b" a) a; }")?;
    checked(alloc, &source)
}

/// `int main(void) { int a = 1; a; .. }` with so many statements `a;`. It has one location more than these.
pub fn row_of_statements(alloc: Global, count: u32) -> Result<Typed, Fail>
    ensures { IfOk result (λ typed. IsOrdered (tree_of typed)) }
{
    let mut source = b"int main(void) { int a = 1; ".to_vec(alloc)?;
    for _ in 0..count {
        source.extend_from_slice(b"a;")?;
    }
    source.push(b'}')?;
    checked(alloc, &source)
}

/// `int a=1;` with one location, and so many statements `a;` with one each.
pub fn statements(alloc: Global, count: u32) -> Result<Vec<Item>, NoMemory> {
    let mut items = Vec::new(alloc);
    items.push(declaration(alloc)?)?;
    for _ in 0..count {
        items.push(item(StmtNode::Act(name(alloc, b'a', span(9, 10))?), span(9, 11)))?;
    }
    Ok(items)
}
