//! The constants of a function that are atoms: 0 and 1, and the first four of further values.
#![tactic(auto, using(crate::proofs::ConstantLemmas::constant_steps))]

ghost use Rattle.std.specs.Prelude.{◌≡◌, [], ◌∷◌, map, take, OnOk, IfOk, length};
ghost use Rattle.std.specs.List.{flat_map, list_any};
ghost use Rattle.c_tree.specs.Tree.{Args, Body};
ghost use Rattle.c_tree.specs.Views.{tree, args_of, with_arg, trees, tree_option, initial, variables, first, code, body_of, body_option, with_item, outer, program as tree_program};
ghost use Rattle.schemas.specs.Atoms.{zero, one, is_value, further};
ghost use Rattle.schemas.specs.Kept.{with_constant, with_constants};
ghost use Rattle.schemas.specs.Constants.{constants_in, constants_in_args, constants_in_option, constants_in_initial, constants_in_variables, constants_in_first, constants_in_code, constants_in_body, constants_in_definition, constants_around, constants_at, has_place as span_has};

use crate::atom::Atom;
use c_tree::{
    Arg, Declarator, Expr, ExprNode, External, Init, Item, NoMemory, Program, Span, Start, Stmt,
    StmtNode, Text, copy_text,
};
use std::alloc::Global;

/// How many constants are kept: 0, 1 and four more.
const MOST: usize = 6;

/// Whether one of the atoms is a constant of this value.
fn is_known(found: &[Atom], value: i64) -> bool
    ensures { result ≡ list_any (is_value value) found.now }
{
    found.iter().any(|atom| match atom {
        Atom::Num { value: other, .. } => *other == value,
        Atom::Var { .. } => false,
    })
}

/// Keeps the constant, if it has a value of its own and there is room.
fn add_constant(
    alloc: Global,
    found: &mut Vec<Atom>,
    value: i64,
    word: &Text,
) -> Result<(), NoMemory>
    ensures { OnOk result (found.new.items
        ≡ with_constant found.old.items (record { value = value; word = word.now })) }
{
    if is_known(found, value) {
        return Ok(());
    }
    if found.len() >= MOST {
        return Ok(());
    }
    found.push(Atom::Num {
        value,
        word: copy_text(alloc, word)?,
    })?;
    Ok(())
}

/// The constants in the expression.
#[cycle(add_expr)]
fn add_expr(alloc: Global, found: &mut Vec<Atom>, e: &Expr) -> Result<(), NoMemory>
    ensures { OnOk result (found.new.items
        ≡ with_constants found.old.items (constants_in (tree e.now))) }
{
    match &e.node {
        ExprNode::Const { value, word } => add_constant(alloc, found, *value, word),
        ExprNode::Name { .. } => Ok(()),
        ExprNode::Index { index, .. } => add_expr(alloc, found, index),
        ExprNode::Call { args, .. } => add_args(alloc, found, args),
        ExprNode::Unary { of, .. } | ExprNode::Cast { of, .. } => add_expr(alloc, found, of),
        ExprNode::Binary { left, right, .. } | ExprNode::Comma { left, right } => {
            add_expr(alloc, found, left)?;
            add_expr(alloc, found, right)
        }
        ExprNode::Choice { test, yes, no } => {
            add_expr(alloc, found, test)?;
            add_expr(alloc, found, yes)?;
            add_expr(alloc, found, no)
        }
        ExprNode::Assign { place, value, .. } => {
            add_expr(alloc, found, place)?;
            add_expr(alloc, found, value)
        }
        ExprNode::Bump { place, .. } => add_expr(alloc, found, place),
    }
}

/// The constants in the arguments of a call.
#[cycle(add_expr)]
fn add_args(alloc: Global, found: &mut Vec<Atom>, args: &[Arg]) -> Result<(), NoMemory>
    ensures { OnOk result (found.new.items
        ≡ with_constants found.old.items (constants_in_args (args_of args.now))) }
{
    for arg in args {
        add_arg(alloc, found, arg)?;
    }
    Ok(())
}

/// The constants in an argument.
#[cycle(add_expr)]
fn add_arg(alloc: Global, found: &mut Vec<Atom>, arg: &Arg) -> Result<(), NoMemory>
    ensures { OnOk result ((rest : Args) →
        with_constants found.old.items (constants_in_args (with_arg arg.now rest))
        ≡ with_constants found.new.items (constants_in_args rest)) }
{
    match arg {
        Arg::Value(e) | Arg::Address(e) => add_expr(alloc, found, e),
        Arg::Format(..) => Ok(()),
    }
}

/// The constants in an expression that may be absent.
fn add_option(alloc: Global, found: &mut Vec<Atom>, e: &Option<Expr>) -> Result<(), NoMemory>
    ensures { OnOk result (found.new.items
        ≡ with_constants found.old.items (constants_in_option (tree_option e.now))) }
{
    match e {
        None => Ok(()),
        Some(e) => add_expr(alloc, found, e),
    }
}

/// The constants in expressions.
fn add_exprs(alloc: Global, found: &mut Vec<Atom>, es: &[Expr]) -> Result<(), NoMemory>
    ensures { OnOk result (found.new.items
        ≡ with_constants found.old.items (flat_map constants_in (trees es.now))) }
{
    for e in es {
        add_expr(alloc, found, e)?;
    }
    Ok(())
}

/// The constants in an initialiser.
fn add_start(alloc: Global, found: &mut Vec<Atom>, start: &Start) -> Result<(), NoMemory>
    ensures { OnOk result (found.new.items
        ≡ with_constants found.old.items (constants_in_initial (initial start.now))) }
{
    match start {
        Start::Bare => Ok(()),
        Start::One(e) => add_expr(alloc, found, e),
        Start::List(es) => add_exprs(alloc, found, es),
    }
}

/// The constants in the initialisers of declarations.
fn add_declarators(
    alloc: Global,
    found: &mut Vec<Atom>,
    declarators: &[Declarator],
) -> Result<(), NoMemory>
    ensures { OnOk result (found.new.items
        ≡ with_constants found.old.items (constants_in_variables (variables declarators.now))) }
{
    for declarator in declarators {
        add_start(alloc, found, &declarator.start)?;
    }
    Ok(())
}

/// The constants in the first clause of a `for`.
fn add_init(alloc: Global, found: &mut Vec<Atom>, init: &Init) -> Result<(), NoMemory>
    ensures { OnOk result (found.new.items
        ≡ with_constants found.old.items (constants_in_first (first init.now))) }
{
    match init {
        Init::Empty => Ok(()),
        Init::Act(e) => add_expr(alloc, found, e),
        Init::Vars(_, declarators) => add_declarators(alloc, found, declarators),
    }
}

/// The constants in a statement.
#[cycle(add_stmt)]
fn add_stmt(alloc: Global, found: &mut Vec<Atom>, st: &Stmt) -> Result<(), NoMemory>
    ensures { OnOk result (found.new.items
        ≡ with_constants found.old.items (constants_in_code (code st.now))) }
{
    match &st.node {
        StmtNode::Empty | StmtNode::Break | StmtNode::Continue => Ok(()),
        StmtNode::Act(e) => add_expr(alloc, found, e),
        StmtNode::Block(items) => add_items(alloc, found, items),
        StmtNode::If { test, yes, no } => {
            add_expr(alloc, found, test)?;
            add_stmt(alloc, found, yes)?;
            match no {
                None => Ok(()),
                Some(no) => add_stmt(alloc, found, no),
            }
        }
        StmtNode::While { test, body } => {
            add_expr(alloc, found, test)?;
            add_stmt(alloc, found, body)
        }
        StmtNode::Do { body, test } => {
            add_stmt(alloc, found, body)?;
            add_expr(alloc, found, test)
        }
        StmtNode::For {
            init,
            test,
            step,
            body,
        } => {
            add_init(alloc, found, init)?;
            add_option(alloc, found, test)?;
            add_option(alloc, found, step)?;
            add_stmt(alloc, found, body)
        }
        StmtNode::Return(value) => add_option(alloc, found, value),
    }
}

/// The constants in the items of a block.
#[cycle(add_stmt)]
fn add_items(alloc: Global, found: &mut Vec<Atom>, items: &[Item]) -> Result<(), NoMemory>
    ensures { OnOk result (found.new.items
        ≡ with_constants found.old.items (constants_in_body (body_of items.now))) }
{
    for item in items {
        add_item(alloc, found, item)?;
    }
    Ok(())
}

/// The constants in an item.
#[cycle(add_stmt)]
fn add_item(alloc: Global, found: &mut Vec<Atom>, item: &Item) -> Result<(), NoMemory>
    ensures { OnOk result ((rest : Body) →
        with_constants found.old.items (constants_in_body (with_item item.now rest))
        ≡ with_constants found.new.items (constants_in_body rest)) }
{
    match item {
        Item::Vars(_, declarators) => add_declarators(alloc, found, declarators),
        Item::Stmt(st) => add_stmt(alloc, found, st),
    }
}

/// The constants in the body of a function, if it has one.
fn add_definition(
    alloc: Global,
    found: &mut Vec<Atom>,
    body: &Option<Vec<Item>>,
) -> Result<(), NoMemory>
    ensures { OnOk result (found.new.items
        ≡ with_constants found.old.items (constants_in_definition (body_option body.now))) }
{
    match body {
        None => Ok(()),
        Some(items) => add_items(alloc, found, items),
    }
}

/// Whether the text has the place in it.
fn has_place(span: Span, place: u32) -> bool
    ensures { result ≡ span_has span place }
{
    span.from <= place && place < span.to
}

/// The constants in the function, if its text has the place.
fn add_external(
    alloc: Global,
    found: &mut Vec<Atom>,
    external: &External,
    place: u32,
) -> Result<(), NoMemory>
    ensures { OnOk result (found.new.items
        ≡ with_constants found.old.items (constants_around place (outer external.now))) }
{
    match external {
        External::Vars(..) => Ok(()),
        External::Func(f) => {
            if has_place(f.span, place) {
                return add_definition(alloc, found, &f.body);
            }
            Ok(())
        }
    }
}

/// The constants in the function whose text has the place.
fn add_externals(
    alloc: Global,
    found: &mut Vec<Atom>,
    externals: &[External],
    place: u32,
) -> Result<(), NoMemory>
    ensures { OnOk result (found.new.items
        ≡ with_constants found.old.items (constants_at place (map outer externals.now))) }
{
    for external in externals {
        add_external(alloc, found, external, place)?;
    }
    Ok(())
}

/// The number, spelled by its digit.
fn digit(alloc: Global, value: i64, spelling: u8) -> Result<Atom, NoMemory>
    ensures { IfOk result (λ r. r ≡ Atom.Num value (spelling ∷ [])) }
{
    let word = Text::new(vec![in alloc; spelling]?);
    Ok(Atom::Num { value, word })
}

/// The number 1, spelled so.
pub fn one(alloc: Global) -> Result<Atom, NoMemory>
    ensures { IfOk result (λ r. r ≡ one) }
{
    digit(alloc, 1, b'1')
}

/// 0 and 1, and the first four further values of the constants in the body of the function whose text has the place.
pub fn numbers_at(alloc: Global, program: &Program, place: u32) -> Result<Vec<Atom>, NoMemory>
    ensures { IfOk result (λ r. r.items
        ≡ zero ∷ one
        ∷ take 4 (further (zero ∷ one ∷ []) (constants_at place (tree_program program.now)))) }
{
    let mut found = Vec::new(alloc);
    found.push(digit(alloc, 0, b'0')?)?;
    found.push(one(alloc)?)?;
    add_externals(alloc, &mut found, &program.externals, place)?;
    Ok(found)
}
