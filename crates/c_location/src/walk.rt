//! The walk through a program that finds its locations in text order.
#![tactic(auto, using(crate::proofs::TallyLemmas::tally_steps))]

ghost use Rattle.std.specs.Prelude.{◌≡◌, ◌∷◌, [], map, OnOk};
ghost use Rattle.std.specs.List.{flat_map};
ghost use Rattle.c_tree.specs.Tree.{Args, Body};
ghost use Rattle.c_tree.specs.Views.{tree, args_of, with_arg, trees, tree_option, initial, variables, first, code, body_of, with_item, outer, program as tree_program};
ghost use Rattle.c_location.specs.Locations.{assigned, in_tree, in_args, in_condition, in_right_side, in_test, in_step, in_value, in_initial, in_variables, in_first, in_code, in_body, in_outer, located};
ghost use Rattle.c_location.specs.Tally.{with_all};

use crate::tally::Tally;
use c_tree::{
    Arg, BinOp, Declarator, Expr, ExprNode, External, Init, Item, LocKind, NoMemory, Program,
    Start, Stmt, StmtNode,
};

/// The right side of the assignment, if it has no operator.
fn add_assigned(found: &mut Tally, op: Option<BinOp>, value: &Expr) -> Result<(), NoMemory>
    ensures { OnOk result (found.new ≡ with_all found.old (assigned op (tree value.now))) }
{
    match op {
        None => found.add(LocKind::Right, value.span),
        Some(_) => Ok(()),
    }
}

/// The right sides of the plain assignments in the expression.
#[cycle(add_expr)]
fn add_expr(found: &mut Tally, e: &Expr) -> Result<(), NoMemory>
    ensures { OnOk result (found.new ≡ with_all found.old (in_tree (tree e.now))) }
{
    match &e.node {
        ExprNode::Const { .. } | ExprNode::Name { .. } => Ok(()),
        ExprNode::Index { index, .. } => add_expr(found, index),
        ExprNode::Call { args, .. } => add_args(found, args),
        ExprNode::Unary { of, .. } | ExprNode::Cast { of, .. } => add_expr(found, of),
        ExprNode::Binary { left, right, .. } | ExprNode::Comma { left, right } => {
            add_expr(found, left)?;
            add_expr(found, right)
        }
        ExprNode::Choice { test, yes, no } => {
            add_expr(found, test)?;
            add_expr(found, yes)?;
            add_expr(found, no)
        }
        ExprNode::Assign { op, place, value } => {
            add_expr(found, place)?;
            add_assigned(found, *op, value)?;
            add_expr(found, value)
        }
        ExprNode::Bump { place, .. } => add_expr(found, place),
    }
}

#[cycle(add_expr)]
fn add_args(found: &mut Tally, args: &[Arg]) -> Result<(), NoMemory>
    ensures { OnOk result (found.new ≡ with_all found.old (in_args (args_of args.now))) }
{
    for arg in args {
        add_arg(found, arg)?;
    }
    Ok(())
}

#[cycle(add_expr)]
fn add_arg(found: &mut Tally, arg: &Arg) -> Result<(), NoMemory>
    ensures { OnOk result ((rest : Args) →
        with_all found.old (in_args (with_arg arg.now rest)) ≡ with_all found.new (in_args rest)) }
{
    match arg {
        Arg::Value(e) | Arg::Address(e) => add_expr(found, e),
        Arg::Format(..) => Ok(()),
    }
}

/// The condition, and the right sides in it.
fn add_condition(found: &mut Tally, e: &Expr) -> Result<(), NoMemory>
    ensures { OnOk result (found.new ≡ with_all found.old (in_condition (tree e.now))) }
{
    found.add(LocKind::Cond, e.span)?;
    add_expr(found, e)
}

/// The right side, and those in it.
fn add_right_side(found: &mut Tally, e: &Expr) -> Result<(), NoMemory>
    ensures { OnOk result (found.new ≡ with_all found.old (in_right_side (tree e.now))) }
{
    found.add(LocKind::Right, e.span)?;
    add_expr(found, e)
}

fn add_test(found: &mut Tally, test: &Option<Expr>) -> Result<(), NoMemory>
    ensures { OnOk result (found.new ≡ with_all found.old (in_test (tree_option test.now))) }
{
    match test {
        None => Ok(()),
        Some(e) => add_condition(found, e),
    }
}

fn add_step(found: &mut Tally, step: &Option<Expr>) -> Result<(), NoMemory>
    ensures { OnOk result (found.new ≡ with_all found.old (in_step (tree_option step.now))) }
{
    match step {
        None => Ok(()),
        Some(e) => add_expr(found, e),
    }
}

fn add_value(found: &mut Tally, value: &Option<Expr>) -> Result<(), NoMemory>
    ensures { OnOk result (found.new ≡ with_all found.old (in_value (tree_option value.now))) }
{
    match value {
        None => Ok(()),
        Some(e) => add_right_side(found, e),
    }
}

fn add_exprs(found: &mut Tally, es: &[Expr]) -> Result<(), NoMemory>
    ensures { OnOk result (found.new ≡ with_all found.old (flat_map in_tree (trees es.now))) }
{
    for e in es {
        add_expr(found, e)?;
    }
    Ok(())
}

fn add_start(found: &mut Tally, start: &Start) -> Result<(), NoMemory>
    ensures { OnOk result (found.new ≡ with_all found.old (in_initial (initial start.now))) }
{
    match start {
        Start::Bare => Ok(()),
        Start::One(e) => add_right_side(found, e),
        Start::List(es) => add_exprs(found, es),
    }
}

fn add_declarators(found: &mut Tally, declarators: &[Declarator]) -> Result<(), NoMemory>
    ensures { OnOk result (found.new ≡
        with_all found.old (in_variables (variables declarators.now))) }
{
    for declarator in declarators {
        add_start(found, &declarator.start)?;
    }
    Ok(())
}

fn add_init(found: &mut Tally, init: &Init) -> Result<(), NoMemory>
    ensures { OnOk result (found.new ≡ with_all found.old (in_first (first init.now))) }
{
    match init {
        Init::Empty => Ok(()),
        Init::Act(e) => add_expr(found, e),
        Init::Vars(_, declarators) => add_declarators(found, declarators),
    }
}

/// The locations in the statement.
#[cycle(add_stmt)]
fn add_stmt(found: &mut Tally, st: &Stmt) -> Result<(), NoMemory>
    ensures { OnOk result (found.new ≡ with_all found.old (in_code (code st.now))) }
{
    match &st.node {
        StmtNode::Empty => Ok(()),
        StmtNode::Act(e) => {
            found.add(LocKind::Guard, st.span)?;
            add_expr(found, e)
        }
        StmtNode::Block(items) => add_items(found, items),
        StmtNode::If { test, yes, no } => {
            add_condition(found, test)?;
            add_stmt(found, yes)?;
            match no {
                None => Ok(()),
                Some(no) => add_stmt(found, no),
            }
        }
        StmtNode::While { test, body } => {
            add_condition(found, test)?;
            add_stmt(found, body)
        }
        StmtNode::Do { body, test } => {
            add_stmt(found, body)?;
            add_condition(found, test)
        }
        StmtNode::For {
            init,
            test,
            step,
            body,
        } => {
            add_init(found, init)?;
            add_test(found, test)?;
            add_step(found, step)?;
            add_stmt(found, body)
        }
        StmtNode::Return(value) => {
            found.add(LocKind::Guard, st.span)?;
            add_value(found, value)
        }
        StmtNode::Break | StmtNode::Continue => found.add(LocKind::Guard, st.span),
    }
}

/// The locations in the items.
#[cycle(add_stmt)]
fn add_items(found: &mut Tally, items: &[Item]) -> Result<(), NoMemory>
    ensures { OnOk result (found.new ≡ with_all found.old (in_body (body_of items.now))) }
{
    for item in items {
        add_item(found, item)?;
    }
    Ok(())
}

#[cycle(add_stmt)]
fn add_item(found: &mut Tally, item: &Item) -> Result<(), NoMemory>
    ensures { OnOk result ((rest : Body) →
        with_all found.old (in_body (with_item item.now rest))
        ≡ with_all found.new (in_body rest)) }
{
    match item {
        Item::Vars(_, declarators) => add_declarators(found, declarators),
        Item::Stmt(st) => add_stmt(found, st),
    }
}

fn add_external(found: &mut Tally, external: &External) -> Result<(), NoMemory>
    ensures { OnOk result (found.new ≡ with_all found.old (in_outer (outer external.now))) }
{
    match external {
        External::Vars(..) => Ok(()),
        External::Func(func) => match &func.body {
            None => Ok(()),
            Some(items) => add_items(found, items),
        },
    }
}

/// The locations in what stands at file scope.
fn add_externals(found: &mut Tally, externals: &[External]) -> Result<(), NoMemory>
    ensures { OnOk result (found.new ≡ with_all found.old (located (map outer externals.now))) }
{
    for external in externals {
        add_external(found, external)?;
    }
    Ok(())
}

/// The locations of the program.
pub fn add_program(found: &mut Tally, program: &Program) -> Result<(), NoMemory>
    ensures { OnOk result (found.new ≡ with_all found.old (located (tree_program program.now))) }
{
    add_externals(found, &program.externals)
}
