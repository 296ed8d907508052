//! A program with the part at one location changed. The trees are changed in place: a node is moved out, its parts
//! are changed, and it is put back.

ghost use Rattle.std.specs.Prelude.{◌≡◌, map, OnOk, IfOk};
ghost use Rattle.c_tree.specs.declared.place.Span.{Span};
ghost use Rattle.c_tree.specs.Tree.{Args, Body, binary, choice, assign, comma, act, if_then, if_else, while, do_while, for, give};
ghost use Rattle.c_tree.specs.Views.{tree, node_tree, args_of, with_arg, trees, tree_option, initial, variable, variables, first, code, node_code, body_of, body_option, with_item, outer, program as tree_program};
ghost use Rattle.c_location.specs.Changes.{rewrite_of};
ghost use Rattle.c_location.specs.Rewrites.{at_tree, at_assigned, at_code, to_tree, to_args, to_test, to_step, to_value, to_initial, to_variable, to_first, to_code, to_body, to_definition, to_outer, rewritten};

use crate::change::{Change, change_part, changed_statement, nothing};
use crate::part::is_at;
use c_tree::{
    Arg, BinOp, Declarator, Expr, ExprNode, External, Init, Item, Loc, LocKind, NoMemory, Program,
    Span, Start, Stmt, StmtNode,
};
use std::alloc::Global;
use std::mem;

/// Changes the expression.
#[cycle(change_expr)]
fn change_expr(alloc: Global, e: &mut Expr, l: &Loc, change: &Change) -> Result<(), NoMemory>
    ensures { OnOk result (tree e.new ≡ to_tree l.now (rewrite_of change.now) (tree e.old)) }
{
    let node = mem::replace(&mut e.node, nothing(alloc));
    e.node = changed_node(alloc, node, l, change)?;
    Ok(())
}

/// Changes the kind of an expression with its parts.
#[cycle(change_expr)]
fn changed_node(
    alloc: Global,
    node: ExprNode,
    l: &Loc,
    change: &Change,
) -> Result<ExprNode, NoMemory>
    ensures { IfOk result (λ r. (s : Span) →
        node_tree r s ≡ to_tree l.now (rewrite_of change.now) (node_tree node s)) }
{
    match node {
        ExprNode::Const { value, word } => Ok(ExprNode::Const { value, word }),
        ExprNode::Name { word, slot } => Ok(ExprNode::Name { word, slot }),
        ExprNode::Index {
            word,
            slot,
            mut index,
        } => {
            change_expr(alloc, &mut index, l, change)?;
            Ok(ExprNode::Index { word, slot, index })
        }
        ExprNode::Call { word, mut args } => {
            change_args(alloc, &mut args, l, change)?;
            Ok(ExprNode::Call { word, args })
        }
        ExprNode::Unary { op, mut of } => {
            change_expr(alloc, &mut of, l, change)?;
            Ok(ExprNode::Unary { op, of })
        }
        ExprNode::Cast { ty, mut of } => {
            change_expr(alloc, &mut of, l, change)?;
            Ok(ExprNode::Cast { ty, of })
        }
        ExprNode::Binary { op, left, right } => changed_binary(alloc, op, left, right, l, change),
        ExprNode::Choice { test, yes, no } => changed_choice(alloc, test, yes, no, l, change),
        ExprNode::Assign { op, place, value } => changed_assign(alloc, op, place, value, l, change),
        ExprNode::Bump {
            before,
            up,
            mut place,
        } => {
            change_expr(alloc, &mut place, l, change)?;
            Ok(ExprNode::Bump { before, up, place })
        }
        ExprNode::Comma { left, right } => changed_comma(alloc, left, right, l, change),
    }
}

/// The operator between its operands, changed.
#[cycle(change_expr)]
fn changed_binary(
    alloc: Global,
    op: BinOp,
    mut left: Box<Expr>,
    mut right: Box<Expr>,
    l: &Loc,
    change: &Change,
) -> Result<ExprNode, NoMemory>
    ensures { IfOk result (λ r. (s : Span) → node_tree r s ≡
        to_tree l.now (rewrite_of change.now) (binary op (tree left.value) (tree right.value) s)) }
{
    change_expr(alloc, &mut left, l, change)?;
    change_expr(alloc, &mut right, l, change)?;
    Ok(ExprNode::Binary { op, left, right })
}

/// The choice between two expressions, changed.
#[cycle(change_expr)]
fn changed_choice(
    alloc: Global,
    mut test: Box<Expr>,
    mut yes: Box<Expr>,
    mut no: Box<Expr>,
    l: &Loc,
    change: &Change,
) -> Result<ExprNode, NoMemory>
    ensures { IfOk result (λ r. (s : Span) → node_tree r s ≡ to_tree l.now (rewrite_of change.now)
        (choice (tree test.value) (tree yes.value) (tree no.value) s)) }
{
    change_expr(alloc, &mut test, l, change)?;
    change_expr(alloc, &mut yes, l, change)?;
    change_expr(alloc, &mut no, l, change)?;
    Ok(ExprNode::Choice { test, yes, no })
}

/// The assignment, changed.
#[cycle(change_expr)]
fn changed_assign(
    alloc: Global,
    op: Option<BinOp>,
    mut place: Box<Expr>,
    mut value: Box<Expr>,
    l: &Loc,
    change: &Change,
) -> Result<ExprNode, NoMemory>
    ensures { IfOk result (λ r. (s : Span) → node_tree r s ≡
        to_tree l.now (rewrite_of change.now) (assign op (tree place.value) (tree value.value) s)) }
{
    change_expr(alloc, &mut place, l, change)?;
    change_assigned(alloc, &mut value, op, l, change)?;
    Ok(ExprNode::Assign { op, place, value })
}

/// The two expressions with a comma between them, changed.
#[cycle(change_expr)]
fn changed_comma(
    alloc: Global,
    mut left: Box<Expr>,
    mut right: Box<Expr>,
    l: &Loc,
    change: &Change,
) -> Result<ExprNode, NoMemory>
    ensures { IfOk result (λ r. (s : Span) → node_tree r s ≡
        to_tree l.now (rewrite_of change.now) (comma (tree left.value) (tree right.value) s)) }
{
    change_expr(alloc, &mut left, l, change)?;
    change_expr(alloc, &mut right, l, change)?;
    Ok(ExprNode::Comma { left, right })
}

/// Changes the value of an assignment, which is a location where the assignment has no operator.
#[cycle(change_expr)]
fn change_assigned(
    alloc: Global,
    value: &mut Expr,
    op: Option<BinOp>,
    l: &Loc,
    change: &Change,
) -> Result<(), NoMemory>
    ensures { OnOk result (tree value.new ≡
        at_assigned l.now (rewrite_of change.now) op (tree value.old)
        (to_tree l.now (rewrite_of change.now) (tree value.old))) }
{
    match op {
        None => change_here(alloc, value, LocKind::Right, l, change),
        Some(_) => change_expr(alloc, value, l, change),
    }
}

/// Changes a condition or a right side: itself where it is the location, and else what is inside it.
#[cycle(change_expr)]
fn change_here(
    alloc: Global,
    e: &mut Expr,
    kind: LocKind,
    l: &Loc,
    change: &Change,
) -> Result<(), NoMemory>
    ensures { OnOk result (tree e.new ≡ at_tree l.now (rewrite_of change.now) kind (tree e.old)
        (to_tree l.now (rewrite_of change.now) (tree e.old))) }
{
    if is_at(l, kind, e.span) {
        return change_part(alloc, e, change);
    }
    change_expr(alloc, e, l, change)
}

/// Changes the arguments of a call.
#[cycle(change_expr)]
fn change_args(alloc: Global, args: &mut [Arg], l: &Loc, change: &Change) -> Result<(), NoMemory>
    ensures { OnOk result (args_of args.new ≡
        to_args l.now (rewrite_of change.now) (args_of args.old)) }
{
    for arg in args {
        change_arg(alloc, arg, l, change)?;
    }
    Ok(())
}

/// Changes an argument.
#[cycle(change_expr)]
fn change_arg(alloc: Global, arg: &mut Arg, l: &Loc, change: &Change) -> Result<(), NoMemory>
    ensures { OnOk result ((rest : Args) →
        with_arg arg.new (to_args l.now (rewrite_of change.now) rest)
        ≡ to_args l.now (rewrite_of change.now) (with_arg arg.old rest)) }
{
    match arg {
        Arg::Value(e) => change_expr(alloc, e, l, change),
        Arg::Address(e) => change_expr(alloc, e, l, change),
        Arg::Format(..) => Ok(()),
    }
}

/// Changes the condition of a `for`, if it has one.
fn change_test(
    alloc: Global,
    test: &mut Option<Expr>,
    l: &Loc,
    change: &Change,
) -> Result<(), NoMemory>
    ensures { OnOk result (tree_option test.new ≡
        to_test l.now (rewrite_of change.now) (tree_option test.old)) }
{
    match test {
        None => Ok(()),
        Some(e) => change_here(alloc, e, LocKind::Cond, l, change),
    }
}

/// Changes the step of a `for`, if it has one.
fn change_step(
    alloc: Global,
    step: &mut Option<Expr>,
    l: &Loc,
    change: &Change,
) -> Result<(), NoMemory>
    ensures { OnOk result (tree_option step.new ≡
        to_step l.now (rewrite_of change.now) (tree_option step.old)) }
{
    match step {
        None => Ok(()),
        Some(e) => change_expr(alloc, e, l, change),
    }
}

/// Changes the value of a `return`, if it has one.
fn change_value(
    alloc: Global,
    value: &mut Option<Expr>,
    l: &Loc,
    change: &Change,
) -> Result<(), NoMemory>
    ensures { OnOk result (tree_option value.new ≡
        to_value l.now (rewrite_of change.now) (tree_option value.old)) }
{
    match value {
        None => Ok(()),
        Some(e) => change_here(alloc, e, LocKind::Right, l, change),
    }
}

/// Changes the expressions.
fn change_exprs(alloc: Global, es: &mut [Expr], l: &Loc, change: &Change) -> Result<(), NoMemory>
    ensures { OnOk result (trees es.new ≡
        map (to_tree l.now (rewrite_of change.now)) (trees es.old)) }
{
    for e in es {
        change_expr(alloc, e, l, change)?;
    }
    Ok(())
}

/// Changes the initialiser.
fn change_start(alloc: Global, start: &mut Start, l: &Loc, change: &Change) -> Result<(), NoMemory>
    ensures { OnOk result (initial start.new ≡
        to_initial l.now (rewrite_of change.now) (initial start.old)) }
{
    match start {
        Start::Bare => Ok(()),
        Start::One(e) => change_here(alloc, e, LocKind::Right, l, change),
        Start::List(es) => change_exprs(alloc, es, l, change),
    }
}

/// Changes the declared variable.
fn change_declarator(
    alloc: Global,
    declarator: &mut Declarator,
    l: &Loc,
    change: &Change,
) -> Result<(), NoMemory>
    ensures { OnOk result (variable declarator.new ≡
        to_variable l.now (rewrite_of change.now) (variable declarator.old)) }
{
    change_start(alloc, &mut declarator.start, l, change)
}

/// Changes the declared variables.
fn change_declarators(
    alloc: Global,
    declarators: &mut [Declarator],
    l: &Loc,
    change: &Change,
) -> Result<(), NoMemory>
    ensures { OnOk result (variables declarators.new ≡
        map (to_variable l.now (rewrite_of change.now)) (variables declarators.old)) }
{
    for declarator in declarators {
        change_declarator(alloc, declarator, l, change)?;
    }
    Ok(())
}

/// Changes the first clause of a `for`.
fn change_init(alloc: Global, init: &mut Init, l: &Loc, change: &Change) -> Result<(), NoMemory>
    ensures { OnOk result (first init.new ≡
        to_first l.now (rewrite_of change.now) (first init.old)) }
{
    match init {
        Init::Empty => Ok(()),
        Init::Act(e) => change_expr(alloc, e, l, change),
        Init::Vars(_, declarators) => change_declarators(alloc, declarators, l, change),
    }
}

/// Changes the three clauses of a `for`.
fn change_clauses(
    alloc: Global,
    init: &mut Init,
    test: &mut Option<Expr>,
    step: &mut Option<Expr>,
    l: &Loc,
    change: &Change,
) -> Result<(), NoMemory>
    ensures init { OnOk result (first init.new ≡
        to_first l.now (rewrite_of change.now) (first init.old)) }
    ensures test { OnOk result (tree_option test.new ≡
        to_test l.now (rewrite_of change.now) (tree_option test.old)) }
    ensures step { OnOk result (tree_option step.new ≡
        to_step l.now (rewrite_of change.now) (tree_option step.old)) }
{
    change_init(alloc, init, l, change)?;
    change_test(alloc, test, l, change)?;
    change_step(alloc, step, l, change)
}

/// The expression statement, changed.
fn changed_act(
    alloc: Global,
    mut e: Expr,
    span: Span,
    l: &Loc,
    change: &Change,
) -> Result<StmtNode, NoMemory>
    ensures { IfOk result (λ r. node_code r span ≡
        to_code l.now (rewrite_of change.now) (act (tree e) span)) }
{
    if is_at(l, LocKind::Guard, span) {
        return changed_statement(alloc, StmtNode::Act(e), span, change);
    }
    change_expr(alloc, &mut e, l, change)?;
    Ok(StmtNode::Act(e))
}

/// The `return`, changed.
fn changed_return(
    alloc: Global,
    mut value: Option<Expr>,
    span: Span,
    l: &Loc,
    change: &Change,
) -> Result<StmtNode, NoMemory>
    ensures { IfOk result (λ r. node_code r span ≡
        to_code l.now (rewrite_of change.now) (give (tree_option value) span)) }
{
    if is_at(l, LocKind::Guard, span) {
        return changed_statement(alloc, StmtNode::Return(value), span, change);
    }
    change_value(alloc, &mut value, l, change)?;
    Ok(StmtNode::Return(value))
}

/// The `break` or the `continue`, changed.
#[tactic(auto, using(crate::proofs::SpanLemmas::span_steps))]
fn changed_jump(
    alloc: Global,
    jump: StmtNode,
    span: Span,
    l: &Loc,
    change: &Change,
) -> Result<StmtNode, NoMemory>
    ensures { IfOk result (λ r. node_code r span ≡
        at_code l.now (rewrite_of change.now) (node_code jump span) (node_code jump span)) }
{
    if is_at(l, LocKind::Guard, span) {
        return changed_statement(alloc, jump, span, change);
    }
    Ok(jump)
}

/// Puts the node into the statement, which keeps its place in the text.
fn put_node(st: &mut Stmt, node: StmtNode)
    ensures { code st.new ≡ node_code node st.old.span }
{
    let span = st.span;
    drop(mem::replace(st, Stmt { node, span }));
}

/// Changes the statement.
#[cycle(change_stmt)]
fn change_stmt(alloc: Global, st: &mut Stmt, l: &Loc, change: &Change) -> Result<(), NoMemory>
    ensures { OnOk result (code st.new ≡ to_code l.now (rewrite_of change.now) (code st.old)) }
{
    let node = mem::replace(&mut st.node, StmtNode::Empty);
    let node = changed_kind(alloc, node, st.span, l, change)?;
    put_node(st, node);
    Ok(())
}

/// The kind of a statement with its parts, changed.
#[cycle(change_stmt)]
fn changed_kind(
    alloc: Global,
    node: StmtNode,
    span: Span,
    l: &Loc,
    change: &Change,
) -> Result<StmtNode, NoMemory>
    ensures { IfOk result (λ r. node_code r span ≡
        to_code l.now (rewrite_of change.now) (node_code node span)) }
{
    match node {
        StmtNode::Empty => Ok(StmtNode::Empty),
        StmtNode::Act(e) => changed_act(alloc, e, span, l, change),
        StmtNode::Return(value) => changed_return(alloc, value, span, l, change),
        StmtNode::Break => changed_jump(alloc, StmtNode::Break, span, l, change),
        StmtNode::Continue => changed_jump(alloc, StmtNode::Continue, span, l, change),
        StmtNode::Block(mut items) => {
            change_items(alloc, &mut items, l, change)?;
            Ok(StmtNode::Block(items))
        }
        StmtNode::If { test, yes, no } => match no {
            None => changed_if(alloc, test, yes, l, change),
            Some(no) => changed_if_else(alloc, test, yes, no, l, change),
        },
        StmtNode::While { test, body } => changed_while(alloc, test, body, l, change),
        StmtNode::Do { body, test } => changed_do(alloc, body, test, l, change),
        StmtNode::For {
            init,
            test,
            step,
            body,
        } => changed_for(alloc, init, test, step, body, l, change),
    }
}

/// The `if` with no `else`, changed.
#[cycle(change_stmt)]
fn changed_if(
    alloc: Global,
    mut test: Expr,
    mut yes: Box<Stmt>,
    l: &Loc,
    change: &Change,
) -> Result<StmtNode, NoMemory>
    ensures { IfOk result (λ r. (s : Span) → node_code r s ≡
        to_code l.now (rewrite_of change.now) (if_then (tree test) (code yes.value) s)) }
{
    change_here(alloc, &mut test, LocKind::Cond, l, change)?;
    change_stmt(alloc, &mut yes, l, change)?;
    Ok(StmtNode::If {
        test,
        yes,
        no: None,
    })
}

/// The `if` with an `else`, changed.
#[cycle(change_stmt)]
fn changed_if_else(
    alloc: Global,
    mut test: Expr,
    mut yes: Box<Stmt>,
    mut no: Box<Stmt>,
    l: &Loc,
    change: &Change,
) -> Result<StmtNode, NoMemory>
    ensures { IfOk result (λ r. (s : Span) → node_code r s ≡ to_code l.now (rewrite_of change.now)
        (if_else (tree test) (code yes.value) (code no.value) s)) }
{
    change_here(alloc, &mut test, LocKind::Cond, l, change)?;
    change_stmt(alloc, &mut yes, l, change)?;
    change_stmt(alloc, &mut no, l, change)?;
    Ok(StmtNode::If {
        test,
        yes,
        no: Some(no),
    })
}

/// The `while`, changed.
#[cycle(change_stmt)]
fn changed_while(
    alloc: Global,
    mut test: Expr,
    mut body: Box<Stmt>,
    l: &Loc,
    change: &Change,
) -> Result<StmtNode, NoMemory>
    ensures { IfOk result (λ r. (s : Span) → node_code r s ≡
        to_code l.now (rewrite_of change.now) (while (tree test) (code body.value) s)) }
{
    change_here(alloc, &mut test, LocKind::Cond, l, change)?;
    change_stmt(alloc, &mut body, l, change)?;
    Ok(StmtNode::While { test, body })
}

/// The `do`, changed.
#[cycle(change_stmt)]
fn changed_do(
    alloc: Global,
    mut body: Box<Stmt>,
    mut test: Expr,
    l: &Loc,
    change: &Change,
) -> Result<StmtNode, NoMemory>
    ensures { IfOk result (λ r. (s : Span) → node_code r s ≡
        to_code l.now (rewrite_of change.now) (do_while (code body.value) (tree test) s)) }
{
    change_stmt(alloc, &mut body, l, change)?;
    change_here(alloc, &mut test, LocKind::Cond, l, change)?;
    Ok(StmtNode::Do { body, test })
}

/// The `for`, changed.
#[cycle(change_stmt)]
fn changed_for(
    alloc: Global,
    mut init: Init,
    mut test: Option<Expr>,
    mut step: Option<Expr>,
    mut body: Box<Stmt>,
    l: &Loc,
    change: &Change,
) -> Result<StmtNode, NoMemory>
    ensures { IfOk result (λ r. (s : Span) → node_code r s ≡ to_code l.now (rewrite_of change.now)
        (for (first init) (tree_option test) (tree_option step) (code body.value) s)) }
{
    change_clauses(alloc, &mut init, &mut test, &mut step, l, change)?;
    change_stmt(alloc, &mut body, l, change)?;
    Ok(StmtNode::For {
        init,
        test,
        step,
        body,
    })
}

/// Changes the items of a block.
#[cycle(change_stmt)]
fn change_items(alloc: Global, items: &mut [Item], l: &Loc, change: &Change) -> Result<(), NoMemory>
    ensures { OnOk result (body_of items.new ≡
        to_body l.now (rewrite_of change.now) (body_of items.old)) }
{
    for item in items {
        change_item(alloc, item, l, change)?;
    }
    Ok(())
}

/// Changes an item.
#[cycle(change_stmt)]
fn change_item(alloc: Global, item: &mut Item, l: &Loc, change: &Change) -> Result<(), NoMemory>
    ensures { OnOk result ((rest : Body) →
        with_item item.new (to_body l.now (rewrite_of change.now) rest)
        ≡ to_body l.now (rewrite_of change.now) (with_item item.old rest)) }
{
    match item {
        Item::Vars(_, declarators) => change_declarators(alloc, declarators, l, change),
        Item::Stmt(st) => change_stmt(alloc, st, l, change),
    }
}

/// Changes the body of a function, if it has one.
fn change_body(
    alloc: Global,
    body: &mut Option<Vec<Item>>,
    l: &Loc,
    change: &Change,
) -> Result<(), NoMemory>
    ensures { OnOk result (body_option body.new ≡
        to_definition l.now (rewrite_of change.now) (body_option body.old)) }
{
    match body {
        None => Ok(()),
        Some(items) => change_items(alloc, items, l, change),
    }
}

/// Changes what stands at file scope, where variables have no locations.
fn change_external(
    alloc: Global,
    external: &mut External,
    l: &Loc,
    change: &Change,
) -> Result<(), NoMemory>
    ensures { OnOk result (outer external.new ≡
        to_outer l.now (rewrite_of change.now) (outer external.old)) }
{
    match external {
        External::Vars(..) => Ok(()),
        External::Func(func) => change_body(alloc, &mut func.body, l, change),
    }
}

/// Changes all that stands at file scope.
fn change_externals(
    alloc: Global,
    externals: &mut [External],
    l: &Loc,
    change: &Change,
) -> Result<(), NoMemory>
    ensures { OnOk result (map outer externals.new ≡
        rewritten l.now (rewrite_of change.now) (map outer externals.old)) }
{
    for external in externals {
        change_external(alloc, external, l, change)?;
    }
    Ok(())
}

/// Makes the change at the location. Where the location isn't one of the program's, or the change is one of a
/// statement and an expression stands there, or the other way round, the program stays as it is.
///
/// # Errors
///
/// `NoMemory` where memory runs out. Nothing is said of what the program is then: let it go.
pub fn change_at(
    alloc: Global,
    program: &mut Program,
    l: &Loc,
    change: &Change,
) -> Result<(), NoMemory>
    ensures { OnOk result (tree_program program.new ≡
        rewritten l.now (rewrite_of change.now) (tree_program program.old)) }
{
    change_externals(alloc, &mut program.externals, l, change)
}
