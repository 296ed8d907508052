//! The code of statements of a function with some result.

ghost use Rattle.std.specs.Prelude.{◌<◌, length, IfOk};
ghost use Rattle.c_tree.specs.Tree.{done};
ghost use Rattle.c_tree.specs.Views.{tree, tree_option, first, code, body_of, with_item};
ghost use Rattle.interp_code.specs.Plan.{spend, fork, open_scope, give_none};
ghost use Rattle.interp_code.specs.Compile.{closing, giving};
ghost use Rattle.interp_code.specs.Flat.{plan_at, Grown};
ghost use Rattle.interp_code.specs.Holed.{drop_plan, right_plan, condition_plan, first_plan, step_plan, test_plan, while_plan, do_plan, turns_plan, leaf_plan, guarded_plan, simple_plan, code_plan, body_plan};
ghost use Rattle.interp_code.specs.Leading.{AreWithin, ways_at, GrownWays};

use crate::code::Nodes;
use crate::context::Context;
use crate::declarations::{Scope, flat_declaration};
use crate::expressions::{flat_condition, flat_drop, flat_right};
use crate::holes::stands;
use crate::node::Node;
use c_tree::{Expr, Init, Item, LocKind, NoMemory, Stmt, StmtNode, Ty};

/// The places of what follows a statement, a `break` in it and a `continue` in it.
#[derive(Clone, Copy, Debug)]
pub struct Exits {
    /// What follows.
    pub next: usize,
    /// What follows the loop.
    pub out: usize,
    /// What follows the body of the loop.
    pub more: usize,
}

/// The ways out of a scope.
fn close_scopes(nodes: &mut Nodes, exits: Exits) -> Result<Exits, NoMemory>
    requires { AreWithin (length nodes.old) exits }
    ensures { IfOk result (λ inner. GrownWays nodes.old nodes.new inner
        (closing (ways_at nodes.old exits))) }
{
    let next = nodes.push(Node::CloseScope { next: exits.next })?;
    let out = nodes.push(Node::CloseScope { next: exits.out })?;
    let more = nodes.push(Node::CloseScope { next: exits.more })?;
    Ok(Exits { next, out, more })
}

/// The code of a `return` with its value on the stack.
fn flat_giving(nodes: &mut Nodes, ret: Option<Ty>) -> Result<usize, NoMemory>
    ensures { IfOk result (λ at. Grown nodes.old nodes.new at (giving ret)) }
{
    let give = match ret {
        Some(_) => nodes.push(Node::GiveValue)?,
        None => nodes.push(Node::GiveNone)?,
    };
    match ret {
        Some(ty) => nodes.push(Node::Cast { ty, next: give }),
        None => nodes.push(Node::Forget { next: give }),
    }
}

/// The code of an expression statement.
fn flat_act(
    context: &Context<'_>,
    nodes: &mut Nodes,
    e: &Expr,
    next: usize,
) -> Result<usize, NoMemory>
    requires { next < length nodes.old }
    ensures { IfOk result (λ at. Grown nodes.old nodes.new at
        (spend (drop_plan context.now (tree e.now) (plan_at nodes.old next)))) }
{
    let value = flat_drop(context, nodes, e, next)?;
    nodes.push(Node::Spend { next: value })
}

/// The code of a `return` with a value.
fn flat_give(
    context: &Context<'_>,
    nodes: &mut Nodes,
    ret: Option<Ty>,
    e: &Expr,
) -> Result<usize, NoMemory>
    ensures { IfOk result (λ at. Grown nodes.old nodes.new at
        (spend (right_plan context.now (tree e.now) (giving ret)))) }
{
    let give = flat_giving(nodes, ret)?;
    let value = flat_right(context, nodes, e, give)?;
    nodes.push(Node::Spend { next: value })
}

/// The code of a `return` without a value.
fn flat_give_none(nodes: &mut Nodes) -> Result<usize, NoMemory>
    ensures { IfOk result (λ at. Grown nodes.old nodes.new at (spend give_none)) }
{
    let give = nodes.push(Node::GiveNone)?;
    nodes.push(Node::Spend { next: give })
}

/// The code of a statement that holds no other, but for an `if` round it.
fn flat_leaf(
    context: &Context<'_>,
    nodes: &mut Nodes,
    ret: Option<Ty>,
    statement: &Stmt,
    exits: Exits,
) -> Result<usize, NoMemory>
    requires { AreWithin (length nodes.old) exits }
    ensures { IfOk result (λ at. Grown nodes.old nodes.new at
        (leaf_plan context.now ret (code statement.now) (ways_at nodes.old exits))) }
{
    match &statement.node {
        StmtNode::Act(e) => flat_act(context, nodes, e, exits.next),
        StmtNode::Return(Some(e)) => flat_give(context, nodes, ret, e),
        StmtNode::Return(None) => flat_give_none(nodes),
        StmtNode::Break => nodes.push(Node::Spend { next: exits.out }),
        StmtNode::Continue => nodes.push(Node::Spend { next: exits.more }),
        _ => Ok(exits.next),
    }
}

/// The code of such a statement with an `if` round it, in braces, whose test is the hole.
fn flat_guarded(
    context: &Context<'_>,
    nodes: &mut Nodes,
    ret: Option<Ty>,
    statement: &Stmt,
    exits: Exits,
) -> Result<usize, NoMemory>
    requires { AreWithin (length nodes.old) exits }
    ensures { IfOk result (λ at. Grown nodes.old nodes.new at
        (guarded_plan context.now ret (code statement.now) (ways_at nodes.old exits))) }
{
    let inner = close_scopes(nodes, exits)?;
    let leaf = flat_leaf(context, nodes, ret, statement, inner)?;
    let fork = nodes.push(Node::Fork {
        zero: inner.next,
        other: leaf,
    })?;
    let ask = nodes.push(Node::Ask { next: fork })?;
    let test = nodes.push(Node::Spend { next: ask })?;
    nodes.push(Node::OpenScope { next: test })
}

/// The code of a statement that holds no other, with the `if` round it where the hole stands there.
fn flat_simple(
    context: &Context<'_>,
    nodes: &mut Nodes,
    ret: Option<Ty>,
    statement: &Stmt,
    exits: Exits,
) -> Result<usize, NoMemory>
    requires { AreWithin (length nodes.old) exits }
    ensures { IfOk result (λ at. Grown nodes.old nodes.new at
        (simple_plan context.now ret statement.now.span (code statement.now)
        (ways_at nodes.old exits))) }
{
    if stands(context.hole, LocKind::Guard, statement.span) {
        flat_guarded(context, nodes, ret, statement, exits)
    } else {
        flat_leaf(context, nodes, ret, statement, exits)
    }
}

/// The code of a statement.
#[cycle(statement)]
fn flat_stmt(
    context: &Context<'_>,
    nodes: &mut Nodes,
    ret: Option<Ty>,
    statement: &Stmt,
    exits: Exits,
) -> Result<usize, NoMemory>
    requires { AreWithin (length nodes.old) exits }
    ensures { IfOk result (λ at. Grown nodes.old nodes.new at
        (code_plan context.now ret (code statement.now) (ways_at nodes.old exits))) }
{
    match &statement.node {
        StmtNode::Empty => Ok(exits.next),
        StmtNode::Act(_) | StmtNode::Return(_) | StmtNode::Break | StmtNode::Continue => {
            flat_simple(context, nodes, ret, statement, exits)
        }
        StmtNode::Block(items) => flat_block(context, nodes, ret, items, exits),
        StmtNode::If {
            test,
            yes,
            no: None,
        } => {
            let arm = flat_stmt(context, nodes, ret, yes, exits)?;
            flat_if(context, nodes, test, exits.next, arm)
        }
        StmtNode::If {
            test,
            yes,
            no: Some(no),
        } => {
            let other = flat_stmt(context, nodes, ret, no, exits)?;
            let arm = flat_stmt(context, nodes, ret, yes, exits)?;
            flat_if(context, nodes, test, other, arm)
        }
        StmtNode::While { test, body } => {
            flat_while(context, nodes, ret, test, body, exits.next)
        }
        StmtNode::Do { body, test } => flat_do(context, nodes, ret, body, test, exits.next),
        StmtNode::For {
            init,
            test,
            step,
            body,
        } => {
            let close = nodes.push(Node::CloseScope { next: exits.next })?;
            let turns = flat_for(context, nodes, ret, test, step, body, close)?;
            let start = flat_init(context, nodes, init, turns)?;
            nodes.push(Node::OpenScope { next: start })
        }
    }
}

/// The code of the test of an `if`.
fn flat_if(
    context: &Context<'_>,
    nodes: &mut Nodes,
    test: &Expr,
    zero: usize,
    other: usize,
) -> Result<usize, NoMemory>
    requires zero { zero < length nodes.old }
    requires other { other < length nodes.old }
    ensures { IfOk result (λ at. Grown nodes.old nodes.new at
        (spend (condition_plan context.now (tree test.now)
        (fork (plan_at nodes.old zero) (plan_at nodes.old other))))) }
{
    let fork = nodes.push(Node::Fork { zero, other })?;
    let value = flat_condition(context, nodes, test, fork)?;
    nodes.push(Node::Spend { next: value })
}

/// The code of a `while`.
#[cycle(statement)]
fn flat_while(
    context: &Context<'_>,
    nodes: &mut Nodes,
    ret: Option<Ty>,
    test: &Expr,
    body: &Stmt,
    next: usize,
) -> Result<usize, NoMemory>
    requires { next < length nodes.old }
    ensures { IfOk result (λ at. Grown nodes.old nodes.new at
        (while_plan context.now ret (tree test.now) (code body.now) (plan_at nodes.old next))) }
{
    let out = nodes.push(Node::Leave { next })?;
    let again = nodes.push(Node::Again)?;
    let exits = Exits {
        next: again,
        out,
        more: again,
    };
    let inner = flat_stmt(context, nodes, ret, body, exits)?;
    let fork = nodes.push(Node::Fork {
        zero: out,
        other: inner,
    })?;
    let value = flat_condition(context, nodes, test, fork)?;
    let turn = nodes.push(Node::Test { next: value })?;
    nodes.push(Node::Loop { turn })
}

/// The code of a `do`.
#[cycle(statement)]
fn flat_do(
    context: &Context<'_>,
    nodes: &mut Nodes,
    ret: Option<Ty>,
    body: &Stmt,
    test: &Expr,
    next: usize,
) -> Result<usize, NoMemory>
    requires { next < length nodes.old }
    ensures { IfOk result (λ at. Grown nodes.old nodes.new at
        (do_plan context.now ret (code body.now) (tree test.now) (plan_at nodes.old next))) }
{
    let out = nodes.push(Node::Leave { next })?;
    let again = nodes.push(Node::Again)?;
    let fork = nodes.push(Node::Fork {
        zero: out,
        other: again,
    })?;
    let value = flat_condition(context, nodes, test, fork)?;
    let more = nodes.push(Node::Test { next: value })?;
    let exits = Exits {
        next: more,
        out,
        more,
    };
    let turn = flat_stmt(context, nodes, ret, body, exits)?;
    nodes.push(Node::Loop { turn })
}

/// The code of the turns of a `for`.
#[cycle(statement)]
fn flat_for(
    context: &Context<'_>,
    nodes: &mut Nodes,
    ret: Option<Ty>,
    test: &Option<Expr>,
    step: &Option<Expr>,
    body: &Stmt,
    next: usize,
) -> Result<usize, NoMemory>
    requires { next < length nodes.old }
    ensures { IfOk result (λ at. Grown nodes.old nodes.new at
        (turns_plan context.now ret (tree_option test.now) (tree_option step.now) (code body.now)
        (plan_at nodes.old next))) }
{
    let out = nodes.push(Node::Leave { next })?;
    let again = nodes.push(Node::Again)?;
    let more = flat_step(context, nodes, step, again)?;
    let exits = Exits {
        next: more,
        out,
        more,
    };
    let inner = flat_stmt(context, nodes, ret, body, exits)?;
    let value = flat_test(context, nodes, test, out, inner)?;
    let turn = nodes.push(Node::Test { next: value })?;
    nodes.push(Node::Loop { turn })
}

/// The code of the first clause of a `for`.
fn flat_init(
    context: &Context<'_>,
    nodes: &mut Nodes,
    init: &Init,
    next: usize,
) -> Result<usize, NoMemory>
    requires { next < length nodes.old }
    ensures { IfOk result (λ at. Grown nodes.old nodes.new at
        (first_plan context.now (first init.now) (plan_at nodes.old next))) }
{
    match init {
        Init::Empty => Ok(next),
        Init::Act(e) => flat_drop(context, nodes, e, next),
        Init::Vars(ty, declarators) => {
            flat_declaration(context, nodes, Scope::Function, *ty, declarators, next)
        }
    }
}

/// The code of the test of a `for`.
fn flat_test(
    context: &Context<'_>,
    nodes: &mut Nodes,
    test: &Option<Expr>,
    zero: usize,
    other: usize,
) -> Result<usize, NoMemory>
    requires zero { zero < length nodes.old }
    requires other { other < length nodes.old }
    ensures { IfOk result (λ at. Grown nodes.old nodes.new at
        (test_plan context.now (tree_option test.now)
        (plan_at nodes.old zero) (plan_at nodes.old other))) }
{
    match test {
        None => Ok(other),
        Some(e) => {
            let fork = nodes.push(Node::Fork { zero, other })?;
            flat_condition(context, nodes, e, fork)
        }
    }
}

/// The code of what a `for` does between two turns.
fn flat_step(
    context: &Context<'_>,
    nodes: &mut Nodes,
    step: &Option<Expr>,
    next: usize,
) -> Result<usize, NoMemory>
    requires { next < length nodes.old }
    ensures { IfOk result (λ at. Grown nodes.old nodes.new at
        (step_plan context.now (tree_option step.now) (plan_at nodes.old next))) }
{
    match step {
        None => Ok(next),
        Some(e) => flat_drop(context, nodes, e, next),
    }
}

/// The code of the items of a block, in a scope of their own.
#[cycle(statement)]
fn flat_block(
    context: &Context<'_>,
    nodes: &mut Nodes,
    ret: Option<Ty>,
    items: &[Item],
    exits: Exits,
) -> Result<usize, NoMemory>
    requires { AreWithin (length nodes.old) exits }
    ensures { IfOk result (λ at. Grown nodes.old nodes.new at
        (open_scope (body_plan context.now ret (body_of items.now)
        (closing (ways_at nodes.old exits))))) }
{
    let inner = close_scopes(nodes, exits)?;
    let body = flat_items(context, nodes, ret, items, inner)?;
    nodes.push(Node::OpenScope { next: body })
}

/// The code of items, in their order.
#[cycle(statement)]
pub fn flat_items(
    context: &Context<'_>,
    nodes: &mut Nodes,
    ret: Option<Ty>,
    items: &[Item],
    exits: Exits,
) -> Result<usize, NoMemory>
    requires { AreWithin (length nodes.old) exits }
    ensures { IfOk result (λ at. Grown nodes.old nodes.new at
        (body_plan context.now ret (body_of items.now) (ways_at nodes.old exits))) }
{
    let mut at = exits.next;
    let mut left = items.len();
    'each: while left > 0 {
        left -= 1;
        let ways = Exits {
            next: at,
            out: exits.out,
            more: exits.more,
        };
        at = flat_item(context, nodes, ret, &items[left], ways)?;
    }
    Ok(at)
}

/// The code of an item of a block.
#[cycle(statement)]
fn flat_item(
    context: &Context<'_>,
    nodes: &mut Nodes,
    ret: Option<Ty>,
    item: &Item,
    exits: Exits,
) -> Result<usize, NoMemory>
    requires { AreWithin (length nodes.old) exits }
    ensures { IfOk result (λ at. Grown nodes.old nodes.new at
        (body_plan context.now ret (with_item item.now done) (ways_at nodes.old exits))) }
{
    match item {
        Item::Vars(ty, declarators) => {
            flat_declaration(
                context,
                nodes,
                Scope::Function,
                *ty,
                declarators,
                exits.next,
            )
        }
        Item::Stmt(statement) => flat_stmt(context, nodes, ret, statement, exits),
    }
}
