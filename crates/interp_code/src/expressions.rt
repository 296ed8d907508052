//! The code of expressions. It is made from its end: each part takes the place of what follows.

ghost use Rattle.std.specs.Prelude.{◌<◌, pos, length, IfOk};
ghost use Rattle.c_tree.specs.Tree.{binary, choice, assign, bump, no_args, no_span};
ghost use Rattle.c_tree.specs.Views.{tree, args_of, with_arg};
ghost use Rattle.interp_code.specs.Plan.{push, fetch};
ghost use Rattle.interp_code.specs.Compile.{deciding};
ghost use Rattle.interp_code.specs.Flat.{plan_at, Grown};
ghost use Rattle.interp_code.specs.Holed.{value_plan, drop_plan, index_plan, args_plan, call_plan, right_plan, condition_plan};

use crate::calls::{callee_of, given_args, params_from, params_of, slot_of, takes_array};
use crate::code::Nodes;
use crate::context::Context;
use crate::holes::stands;
use crate::node::{BumpNode, CallNode, Node};
use c_tree::{Arg, BinOp, Expr, ExprNode, LocKind, NoMemory, Param, Slot, is_pure};

/// The code of an expression whose value is wanted.
#[cycle(expression)]
pub fn flat_value(
    context: &Context<'_>,
    nodes: &mut Nodes,
    e: &Expr,
    next: usize,
) -> Result<usize, NoMemory>
    requires { next < length nodes.old }
    ensures { IfOk result (λ at. Grown nodes.old nodes.new at
        (value_plan context.now (tree e.now) (plan_at nodes.old next))) }
{
    match &e.node {
        ExprNode::Const { value, .. } => nodes.push(Node::Push {
            value: *value,
            next,
        }),
        ExprNode::Name { slot, .. } => flat_name(nodes, *slot, next),
        ExprNode::Index { slot, index, .. } => {
            let fetch = nodes.push(Node::Fetch { slot: *slot, next })?;
            flat_value(context, nodes, index, fetch)
        }
        ExprNode::Call { word, args } => {
            flat_call(context, nodes, word.as_slice(), args, true, next)
        }
        ExprNode::Unary { op, of } => {
            let prefix = nodes.push(Node::Prefix { op: *op, next })?;
            flat_value(context, nodes, of, prefix)
        }
        ExprNode::Cast { ty, of } => {
            let cast = nodes.push(Node::Cast { ty: *ty, next })?;
            flat_value(context, nodes, of, cast)
        }
        ExprNode::Binary { op, left, right } => flat_binary(context, nodes, *op, left, right, next),
        ExprNode::Choice { test, yes, no } => flat_choice(context, nodes, test, yes, no, next),
        ExprNode::Assign { op, place, value } => {
            flat_assign(context, nodes, *op, place, value, next)
        }
        ExprNode::Bump { before, up, place } => {
            flat_bump(context, nodes, *before, *up, place, next)
        }
        ExprNode::Comma { left, right } => {
            let second = flat_value(context, nodes, right, next)?;
            flat_drop(context, nodes, left, second)
        }
    }
}

/// The code of a variable.
fn flat_name(nodes: &mut Nodes, slot: Slot, next: usize) -> Result<usize, NoMemory>
    requires { next < length nodes.old }
    ensures { IfOk result (λ at. Grown nodes.old nodes.new at
        (push (pos 0) (fetch slot (plan_at nodes.old next)))) }
{
    let fetch = nodes.push(Node::Fetch { slot, next })?;
    nodes.push(Node::Push {
        value: 0,
        next: fetch,
    })
}

/// The code of an operator between its operands.
#[cycle(expression)]
fn flat_binary(
    context: &Context<'_>,
    nodes: &mut Nodes,
    op: BinOp,
    left: &Expr,
    right: &Expr,
    next: usize,
) -> Result<usize, NoMemory>
    requires { next < length nodes.old }
    ensures { IfOk result (λ at. Grown nodes.old nodes.new at
        (value_plan context.now (binary op (tree left.now) (tree right.now) no_span)
        (plan_at nodes.old next))) }
{
    let combine = nodes.push(Node::Combine { op, next })?;
    let second = flat_value(context, nodes, right, combine)?;
    let decide = flat_deciding(nodes, op, next, second)?;
    flat_value(context, nodes, left, decide)
}

/// The code of `test ? yes : no`.
#[cycle(expression)]
fn flat_choice(
    context: &Context<'_>,
    nodes: &mut Nodes,
    test: &Expr,
    yes: &Expr,
    no: &Expr,
    next: usize,
) -> Result<usize, NoMemory>
    requires { next < length nodes.old }
    ensures { IfOk result (λ at. Grown nodes.old nodes.new at
        (value_plan context.now (choice (tree test.now) (tree yes.now) (tree no.now) no_span)
        (plan_at nodes.old next))) }
{
    let other = flat_value(context, nodes, yes, next)?;
    let zero = flat_value(context, nodes, no, next)?;
    let fork = nodes.push(Node::Fork { zero, other })?;
    flat_value(context, nodes, test, fork)
}

/// The code of an assignment.
#[cycle(expression)]
fn flat_assign(
    context: &Context<'_>,
    nodes: &mut Nodes,
    op: Option<BinOp>,
    place: &Expr,
    value: &Expr,
    next: usize,
) -> Result<usize, NoMemory>
    requires { next < length nodes.old }
    ensures { IfOk result (λ at. Grown nodes.old nodes.new at
        (value_plan context.now (assign op (tree place.now) (tree value.now) no_span)
        (plan_at nodes.old next))) }
{
    let slot = slot_of(context, place);
    match op {
        None => {
            let keep = nodes.push(Node::Keep { slot, next })?;
            let stored = flat_right(context, nodes, value, keep)?;
            flat_index(context, nodes, place, stored)
        }
        Some(op) => {
            let update = nodes.push(Node::Update { op, slot, next })?;
            let second = flat_value(context, nodes, value, update)?;
            flat_index(context, nodes, place, second)
        }
    }
}

/// The code of `++` where `up`, else of `--`; it stands before its place where `before`, else after
/// it.
#[cycle(expression)]
fn flat_bump(
    context: &Context<'_>,
    nodes: &mut Nodes,
    before: bool,
    up: bool,
    place: &Expr,
    next: usize,
) -> Result<usize, NoMemory>
    requires { next < length nodes.old }
    ensures { IfOk result (λ at. Grown nodes.old nodes.new at
        (value_plan context.now (bump before up (tree place.now) no_span)
        (plan_at nodes.old next))) }
{
    let slot = slot_of(context, place);
    let step = nodes.push(Node::Bump(BumpNode {
        before,
        up,
        slot,
        next,
    }))?;
    flat_index(context, nodes, place, step)
}

/// The code of an expression whose value isn't wanted: a call puts none on the stack, and any other is dropped.
#[cycle(expression)]
pub fn flat_drop(
    context: &Context<'_>,
    nodes: &mut Nodes,
    e: &Expr,
    next: usize,
) -> Result<usize, NoMemory>
    requires { next < length nodes.old }
    ensures { IfOk result (λ at. Grown nodes.old nodes.new at
        (drop_plan context.now (tree e.now) (plan_at nodes.old next))) }
{
    match &e.node {
        ExprNode::Call { word, args } => {
            flat_call(context, nodes, word.as_slice(), args, false, next)
        }
        _ => {
            let forget = nodes.push(Node::Forget { next })?;
            flat_value(context, nodes, e, forget)
        }
    }
}

/// The code of the index of a place.
#[cycle(expression)]
fn flat_index(
    context: &Context<'_>,
    nodes: &mut Nodes,
    place: &Expr,
    next: usize,
) -> Result<usize, NoMemory>
    requires { next < length nodes.old }
    ensures { IfOk result (λ at. Grown nodes.old nodes.new at
        (index_plan context.now (tree place.now) (plan_at nodes.old next))) }
{
    match &place.node {
        ExprNode::Name { .. } => nodes.push(Node::Push { value: 0, next }),
        ExprNode::Index { index, .. } => flat_value(context, nodes, index, next),
        _ => nodes.push(Node::Trap),
    }
}

/// The code of a right side.
#[cycle(expression)]
pub fn flat_right(
    context: &Context<'_>,
    nodes: &mut Nodes,
    e: &Expr,
    next: usize,
) -> Result<usize, NoMemory>
    requires { next < length nodes.old }
    ensures { IfOk result (λ at. Grown nodes.old nodes.new at
        (right_plan context.now (tree e.now) (plan_at nodes.old next))) }
{
    if stands(context.hole, LocKind::Right, e.span) {
        nodes.push(Node::Ask { next })
    } else {
        flat_value(context, nodes, e, next)
    }
}

/// The code of a call.
#[cycle(expression)]
fn flat_call(
    context: &Context<'_>,
    nodes: &mut Nodes,
    word: &[u8],
    args: &[Arg],
    wanted: bool,
    next: usize,
) -> Result<usize, NoMemory>
    requires { next < length nodes.old }
    ensures { IfOk result (λ at. Grown nodes.old nodes.new at
        (call_plan context.now word.now (args_of args.now) wanted (plan_at nodes.old next))) }
{
    let params = params_of(context, word);
    let call = nodes.push(Node::Call(CallNode {
        callee: callee_of(context.externals, word),
        wanted,
        given: given_args(context, params, args)?,
        next,
    }))?;
    flat_args(context, nodes, params, args, call)
}

/// The code of the arguments of a call, which are evaluated from left to right.
#[cycle(expression)]
fn flat_args(
    context: &Context<'_>,
    nodes: &mut Nodes,
    params: &[Param],
    args: &[Arg],
    next: usize,
) -> Result<usize, NoMemory>
    requires { next < length nodes.old }
    ensures { IfOk result (λ at. Grown nodes.old nodes.new at
        (args_plan context.now params.now (args_of args.now) (plan_at nodes.old next))) }
{
    let mut at = next;
    let mut left = args.len();
    'each: while left > 0 {
        left -= 1;
        at = flat_arg(context, nodes, params_from(params, left), &args[left], at)?;
    }
    Ok(at)
}

/// The code of an argument for the first of these parameters.
#[cycle(expression)]
fn flat_arg(
    context: &Context<'_>,
    nodes: &mut Nodes,
    params: &[Param],
    arg: &Arg,
    next: usize,
) -> Result<usize, NoMemory>
    requires { next < length nodes.old }
    ensures { IfOk result (λ at. Grown nodes.old nodes.new at
        (args_plan context.now params.now (with_arg arg.now no_args) (plan_at nodes.old next))) }
{
    match arg {
        Arg::Value(e) => {
            if takes_array(params) {
                let slot = slot_of(context, e);
                nodes.push(Node::Lend { slot, next })
            } else {
                flat_value(context, nodes, e, next)
            }
        }
        Arg::Format(_, _) => Ok(next),
        Arg::Address(place) => flat_index(context, nodes, place, next),
    }
}

/// The code between the operands of an operator: where the left one may decide the value alone, it is
/// looked at.
fn flat_deciding(
    nodes: &mut Nodes,
    op: BinOp,
    decided: usize,
    other: usize,
) -> Result<usize, NoMemory>
    requires decided { decided < length nodes.old }
    requires other { other < length nodes.old }
    ensures { IfOk result (λ at. Grown nodes.old nodes.new at
        (deciding op (plan_at nodes.old decided) (plan_at nodes.old other))) }
{
    match op {
        BinOp::Both | BinOp::Either => nodes.push(Node::Decide { op, decided, other }),
        _ => Ok(other),
    }
}

/// The code of a condition.
pub fn flat_condition(
    context: &Context<'_>,
    nodes: &mut Nodes,
    e: &Expr,
    next: usize,
) -> Result<usize, NoMemory>
    requires { next < length nodes.old }
    ensures { IfOk result (λ at. Grown nodes.old nodes.new at
        (condition_plan context.now (tree e.now) (plan_at nodes.old next))) }
{
    if !stands(context.hole, LocKind::Cond, e.span) {
        return flat_value(context, nodes, e, next);
    }
    if is_pure(e) {
        return nodes.push(Node::Ask { next });
    }
    let ask = nodes.push(Node::AskAfter { next })?;
    flat_value(context, nodes, e, ask)
}
