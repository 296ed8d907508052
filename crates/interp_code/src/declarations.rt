//! The code of declarations.

ghost use Rattle.std.specs.Prelude.{◌≡◌, ◌-◌, ◌<◌, pos, length, IfOk};
ghost use Rattle.c_tree.specs.Tree.{list_start};
ghost use Rattle.c_tree.specs.Views.{tree, trees, initial, variables};
ghost use Rattle.c_meaning.specs.Meaning.{cell_count as count_of};
ghost use Rattle.interp_code.specs.Plan.{push, keep, forget};
ghost use Rattle.interp_code.specs.Flat.{plan_at, Grown};
ghost use Rattle.interp_code.specs.Holed.{value_plan, list_plan, object_plan, declarator_plan, declaration_plan};

use crate::code::Nodes;
use crate::context::Context;
use crate::expressions::{flat_right, flat_value};
use crate::node::{ClearNode, CreateNode, Node};
use c_tree::{Declarator, Expr, NoMemory, Shape, Slot, Start, Ty};

/// Where a declaration stands.
#[derive(Clone, Copy, Debug)]
pub enum Scope {
    /// At file scope.
    File,
    /// In a function.
    Function,
}

/// The number of cells of a variable, where so many initialisers are listed.
fn cell_count(shape: Shape, listed: usize) -> usize
    ensures { result ≡ count_of shape listed }
{
    match shape {
        Shape::Scalar => 1,
        Shape::Array(Some(count)) => count.unsigned_abs() as usize,
        Shape::Array(None) => listed,
    }
}

/// The code that stores a value in a variable and drops it.
fn flat_store(nodes: &mut Nodes, slot: Slot, next: usize) -> Result<usize, NoMemory>
    requires { next < length nodes.old }
    ensures { IfOk result (λ at. Grown nodes.old nodes.new at
        (keep slot (forget (plan_at nodes.old next)))) }
{
    let forget = nodes.push(Node::Forget { next })?;
    nodes.push(Node::Keep { slot, next: forget })
}

/// The code of an element of a list of initialisers, which is stored in a cell.
fn flat_element(
    context: &Context<'_>,
    nodes: &mut Nodes,
    slot: Slot,
    cell: usize,
    e: &Expr,
    next: usize,
) -> Result<usize, NoMemory>
    requires cell { cell < 9223372036854775808 }
    requires next { next < length nodes.old }
    ensures { IfOk result (λ at. Grown nodes.old nodes.new at
        (push (pos cell) (value_plan context.now (tree e.now)
        (keep slot (forget (plan_at nodes.old next)))))) }
{
    let store = flat_store(nodes, slot, next)?;
    let value = flat_value(context, nodes, e, store)?;
    nodes.push(Node::Push {
        value: cell as i64,
        next: value,
    })
}

/// The code of a list of initialisers.
fn flat_list(
    context: &Context<'_>,
    nodes: &mut Nodes,
    slot: Slot,
    elements: &[Expr],
    next: usize,
) -> Result<usize, NoMemory>
    requires { next < length nodes.old }
    ensures { IfOk result (λ at. Grown nodes.old nodes.new at
        (list_plan context.now slot 0 (trees elements.now) (plan_at nodes.old next))) }
{
    let mut at = next;
    let mut left = elements.len();
    'each: while left > 0 {
        left -= 1;
        at = flat_element(context, nodes, slot, left, &elements[left], at)?;
    }
    Ok(at)
}

/// The code of a new object and its initialiser.
fn flat_object(
    context: &Context<'_>,
    nodes: &mut Nodes,
    ty: Ty,
    declarator: &Declarator,
    next: usize,
) -> Result<usize, NoMemory>
    requires { next < length nodes.old }
    ensures { IfOk result (λ at. Grown nodes.old nodes.new at
        (object_plan context.now ty declarator.now.slot declarator.now.shape
        (initial declarator.now.start) (plan_at nodes.old next))) }
{
    let slot = declarator.slot;
    match &declarator.start {
        Start::Bare => nodes.push(Node::Create(CreateNode {
            ty,
            slot,
            count: cell_count(declarator.shape, 0),
            next,
        })),
        Start::One(e) => {
            let store = flat_store(nodes, slot, next)?;
            let value = flat_right(context, nodes, e, store)?;
            let first = nodes.push(Node::Push {
                value: 0,
                next: value,
            })?;
            nodes.push(Node::Create(CreateNode {
                ty,
                slot,
                count: cell_count(declarator.shape, 1),
                next: first,
            }))
        }
        Start::List(elements) => flat_listed(context, nodes, ty, declarator, elements, next),
    }
}

/// The code of a new object with a list of initialisers, after which its cells are 0.
fn flat_listed(
    context: &Context<'_>,
    nodes: &mut Nodes,
    ty: Ty,
    declarator: &Declarator,
    elements: &[Expr],
    next: usize,
) -> Result<usize, NoMemory>
    requires { next < length nodes.old }
    ensures { IfOk result (λ at. Grown nodes.old nodes.new at
        (object_plan context.now ty declarator.now.slot declarator.now.shape
        (list_start (trees elements.now)) (plan_at nodes.old next))) }
{
    let slot = declarator.slot;
    let listed = elements.len();
    let count = cell_count(declarator.shape, listed);
    let clear = nodes.push(Node::Clear(ClearNode {
        slot,
        from: listed,
        count: count.saturating_sub(listed),
        next,
    }))?;
    let list = flat_list(context, nodes, slot, elements, clear)?;
    nodes.push(Node::Create(CreateNode {
        ty,
        slot,
        count,
        next: list,
    }))
}

/// The code of a declarator. In a function an initialiser takes a unit; at file scope an object without
/// one is 0.
fn flat_declarator(
    context: &Context<'_>,
    nodes: &mut Nodes,
    scope: Scope,
    ty: Ty,
    declarator: &Declarator,
    next: usize,
) -> Result<usize, NoMemory>
    requires { next < length nodes.old }
    ensures { IfOk result (λ at. Grown nodes.old nodes.new at
        (declarator_plan context.now scope ty declarator.now.slot declarator.now.shape
        (initial declarator.now.start) (plan_at nodes.old next))) }
{
    match (scope, &declarator.start) {
        (Scope::File, Start::Bare) => flat_listed(context, nodes, ty, declarator, &[], next),
        (Scope::File, _) | (Scope::Function, Start::Bare) => {
            flat_object(context, nodes, ty, declarator, next)
        }
        (Scope::Function, _) => {
            let object = flat_object(context, nodes, ty, declarator, next)?;
            nodes.push(Node::Spend { next: object })
        }
    }
}

/// The code of a declaration.
pub fn flat_declaration(
    context: &Context<'_>,
    nodes: &mut Nodes,
    scope: Scope,
    ty: Ty,
    declarators: &[Declarator],
    next: usize,
) -> Result<usize, NoMemory>
    requires { next < length nodes.old }
    ensures { IfOk result (λ at. Grown nodes.old nodes.new at
        (declaration_plan context.now scope ty (variables declarators.now)
        (plan_at nodes.old next))) }
{
    let mut at = next;
    let mut left = declarators.len();
    'each: while left > 0 {
        left -= 1;
        at = flat_declarator(context, nodes, scope, ty, &declarators[left], at)?;
    }
    Ok(at)
}
