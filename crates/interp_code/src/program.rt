//! The code of a program.

ghost use Rattle.std.specs.Prelude.{◌≡◌, ◌<◌, [], ◌∷◌, length, IfOk, Some, map};
ghost use Rattle.std.specs.Option.{option_map};
ghost use Rattle.c_tree.specs.Views.{outer, function as function_tree, program as program_tree, body_of};
ghost use Rattle.c_types.specs.Shown.{tree_of};
ghost use Rattle.c_meaning.specs.Filled.{holed_at};
ghost use Rattle.interp_code.specs.Compile.{plan_end, plan_outers, plan_program};
ghost use Rattle.interp_code.specs.Flat.{plan_at, Grown};
ghost use Rattle.interp_code.specs.Growing.{GrownEntry, GrownEntries};
ghost use Rattle.interp_code.specs.Holed.{heads, entry_plan, function_plan, start_plan};
ghost use Rattle.interp_code.specs.Shown.{plans_of, StandsFor};

use crate::calls::place_of;
use crate::code::{Code, Nodes};
use crate::context::Context;
use crate::declarations::{Scope, flat_declaration};
use crate::node::{CallNode, Callee, Node};
use crate::routine::Routine;
use crate::statements::{Exits, flat_items};
use c_tree::{External, Func, Item, Loc, NoMemory, Param, Program, copy_text};
use c_types::Typed;
use std::alloc::Global;

/// A program as flat code, with a hole at a location, or without one.
///
/// # Errors
///
/// `NoMemory` where memory runs out.
pub fn flatten(alloc: Global, program: &Typed, hole: Option<&Loc>) -> Result<Code, NoMemory>
    ensures { IfOk result (λ code.
        StandsFor code (option_map (λ l. l.now) hole.entry) (tree_of program.now)) }
{
    flat_program(alloc, program.program(), hole.copied())
}

/// The code of a program with a hole at a location, or without one.
fn flat_program(alloc: Global, program: &Program, hole: Option<Loc>) -> Result<Code, NoMemory>
    ensures { IfOk result (λ code.
        plans_of code ≡ plan_program (holed_at hole (program_tree program.now))) }
{
    let context = Context {
        alloc,
        externals: &program.externals,
        hole,
    };
    let mut nodes = Nodes::new(alloc);
    let routines = flat_functions(&context, &mut nodes)?;
    let start = flat_start(&context, &mut nodes)?;
    Ok(nodes.into_code(start, routines))
}

/// The code of each function that is defined, by its place at file scope.
fn flat_functions(
    context: &Context<'_>,
    nodes: &mut Nodes,
) -> Result<Vec<Option<Routine>>, NoMemory>
    ensures { IfOk result (λ routines. GrownEntries nodes.old nodes.new routines.items
        (map (entry_plan context.now) (map outer context.now.externals.now))) }
{
    let mut routines = Vec::new(context.alloc);
    for external in context.externals {
        routines.push(flat_external(context, nodes, external)?)?;
    }
    Ok(routines)
}

/// The code of what stands at file scope, if it is the definition of a function.
fn flat_external(
    context: &Context<'_>,
    nodes: &mut Nodes,
    external: &External,
) -> Result<Option<Routine>, NoMemory>
    ensures { IfOk result (λ routine. GrownEntry nodes.old nodes.new routine
        (entry_plan context.now (outer external.now))) }
{
    if let External::Func(function) = external {
        if let Some(items) = &function.body {
            return Ok(Some(flat_function(context, nodes, function, items)?));
        }
    }
    Ok(None)
}

/// The code of the definition of a function with this body.
fn flat_function(
    context: &Context<'_>,
    nodes: &mut Nodes,
    function: &Func,
    items: &[Item],
) -> Result<Routine, NoMemory>
    ensures { IfOk result (λ routine. GrownEntry nodes.old nodes.new (Some routine)
        (function_plan context.now (function_tree function.now) (body_of items.now))) }
{
    let params = copy_params(context.alloc, &function.params)?;
    let give = nodes.push(Node::GiveNone)?;
    let next = flat_end(nodes, function.word.as_slice())?;
    let exits = Exits {
        next,
        out: give,
        more: give,
    };
    let start = flat_items(context, nodes, function.ret, items, exits)?;
    Ok(Routine { params, start })
}

/// The code of the end of a function; that of `main` gives 0 (C11 5.1.2.2.3).
fn flat_end(nodes: &mut Nodes, word: &[u8]) -> Result<usize, NoMemory>
    ensures { IfOk result (λ at. Grown nodes.old nodes.new at (plan_end word.now)) }
{
    if word == b"main".as_slice() {
        let give = nodes.push(Node::GiveValue)?;
        nodes.push(Node::Push {
            value: 0,
            next: give,
        })
    } else {
        nodes.push(Node::GiveNone)
    }
}

/// The code of the objects of file scope and of the call of `main`.
fn flat_start(context: &Context<'_>, nodes: &mut Nodes) -> Result<usize, NoMemory>
    ensures { IfOk result (λ at. Grown nodes.old nodes.new at (start_plan context.now)) }
{
    let give = nodes.push(Node::GiveValue)?;
    let mut at = nodes.push(Node::Call(CallNode {
        callee: Callee::Function(place_of(context.externals, b"main".as_slice())),
        wanted: true,
        given: Vec::new(context.alloc),
        next: give,
    }))?;
    let mut left = context.externals.len();
    'each: while left > 0 {
        left -= 1;
        at = flat_outer(context, nodes, &context.externals[left], at)?;
    }
    Ok(at)
}

/// The code of the objects of file scope that are declared here. Nothing in them is a location.
fn flat_outer(
    context: &Context<'_>,
    nodes: &mut Nodes,
    external: &External,
    next: usize,
) -> Result<usize, NoMemory>
    requires { next < length nodes.old }
    ensures { IfOk result (λ at. Grown nodes.old nodes.new at
        (plan_outers (heads context.now) (outer external.now ∷ []) (plan_at nodes.old next))) }
{
    match external {
        External::Vars(ty, declarators) => {
            let outside = Context {
                alloc: context.alloc,
                externals: context.externals,
                hole: None,
            };
            flat_declaration(&outside, nodes, Scope::File, *ty, declarators, next)
        }
        External::Func(_) => Ok(next),
    }
}

/// A copy of the parameters.
fn copy_params(alloc: Global, params: &[Param]) -> Result<Vec<Param>, NoMemory>
    ensures { IfOk result (λ copy. copy.items ≡ params.now) }
{
    let mut copies = Vec::new(alloc);
    for param in params {
        copies.push(Param {
            word: copy_text(alloc, &param.word)?,
            slot: param.slot,
            span: param.span,
            ty: param.ty,
            array: param.array,
        })?;
    }
    Ok(copies)
}
