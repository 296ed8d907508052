//! The parameters of functions, and objects of variables.

ghost use Rattle.std.specs.Prelude.{◌≡◌, ◌-◌, map};
ghost use Rattle.std.specs.Option.{option_map};
ghost use Rattle.c_tree.specs.Views.{tree, outer, function as function_tree};
ghost use Rattle.c_meaning.specs.World.{Gives};
ghost use Rattle.c_meaning.specs.Meaning.{slot_of as slot_in, definition as definition_in, takes_array as takes_array_first, rest_of as behind_first, decided as decided_by, cell_count as count_of, make_variable as declare_bare_in, store_zeros as clear_in, bind_param as bind_one_in, bind_params as bind_all_in, result_of as result_in};

use crate::argument::Argument;
use crate::state::State;
use crate::stop::{End, Flow, Stop};
use c_arith::convert;
use c_tree::{BinOp, Expr, ExprNode, External, Func, Param, Shape, Slot, Ty};
use std::alloc::Global;

/// The variable of a place.
pub fn slot_of(place: &Expr) -> Slot
    ensures { result ≡ slot_in (tree place.now) }
{
    match &place.node {
        ExprNode::Name { slot, .. } | ExprNode::Index { slot, .. } => *slot,
        _ => Slot::Unset,
    }
}

/// The definition of a function.
pub fn definition<'a>(externals: &'a [External], word: &[u8]) -> Option<&'a Func>
    ensures { option_map (λ f. function_tree f.now) result
        ≡ definition_in word.now (map outer externals.now) }
{
    for external in externals {
        if let External::Func(function) = external {
            if function.word.as_slice() == word && function.body.is_some() {
                return Some(function);
            }
        }
    }
    None
}

/// Whether the first parameter takes an array.
pub fn takes_array(params: &[Param]) -> bool
    ensures { result ≡ takes_array_first params.now }
{
    match params {
        [param, ..] => param.array,
        [] => false,
    }
}

/// The parameters after the first.
pub fn rest_of<'a>(params: &'a [Param]) -> &'a [Param]
    ensures { result.now ≡ behind_first params.now }
{
    match params {
        [_, rest @ ..] => rest,
        [] => params,
    }
}

/// What the left operand of `&&` or `||` alone decides.
pub fn decided(op: BinOp, operand: i64) -> Option<i64>
    ensures { result ≡ decided_by op operand }
{
    match op {
        BinOp::Both => { if operand == 0 { Some(0) } else { None } }
        BinOp::Either => { if operand == 0 { None } else { Some(1) } }
        _ => None,
    }
}

/// The number of cells of a variable, where so many initialisers are listed.
pub fn cell_count(shape: Shape, listed: usize) -> usize
    ensures { result ≡ count_of shape listed }
{
    match shape {
        Shape::Scalar => 1,
        Shape::Array(Some(count)) => count.unsigned_abs() as usize,
        Shape::Array(None) => listed,
    }
}

/// Makes an uninitialised object for a variable.
pub fn make_variable(
    alloc: Global,
    ty: Ty,
    slot: Slot,
    count: usize,
    state: &mut State<'_>,
) -> Result<(), Stop>
    ensures { Gives (λ _. tt) result state.new (declare_bare_in ty slot count state.old) }
{
    let number = state.make(alloc, ty, count)?;
    state.attach(slot, number)
}

/// Puts zeros into the cells of a variable from one place up to another.
pub fn store_zeros(slot: Slot, from: usize, to: usize, state: &mut State<'_>) -> Result<(), Stop>
    ensures { Gives (λ _. tt) result state.new (clear_in slot from (to - from) state.old) }
{
    for at in from..to {
        state.store_at(slot, at, 0)?;
    }
    Ok(())
}

/// Makes the object of a parameter, or lets it mean the caller's array.
fn bind_param(
    alloc: Global,
    ty: Ty,
    slot: Slot,
    argument: &Argument,
    state: &mut State<'_>,
) -> Result<(), Stop>
    ensures { Gives (λ _. tt) result state.new (bind_one_in ty slot argument.now state.old) }
{
    match argument {
        Argument::Number(value) => {
            make_variable(alloc, ty, slot, 1, state)?;
            state.store(slot, 0, *value)?;
            Ok(())
        }
        Argument::Array(number) => state.attach(slot, *number),
        Argument::Format(_) | Argument::Place(_, _) => Err(Stop::Over(End::Trapped)),
    }
}

/// Makes the objects of the parameters, in their order.
pub fn bind_params(
    alloc: Global,
    params: &[Param],
    arguments: &[Argument],
    state: &mut State<'_>,
) -> Result<(), Stop>
    ensures { Gives (λ _. tt) result state.new (bind_all_in params.now arguments.now state.old) }
{
    let mut left = params;
    for argument in arguments {
        let [param, rest @ ..] = left else {
            return Err(Stop::Over(End::Trapped));
        };
        bind_param(alloc, param.ty, param.slot, argument, state)?;
        left = rest;
    }
    if left.is_empty() {
        Ok(())
    } else {
        Err(Stop::Over(End::Trapped))
    }
}

/// The value that a function gave, if it gave one.
pub fn result_of(function: &Func, flow: Flow) -> Option<i64>
    ensures { result ≡ result_in (function_tree function.now) flow }
{
    match flow {
        Flow::Next => {
            if function.word.as_slice() == b"main".as_slice() {
                Some(0)
            } else {
                None
            }
        }
        Flow::Return(Some(value)) => match function.ret {
            Some(ty) => Some(convert(ty, value)),
            None => None,
        },
        Flow::Return(None) | Flow::Break | Flow::Continue => None,
    }
}
