//! What calls need to know of the program: what is called, and how the arguments are given.

ghost use Rattle.std.specs.Prelude.{◌≡◌, [], ◌∷◌, IfOk, drop, map};
ghost use Rattle.c_tree.specs.Tree.{no_args};
ghost use Rattle.c_tree.specs.Views.{tree, outer, args_of, with_arg};
ghost use Rattle.c_meaning.specs.Meaning.{slot_of as slot_in, takes_array as takes_array_first};
ghost use Rattle.interp_code.specs.Compile.{place_of as place_in, callee_of as callee_in, given_as as given_so};
ghost use Rattle.interp_code.specs.Holed.{heads, holed_tree, holed_args};

use crate::context::Context;
use crate::node::{Callee, Given};
use c_tree::{Arg, Expr, ExprNode, External, NoMemory, Param, Slot, copy_text};

/// The variable of a place.
pub fn slot_of(context: &Context<'_>, place: &Expr) -> Slot
    ensures { result ≡ slot_in (holed_tree context.now (tree place.now)) }
{
    match &place.node {
        ExprNode::Name { slot, .. } | ExprNode::Index { slot, .. } => *slot,
        _ => Slot::Unset,
    }
}

/// The place at file scope where a function is defined, past the end where there is no definition.
pub fn place_of(externals: &[External], word: &[u8]) -> usize
    ensures { result ≡ place_in word.now (map outer externals.now) }
{
    for (at, external) in externals.iter().enumerate() {
        if let External::Func(function) = external {
            if function.word.as_slice() == word && function.body.is_some() {
                return at;
            }
        }
    }
    externals.len()
}

/// What a word calls.
pub fn callee_of(externals: &[External], word: &[u8]) -> Callee
    ensures { result ≡ callee_in word.now (map outer externals.now) }
{
    if word == b"getchar".as_slice() {
        Callee::Getchar
    } else if word == b"putchar".as_slice() {
        Callee::Putchar
    } else if word == b"printf".as_slice() {
        Callee::Printf
    } else if word == b"scanf".as_slice() {
        Callee::Scanf
    } else if word == b"abs".as_slice() {
        Callee::Abs
    } else if word == b"exit".as_slice() {
        Callee::Exit
    } else {
        Callee::Function(place_of(externals, word))
    }
}

/// The parameters of the function that a word calls; of a function of the library there are none.
pub fn params_of<'a>(context: &Context<'a>, word: &[u8]) -> &'a [Param]
    ensures { result.now ≡ (heads context.now word.now).params }
{
    for external in context.externals {
        if let External::Func(function) = external {
            if function.word.as_slice() == word && function.body.is_some() {
                return &function.params;
            }
        }
    }
    &[]
}

/// The parameters from one on.
pub fn params_from(params: &[Param], at: usize) -> &[Param]
    ensures { result.now ≡ drop at params.now }
{
    if at < params.len() {
        &params[at..]
    } else {
        &params[params.len()..]
    }
}

/// Whether the first parameter takes an array.
pub fn takes_array(params: &[Param]) -> bool
    ensures { result ≡ takes_array_first params.now }
{
    match params {
        [param, ..] => param.array,
        [] => false,
    }
}

/// How an argument is given to the first of these parameters.
fn given_arg(context: &Context<'_>, params: &[Param], arg: &Arg) -> Result<Given, NoMemory>
    ensures { IfOk result (λ given.
        given ∷ [] ≡ given_so params.now (holed_args context.now (with_arg arg.now no_args))) }
{
    match arg {
        Arg::Value(_) => {
            if takes_array(params) {
                Ok(Given::Array)
            } else {
                Ok(Given::Number)
            }
        }
        Arg::Format(format, _) => Ok(Given::Format(copy_text(context.alloc, format)?)),
        Arg::Address(place) => Ok(Given::Place(slot_of(context, place))),
    }
}

/// How the arguments of a call are given to these parameters.
pub fn given_args(
    context: &Context<'_>,
    params: &[Param],
    args: &[Arg],
) -> Result<Vec<Given>, NoMemory>
    ensures { IfOk result (λ given.
        given.items ≡ given_so params.now (holed_args context.now (args_of args.now))) }
{
    let mut given = Vec::new(context.alloc);
    for (at, arg) in args.iter().enumerate() {
        given.push(given_arg(context, params_from(params, at), arg)?)?;
    }
    Ok(given)
}
