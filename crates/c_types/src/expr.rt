//! The faults of expressions (C11 6.5).

ghost use Rattle.std.specs.Prelude.{◌≡◌, ◌++◌, ℕ, suc, option_copied};
ghost use Rattle.c_tree.specs.Tree.{Args};
ghost use Rattle.c_tree.specs.Views.{tree, args_of, with_arg};
ghost use Rattle.c_types.specs.declared.kinds.Wanted.{Wanted};
ghost use Rattle.c_types.specs.Arguments.{converted, wanted};
ghost use Rattle.c_types.specs.Expressions.{void_faults, index_faults, place_faults, as_number, as_void, faults, args_faults};
ghost use Rattle.c_types.specs.Least.{least, earlier};
ghost use Rattle.c_types.specs.Scopes.{in_scope};

use crate::arguments::{
    address_faults, call_faults, converted, format_faults, number_faults, value_faults, wanted,
};
use crate::fault::FaultKind;
use crate::first::First;
use crate::kinds::{Kind, Wanted, kind_of, named};
use crate::scope::{Entity, Scope};
use c_tree::{Arg, Expr, ExprNode, Span};

/// Where an expression is evaluated for its effects alone.
fn void_faults(kind: Kind, span: Span) -> First
    ensures { result.fault ≡ least (void_faults kind span) }
{
    match kind {
        Kind::Number | Kind::Void => First::none(),
        Kind::Array(_) | Kind::Function => First::of(FaultKind::WrongKind, span),
    }
}

/// `[` after a name.
fn index_faults(entity: Option<&Entity>, span: Span) -> First
    ensures { result.fault ≡ least (index_faults (option_copied entity.entry) span) }
{
    match entity {
        None => First::of(FaultKind::Unknown, span),
        Some(Entity::Variable { array, .. }) => First::of_if(!*array, FaultKind::WrongKind, span),
        Some(_) => First::of(FaultKind::WrongKind, span),
    }
}

/// The place of an assignment, or of `++` or `--`.
fn place_faults(e: &Expr, scope: &Scope<'_>) -> First
    ensures { result.fault ≡ least (place_faults (in_scope scope.now) (tree e.now)) }
{
    match &e.node {
        ExprNode::Name { word, .. } => number_faults(named(scope.denoted(word)), e.span),
        ExprNode::Index { .. } => First::none(),
        _ => First::of(FaultKind::NotPlace, e.span),
    }
}

/// An expression that stands where a number is wanted, its parts apart.
fn as_number(e: &Expr, scope: &Scope<'_>) -> First
    ensures { result.fault ≡ least (as_number (in_scope scope.now) (tree e.now)) }
{
    number_faults(kind_of(e, scope), e.span)
}

/// An expression that is evaluated for its effects alone, its parts apart.
fn as_void(e: &Expr, scope: &Scope<'_>) -> First
    ensures { result.fault ≡ least (as_void (in_scope scope.now) (tree e.now)) }
{
    void_faults(kind_of(e, scope), e.span)
}

/// The faults of an expression, where the names of the scope are declared.
#[cycle(faults)]
#[tactic(auto, using(crate::proofs::LeastLemmas::least_append))]
fn faults(e: &Expr, scope: &Scope<'_>) -> First
    ensures { result.fault ≡ least (faults (in_scope scope.now) (tree e.now)) }
{
    match &e.node {
        ExprNode::Const { .. } => First::none(),
        ExprNode::Name { word, .. } => {
            First::of_if(scope.denoted(word).is_none(), FaultKind::Unknown, e.span)
        }
        ExprNode::Index { word, index, .. } => index_faults(scope.denoted(word), e.span).and(
            as_number(index, scope).and(faults(index, scope)),
        ),
        ExprNode::Call { word, args } => {
            let entity = scope.denoted(word);
            call_faults(entity, args, e.span).and(args_faults(args, entity, scope))
        }
        ExprNode::Unary { of, .. } | ExprNode::Cast { of, .. } => {
            as_number(of, scope).and(faults(of, scope))
        }
        ExprNode::Binary { left, right, .. } => as_number(left, scope)
            .and(faults(left, scope))
            .and(as_number(right, scope).and(faults(right, scope))),
        ExprNode::Choice { test, yes, no } => {
            let of_yes = as_number(yes, scope).and(faults(yes, scope));
            let of_no = as_number(no, scope).and(faults(no, scope));
            as_number(test, scope)
                .and(faults(test, scope))
                .and(of_yes.and(of_no))
        }
        ExprNode::Assign { place, value, .. } => place_faults(place, scope)
            .and(faults(place, scope))
            .and(as_number(value, scope).and(faults(value, scope))),
        ExprNode::Bump { place, .. } => place_faults(place, scope).and(faults(place, scope)),
        ExprNode::Comma { left, right } => as_void(left, scope)
            .and(faults(left, scope))
            .and(as_number(right, scope).and(faults(right, scope))),
    }
}

/// The faults of the arguments of a call.
#[cycle(faults)]
#[tactic(auto, using(crate::proofs::LeastLemmas::least_append))]
fn args_faults(args: &[Arg], called: Option<&Entity>, scope: &Scope<'_>) -> First
    ensures { result.fault
        ≡ least (args_faults (in_scope scope.now)
        (wanted (option_copied called.entry) (converted (args_of args.now))) 0 (args_of args.now)) }
{
    let count = converted(args);
    let mut faults = First::none();
    for (i, arg) in args.iter().enumerate() {
        faults = faults.and(arg_faults(arg, wanted(called, count, i), scope));
    }
    faults
}

/// The faults of one argument.
#[cycle(faults)]
#[tactic(auto, using(crate::proofs::LeastLemmas::least_append, crate::proofs::ExpressionLemmas::span_of_node))]
fn arg_faults(arg: &Arg, want: Wanted, scope: &Scope<'_>) -> First
    ensures { (w : ℕ → Wanted) (i : ℕ) (rest : Args) → want ≡ w i
        → least (args_faults (in_scope scope.now) w i (with_arg arg.now rest))
        ≡ earlier result.fault (least (args_faults (in_scope scope.now) w (suc i) rest)) }
{
    match arg {
        Arg::Value(e) => { value_faults(want, kind_of(e, scope), e.span).and(faults(e, scope)) }
        Arg::Format(text, span) => format_faults(want, text, *span),
        Arg::Address(e) => address_faults(want, e, scope).and(faults(e, scope)),
    }
}

/// The faults of an expression that stands where a number is wanted.
#[tactic(auto, using(crate::proofs::LeastLemmas::least_append))]
pub fn number(e: &Expr, scope: &Scope<'_>) -> First
    ensures { result.fault
        ≡ least (as_number (in_scope scope.now) (tree e.now)
        ++ faults (in_scope scope.now) (tree e.now)) }
{
    as_number(e, scope).and(faults(e, scope))
}

/// The faults of an expression that is evaluated for its effects alone.
#[tactic(auto, using(crate::proofs::LeastLemmas::least_append))]
pub fn effect(e: &Expr, scope: &Scope<'_>) -> First
    ensures { result.fault
        ≡ least (as_void (in_scope scope.now) (tree e.now)
        ++ faults (in_scope scope.now) (tree e.now)) }
{
    as_void(e, scope).and(faults(e, scope))
}
