//! Initialisers of file scope, which are constant expressions (C11 6.6, 6.7.9).

ghost use Rattle.std.specs.Prelude.{◌≡◌};
ghost use Rattle.c_tree.specs.Tree.{Args};
ghost use Rattle.c_tree.specs.Views.{tree, args_of, with_arg, trees, initial};
ghost use Rattle.c_types.specs.Constants.{not_constant, not_constant_args, not_constant_all, not_constant_initial, constant_faults};
ghost use Rattle.c_types.specs.Least.{least, earlier};

use crate::fault::FaultKind;
use crate::first::First;
use crate::scope::Storage;
use c_tree::{Arg, Expr, ExprNode, Start};

/// The parts of an expression that no constant expression has.
#[cycle(not_constant)]
#[tactic(auto, using(crate::proofs::LeastLemmas::least_append))]
fn not_constant(e: &Expr) -> First
    ensures { result.fault ≡ least (not_constant (tree e.now)) }
{
    let own = First::of(FaultKind::NotConstant, e.span);
    match &e.node {
        ExprNode::Const { .. } => First::none(),
        ExprNode::Name { .. } => own,
        ExprNode::Index { index, .. } => own.and(not_constant(index)),
        ExprNode::Call { args, .. } => own.and(not_constant_args(args)),
        ExprNode::Unary { of, .. } | ExprNode::Cast { of, .. } => not_constant(of),
        ExprNode::Binary { left, right, .. } => not_constant(left).and(not_constant(right)),
        ExprNode::Choice { test, yes, no } => {
            not_constant(test).and(not_constant(yes).and(not_constant(no)))
        }
        ExprNode::Assign { place, value, .. } => {
            own.and(not_constant(place).and(not_constant(value)))
        }
        ExprNode::Bump { place, .. } => own.and(not_constant(place)),
        ExprNode::Comma { left, right } => own.and(not_constant(left).and(not_constant(right))),
    }
}

/// The same of the arguments of a call.
#[cycle(not_constant)]
#[tactic(auto, using(crate::proofs::LeastLemmas::least_append))]
fn not_constant_args(args: &[Arg]) -> First
    ensures { result.fault ≡ least (not_constant_args (args_of args.now)) }
{
    let mut faults = First::none();
    for arg in args {
        faults = faults.and(not_constant_arg(arg));
    }
    faults
}

/// The same of one argument.
#[cycle(not_constant)]
#[tactic(auto, using(crate::proofs::LeastLemmas::least_append, crate::proofs::LeastLemmas::none_earlier))]
fn not_constant_arg(arg: &Arg) -> First
    ensures { (rest : Args) → least (not_constant_args (with_arg arg.now rest))
        ≡ earlier result.fault (least (not_constant_args rest)) }
{
    match arg {
        Arg::Value(e) | Arg::Address(e) => not_constant(e),
        Arg::Format(..) => First::none(),
    }
}

/// The same of expressions.
#[tactic(auto, using(crate::proofs::LeastLemmas::least_append))]
fn not_constant_all(es: &[Expr]) -> First
    ensures { result.fault ≡ least (not_constant_all (trees es.now)) }
{
    let mut faults = First::none();
    for e in es {
        faults = faults.and(not_constant(e));
    }
    faults
}

/// The same of the initialiser of a variable of file scope; that of another may be any expression.
pub fn constant_faults(storage: Storage, start: &Start) -> First
    ensures { result.fault ≡ least (constant_faults storage (initial start.now)) }
{
    match storage {
        Storage::Automatic => First::none(),
        Storage::Static => not_constant_start(start),
    }
}

/// The same of an initialiser.
fn not_constant_start(start: &Start) -> First
    ensures { result.fault ≡ least (not_constant_initial (initial start.now)) }
{
    match start {
        Start::Bare => First::none(),
        Start::One(e) => not_constant(e),
        Start::List(es) => not_constant_all(es),
    }
}
