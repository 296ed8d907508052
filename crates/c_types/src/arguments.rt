//! The faults of the arguments of a call (C11 6.5.2.2).

ghost use Rattle.std.specs.Prelude.{◌≡◌, ◌&&◌, ◌<◌, length, drop, option_copied};
ghost use Rattle.c_tree.specs.Views.{tree, args_of};
ghost use Rattle.c_types.specs.declared.fault.FaultKind.TheVariants.{WrongCount};
ghost use Rattle.c_types.specs.Arguments.{number_faults, array_faults, is_place, is_int, stores_int, converted, wanted_by, wanted, value_faults, format_faults, operand_faults, address_faults, args_count, no_format, miscounts, formatted_faults, call_faults};
ghost use Rattle.c_types.specs.Formats.{conversions, scan_conversions};
ghost use Rattle.c_types.specs.Least.{fault_if, least};
ghost use Rattle.c_types.specs.Scopes.{in_scope};

use crate::fault::FaultKind;
use crate::first::First;
use crate::formats::{conversions, scan_conversions};
use crate::kinds::{Kind, Wanted, same_ty};
use crate::scope::{Entity, ParamType, Scope};
use c_tree::{Arg, Expr, ExprNode, Span, Text, Ty};

/// Where a number is wanted.
pub fn number_faults(kind: Kind, span: Span) -> First
    ensures { result.fault ≡ least (number_faults kind span) }
{
    match kind {
        Kind::Number => First::none(),
        Kind::Array(_) | Kind::Function | Kind::Void => First::of(FaultKind::WrongKind, span),
    }
}

/// Where an array of that type is wanted.
fn array_faults(kind: Kind, ty: Ty, span: Span) -> First
    ensures { result.fault ≡ least (array_faults kind ty span) }
{
    match kind {
        Kind::Array(other) => First::of_if(!same_ty(other, ty), FaultKind::WrongKind, span),
        Kind::Number | Kind::Function | Kind::Void => First::of(FaultKind::WrongKind, span),
    }
}

/// Whether an expression is a name or an element.
fn is_place(e: &Expr) -> bool
    ensures { result ≡ is_place (tree e.now) }
{
    matches!(&e.node, ExprNode::Name { .. } | ExprNode::Index { .. })
}

/// Whether a name denotes an `int` variable, or where an array is asked for, an array of `int`.
fn is_int(entity: Option<&Entity>, asks_array: bool) -> bool
    ensures { result ≡ is_int (option_copied entity.entry) asks_array }
{
    match entity {
        Some(
            Entity::Variable {
                ty: Ty::Int,
                array: true,
                ..
            },
        ) => asks_array,
        Some(
            Entity::Variable {
                ty: Ty::Int,
                array: false,
                ..
            },
        ) => !asks_array,
        _ => false,
    }
}

/// Whether a number that `scanf` reads can be stored there.
fn stores_int(e: &Expr, scope: &Scope<'_>) -> bool
    ensures { result ≡ stores_int (in_scope scope.now) (tree e.now) }
{
    match &e.node {
        ExprNode::Name { word, .. } => is_int(scope.denoted(word), false),
        ExprNode::Index { word, .. } => is_int(scope.denoted(word), true),
        _ => false,
    }
}

/// How many conversions the format of a call of `printf` has: none where it is bad or missing.
#[tactic(auto, using(crate::proofs::ArgumentLemmas::converted_first))]
pub fn converted(args: &[Arg]) -> usize
    ensures { result ≡ converted (args_of args.now) }
{
    match args.first() {
        Some(Arg::Format(text, _)) => conversions(text.as_slice()).unwrap_or(0),
        _ => 0,
    }
}

/// What a parameter wants as its argument, if there is a parameter.
fn wanted_by(param: Option<&ParamType>) -> Wanted
    ensures { result ≡ wanted_by (option_copied param.entry) }
{
    match param {
        None => Wanted::Anything,
        Some(param) => {
            if param.array {
                Wanted::ArrayOf(param.ty)
            } else {
                Wanted::Scalar
            }
        }
    }
}

/// What a called name wants as its argument of that number, counted from 0, where its format has so many conversions.
pub fn wanted(entity: Option<&Entity>, count: usize, i: usize) -> Wanted
    ensures { result ≡ wanted (option_copied entity.entry) count i }
{
    match entity {
        None => Wanted::Anything,
        Some(Entity::Variable { .. }) => Wanted::Anything,
        Some(Entity::Function { params, .. }) => wanted_by(params.as_slice().get(i)),
        Some(Entity::Library { params, .. }) => wanted_by(params.as_slice().get(i)),
        Some(Entity::Printf) => {
            if i == 0 {
                Wanted::PrintfFormat
            } else if i <= count {
                Wanted::Scalar
            } else {
                Wanted::Anything
            }
        }
        Some(Entity::Scanf) => {
            if i == 0 {
                Wanted::ScanfFormat
            } else if i == 1 {
                Wanted::IntAddress
            } else {
                Wanted::Anything
            }
        }
    }
}

/// An expression as an argument.
pub fn value_faults(wanted: Wanted, kind: Kind, span: Span) -> First
    ensures { result.fault ≡ least (value_faults wanted kind span) }
{
    match wanted {
        Wanted::Anything => First::none(),
        Wanted::Scalar => number_faults(kind, span),
        Wanted::ArrayOf(ty) => array_faults(kind, ty, span),
        Wanted::PrintfFormat | Wanted::ScanfFormat => First::of(FaultKind::BadFormat, span),
        Wanted::IntAddress => First::of(FaultKind::WrongKind, span),
    }
}

/// A string literal as an argument.
#[tactic(auto, using(crate::proofs::LeastLemmas::least_append))]
pub fn format_faults(wanted: Wanted, text: &Text, span: Span) -> First
    ensures { result.fault ≡ least (format_faults wanted text.now span) }
{
    match wanted {
        Wanted::PrintfFormat => {
            let bad = conversions(text.as_slice()).is_none();
            First::of_if(bad, FaultKind::BadFormat, span)
        }
        Wanted::ScanfFormat => {
            let bad = scan_conversions(text.as_slice()).is_none();
            First::of_if(bad, FaultKind::BadFormat, span)
        }
        Wanted::ArrayOf(_) => {
            First::of(FaultKind::WrongKind, span).and(First::of(FaultKind::BadFormat, span))
        }
        Wanted::Anything | Wanted::Scalar | Wanted::IntAddress => {
            First::of(FaultKind::BadFormat, span)
        }
    }
}

/// The operand of `&`.
#[tactic(auto, using(crate::proofs::ExpressionLemmas::span_of_tree))]
fn operand_faults(e: &Expr) -> First
    ensures { result.fault ≡ least (operand_faults (tree e.now)) }
{
    First::of_if(!is_place(e), FaultKind::NotPlace, e.span)
}

/// `&` and an expression as an argument.
#[tactic(auto, using(crate::proofs::LeastLemmas::least_append, crate::proofs::ExpressionLemmas::span_of_tree))]
pub fn address_faults(wanted: Wanted, e: &Expr, scope: &Scope<'_>) -> First
    ensures { result.fault ≡ least (address_faults wanted (in_scope scope.now) (tree e.now)) }
{
    let operand = operand_faults(e);
    match wanted {
        Wanted::IntAddress => {
            First::of_if(!stores_int(e, scope), FaultKind::WrongKind, e.span).and(operand)
        }
        Wanted::PrintfFormat | Wanted::ScanfFormat => {
            let bad = First::of(FaultKind::BadFormat, e.span);
            First::of(FaultKind::WrongKind, e.span).and(operand.and(bad))
        }
        Wanted::Anything | Wanted::Scalar | Wanted::ArrayOf(_) => {
            First::of(FaultKind::WrongKind, e.span).and(operand)
        }
    }
}

/// Whether none of the arguments is a string literal.
fn no_format(args: &[Arg]) -> bool
    ensures { result ≡ no_format (args_of args.now) }
{
    for arg in args {
        if let Arg::Format(..) = arg {
            return false;
        }
    }
    true
}

/// Whether a good format has another number of conversions.
fn miscounts(found: Option<usize>, count: usize) -> bool
    ensures { result ≡ miscounts found count }
{
    match found {
        None => false,
        Some(n) => n != count,
    }
}

/// The number of arguments after a format with so many conversions.
fn rest_faults(found: Option<usize>, args: &[Arg], span: Span) -> First
    requires { 0 < length args.now }
    ensures { result.fault ≡ least (fault_if
        (no_format (args_of (drop 1 args.now))
        && miscounts found (args_count (args_of (drop 1 args.now))))
        WrongCount span) }
{
    let rest = &args[1..];
    let plain = no_format(rest);
    let wrong = miscounts(found, rest.len());
    First::of_if(plain & wrong, FaultKind::WrongCount, span)
}

/// The number of arguments of `printf`.
#[tactic(auto, using(crate::proofs::ArgumentLemmas::formatted_first))]
fn printf_faults(args: &[Arg], span: Span) -> First
    ensures { result.fault ≡ least (formatted_faults conversions (args_of args.now) span) }
{
    match args.first() {
        None => First::of(FaultKind::BadFormat, span),
        Some(Arg::Format(text, _)) => rest_faults(conversions(text.as_slice()), args, span),
        Some(_) => First::none(),
    }
}

/// The number of arguments of `scanf`.
#[tactic(auto, using(crate::proofs::ArgumentLemmas::formatted_first))]
fn scanf_faults(args: &[Arg], span: Span) -> First
    ensures { result.fault ≡ least (formatted_faults scan_conversions (args_of args.now) span) }
{
    match args.first() {
        None => First::of(FaultKind::BadFormat, span),
        Some(Arg::Format(text, _)) => rest_faults(scan_conversions(text.as_slice()), args, span),
        Some(_) => First::none(),
    }
}

/// The called name, with the number of its arguments.
#[tactic(auto, using(crate::proofs::LeastLemmas::least_append, crate::proofs::ArgumentLemmas::count_args))]
pub fn call_faults(entity: Option<&Entity>, args: &[Arg], span: Span) -> First
    ensures { result.fault
        ≡ least (call_faults (option_copied entity.entry) (args_of args.now) span) }
{
    match entity {
        None => First::of(FaultKind::Unknown, span),
        Some(Entity::Variable { .. }) => First::of(FaultKind::WrongKind, span),
        Some(
            Entity::Function {
                params,
                defined,
                ..
            },
        ) => {
            let many = params.as_slice().len() != args.len();
            let unknown = First::of_if(!*defined, FaultKind::Unknown, span);
            unknown.and(First::of_if(many, FaultKind::WrongCount, span))
        }
        Some(Entity::Library { params, .. }) => First::of_if(
            params.as_slice().len() != args.len(),
            FaultKind::WrongCount,
            span,
        ),
        Some(Entity::Printf) => printf_faults(args, span),
        Some(Entity::Scanf) => scanf_faults(args, span),
    }
}
