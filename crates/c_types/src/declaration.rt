//! The faults of declarations (C11 6.7).

ghost use Rattle.std.specs.Prelude.{◌≡◌, ◌∷◌, ◌||◌, pos, int_lt, Some, IfOk, OnOk};
ghost use Rattle.c_tree.specs.declared.stmt.Shape.TheVariants.{Array};
ghost use Rattle.c_tree.specs.Views.{trees, initial, variable, variables};
ghost use Rattle.c_types.specs.Least.{least};
ghost use Rattle.c_types.specs.Scopes.{here, outside, in_scope};
ghost use Rattle.c_types.specs.Statements.{variable_declaration, declared, elements, is_list, list_faults, length_faults, as_numbers, initial_faults, variable_faults, variables_faults};

use crate::constant::constant_faults;
use crate::declared::variable_declaration;
use crate::expr::number;
use crate::fault::FaultKind;
use crate::first::First;
use crate::scope::{Scope, Storage};
use c_tree::{Declarator, Expr, NoMemory, Shape, Span, Start, Ty};
use std::alloc::Global;

/// How many elements an initialiser lists.
fn elements(start: &Start) -> usize
    ensures { result ≡ elements (initial start.now) }
{
    match start {
        Start::Bare | Start::One(_) => 0,
        Start::List(es) => es.len(),
    }
}

/// Whether an initialiser is a list.
fn is_list(start: &Start) -> bool
    ensures { result ≡ is_list (initial start.now) }
{
    match start {
        Start::Bare | Start::One(_) => false,
        Start::List(_) => true,
    }
}

/// The length of what is declared, and of its list.
fn length_faults(shape: Shape, start: &Start, span: Span) -> First
    ensures { result.fault ≡ least (length_faults shape (initial start.now) span) }
{
    match shape {
        Shape::Scalar => list_faults(1, start, span),
        Shape::Array(length) => array_faults(length, start, span),
    }
}

/// The length of an array, which may be left out.
fn array_faults(length: Option<i64>, start: &Start, span: Span) -> First
    ensures { result.fault ≡ least (length_faults (Array length) (initial start.now) span) }
{
    match length {
        None => First::of_if(!is_list(start), FaultKind::BadArrayLength, span),
        Some(n) => written_faults(n, start, span),
    }
}

/// The length of an array as it is written.
#[tactic(auto, using(crate::proofs::LeastLemmas::least_append))]
fn written_faults(n: i64, start: &Start, span: Span) -> First
    ensures { result.fault ≡ least (length_faults (Array (Some n)) (initial start.now) span) }
{
    let bad = First::of_if(is_bad_length(n), FaultKind::BadArrayLength, span);
    bad.and(list_faults(n, start, span))
}

/// The length of a list, where there are so many elements.
fn list_faults(n: i64, start: &Start, span: Span) -> First
    ensures { result.fault ≡ least (list_faults n (initial start.now) span) }
{
    let list = is_list(start);
    let below = is_below(n, elements(start));
    First::of_if(list & below, FaultKind::WrongCount, span)
}

/// Whether no array may have that length.
fn is_bad_length(n: i64) -> bool
    ensures { result ≡ (int_lt n (pos 1) || int_lt (pos 1048576) n) }
{
    n < 1 || 1_048_576 < n
}

/// Whether a length is below a count.
fn is_below(n: i64, count: usize) -> bool
    ensures { result ≡ int_lt n (pos count) }
{
    n < 0 || (n as u64) < count as u64
}

/// The faults of expressions that are each a number.
fn as_numbers(es: &[Expr], scope: &Scope<'_>) -> First
    ensures { result.fault ≡ least (as_numbers (in_scope scope.now) (trees es.now)) }
{
    let mut found = First::none();
    for e in es {
        found = found.and(number(e, scope));
    }
    found
}

/// The faults of an initialiser.
fn initial_faults(start: &Start, scope: &Scope<'_>) -> First
    ensures { result.fault ≡ least (initial_faults (in_scope scope.now) (initial start.now)) }
{
    match start {
        Start::Bare => First::none(),
        Start::One(e) => number(e, scope),
        Start::List(es) => as_numbers(es, scope),
    }
}

/// The faults of a declarator, whose name is in scope from here on.
fn variable_faults(
    alloc: Global,
    d: &Declarator,
    ty: Ty,
    storage: Storage,
    scope: &mut Scope<'_>,
) -> Result<First, NoMemory>
    ensures faults { IfOk result (λ r. r.fault
        ≡ least (variable_faults storage (here scope.old) (outside scope.old) ty
        (variable d.now))) }
    ensures here { OnOk result (here scope.new
        ≡ variable_declaration ty (variable d.now) ∷ here scope.old) }
    ensures outside { outside scope.new ≡ outside scope.old }
{
    let twice = First::of_if(scope.declares(&d.word), FaultKind::Twice, d.span);
    scope.declare(variable_declaration(alloc, d, ty)?)?;
    let length = length_faults(d.shape, &d.start, d.span);
    let start = initial_faults(&d.start, scope);
    let constant = constant_faults(storage, &d.start);
    Ok(twice.and(length.and(start.and(constant))))
}

/// The faults of declarators, whose names are in scope one after another.
pub fn variables_faults(
    alloc: Global,
    ds: &[Declarator],
    ty: Ty,
    storage: Storage,
    scope: &mut Scope<'_>,
) -> Result<First, NoMemory>
    ensures faults { IfOk result (λ r. r.fault
        ≡ least (variables_faults storage (here scope.old) (outside scope.old) ty
        (variables ds.now))) }
    ensures here { OnOk result (here scope.new ≡ declared ty (variables ds.now) (here scope.old)) }
    ensures outside { outside scope.new ≡ outside scope.old }
{
    let mut found = First::none();
    for d in ds {
        found = found.and(variable_faults(alloc, d, ty, storage, scope)?);
    }
    Ok(found)
}
