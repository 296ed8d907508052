//! The faults of functions and of whole programs (C11 6.9, 6.2.7, 5.1.2.2.1).

ghost use Rattle.std.specs.Prelude.{◌≡◌, ◌&&◌, not, nat_eq, length, [], ◌∷◌, Bool, List, map, if◌then◌else◌, IfOk, OnOk};
ghost use Rattle.std.specs.Str.{bytes_eq};
ghost use Rattle.c_tree.specs.Tree.{Outer};
ghost use Rattle.c_tree.specs.Views.{function, outer, body_option};
ghost use Rattle.c_types.specs.declared.scope.Entity.TheVariants.{Function as FunctionEntity};
ghost use Rattle.c_types.specs.Least.{least, earlier};
ghost use Rattle.c_types.specs.Programs.{param_type, function_declaration, params_declared, params_faults, same_result, same_param, same_params, redeclared_faults, name_faults, definition_faults, function_faults, outers_faults, is_main, has_main, program_faults};
ghost use Rattle.c_types.specs.Scopes.{here, outside};

use crate::declaration::variables_faults;
use crate::declared::{function_declaration, library, param_declaration};
use crate::fault::FaultKind;
use crate::first::First;
use crate::kinds::same_ty;
use crate::scope::{Declaration, Entity, ParamType, Scope, Storage};
use crate::stmt::{Enclosing, items_faults};
use c_tree::{External, Func, Item, NoMemory, Param, Span, Ty};
use std::alloc::Global;

/// The faults of parameters, whose names are in scope one after another.
fn params_faults(alloc: Global, params: &[Param], scope: &mut Scope<'_>) -> Result<First, NoMemory>
    ensures faults { IfOk result (λ r. r.fault ≡ least (params_faults (here scope.old) params.now)) }
    ensures here { OnOk result (here scope.new ≡ params_declared params.now (here scope.old)) }
    ensures outside { outside scope.new ≡ outside scope.old }
{
    let mut found = First::none();
    for param in params {
        let twice = First::of_if(scope.declares(&param.word), FaultKind::Twice, param.span);
        scope.declare(param_declaration(alloc, param)?)?;
        found = found.and(twice);
    }
    Ok(found)
}

/// Whether two results are the same.
fn same_result(a: Option<Ty>, b: Option<Ty>) -> bool
    ensures { result ≡ same_result a b }
{
    match (a, b) {
        (None, None) => true,
        (Some(a), Some(b)) => same_ty(a, b),
        (None, Some(_)) | (Some(_), None) => false,
    }
}

/// Whether two parameters have the same type.
fn same_param(a: ParamType, b: ParamType) -> bool
    ensures { result ≡ same_param a b }
{
    same_ty(a.ty, b.ty) && a.array == b.array
}

/// Whether parameters of the same number in both lists have.
fn same_params(earlier: &[ParamType], params: &[Param]) -> bool
    ensures { result ≡ same_params earlier.now (map param_type params.now) }
{
    for (i, a) in earlier.iter().enumerate() {
        if i < params.len() {
            let b = ParamType {
                ty: params[i].ty,
                array: params[i].array,
            };
            if !same_param(*a, b) {
                return false;
            }
        } else {
            return true;
        }
    }
    true
}

/// Whether the result and the types of the parameters are those of an earlier declaration.
fn agrees(ret: Option<Ty>, params: &[ParamType], f: &Func) -> bool
    ensures { result ≡ (same_result ret f.now.ret
        && same_params params.now (map param_type (function f.now).params)) }
{
    same_result(ret, f.ret) && same_params(params, &f.params)
}

/// Whether there is another number of parameters.
fn differ(params: &[ParamType], later: &[Param]) -> bool
    ensures { result ≡ not (nat_eq (length params.now) (length later.now)) }
{
    params.len() != later.len()
}

/// A function's name that is declared as a function before.
#[tactic(auto, using(crate::proofs::LeastLemmas::least_append))]
fn function_again(ret: Option<Ty>, params: &[ParamType], body: bool, f: &Func) -> First
    ensures { (defined : Bool) → result.fault
        ≡ least (redeclared_faults (FunctionEntity ret params.now body defined) (function f.now)) }
{
    let twice = First::of_if(body & f.body.is_some(), FaultKind::Twice, f.span);
    let kind = First::of_if(!agrees(ret, params, f), FaultKind::WrongKind, f.span);
    let many = First::of_if(differ(params, &f.params), FaultKind::WrongCount, f.span);
    twice.and(kind.and(many))
}

/// A function's name, by what it denotes already.
fn redeclared_faults(entity: &Entity, f: &Func) -> First
    ensures { result.fault ≡ least (redeclared_faults entity.now (function f.now)) }
{
    match entity {
        Entity::Function {
            ret,
            params,
            body,
            ..
        } => function_again(*ret, params.as_slice(), *body, f),
        Entity::Variable { .. } => First::of(FaultKind::Twice, f.span),
        Entity::Library { .. } => First::of(FaultKind::Twice, f.span),
        Entity::Printf => First::of(FaultKind::Twice, f.span),
        Entity::Scanf => First::of(FaultKind::Twice, f.span),
    }
}

/// A function's name against one earlier declaration, which may be of another name.
fn earlier_faults(declaration: &Declaration, f: &Func) -> First
    ensures { result.fault ≡ least (if bytes_eq declaration.now.word (function f.now).word
        then redeclared_faults declaration.now.entity (function f.now) else []) }
{
    if declaration.word.as_slice() == f.word.as_slice() {
        redeclared_faults(&declaration.entity, f)
    } else {
        First::none()
    }
}

/// A function's name against each earlier declaration of it.
fn name_faults(f: &Func, scope: &Scope<'_>) -> First
    ensures { result.fault ≡ least (name_faults (here scope.now) (function f.now)) }
{
    let mut found = First::none();
    for i in (0..scope.here.len()).rev() {
        found = found.and(earlier_faults(&scope.here[i], f));
    }
    found
}

/// The faults of a prototype or a definition, whose name is in scope from here on.
fn function_faults(
    alloc: Global,
    f: &Func,
    file: &[External],
    scope: &mut Scope<'_>,
) -> Result<First, NoMemory>
    requires { outside scope.old ≡ [] }
    ensures faults { IfOk result (λ r. r.fault
        ≡ least (function_faults (map outer file.now) (here scope.old) (function f.now))) }
    ensures here { OnOk result (here scope.new
        ≡ function_declaration (map outer file.now) (function f.now) ∷ here scope.old) }
    ensures outside { outside scope.new ≡ outside scope.old }
{
    let name = name_faults(f, scope);
    scope.declare(function_declaration(alloc, f, file)?)?;
    let mut inner = Scope::inside(alloc, scope);
    let params = params_faults(alloc, &f.params, &mut inner)?;
    let body = definition_faults(alloc, &f.body, f.ret, &mut inner)?;
    Ok(name.and(params.and(body)))
}

/// The faults of a body that may be absent.
fn definition_faults(
    alloc: Global,
    body: &Option<Vec<Item>>,
    ret: Option<Ty>,
    scope: &mut Scope<'_>,
) -> Result<First, NoMemory>
    ensures { IfOk result (λ r. r.fault
        ≡ least (definition_faults ret (here scope.old) (outside scope.old)
        (body_option body.now))) }
{
    let enclosing = Enclosing {
        ret,
        in_loop: false,
    };
    match body {
        None => Ok(First::none()),
        Some(items) => items_faults(alloc, items, scope, enclosing),
    }
}

/// The faults of what stands at file scope. What it declares is in scope from here on.
#[tactic(auto, using(crate::proofs::LeastLemmas::least_append))]
fn external_faults(
    alloc: Global,
    external: &External,
    file: &[External],
    scope: &mut Scope<'_>,
) -> Result<First, NoMemory>
    requires { outside scope.old ≡ [] }
    ensures faults { IfOk result (λ r. (rest : List Outer) →
        least (outers_faults (map outer file.now) (here scope.old) (outer external.now ∷ rest))
        ≡ earlier r.fault (least (outers_faults (map outer file.now) (here scope.new) rest))) }
    ensures outside { outside scope.new ≡ outside scope.old }
{
    match external {
        External::Vars(ty, ds) => variables_faults(alloc, ds, *ty, Storage::Static, scope),
        External::Func(f) => function_faults(alloc, f, file, scope),
    }
}

/// Whether a function is a definition of `main` with result `int` and no parameters.
fn is_main(f: &Func) -> bool
    ensures { result ≡ is_main (function f.now) }
{
    f.word.as_slice() == b"main".as_slice()
        && same_result(f.ret, Some(Ty::Int))
        && f.params.is_empty()
        && f.body.is_some()
}

/// Whether the file has one.
fn has_main(file: &[External]) -> bool
    ensures { result ≡ has_main (map outer file.now) }
{
    for external in file {
        if let External::Func(f) = external {
            if is_main(f) {
                return true;
            }
        }
    }
    false
}

/// The faults of a whole program, in a source of that length.
pub fn program_faults(alloc: Global, file: &[External], end: u32) -> Result<First, NoMemory>
    ensures { IfOk result (λ r. r.fault ≡ least (program_faults (map outer file.now) end)) }
{
    let mut scope = library(alloc)?;
    let mut found = First::none();
    for external in file {
        found = found.and(external_faults(alloc, external, file, &mut scope)?);
    }
    let no_main = First::of_if(
        !has_main(file),
        FaultKind::NoMain,
        Span { from: end, to: end },
    );
    Ok(found.and(no_main))
}
