//! The variable of each name in functions and files.

ghost use Rattle.std.specs.Prelude.{◌≡◌, ◌+◌, ◌<◌, [], ◌∷◌, List, length, map, get_or, OnOk};
ghost use Rattle.c_tree.specs.declared.program.External.{External as Declared};
ghost use Rattle.c_tree.specs.Tree.{Outer};
ghost use Rattle.c_tree.specs.Views.{function, outer, body_option, program as tree_program};
ghost use Rattle.c_types.specs.declared.scope.Declaration.{Declaration};
ghost use Rattle.c_types.specs.Programs.{function_declaration, params_declared, param_declaration};
ghost use Rattle.c_types.specs.Scopes.{here, outside, in_scope};
ghost use Rattle.c_types.specs.Slots.{numbered_params, numbered_param, resolved_definition, resolved_function, resolved_outers, resolved, with_function};

use crate::declared::{function_declaration, library, param_declaration};
use crate::resolve::{resolve_declarators, resolve_items, take_number};
use crate::scope::{Scope, Storage};
use c_tree::{External, Func, Item, NoMemory, Param, Program, Slot};
use std::alloc::Global;

/// Gives the parameters their numbers, and declares them one after another.
fn resolve_params(
    alloc: Global,
    params: &mut [Param],
    scope: &mut Scope<'_>,
    next: &mut u32,
) -> Result<(), NoMemory>
    ensures resolved { OnOk result (params.new ≡ numbered_params next.old params.old) }
    ensures here { OnOk result (here scope.new
        ≡ params_declared (numbered_params next.old params.old) (here scope.old)) }
    ensures outside { outside scope.new ≡ outside scope.old }
    ensures next { OnOk result (next.new ≡ next.old + length params.old) }
{
    for param in params {
        resolve_param(alloc, param, take_number(next)?, scope)?;
    }
    Ok(())
}

/// Gives the parameter its number, and declares it.
fn resolve_param(
    alloc: Global,
    param: &mut Param,
    number: u32,
    scope: &mut Scope<'_>,
) -> Result<(), NoMemory>
    ensures resolved { OnOk result (param.new ≡ numbered_param number param.old) }
    ensures here { OnOk result (here scope.new
        ≡ param_declaration (numbered_param number param.old) ∷ here scope.old) }
    ensures outside { outside scope.new ≡ outside scope.old }
{
    param.slot = Slot::Local(number);
    scope.declare(param_declaration(alloc, param)?)?;
    Ok(())
}

/// Resolves the body of a definition, if there is one.
fn resolve_definition(
    alloc: Global,
    body: &mut Option<Vec<Item>>,
    scope: &mut Scope<'_>,
    next: &mut u32,
) -> Result<(), NoMemory>
    ensures { OnOk result (body_option body.new
        ≡ resolved_definition (here scope.old) (outside scope.old) next.old (body_option body.old)) }
{
    match body {
        None => Ok(()),
        Some(items) => resolve_items(alloc, items, scope, next),
    }
}

/// Resolves the function, whose own name is declared already.
fn resolve_function(alloc: Global, f: &mut Func, around: &Scope<'_>) -> Result<(), NoMemory>
    ensures { OnOk result (function f.new
        ≡ resolved_function (in_scope around.now) (function f.old)) }
{
    let mut scope = Scope::inside(alloc, around);
    let mut next = 0;
    resolve_params(alloc, &mut f.params, &mut scope, &mut next)?;
    resolve_definition(alloc, &mut f.body, &mut scope, &mut next)
}

/// Declares the name of the function that stands at this place of the file, if one does.
fn declare_function(
    alloc: Global,
    file: &[External],
    i: usize,
    scope: &mut Scope<'_>,
) -> Result<(), NoMemory>
    requires { i < length file.now }
    ensures here { OnOk result ((d : Declared) → here scope.new
        ≡ with_function (map outer file.now) (outer (get_or file.now i d)) (here scope.old)) }
    ensures outside { outside scope.new ≡ outside scope.old }
{
    match &file[i] {
        External::Vars(..) => Ok(()),
        External::Func(f) => {
            scope.declare(function_declaration(alloc, f, file)?)?;
            Ok(())
        }
    }
}

/// Resolves what stands at file scope; the name of a function is declared already.
fn resolve_external(
    alloc: Global,
    external: &mut External,
    scope: &mut Scope<'_>,
    next: &mut u32,
) -> Result<(), NoMemory>
    requires { outside scope.old ≡ [] }
    ensures resolved { OnOk result ((file : List Outer) (before : List Declaration) (rest : List Outer)
        → here scope.old ≡ with_function file (outer external.old) before
        → outer external.new ∷ resolved_outers file (here scope.new) next.new rest
        ≡ resolved_outers file before next.old (outer external.old ∷ rest)) }
    ensures outside { outside scope.new ≡ outside scope.old }
{
    match external {
        External::Vars(ty, ds) => resolve_declarators(alloc, ds, *ty, Storage::Static, scope, next),
        External::Func(f) => resolve_function(alloc, f, scope),
    }
}

/// Resolves all that stands at file scope.
fn resolve_externals(alloc: Global, externals: &mut [External]) -> Result<(), NoMemory>
    ensures { OnOk result (map outer externals.new ≡ resolved (map outer externals.old)) }
{
    let mut scope = library(alloc)?;
    let mut next = 0;
    for i in 0..externals.len() {
        declare_function(alloc, externals, i, &mut scope)?;
        resolve_external(alloc, &mut externals[i], &mut scope, &mut next)?;
    }
    Ok(())
}

/// Gives each variable that the program declares its number, and each name the variable that is visible there under
/// that name (C11 6.2.1). Numbers go from 0 in text order: those of file scope through the file, and in each
/// prototype or definition those of its parameters and of the variables that its body declares.
///
/// # Errors
///
/// `NoMemory` where memory runs out. Nothing is said of what the program is then: let it go.
pub fn resolve(alloc: Global, program: &mut Program) -> Result<(), NoMemory>
    ensures { OnOk result (tree_program program.new ≡ resolved (tree_program program.old)) }
{
    resolve_externals(alloc, &mut program.externals)
}
