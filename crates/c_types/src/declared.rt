//! What declarators, parameters and functions declare, and the names that are declared from the start.

ghost use Rattle.std.specs.Prelude.{◌≡◌, ◌||◌, [], ◌∷◌, List, map, if◌then◌else◌, IfOk, OnOk};
ghost use Rattle.c_tree.specs.Tree.{Outer};
ghost use Rattle.c_tree.specs.Views.{variable, function, outer};
ghost use Rattle.c_types.specs.declared.scope.Entity.TheVariants.{Library};
ghost use Rattle.c_types.specs.Library.{int_param, library_name, library};
ghost use Rattle.c_types.specs.Programs.{is_defined, param_type, param_declaration, function_declaration};
ghost use Rattle.c_types.specs.Scopes.{is_declared, here, outside};
ghost use Rattle.c_types.specs.Statements.{is_array, variable_declaration};

use crate::scope::{Declaration, Entity, ParamType, ParamTypes, Scope};
use c_tree::{Declarator, External, Func, NoMemory, Param, Shape, Text, Ty, copy_text};
use std::alloc::Global;

/// Whether a name is declared as an array.
pub fn is_array(shape: Shape) -> bool
    ensures { result ≡ is_array shape }
{
    match shape {
        Shape::Scalar => false,
        Shape::Array(_) => true,
    }
}

/// The declaration that a declarator makes.
pub fn variable_declaration(alloc: Global, d: &Declarator, ty: Ty) -> Result<Declaration, NoMemory>
    ensures { IfOk result (λ r. r ≡ variable_declaration ty (variable d.now)) }
{
    let word = copy_text(alloc, &d.word)?;
    let entity = Entity::Variable {
        slot: d.slot,
        ty,
        array: is_array(d.shape),
    };
    Ok(Declaration { word, entity })
}

/// The declaration that a parameter makes.
pub fn param_declaration(alloc: Global, param: &Param) -> Result<Declaration, NoMemory>
    ensures { IfOk result (λ r. r ≡ param_declaration param.now) }
{
    let word = copy_text(alloc, &param.word)?;
    let entity = Entity::Variable {
        slot: param.slot,
        ty: param.ty,
        array: param.array,
    };
    Ok(Declaration { word, entity })
}

/// The types of parameters.
fn param_types(alloc: Global, params: &[Param]) -> Result<ParamTypes, NoMemory>
    ensures { IfOk result (λ types. types ≡ map param_type params.now) }
{
    let mut types = Vec::new(alloc);
    for param in params {
        types.push(ParamType {
            ty: param.ty,
            array: param.array,
        })?;
    }
    Ok(ParamTypes::new(types))
}

/// Whether this is a definition of a function of that name.
fn defines(external: &External, word: &Text) -> bool
    ensures { (rest : List Outer) → is_defined (outer external.now ∷ rest) word.now
        ≡ (result || is_defined rest word.now) }
{
    match external {
        External::Vars(..) => false,
        External::Func(f) => f.body.is_some() && f.word.as_slice() == word.as_slice(),
    }
}

/// Whether the file has a definition of a function of that name.
fn is_defined(file: &[External], word: &Text) -> bool
    ensures { result ≡ is_defined (map outer file.now) word.now }
{
    for external in file {
        if defines(external, word) {
            return true;
        }
    }
    false
}

/// Whether the library has a function of that name.
fn is_in_library(word: &Text) -> bool
    ensures { result ≡ is_declared library word.now }
{
    b"getchar".as_slice() == word.as_slice()
        || b"putchar".as_slice() == word.as_slice()
        || b"printf".as_slice() == word.as_slice()
        || b"scanf".as_slice() == word.as_slice()
        || b"exit".as_slice() == word.as_slice()
        || b"abs".as_slice() == word.as_slice()
}

/// The declaration that a prototype or a definition makes in the file.
pub fn function_declaration(
    alloc: Global,
    f: &Func,
    file: &[External],
) -> Result<Declaration, NoMemory>
    ensures { IfOk result (λ r. r ≡ function_declaration (map outer file.now) (function f.now)) }
{
    let word = copy_text(alloc, &f.word)?;
    let params = param_types(alloc, &f.params)?;
    let entity = Entity::Function {
        ret: f.ret,
        params,
        body: f.body.is_some(),
        defined: has_definition(&f.word, file),
    };
    Ok(Declaration { word, entity })
}

/// Whether a function of that name is one of the library or is defined in the file.
fn has_definition(word: &Text, file: &[External]) -> bool
    ensures { result ≡ (is_declared library word.now || is_defined (map outer file.now) word.now) }
{
    is_in_library(word) || is_defined(file, word)
}

/// A name of the library.
fn library_name(alloc: Global, word: &[u8], entity: Entity) -> Result<Declaration, NoMemory>
    ensures { IfOk result (λ r. r ≡ library_name word.now entity) }
{
    let word = Text::new(word.to_vec(alloc)?);
    Ok(Declaration { word, entity })
}

/// The types of the parameters of a function of the library: none, or one `int`.
fn library_params(alloc: Global, one: bool) -> Result<ParamTypes, NoMemory>
    ensures { IfOk result (λ types. types ≡ (if one then int_param ∷ [] else [])) }
{
    let mut types = Vec::new(alloc);
    if one {
        types.push(ParamType {
            ty: Ty::Int,
            array: false,
        })?;
    }
    Ok(ParamTypes::new(types))
}

/// A function of the library, with one `int` as its parameter or none.
fn library_function(alloc: Global, ret: Option<Ty>, one: bool) -> Result<Entity, NoMemory>
    ensures { IfOk result (λ r. r ≡ Library ret (if one then int_param ∷ [] else [])) }
{
    let params = library_params(alloc, one)?;
    Ok(Entity::Library { ret, params })
}

/// Declares a name of the library.
fn declare_name(
    alloc: Global,
    word: &[u8],
    entity: Entity,
    scope: &mut Scope<'_>,
) -> Result<(), NoMemory>
    ensures here { OnOk result (here scope.new ≡ library_name word.now entity ∷ here scope.old) }
    ensures outside { outside scope.new ≡ outside scope.old }
{
    scope.declare(library_name(alloc, word, entity)?)
}

/// Declares a function of the library, with one `int` as its parameter or none.
fn declare_function(
    alloc: Global,
    word: &[u8],
    ret: Option<Ty>,
    one: bool,
    scope: &mut Scope<'_>,
) -> Result<(), NoMemory>
    ensures here { OnOk result (here scope.new
        ≡ library_name word.now (Library ret (if one then int_param ∷ [] else [])) ∷ here scope.old) }
    ensures outside { outside scope.new ≡ outside scope.old }
{
    declare_name(alloc, word, library_function(alloc, ret, one)?, scope)
}

/// The scope of a file before its first declaration: it has the names of the library.
pub fn library<'a>(alloc: Global) -> Result<Scope<'a>, NoMemory>
    ensures here { IfOk result (λ s. here s ≡ library) }
    ensures outside { IfOk result (λ s. outside s ≡ []) }
{
    let int = Some(Ty::Int);
    let mut scope = Scope::outermost(alloc);
    declare_function(alloc, b"abs".as_slice(), int, true, &mut scope)?;
    declare_function(alloc, b"exit".as_slice(), None, true, &mut scope)?;
    declare_name(alloc, b"scanf".as_slice(), Entity::Scanf, &mut scope)?;
    declare_name(alloc, b"printf".as_slice(), Entity::Printf, &mut scope)?;
    declare_function(alloc, b"putchar".as_slice(), int, true, &mut scope)?;
    declare_function(alloc, b"getchar".as_slice(), int, false, &mut scope)?;
    Ok(scope)
}
