//! The kinds of expressions (C11 6.3.2.1, 6.5.1, 6.5.2.2).

ghost use Rattle.std.specs.Prelude.{◌≡◌, option_copied};
ghost use Rattle.c_tree.specs.Views.{tree};
ghost use Rattle.c_types.specs.Kinds.{same_ty, named, called, kind};
ghost use Rattle.c_types.specs.Scopes.{in_scope};

use crate::scope::{Entity, Scope};
use c_tree::{Expr, ExprNode, Ty};

/// What an expression stands for.
#[derive(Clone, Copy, Debug, PartialEq, Eq)]
pub enum Kind {
    /// A number.
    Number,
    /// The name of an array of numbers of that type.
    Array(Ty),
    /// The name of a function.
    Function,
    /// A call without a result.
    Void,
}

/// What a call wants as an argument.
#[derive(Clone, Copy, Debug, PartialEq, Eq)]
pub enum Wanted {
    /// Anything, since there is no parameter.
    Anything,
    /// A number.
    Scalar,
    /// The name of an array of numbers of that type.
    ArrayOf(Ty),
    /// A format of `printf`.
    PrintfFormat,
    /// A format of `scanf`.
    ScanfFormat,
    /// `&` and the `int` that `scanf` stores into.
    IntAddress,
}

/// Whether two types are the same.
pub fn same_ty(a: Ty, b: Ty) -> bool
    ensures { result ≡ same_ty a b }
{
    match (a, b) {
        (Ty::Int, Ty::Int) | (Ty::Char, Ty::Char) => true,
        (Ty::Int, Ty::Char) | (Ty::Char, Ty::Int) => false,
    }
}

/// The kind of a name, by what it denotes; one that isn't declared counts as a number.
pub fn named(entity: Option<&Entity>) -> Kind
    ensures { result ≡ named (option_copied entity.entry) }
{
    match entity {
        None => Kind::Number,
        Some(Entity::Variable { array: false, .. }) => Kind::Number,
        Some(
            Entity::Variable {
                ty,
                array: true,
                ..
            },
        ) => Kind::Array(*ty),
        Some(_) => Kind::Function,
    }
}

/// The kind of a call, by what the called name denotes.
fn called(entity: Option<&Entity>) -> Kind
    ensures { result ≡ called (option_copied entity.entry) }
{
    match entity {
        Some(Entity::Function { ret: None, .. }) => Kind::Void,
        Some(Entity::Library { ret: None, .. }) => Kind::Void,
        _ => Kind::Number,
    }
}

/// The kind of an expression, where the names of the scope are declared.
pub fn kind_of(e: &Expr, scope: &Scope<'_>) -> Kind
    ensures { result ≡ kind (in_scope scope.now) (tree e.now) }
{
    match &e.node {
        ExprNode::Name { word, .. } => named(scope.denoted(word)),
        ExprNode::Call { word, .. } => called(scope.denoted(word)),
        _ => Kind::Number,
    }
}
