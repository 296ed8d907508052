//! The names that are in scope at a place, and what they denote (C11 6.2.1).

ghost use Rattle.std.specs.Prelude.{◌≡◌, [], ◌∷◌, OnOk, option_copied};
ghost use Rattle.c_types.specs.Scopes.{denoted, is_declared, here, outside, in_scope};

use c_tree::{NoMemory, Slot, Text, Ty};
use std::alloc::Global;
use std::marker::Model;

/// The storage duration of a variable (C11 6.2.4): static at file scope, automatic in a function.
#[derive(Clone, Copy, Debug, PartialEq, Eq)]
pub enum Storage {
    Static,
    Automatic,
}

/// The type of a parameter: a number of that type, or an array of them.
#[derive(Clone, Copy, Debug, PartialEq, Eq)]
pub struct ParamType {
    pub ty: Ty,
    pub array: bool,
}

/// The types of the parameters of a function, in order.
#[derive(Drop)]
pub struct ParamTypes {
    types: Vec<ParamType>,
}

impl Model for ParamTypes {
    ghost use Rattle.std.specs.Prelude.{List};
    ghost use Rattle.c_types.specs.declared.scope.ParamType.{ParamType};

    ghost Value = { List ParamType };

    ghost view = { λ p. p.types.items };
}

impl ParamTypes {
    /// These types.
    pub fn new(types: Vec<ParamType>) -> ParamTypes
        ensures { result ≡ types.items }
    {
        ParamTypes { types }
    }

    /// The types, borrowed.
    pub fn as_slice(&self) -> &[ParamType]
        ensures { result.now ≡ self.now }
    {
        &self.types
    }
}

/// What a name denotes (C11 6.2.1p1).
#[derive(Drop)]
pub enum Entity {
    /// A variable: a number, or an array of numbers, of that type.
    Variable {
        slot: Slot,
        ty: Ty,
        array: bool,
    },
    /// A function of the file. `body` says whether the declaration is a definition, and `defined` whether there is one
    /// somewhere.
    Function {
        ret: Option<Ty>,
        params: ParamTypes,
        body: bool,
        defined: bool,
    },
    /// A function of the library but `printf` and `scanf`.
    Library {
        ret: Option<Ty>,
        params: ParamTypes,
    },
    /// `printf`
    Printf,
    /// `scanf`
    Scanf,
}

/// A declared name, and what it denotes.
#[derive(Drop)]
pub struct Declaration {
    pub word: Text,
    pub entity: Entity,
}

/// The names that are declared in a scope so far, and the scopes around it.
#[derive(Drop)]
pub struct Scope<'a> {
    pub here: Vec<Declaration>,
    pub around: Option<&'a Scope<'a>>,
}

impl<'a> Scope<'a> {
    /// A new scope without one around it.
    pub fn outermost(alloc: Global) -> Scope<'a>
        ensures here { here result ≡ [] }
        ensures outside { outside result ≡ [] }
    {
        Scope {
            here: Vec::new(alloc),
            around: None,
        }
    }

    /// A new scope inside this one.
    pub fn inside(alloc: Global, around: &'a Scope<'a>) -> Scope<'a>
        ensures here { here result ≡ [] }
        ensures outside { outside result ≡ in_scope around.now }
    {
        Scope {
            here: Vec::new(alloc),
            around: Some(around),
        }
    }

    /// Declares a name.
    pub fn declare(&mut self, declaration: Declaration) -> Result<(), NoMemory>
        ensures here { OnOk result (here self.new ≡ declaration ∷ here self.old) }
        ensures outside { outside self.new ≡ outside self.old }
    {
        self.here.push(declaration)?;
        Ok(())
    }

    /// Whether the word is declared in this scope itself.
    pub fn declares(&self, word: &Text) -> bool
        ensures { result ≡ is_declared (here self.now) word.now }
    {
        for i in (0..self.here.len()).rev() {
            if self.here[i].word.as_slice() == word.as_slice() {
                return true;
            }
        }
        false
    }

    /// What the word denotes.
    pub fn denoted(&self, word: &Text) -> Option<&Entity>
        ensures { option_copied result ≡ denoted (in_scope self.now) word.now }
    {
        for i in (0..self.here.len()).rev() {
            if self.here[i].word.as_slice() == word.as_slice() {
                return Some(&self.here[i].entity);
            }
        }
        match self.around {
            None => None,
            Some(around) => around.denoted(word),
        }
    }
}
