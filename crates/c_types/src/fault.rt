//! Why a program is not accepted.

ghost use Rattle.std.specs.Prelude.{◌≡◌};
ghost use Rattle.c_types.specs.declared.fault.TypeFault.TheVariants as reported;
ghost use Rattle.c_types.specs.FaultWords.{place_of, words_of};

use std::alloc::{AllocError, AllocFailed};
use thiserror::Error;

/// What can be wrong with a program that the grammar accepts. Of the faults at one place the first in this order is
/// reported.
#[derive(Clone, Copy, Debug, PartialEq, Eq)]
pub enum FaultKind {
    /// A name that isn't declared, or a called function that isn't defined.
    Unknown,
    /// A name that is declared again in its scope.
    Twice,
    /// An array, a function or nothing where a number is wanted, or the reverse.
    WrongKind,
    /// Another number of arguments, of parameters or of elements.
    WrongCount,
    /// An assignment, a bump or a `&` of what is neither a name nor an element.
    NotPlace,
    /// A part of an initialiser of file scope that isn't constant.
    NotConstant,
    /// An array of no length that is supported.
    BadArrayLength,
    /// A `break` or `continue` outside a loop.
    LoopOnly,
    /// A format that isn't supported, or a string literal that is none.
    BadFormat,
    /// There is no `main`.
    NoMain,
}

/// A fault, at the first byte of a part of the program.
#[derive(Clone, Copy, Debug, PartialEq, Eq)]
pub struct Fault {
    pub place: u32,
    pub kind: FaultKind,
}

/// Why a program is not accepted, with the place of its first fault.
#[derive(Clone, Copy, Debug, PartialEq, Eq, Error)]
#[error("{}", self.words())]
pub enum TypeFault {
    /// A name that isn't declared, or a called function that is defined nowhere (C11 6.5.1, 6.9).
    Unknown(u32),
    /// A name that is declared again in its scope, a function that is defined again, or a name of the library that is
    /// declared at file scope (C11 6.7, 6.9).
    Twice(u32),
    /// A declaration of a function that differs from an earlier one; an array, a function or a call without a result
    /// where a number is wanted, or the reverse; a `&` elsewhere than in `scanf`; a `return` with a value in a function
    /// without a result, or without one in another (C11 6.5, 6.7.6.3, 6.8.6.4).
    WrongKind(u32),
    /// Another number of arguments than parameters or conversions, of parameters than in an earlier declaration, or
    /// more initialisers than elements (C11 6.5.2.2, 6.7.6.3, 6.7.9).
    WrongCount(u32),
    /// An assignment, a `++`, a `--` or a `&` of what is neither a name nor an element (C11 6.5.16).
    NotPlace(u32),
    /// A part of an initialiser of file scope that no constant expression has (C11 6.6, 6.7.9).
    NotConstant(u32),
    /// An array of fewer than 1 or more than 1,048,576 elements, or one without a length and a list (C11 6.7.6.2).
    BadArrayLength(u32),
    /// A `break` or `continue` outside a loop (C11 6.8.6).
    LoopOnly(u32),
    /// A format of `printf` or `scanf` that isn't supported, or a string literal that is none (C11 7.21.6).
    BadFormat(u32),
    /// There is no definition of `main` with result `int` and no parameters (C11 5.1.2.2.1).
    NoMain(u32),
    /// The allocator had no memory left. No clause says when this comes.
    NoMemory,
}

impl TypeFault {
    /// The place of the fault, the number of its first byte; out of memory has none.
    pub fn place(&self) -> Option<u32>
        ensures { result ≡ place_of self.now }
    {
        match *self {
            TypeFault::Unknown(place)
            | TypeFault::Twice(place)
            | TypeFault::WrongKind(place)
            | TypeFault::WrongCount(place)
            | TypeFault::NotPlace(place)
            | TypeFault::NotConstant(place)
            | TypeFault::BadArrayLength(place)
            | TypeFault::LoopOnly(place)
            | TypeFault::BadFormat(place)
            | TypeFault::NoMain(place) => Some(place),
            TypeFault::NoMemory => None,
        }
    }

    /// What is wrong at the place, in words.
    pub fn words(&self) -> &'static str
        ensures { result.now ≡ words_of self.now }
    {
        match self {
            TypeFault::Unknown(_) => "unknown name",
            TypeFault::Twice(_) => "declared twice",
            TypeFault::WrongKind(_) => "wrong kind",
            TypeFault::WrongCount(_) => "wrong count",
            TypeFault::NotPlace(_) => "not a place",
            TypeFault::NotConstant(_) => "not a constant",
            TypeFault::BadArrayLength(_) => "bad array length",
            TypeFault::LoopOnly(_) => "outside a loop",
            TypeFault::BadFormat(_) => "bad format",
            TypeFault::NoMain(_) => "no main",
            TypeFault::NoMemory => "out of memory",
        }
    }
}

impl From<AllocError> for TypeFault {
    ghost from_gives = { λ _ fault. fault ≡ reported.NoMemory };

    fn from(_error: AllocError) -> TypeFault {
        TypeFault::NoMemory
    }
}

impl<T: Drop> From<AllocFailed<T>> for TypeFault {
    ghost from_gives = { λ _ fault. fault ≡ reported.NoMemory };

    fn from(_error: AllocFailed<T>) -> TypeFault {
        TypeFault::NoMemory
    }
}
