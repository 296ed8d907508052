//! Why a text has no tokens.

ghost use Rattle.std.specs.Prelude.{◌≡◌};
ghost use Rattle.c_lex.specs.declared.fault.LexFault.TheVariants as lex;
ghost use Rattle.c_lex.specs.FaultWords.{place_of, words_of};

use std::alloc::{AllocError, AllocFailed};
use thiserror::Error;

/// Why a text has no tokens, with the place of its first fault, or none were made.
#[derive(Clone, Copy, Debug, PartialEq, Eq, Error)]
#[error("{}", self.words())]
pub enum LexFault {
    /// A byte that begins no token.
    StrayByte(u32),
    /// A `/*` without a `*/` (C11 6.4.9).
    OpenComment(u32),
    /// An opening quote without a closing one on its line (C11 6.4.4.4, 6.4.5).
    OpenLiteral(u32),
    /// A number that is no integer constant without a suffix, a character constant that isn't one
    /// character, or a string literal with a faulty escape sequence.
    BadConstant(u32),
    /// An integer constant above 2,147,483,647.
    ConstantTooLarge(u32),
    /// A `#` after the first token.
    DirectiveLate(u32),
    /// A directive of another form than `#include` of <stdio.h> or <stdlib.h> and `#define` of a
    /// number.
    DirectiveUnknown(u32),
    /// A `#define` of a macro that is defined already.
    MacroTwice(u32),
    /// A digraph (C11 6.4.6).
    Digraph(u32),
    /// A backslash at the end of its line.
    LineSplice(u32),
    /// A trigraph (C11 5.2.1.1).
    Trigraph(u32),
    /// The allocator had no memory left. No clause says when this comes.
    NoMemory,
}

impl LexFault {
    /// The place of the fault, the number of its first byte; out of memory has none.
    pub fn place(&self) -> Option<u32>
        ensures { result ≡ place_of self.now }
    {
        match *self {
            LexFault::StrayByte(place)
            | LexFault::OpenComment(place)
            | LexFault::OpenLiteral(place)
            | LexFault::BadConstant(place)
            | LexFault::ConstantTooLarge(place)
            | LexFault::DirectiveLate(place)
            | LexFault::DirectiveUnknown(place)
            | LexFault::MacroTwice(place)
            | LexFault::Digraph(place)
            | LexFault::LineSplice(place)
            | LexFault::Trigraph(place) => Some(place),
            LexFault::NoMemory => None,
        }
    }

    /// What is wrong at the place, in words.
    pub fn words(&self) -> &'static str
        ensures { result.now ≡ words_of self.now }
    {
        match self {
            LexFault::StrayByte(_) => "stray byte",
            LexFault::OpenComment(_) => "comment is not closed",
            LexFault::OpenLiteral(_) => "literal is not closed",
            LexFault::BadConstant(_) => "bad constant",
            LexFault::ConstantTooLarge(_) => "constant too large",
            LexFault::DirectiveLate(_) => "directive after the first declaration",
            LexFault::DirectiveUnknown(_) => "unknown directive",
            LexFault::MacroTwice(_) => "macro defined twice",
            LexFault::Digraph(_) => "digraph",
            LexFault::LineSplice(_) => "line splice",
            LexFault::Trigraph(_) => "trigraph",
            LexFault::NoMemory => "out of memory",
        }
    }
}

impl From<AllocError> for LexFault {
    ghost from_gives = { λ _ fault. fault ≡ lex.NoMemory };

    fn from(_error: AllocError) -> LexFault {
        LexFault::NoMemory
    }
}

impl<T: Drop> From<AllocFailed<T>> for LexFault {
    ghost from_gives = { λ _ fault. fault ≡ lex.NoMemory };

    fn from(_error: AllocFailed<T>) -> LexFault {
        LexFault::NoMemory
    }
}
