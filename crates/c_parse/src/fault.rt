//! Why tokens are no program.

ghost use Rattle.std.specs.Prelude.{◌≡◌};
ghost use Rattle.c_parse.specs.FaultWords.{fault_place, fault_words};

use c_tree::NoMemory;
use std::alloc::AllocFailed;
use thiserror::Error;

/// Why `parse` has no tree. A place is the first byte of the token that is a fault, or the end of
/// the source.
#[derive(Clone, Copy, Debug, PartialEq, Eq, Error)]
#[error("{}", self.words())]
pub enum ParseFault {
    /// With this token, or with the end of the tokens, nothing is a program.
    Unexpected(u32),
    /// With this token one opener more is open than a program may have.
    TooDeep(u32),
    /// The allocator had no memory left.
    NoMemory,
}

impl ParseFault {
    /// The place of the fault; out of memory has none.
    pub fn place(&self) -> Option<u32>
        ensures { result ≡ fault_place self.now }
    {
        match *self {
            ParseFault::Unexpected(place) | ParseFault::TooDeep(place) => Some(place),
            ParseFault::NoMemory => None,
        }
    }

    /// What is wrong at the place, in words.
    pub fn words(&self) -> &'static str
        ensures { result.now ≡ fault_words self.now }
    {
        match self {
            ParseFault::Unexpected(_) => "unexpected token",
            ParseFault::TooDeep(_) => "nested too deep",
            ParseFault::NoMemory => "out of memory",
        }
    }
}

/// Why reading stopped. The cursor stands at the token that is a fault.
#[derive(Clone, Copy)]
pub enum Stop {
    /// The token isn't expected.
    Unexpected,
    /// The token is an opener, and as many are open as may be.
    TooDeep,
    /// The allocator had no memory left.
    NoMemory,
}

impl From<NoMemory> for Stop {
    ghost use Rattle.c_parse.specs.declared.fault.Stop.TheVariants.{NoMemory};

    ghost from_gives = { λ _ e. e ≡ NoMemory };

    fn from(_error: NoMemory) -> Stop {
        Stop::NoMemory
    }
}

impl<T: Drop> From<AllocFailed<T>> for Stop {
    ghost use Rattle.c_parse.specs.declared.fault.Stop.TheVariants.{NoMemory};

    ghost from_gives = { λ _ e. e ≡ NoMemory };

    fn from(_error: AllocFailed<T>) -> Stop {
        Stop::NoMemory
    }
}
