//! Why a program's locations are not listed.

use std::alloc::{AllocError, AllocFailed};

/// Why a program's locations are not listed.
#[derive(Clone, Copy, Debug, PartialEq, Eq)]
pub enum LocFault {
    /// The program has more locations than 4,096; so many, or the largest `u32` where they are more than that.
    TooMany(u32),
    /// The allocator had no memory left. No clause says when this comes.
    NoMemory,
}

impl From<AllocError> for LocFault {
    ghost use Rattle.std.specs.Prelude.{◌≡◌};
    ghost use Rattle.c_location.specs.declared.fault.LocFault.TheVariants.{NoMemory};

    ghost from_gives = { λ _ fault. fault ≡ NoMemory };

    fn from(_error: AllocError) -> LocFault {
        LocFault::NoMemory
    }
}

impl<T: Drop> From<AllocFailed<T>> for LocFault {
    ghost use Rattle.std.specs.Prelude.{◌≡◌};
    ghost use Rattle.c_location.specs.declared.fault.LocFault.TheVariants.{NoMemory};

    ghost from_gives = { λ _ fault. fault ≡ NoMemory };

    fn from(_error: AllocFailed<T>) -> LocFault {
        LocFault::NoMemory
    }
}
