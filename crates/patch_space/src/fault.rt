//! Why the patches of a program are not listed.

use std::alloc::{AllocError, AllocFailed};

/// Why the patches of a program are not listed.
#[derive(Clone, Copy, Debug, PartialEq, Eq)]
pub enum SpaceFault {
    /// The program has more locations than 4,096; so many, or the largest `u32` where they are more than that.
    TooManyLocations(u32),
    /// The allocator had no memory left. No clause says when this comes.
    NoMemory,
}

impl From<AllocError> for SpaceFault {
    ghost use Rattle.std.specs.Prelude.{◌≡◌};
    ghost use Rattle.patch_space.specs.declared.fault.SpaceFault.TheVariants.{NoMemory};

    ghost from_gives = { λ _ fault. fault ≡ NoMemory };

    fn from(_error: AllocError) -> SpaceFault {
        SpaceFault::NoMemory
    }
}

impl<T: Drop> From<AllocFailed<T>> for SpaceFault {
    ghost use Rattle.std.specs.Prelude.{◌≡◌};
    ghost use Rattle.patch_space.specs.declared.fault.SpaceFault.TheVariants.{NoMemory};

    ghost from_gives = { λ _ fault. fault ≡ NoMemory };

    fn from(_error: AllocFailed<T>) -> SpaceFault {
        SpaceFault::NoMemory
    }
}
