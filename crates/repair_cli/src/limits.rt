//! The limits of a call.

/// The most bytes that a program may have.
pub(crate) const SOURCE_LIMIT: usize = 65_536;

/// The most bytes that a suite may have.
pub(crate) const SUITE_LIMIT: usize = 4_194_304;

/// The most units of work that a test may take.
pub(crate) const MOST_UNITS: u64 = 10_000_000;

/// The most patches that the words can say are tried at most.
pub(crate) const MOST_PATCHES: u64 = 65_536;

/// How many patches are tried at most, where the words say nothing of it.
pub(crate) const DEFAULT_PATCHES: u32 = 16_384;

/// The most digits of a number in the words.
pub(crate) const MOST_DIGITS: usize = 10;
