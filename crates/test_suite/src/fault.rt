//! Why a suite is refused.

ghost use Rattle.std.specs.Prelude.{◌≡◌};
ghost use Rattle.test_suite.specs.Faults.{test_at, word_of, words_of};
ghost use Rattle.test_suite.specs.declared.fault.SuiteFault.TheVariants as refusal;

use std::alloc::{AllocError, AllocFailed};
use thiserror::Error;

/// A key of a test in a suite.
#[derive(Clone, Copy, Debug, PartialEq, Eq)]
pub enum Key {
    /// What the test is called.
    Name,
    /// What its program reads.
    Input,
    /// What its program has to write.
    Output,
    /// The exit status that its program has to end with.
    Status,
}

impl Key {
    /// The key as it stands in a suite.
    pub fn word(&self) -> &'static str
        ensures { result.now ≡ word_of self.now }
    {
        match self {
            Key::Name => "name",
            Key::Input => "input",
            Key::Output => "output",
            Key::Status => "status",
        }
    }
}

/// Why a suite is refused. Tests are numbered from 0.
#[derive(Clone, Copy, Debug, PartialEq, Eq, Error)]
#[error("{}", self.words())]
pub enum SuiteFault {
    /// The bytes are no JSON text.
    NotJson,
    /// The JSON text is no object, or it has no list `tests`.
    NoTests,
    /// The list has so many tests, which are more than 256.
    TooMany(u64),
    /// The `limit` is no whole number from 1 to 10,000,000.
    BadLimit,
    /// The test of this number is no object.
    NotATest(u32),
    /// In the test of this number the field is absent though it is required, or it is no text, or for the status no whole
    /// number from 0 to 255.
    BadField(u32, Key),
    /// In the test of this number the text at this key has more than 65,536 bytes.
    TooLongText(u32, Key),
    /// The allocator had no memory left. No clause says when this comes.
    NoMemory,
}

impl SuiteFault {
    /// The number of the test that is at fault, if one is.
    pub fn test(&self) -> Option<u32>
        ensures { result ≡ test_at self.now }
    {
        match *self {
            SuiteFault::NotATest(test)
            | SuiteFault::BadField(test, _)
            | SuiteFault::TooLongText(test, _) => Some(test),
            SuiteFault::NotJson
            | SuiteFault::NoTests
            | SuiteFault::TooMany(_)
            | SuiteFault::BadLimit
            | SuiteFault::NoMemory => None,
        }
    }

    /// What is wrong with the suite, or with that test, in words.
    pub fn words(&self) -> &'static str
        ensures { result.now ≡ words_of self.now }
    {
        match self {
            SuiteFault::NotJson => "not JSON",
            SuiteFault::NoTests => "no tests",
            SuiteFault::TooMany(_) => "too many tests",
            SuiteFault::BadLimit => "bad limit",
            SuiteFault::NotATest(_) => "not a test",
            SuiteFault::BadField(_, Key::Name) => "bad field name",
            SuiteFault::BadField(_, Key::Input) => "bad field input",
            SuiteFault::BadField(_, Key::Output) => "bad field output",
            SuiteFault::BadField(_, Key::Status) => "bad field status",
            SuiteFault::TooLongText(_, Key::Name) => "too long name",
            SuiteFault::TooLongText(_, Key::Input) => "too long input",
            SuiteFault::TooLongText(_, Key::Output) => "too long output",
            SuiteFault::TooLongText(_, Key::Status) => "too long status",
            SuiteFault::NoMemory => "out of memory",
        }
    }
}

impl From<AllocError> for SuiteFault {
    ghost from_gives = { λ _ fault. fault ≡ refusal.NoMemory };

    fn from(_error: AllocError) -> SuiteFault {
        SuiteFault::NoMemory
    }
}

impl<T: Drop> From<AllocFailed<T>> for SuiteFault {
    ghost from_gives = { λ _ fault. fault ≡ refusal.NoMemory };

    fn from(_error: AllocFailed<T>) -> SuiteFault {
        SuiteFault::NoMemory
    }
}
