//! Why a source gives no program, and why a file gives no suite.
ghost use Rattle.std.specs.Prelude.{◌≡◌};
ghost use Rattle.repair_cli.specs.Faults.{fault_place, fault_words};
ghost use Rattle.repair_cli.specs.SuiteFaults.{fault_test, fault_words as suite_words};

use c_lex::LexFault;
use c_parse::ParseFault;
use c_types::TypeFault;
use test_suite::SuiteFault;

/// Why a source gives no program.
#[derive(Clone, Copy, Debug, PartialEq, Eq)]
pub(crate) enum ProgramFault {
    /// It has more bytes than a source may have.
    TooLong,
    /// It has no tokens.
    Lex(LexFault),
    /// Its tokens are no program of the language.
    Parse(ParseFault),
    /// It breaks a rule of scopes and kinds.
    Kinds(TypeFault),
    /// It has more locations than 4,096; so many, or the largest `u32` where they are more than
    /// that.
    TooManyLocations(u32),
    /// There was no memory for the work.
    NoMemory,
}

impl ProgramFault {
    /// The place of the fault in the source, if it has one.
    pub(crate) fn place(&self) -> Option<u32>
        ensures { result ≡ fault_place self.now }
    {
        match self {
            ProgramFault::Lex(fault) => fault.place(),
            ProgramFault::Parse(fault) => fault.place(),
            ProgramFault::Kinds(fault) => fault.place(),
            ProgramFault::TooLong | ProgramFault::TooManyLocations(_) => None,
            ProgramFault::NoMemory => None,
        }
    }

    /// What is wrong, in words.
    pub(crate) fn words(&self) -> &'static str
        ensures { result.now ≡ fault_words self.now }
    {
        match self {
            ProgramFault::TooLong => "too long",
            ProgramFault::Lex(fault) => fault.words(),
            ProgramFault::Parse(fault) => fault.words(),
            ProgramFault::Kinds(fault) => fault.words(),
            ProgramFault::TooManyLocations(_) => "too many locations",
            ProgramFault::NoMemory => "out of memory",
        }
    }
}

/// Why a file gives no suite.
#[derive(Clone, Copy, Debug, PartialEq, Eq)]
pub(crate) enum TestsFault {
    /// It has more bytes than a suite may have.
    TooLong,
    /// Its bytes are refused.
    Suite(SuiteFault),
}

impl TestsFault {
    /// The number of the test that is at fault, if one is.
    pub(crate) fn test(&self) -> Option<u32>
        ensures { result ≡ fault_test self.now }
    {
        match self {
            TestsFault::TooLong => None,
            TestsFault::Suite(fault) => fault.test(),
        }
    }

    /// What is wrong, in words.
    pub(crate) fn words(&self) -> &'static str
        ensures { result.now ≡ suite_words self.now }
    {
        match self {
            TestsFault::TooLong => "too long",
            TestsFault::Suite(fault) => fault.words(),
        }
    }
}
