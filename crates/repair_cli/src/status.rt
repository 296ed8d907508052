//! How a call of the program ends.
ghost use Rattle.std.specs.Prelude.{◌≡◌};
ghost use Rattle.repair_cli.specs.Numbers.{number_of};

/// How a call ends. The program's exit status is its number.
#[derive(Clone, Copy, Debug, PartialEq, Eq, Drop)]
pub enum Status {
    /// A patch was found, and the patched program was written.
    Patched,
    /// No patch makes the program pass every test.
    Nothing,
    /// The program passes every test as it is.
    Sound,
    /// The words are no command.
    Usage,
    /// The program is too long, or has a fault.
    ProgramRefused,
    /// The suite is too long, or is refused for what it states.
    SuiteRefused,
    /// A file could not be read.
    ReadFault,
    /// The answer or a message could not be written.
    WriteFault,
    /// There was no memory for the work.
    NoMemory,
}

impl Status {
    /// The exit status, from 0 to 8.
    pub fn number(&self) -> u8
        ensures { result ≡ number_of self.now }
    {
        match self {
            Status::Patched => 0,
            Status::Nothing => 1,
            Status::Sound => 2,
            Status::Usage => 3,
            Status::ProgramRefused => 4,
            Status::SuiteRefused => 5,
            Status::ReadFault => 6,
            Status::WriteFault => 7,
            Status::NoMemory => 8,
        }
    }
}
