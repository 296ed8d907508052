//! Why there is no answer, and the messages that say so.
ghost use Rattle.std.specs.Prelude.{◌≡◌, ◌++◌, codes};
ghost use Rattle.repair_cli.specs.Faults.{fault_words, fault_message};
ghost use Rattle.repair_cli.specs.Message.{text_of, place_text};
ghost use Rattle.repair_cli.specs.Refusal.{message_of, status_of};
ghost use Rattle.repair_cli.specs.Texts.{said_of, faulty, faulty_suite};

use crate::fault::{ProgramFault, TestsFault};
use crate::status::Status;
use patch_text::line_and_column;

/// The line that says which words are a command.
const USAGE: &[u8] = b"usage: f1x repair PROGRAM SUITE [--limit=N] [--max-patches=N] [--edit]";

/// Why there is no answer, with the name of the file that the message is about.
#[derive(Clone, Copy)]
pub(crate) enum Refusal<'a> {
    /// The words are no command.
    Usage,
    /// The program is refused.
    Program {
        name: &'a str,
        fault: ProgramFault,
        /// The line and the column of the fault, counted from 1, if it has a place.
        at: Option<(usize, usize)>,
    },
    /// The suite is refused.
    Suite {
        name: &'a str,
        fault: TestsFault,
    },
    /// The file could not be read.
    Read(&'a str),
    /// The answer could not be written.
    Write,
    /// There was no memory for the work.
    Memory,
}

/// Where in a file something is wrong.
#[derive(Clone, Copy)]
pub(crate) enum Place {
    /// At a line and a column of a source, both counted from 1.
    Position(usize, usize),
    /// In a test of a suite, by its number, counted from 0.
    Test(u32),
}

/// A message in pieces, so that it is written with no memory.
#[derive(Clone, Copy)]
pub(crate) struct Message<'a> {
    pub(crate) before: &'a [u8],
    pub(crate) name: &'a [u8],
    /// The place in the file, if there is one.
    pub(crate) at: Option<Place>,
    pub(crate) between: &'a [u8],
    pub(crate) words: &'a [u8],
    pub(crate) end: &'a [u8],
}

impl<'a> Refusal<'a> {
    /// The program of this name is refused for a fault that has no place.
    pub(crate) fn whole(name: &'a str, fault: ProgramFault) -> Refusal<'a>
        ensures status { status_of result ≡ Status.ProgramRefused }
        ensures message { message_of result ≡ said_of name.now (fault_words fault) }
    {
        let at = None;
        Refusal::Program { name, fault, at }
    }

    /// The program of this name, of which this is the source, is refused for this fault.
    pub(crate) fn of_program(name: &'a str, source: &[u8], fault: ProgramFault) -> Refusal<'a>
        ensures status { status_of result ≡ Status.ProgramRefused }
        ensures message { message_of result ≡ fault_message name.now source.now fault }
    {
        match fault.place() {
            None => Refusal::whole(name, fault),
            Some(place) => {
                let at = Some(line_and_column(source, place));
                Refusal::Program { name, fault, at }
            }
        }
    }

    /// The status that the call ends with.
    pub(crate) fn status(self) -> Status
        ensures { result ≡ status_of self.entry }
    {
        match self {
            Refusal::Usage => Status::Usage,
            Refusal::Program { .. } => Status::ProgramRefused,
            Refusal::Suite { .. } => Status::SuiteRefused,
            Refusal::Read(_) => Status::ReadFault,
            Refusal::Write => Status::WriteFault,
            Refusal::Memory => Status::NoMemory,
        }
    }

    /// The message, with its line feed.
    pub(crate) fn message(self) -> Message<'a>
        ensures { text_of result ≡ message_of self.entry }
    {
        match self {
            Refusal::Usage => own(USAGE, ""),
            Refusal::Program { name, fault, at } => of_source(name, at, fault.words()),
            Refusal::Suite { name, fault } => of_suite(name, fault.test(), fault.words()),
            Refusal::Read(name) => own(b"f1x: cannot read ", name),
            Refusal::Write => own(b"f1x: cannot write", ""),
            Refusal::Memory => own(b"f1x: no memory", ""),
        }
    }
}

// These words are said of the program of this name, or of a line and a column in it.
fn of_source<'a>(name: &'a str, at: Option<(usize, usize)>, words: &'static str) -> Message<'a>
    ensures { text_of result ≡ faulty name.now at words.now }
{
    match at {
        None => about(name, None, words),
        Some((line, column)) => about(name, Some(Place::Position(line, column)), words),
    }
}

// These words are said of the suite of this name, or of the test of this number in it.
fn of_suite<'a>(name: &'a str, test: Option<u32>, words: &'static str) -> Message<'a>
    ensures { text_of result ≡ faulty_suite name.now test words.now }
{
    match test {
        None => about(name, None, words),
        Some(number) => about(name, Some(Place::Test(number)), words),
    }
}

// These words are said of the file of this name, or of a place in it.
fn about<'a>(name: &'a str, at: Option<Place>, words: &'static str) -> Message<'a>
    ensures { text_of result ≡ name.now ++ place_text at ++ codes ": " ++ words.now ++ codes "\n" }
{
    Message {
        before: b"",
        name: name.as_bytes(),
        at,
        between: b": ",
        words: words.as_bytes(),
        end: b"\n",
    }
}

// These words, and a name after them, which may be empty.
fn own<'a>(words: &'static [u8], name: &'a str) -> Message<'a>
    ensures { text_of result ≡ words.now ++ name.now ++ codes "\n" }
{
    Message {
        before: words,
        name: name.as_bytes(),
        at: None,
        between: b"",
        words: b"",
        end: b"\n",
    }
}
