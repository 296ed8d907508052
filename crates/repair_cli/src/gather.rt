//! Reads the program and the suite that the words name, and judges them.
ghost use Rattle.std.specs.Prelude.{◌≡◌, ◌≢◌, ◌≤◌, length, Err, IfOk, IfErr, MatchResult, unwrap_or};
ghost use Rattle.fx_io.specs.Held.{Lacks};
ghost use Rattle.c_types.specs.Evidence.{IsOrdered};
ghost use Rattle.c_types.specs.Shown.{tree_of};
ghost use Rattle.test_suite.specs.Suite.{stated};
ghost use Rattle.test_suite.specs.declared.fault.SuiteFault.TheVariants as kinds;
ghost use Rattle.repair_cli.specs.Complete.{HasFiles, OnRead};
ghost use Rattle.repair_cli.specs.Jobs.{job_of, CanBeDone};
ghost use Rattle.repair_cli.specs.Limits.{suite_limit};
ghost use Rattle.repair_cli.specs.Parts.{GivesNoProgram, GivesNoSuite, IsFaultUnless, IsRefusal, IsSuiteRefusal};
ghost use Rattle.repair_cli.specs.Refusal.{status_of, message_of};
ghost use Rattle.repair_cli.specs.SuiteFaults.{suite_message};
ghost use Rattle.repair_cli.specs.Source.{source, file, States, Cause, HoldsProgram, HoldsSuite};

use crate::accept::accept;
use crate::fault::{ProgramFault, TestsFault};
use crate::job::Job;
use crate::limits::{SOURCE_LIMIT, SUITE_LIMIT};
use crate::refusal::Refusal;
use crate::status::Status;
use crate::words::{Options, asked_by, command_of};
use c_types::Typed;
use fx_io::{Files, ReadEnd, read_whole};
use std::alloc::Global;
use test_suite::{Suite, SuiteFault, read_suite};

/// The program that is to be repaired, with the bytes of its source.
#[derive(Drop)]
pub(crate) struct Subject {
    pub(crate) source: Vec<u8>,
    pub(crate) program: Typed,
}

/// The job that the words and the files state: first the program is read and judged, then the
/// suite.
pub(crate) fn gathered<'a, F: Files>(
    alloc: Global,
    words: &'a [String],
    files: &mut F,
) -> Result<Job, Refusal<'a>>
    ensures held { F.held files.new ≡ F.held files.old }
    ensures faults { F.faults files.old ≤ F.faults files.new }
    ensures gathered { let given = source F.held F.faults words.now files.old files.new in
        MatchResult result
        (λ job. States given (job_of job) × CanBeDone (job_of job))
        (λ refusal. Cause given (status_of refusal) (message_of refusal)) }
    ensures sure { let given = source F.held F.faults words.now files.old files.new in
        F.sure files.old → HasFiles given → IfErr result (λ refusal. OnRead refusal ⊥) }
{
    let command = match command_of(words) {
        Some(command) => command,
        None => return Err(Refusal::Usage),
    };
    let asked = asked_by(command);
    let subject = match program_named(alloc, files, asked.program) {
        Ok(subject) => subject,
        Err(refusal) => return Err(refusal),
    };
    let suite = match suite_named(alloc, files, asked.suite) {
        Ok(suite) => suite,
        Err(refusal) => return Err(refusal),
    };
    Ok(job_with(subject, suite, asked.options))
}

// The job of this program and this suite, with these options.
fn job_with(subject: Subject, suite: Suite, options: Options) -> Job
    ensures source { result.source.items ≡ subject.source.items }
    ensures program { tree_of result.program ≡ tree_of subject.program }
    ensures tests { result.tests.items ≡ suite.tests.items }
    ensures limit { result.limit ≡ unwrap_or options.limit suite.limit }
    ensures patches { result.most_patches ≡ options.patches }
    ensures shown { result.shown ≡ options.shown }
{
    let Subject { source, program } = subject;
    let Suite { tests, limit } = suite;
    Job {
        source,
        program,
        tests,
        limit: options.limit.unwrap_or(limit),
        most_patches: options.patches,
        shown: options.shown,
    }
}

// The program in the file of this name. Its parts stand in text order.
fn program_named<'a, F: Files>(
    alloc: Global,
    files: &mut F,
    name: &'a str,
) -> Result<Subject, Refusal<'a>>
    ensures held { F.held files.new ≡ F.held files.old }
    ensures faults { F.faults files.old ≤ F.faults files.new }
    ensures program { let named = file F.held F.faults name.now files.old files.new in
        IfOk result (λ subject. HoldsProgram named subject.source.items (tree_of subject.program)) }
    ensures ordered { IfOk result (λ subject. IsOrdered (tree_of subject.program)) }
    ensures refusal { let named = file F.held F.faults name.now files.old files.new in
        IfErr result (λ refusal. GivesNoProgram named (status_of refusal) (message_of refusal)) }
    ensures sure { F.sure files.old →
        F.sure files.new
        × IfErr result (λ refusal. OnRead refusal (Lacks (F.held files.old) name.now)) }
{
    let source = match read_whole(alloc, files, name, SOURCE_LIMIT) {
        Ok(source) => source,
        Err(ReadEnd::Fault) => return Err(Refusal::Read(name)),
        Err(ReadEnd::TooLong(_)) => return Err(Refusal::whole(name, ProgramFault::TooLong)),
        Err(ReadEnd::NoMemory) => return Err(Refusal::Memory),
    };
    match accept(alloc, &source) {
        Ok(program) => Ok(Subject { source, program }),
        Err(fault) => Err(refused(name, &source, fault)),
    }
}

// The refusal of the source of this name for this fault.
fn refused<'a>(name: &'a str, source: &[u8], fault: ProgramFault) -> Refusal<'a>
    requires fault { IsFaultUnless source.now fault }
    ensures { IsRefusal name.now source.now (status_of result) (message_of result) }
{
    match fault {
        ProgramFault::NoMemory => Refusal::Memory,
        _ => Refusal::of_program(name, source, fault),
    }
}

// The suite in the file of this name.
fn suite_named<'a, F: Files>(
    alloc: Global,
    files: &mut F,
    name: &'a str,
) -> Result<Suite, Refusal<'a>>
    ensures held { F.held files.new ≡ F.held files.old }
    ensures faults { F.faults files.old ≤ F.faults files.new }
    ensures suite { let named = file F.held F.faults name.now files.old files.new in
        IfOk result (λ suite. HoldsSuite named suite.tests.items suite.limit) }
    ensures refusal { let named = file F.held F.faults name.now files.old files.new in
        IfErr result (λ refusal. GivesNoSuite named (status_of refusal) (message_of refusal)) }
    ensures sure { F.sure files.old →
        F.sure files.new
        × IfErr result (λ refusal. OnRead refusal (Lacks (F.held files.old) name.now)) }
{
    let bytes = match read_whole(alloc, files, name, SUITE_LIMIT) {
        Ok(bytes) => bytes,
        Err(ReadEnd::Fault) => return Err(Refusal::Read(name)),
        Err(ReadEnd::TooLong(_)) => return Err(long_suite(name)),
        Err(ReadEnd::NoMemory) => return Err(Refusal::Memory),
    };
    match read_suite(alloc, &bytes) {
        Ok(suite) => Ok(suite),
        Err(fault) => Err(refused_suite(name, &bytes, fault)),
    }
}

// The refusal of the suite of this name, which is too long.
fn long_suite(name: &str) -> Refusal<'_>
    ensures status { status_of result ≡ Status.SuiteRefused }
    ensures message { message_of result ≡ suite_message name.now TestsFault.TooLong }
{
    let fault = TestsFault::TooLong;
    Refusal::Suite { name, fault }
}

// The refusal of the suite of this name for this fault.
fn refused_suite<'a>(name: &'a str, bytes: &[u8], fault: SuiteFault) -> Refusal<'a>
    requires short { length bytes.now ≤ suite_limit }
    requires fault { fault ≢ kinds.NoMemory → stated bytes.now ≡ Err fault }
    ensures { IsSuiteRefusal name.now bytes.now (status_of result) (message_of result) }
{
    match fault {
        SuiteFault::NoMemory => Refusal::Memory,
        _ => Refusal::Suite {
            name,
            fault: TestsFault::Suite(fault),
        },
    }
}
