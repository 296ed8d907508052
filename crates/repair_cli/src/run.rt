//! The whole of a call.
ghost use Rattle.std.specs.Prelude.{◌≡◌, ◌≤◌, IfErr, MatchResult};
ghost use Rattle.repair_cli.specs.Complete.{HasFiles, HasRoom, OnRead, IsFaultless, longest};
ghost use Rattle.repair_cli.specs.Ends.{Ends, IsAnswer};
ghost use Rattle.repair_cli.specs.ReadAgain.{PatchesAreReadAgain};
ghost use Rattle.repair_cli.specs.Refusal.{status_of, message_of};
ghost use Rattle.repair_cli.specs.Sinks.{seen};
ghost use Rattle.repair_cli.specs.Source.{source, Cause};

use crate::answer::{Reply, settled};
use crate::gather::gathered;
use crate::refusal::Refusal;
use crate::report::{refuse, report};
use crate::status::Status;
use fx_io::{Files, Sink};
use patch_reread::patches_read_again;
use std::alloc::Global;

/// Repairs the program that the words name, over the tests of the suite that they name. The words
/// are those after the program's own name: `repair`, and then the name of a C source, the name of a
/// JSON suite, and options before, between or after these.
///
/// The answer goes to `out`: the patched source or with `--edit` the line of the patch, or a line
/// that there is nothing to repair or that no patch repairs it. The patched source, read again, is
/// the patched program, and passes every test. Where there is no answer a message goes to `err`. The
/// status says which: its number is the exit status. After a failed write nothing more is written to
/// that sink.
pub fn run_alone<F: Files, O: Sink, E: Sink>(
    alloc: Global,
    words: &[String],
    files: &mut F,
    out: &mut O,
    err: &mut E,
) -> Status
    ensures held { F.held files.new ≡ F.held files.old }
    ensures faults { F.faults files.old ≤ F.faults files.new }
    ensures out_faults { O.faults out.old ≤ O.faults out.new }
    ensures err_faults { E.faults err.old ≤ E.faults err.new }
    ensures ends { let given = source F.held F.faults words.now files.old files.new in
        let wrote = seen O.faults O.written out.old out.new in
        let said = seen E.faults E.written err.old err.new in
        Ends given wrote said result }
    ensures complete { let given = source F.held F.faults words.now files.old files.new in
        F.sure files.old → HasFiles given →
        HasRoom given (O.room out.old) → longest given ≤ E.room err.old → IsFaultless result }
    ensures read_again { PatchesAreReadAgain (source F.held F.faults words.now files.old files.new) }
{
    // (a law: it does nothing)
    patches_read_again();
    match answered(alloc, words, files) {
        Ok(reply) => report(&reply, out, err),
        Err(refusal) => refuse(refusal, err),
    }
}

// The reply for the files that the words name, or why there is none.
fn answered<'a, F: Files>(
    alloc: Global,
    words: &'a [String],
    files: &mut F,
) -> Result<Reply, Refusal<'a>>
    ensures held { F.held files.new ≡ F.held files.old }
    ensures faults { F.faults files.old ≤ F.faults files.new }
    ensures answered { let given = source F.held F.faults words.now files.old files.new in
        MatchResult result
        (λ reply. IsAnswer given reply.answer reply.text.items)
        (λ refusal. Cause given (status_of refusal) (message_of refusal)) }
    ensures sure { let given = source F.held F.faults words.now files.old files.new in
        F.sure files.old → HasFiles given → IfErr result (λ refusal. OnRead refusal ⊥) }
{
    let job = match gathered(alloc, words, files) {
        Ok(job) => job,
        Err(refusal) => return Err(refusal),
    };
    match settled(alloc, &job) {
        Ok(reply) => Ok(reply),
        Err(_) => Err(Refusal::Memory),
    }
}
