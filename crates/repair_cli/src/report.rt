//! Writes the answer, or the message that says why there is none.
ghost use Rattle.std.specs.Prelude.{◌≡◌, ◌+◌, ◌≤◌, ◌++◌, length, MatchResult, IsOk};
ghost use Rattle.repair_cli.specs.Ends.{status_of_answer};
ghost use Rattle.repair_cli.specs.Message.{place_text, position_text, number_text, test_text, text_of};
ghost use Rattle.repair_cli.specs.Parts.{Reports, Writes};
ghost use Rattle.repair_cli.specs.Refusal.{status_of, message_of};
ghost use Rattle.repair_cli.specs.Sinks.{seen, Takes, Breaks};

use crate::answer::Reply;
use crate::refusal::{Message, Place, Refusal};
use crate::status::Status;
use fx_io::{Failed, Sink, write_whole};
use itoa::Buffer;
use repair_job::Answer;

/// Writes the text of the answer, or where that fails the message of the failure, and answers the
/// status.
pub(crate) fn report<O: Sink, E: Sink>(reply: &Reply, out: &mut O, err: &mut E) -> Status
    ensures out_faults { O.faults out.old ≤ O.faults out.new }
    ensures err_faults { E.faults err.old ≤ E.faults err.new }
    ensures reports { let wrote = seen O.faults O.written out.old out.new in
        let said = seen E.faults E.written err.old err.new in
        Reports wrote said reply.now.answer reply.now.text.items result }
    ensures room { length reply.now.text.items ≤ O.room out.old
        → result ≡ status_of_answer reply.now.answer }
{
    match write_whole(out, &reply.text) {
        Ok(()) => status_for(reply.answer),
        Err(Failed) => refuse(Refusal::Write, err),
    }
}

/// Writes the message, and answers the status of the refusal, or that the write failed.
pub(crate) fn refuse<E: Sink>(refusal: Refusal, err: &mut E) -> Status
    ensures faults { E.faults err.old ≤ E.faults err.new }
    ensures writes { let wrote = seen E.faults E.written err.old err.new in
        Writes wrote (message_of refusal.entry) (status_of refusal.entry) result }
    ensures room { length (message_of refusal.entry) ≤ E.room err.old
        → result ≡ status_of refusal.entry }
{
    match write_message(err, refusal.message()) {
        Ok(()) => refusal.status(),
        Err(Failed) => Status::WriteFault,
    }
}

// Writes the pieces of the message, one after another.
fn write_message<S: Sink>(sink: &mut S, message: Message) -> Result<(), Failed>
    ensures faults { S.faults sink.old ≤ S.faults sink.new }
    ensures written { let wrote = seen S.faults S.written sink.old sink.new in
        let text = text_of message.entry in
        MatchResult result (λ _. Takes wrote text) (λ _. Breaks wrote text) }
    ensures room { length (text_of message.entry) ≤ S.room sink.old → IsOk result }
{
    write_both(sink, message.before, message.name)?;
    write_place(sink, message.at)?;
    write_both(sink, message.between, message.words)?;
    write_whole(sink, message.end)?;
    Ok(())
}

// Writes the place, if there is one: the line and the column, each after a colon, or the number of
// the test.
fn write_place<S: Sink>(sink: &mut S, at: Option<Place>) -> Result<(), Failed>
    ensures faults { S.faults sink.old ≤ S.faults sink.new }
    ensures written { let wrote = seen S.faults S.written sink.old sink.new in
        let text = place_text at in
        MatchResult result (λ _. Takes wrote text) (λ _. Breaks wrote text) }
    ensures room { length (place_text at) ≤ S.room sink.old →
        IsOk result × (S.room sink.new + length (place_text at) ≡ S.room sink.old) }
{
    match at {
        None => Ok(()),
        Some(Place::Position(line, column)) => write_position(sink, line, column),
        Some(Place::Test(number)) => write_test(sink, number),
    }
}

// Writes the line and the column, each after a colon.
fn write_position<S: Sink>(sink: &mut S, line: usize, column: usize) -> Result<(), Failed>
    ensures faults { S.faults sink.old ≤ S.faults sink.new }
    ensures written { let wrote = seen S.faults S.written sink.old sink.new in
        let text = position_text line column in
        MatchResult result (λ _. Takes wrote text) (λ _. Breaks wrote text) }
    ensures room { let text = position_text line column in length text ≤ S.room sink.old →
        IsOk result × (S.room sink.new + length text ≡ S.room sink.old) }
{
    write_number(sink, line)?;
    write_number(sink, column)?;
    Ok(())
}

// Writes a colon, and the number after it.
fn write_number<S: Sink>(sink: &mut S, n: usize) -> Result<(), Failed>
    ensures faults { S.faults sink.old ≤ S.faults sink.new }
    ensures written { let wrote = seen S.faults S.written sink.old sink.new in
        let text = number_text n in
        MatchResult result (λ _. Takes wrote text) (λ _. Breaks wrote text) }
    ensures room { length (number_text n) ≤ S.room sink.old →
        IsOk result × (S.room sink.new + length (number_text n) ≡ S.room sink.old) }
{
    let mut buffer = Buffer::new();
    write_both(sink, b":", buffer.format(n).as_bytes())
}

// Writes that it is the test of this number.
fn write_test<S: Sink>(sink: &mut S, n: u32) -> Result<(), Failed>
    ensures faults { S.faults sink.old ≤ S.faults sink.new }
    ensures written { let wrote = seen S.faults S.written sink.old sink.new in
        MatchResult result (λ _. Takes wrote (test_text n)) (λ _. Breaks wrote (test_text n)) }
    ensures room { length (test_text n) ≤ S.room sink.old →
        IsOk result × (S.room sink.new + length (test_text n) ≡ S.room sink.old) }
{
    let mut buffer = Buffer::new();
    write_both(sink, b": test ", buffer.format(n).as_bytes())
}

// Writes the one piece, and the other after it.
fn write_both<S: Sink>(sink: &mut S, first: &[u8], second: &[u8]) -> Result<(), Failed>
    ensures faults { S.faults sink.old ≤ S.faults sink.new }
    ensures written { let wrote = seen S.faults S.written sink.old sink.new in
        let text = first.now ++ second.now in
        MatchResult result (λ _. Takes wrote text) (λ _. Breaks wrote text) }
    ensures room { length (first.now ++ second.now) ≤ S.room sink.old →
        IsOk result × (S.room sink.new + length (first.now ++ second.now) ≡ S.room sink.old) }
{
    write_whole(sink, first)?;
    write_whole(sink, second)?;
    Ok(())
}

// The status of an answer.
fn status_for(answer: Answer) -> Status
    ensures { result ≡ status_of_answer answer }
{
    match answer {
        Answer::Sound => Status::Sound,
        Answer::Patch(_) => Status::Patched,
        Answer::Nothing => Status::Nothing,
    }
}
