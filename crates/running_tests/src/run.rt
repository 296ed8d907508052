//! Runs of sources on tests.

ghost use Rattle.std.specs.Prelude.{◌≡◌, ◌<◌};

use c_lex::lex;
use c_meaning::{Outcome, plain_run};
use c_parse::parse;
use c_stdio::Test;
use c_tree::{NoMemory, Text};
use c_types::{Typed, check};
use interp::{Event, Machine, Steps};
use interp_code::flatten;
use std::alloc::Global;
use std::marker::Brand;
use std::sync::ledger::{Blank, Ledger};
use std::test::Fail;

/// A limit that no run of these tests reaches.
pub const ENOUGH: u64 = 100_000;

/// A test of what the program reads and writes, and of its status.
pub fn test_of(alloc: Global, input: &[u8], output: &[u8], status: u8) -> Result<Test, NoMemory> {
    Ok(Test {
        name: Text::new(Vec::new(alloc)),
        input: Text::new(input.to_vec(alloc)?),
        output: Text::new(output.to_vec(alloc)?),
        status,
    })
}

/// The source that these texts are one after another.
pub fn joined(alloc: Global, texts: &[&str]) -> Result<Vec<u8>, NoMemory> {
    let mut source = Vec::new(alloc);
    for text in texts {
        source.extend_from_slice(text.as_bytes())?;
    }
    Ok(source)
}

/// How an accepted source ends on a test, in a run of at most so many units; the machine ends so too.
pub fn outcome(alloc: Global, source: &[u8], test: &Test, limit: u64) -> Result<Outcome, Fail> {
    (source.len() < 10_000).then_some(()).ok_or("too long")?;
    let end = source.len() as u32;
    let tokens = lex(alloc, source)?;
    let typed = check(alloc, parse(alloc, &tokens, end)?, end)?;
    (1 <= limit).then_some(()).ok_or("no limit")?;
    (limit <= 10_000_000).then_some(()).ok_or("no limit")?;
    let plain = plain_run(alloc, &typed, test, limit)?;
    if by_machine::<Brand>(alloc, &typed, test, limit, Blank::new(1))? == plain {
        Ok(plain)
    } else {
        Err("the machine ends otherwise".into())
    }
}

/// How the machine ends on a test.
fn by_machine<L: Ledger>(
    alloc: Global,
    typed: &Typed,
    test: &Test,
    limit: u64,
    blank: Blank,
) -> Result<Outcome, Fail>
    requires name { blank.name ≡ L.name }
    requires parts { blank.parts ≡ L.parts }
    requires some { 0 < L.parts }
{
    let code = flatten(alloc, typed, None)?;
    let mut machine = Machine::new(alloc, &code, test, limit)?;
    let mut steps: Steps<L> = Steps::new(blank);
    match machine.next(&mut steps)? {
        Event::End(outcome) => Ok(outcome),
        Event::Hole(_) => Err("a hole where there is none".into()),
    }
}

/// Whether a source is a program without a fault.
pub fn is_accepted(alloc: Global, source: &[u8]) -> Result<bool, Fail> {
    (source.len() < 10_000).then_some(()).ok_or("too long")?;
    let end = source.len() as u32;
    let tokens = lex(alloc, source)?;
    Ok(check(alloc, parse(alloc, &tokens, end)?, end).is_ok())
}
