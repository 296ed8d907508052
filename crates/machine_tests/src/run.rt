//! Runs of sources with a hole.

ghost use Rattle.std.specs.Prelude.{◌≡◌, ◌<◌};

use c_lex::lex;
use c_location::locations;
use c_parse::parse;
use c_stdio::Test;
use c_tree::{Loc, LocKind, NoMemory, Text};
use c_types::{Typed, check};
use interp::{Event, Machine, Steps};
use interp_code::{Code, flatten};
use std::alloc::Global;
use std::marker::Brand;
use std::sync::ledger::{Blank, Ledger};
use std::test::Fail;

/// A limit that no run of these tests reaches.
pub const ENOUGH: u64 = 100_000;

/// A test of what the program reads and writes, and of its status.
pub fn test_of(alloc: Global, input: &[u8], output: &[u8], status: u8) -> Result<Test, NoMemory> {
    Ok(Test {
        name: Text::new(Vec::new(alloc)),
        input: Text::new(input.to_vec(alloc)?),
        output: Text::new(output.to_vec(alloc)?),
        status,
    })
}

/// A program without a fault.
fn typed(alloc: Global, source: &str) -> Result<Typed, Fail> {
    (source.len() < 10_000).then_some(()).ok_or("too long")?;
    let end = source.len() as u32;
    let tokens = lex(alloc, source.as_bytes())?;
    Ok(check(alloc, parse(alloc, &tokens, end)?, end)?)
}

/// The location of a kind that comes after so many of that kind.
fn located(alloc: Global, program: &Typed, kind: LocKind, passed: usize) -> Result<Loc, Fail> {
    let mut left = passed;
    for location in &locations(alloc, program.program())? {
        if location.kind == kind {
            if left == 0 {
                return Ok(*location);
            }
            left -= 1;
        }
    }
    Err("no such location".into())
}

/// The code of a program with a hole at the location of a kind that comes after so many of that kind.
pub fn holed(alloc: Global, source: &str, kind: LocKind, passed: usize) -> Result<Code, Fail> {
    let program = typed(alloc, source)?;
    let location = located(alloc, &program, kind, passed)?;
    Ok(flatten(alloc, &program, Some(&location))?)
}

/// The code of a program without a hole.
pub fn whole(alloc: Global, source: &str) -> Result<Code, Fail> {
    Ok(flatten(alloc, &typed(alloc, source)?, None)?)
}

/// The events of a run whose holes are given these answers, up to its end, or to the hole that has none; and the event
/// after it.
pub fn events(
    alloc: Global,
    code: &Code,
    test: &Test,
    limit: u64,
    answers: &[Option<i64>],
) -> Result<Vec<Event>, Fail> {
    counted::<Brand>(alloc, code, test, limit, answers, Blank::new(1))
}

/// The same, over a counter of steps.
fn counted<L: Ledger>(
    alloc: Global,
    code: &Code,
    test: &Test,
    limit: u64,
    answers: &[Option<i64>],
    blank: Blank,
) -> Result<Vec<Event>, Fail>
    requires name { blank.name ≡ L.name }
    requires parts { blank.parts ≡ L.parts }
    requires some { 0 < L.parts }
{
    let mut steps: Steps<L> = Steps::new(blank);
    let mut machine = Machine::new(alloc, code, test, limit)?;
    let mut seen = Vec::new(alloc);
    for answer in answers {
        let event = machine.next(&mut steps)?;
        seen.push(event)?;
        match event {
            Event::Hole(_) => machine.fill(*answer),
            Event::End(_) => return Ok(seen),
        }
    }
    seen.push(machine.next(&mut steps)?)?;
    seen.push(machine.next(&mut steps)?)?;
    Ok(seen)
}
