//! Runs by the interpreter and by the machine.

ghost use Rattle.std.specs.Prelude.{◌≡◌, ◌≤◌, ◌<◌};

use crate::jobs::source;
use anyhow::{Context, Result};
use c_lex::lex;
use c_meaning::{Outcome, plain_run};
use c_parse::parse;
use c_stdio::Test;
use c_tree::Text;
use c_types::{Typed, check};
use interp::{Event, Machine, Steps};
use interp_code::flatten;
use std::alloc::Global;
use std::marker::Brand;
use std::sync::ledger::{Blank, Ledger};

/// How the last of so many runs of a program ends, each with so many units.
pub fn ended(
    alloc: Global,
    way: &str,
    job: &str,
    units: u64,
    runs: u64,
) -> Result<Option<Outcome>> {
    let source = source(job).context("no such program")?;
    (source.len() < 10_000).then_some(()).context("too long")?;
    (1 <= units && units <= 10_000_000)
        .then_some(())
        .context("too many units")?;
    let end = source.len() as u32;
    let tokens = lex(alloc, source.as_bytes())?;
    let typed = check(alloc, parse(alloc, &tokens, end)?, end)?;
    let test = Test {
        name: Text::new(Vec::new(alloc)),
        input: Text::new(Vec::new(alloc)),
        output: Text::new(Vec::new(alloc)),
        status: 0,
    };
    match way {
        "plain" => plainly(alloc, &typed, &test, units, runs),
        "machine" => by_machine::<Brand>(alloc, &typed, &test, units, runs, Blank::new(1)),
        _ => Ok(None),
    }
}

/// How the last of the runs ends by the interpreter.
fn plainly(
    alloc: Global,
    typed: &Typed,
    test: &Test,
    units: u64,
    runs: u64,
) -> Result<Option<Outcome>>
    requires some { 1 ≤ units }
    requires most { units ≤ 10000000 }
{
    let mut last = None;
    for _ in 0..runs {
        last = Some(plain_run(alloc, typed, test, units)?);
    }
    Ok(last)
}

/// How the last of the runs ends by the machine.
fn by_machine<L: Ledger>(
    alloc: Global,
    typed: &Typed,
    test: &Test,
    units: u64,
    runs: u64,
    blank: Blank,
) -> Result<Option<Outcome>>
    requires name { blank.name ≡ L.name }
    requires parts { blank.parts ≡ L.parts }
    requires some { 0 < L.parts }
{
    let code = flatten(alloc, typed, None)?;
    let mut steps: Steps<L> = Steps::new(blank);
    let mut last = None;
    for _ in 0..runs {
        let mut machine = Machine::new(alloc, &code, test, units)?;
        if let Event::End(outcome) = machine.next(&mut steps)? {
            last = Some(outcome);
        }
    }
    Ok(last)
}
