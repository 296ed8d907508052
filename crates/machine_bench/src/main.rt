//! Runs a fixed C program by the interpreter or by the machine, to be timed from outside: the words are the way, the
//! program, the units of a run and the number of runs. It writes how the runs end.
#![tactic(auto)]

mod jobs;
mod runs;

use anyhow::{Context, Result};
use runs::ended;
use std::env;

fn main(rt: HostRuntime) -> Result<()> {
    let alloc = rt.alloc();
    let words: Vec<String> = env::args(&rt)?.collect(alloc)?;
    let [_, way, job, units, runs] = words.as_slice() else {
        return println!(rt; "plain or machine, a program, units, runs").context("writing");
    };
    let units = units.as_str().parse::<u64>().context("the units")?;
    let runs = runs.as_str().parse::<u64>().context("the runs")?;
    let end = ended(alloc, way.as_str(), job.as_str(), units, runs)?;
    println!(rt; "{end:?}").context("writing")
}
