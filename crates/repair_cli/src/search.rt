//! The first patch that makes a job's program pass every test.
ghost use Rattle.std.specs.Prelude.{◌↔◌, IsTrue, IfOk, MatchOption};
ghost use Rattle.c_types.specs.Shown.{tree_of};
ghost use Rattle.repair_job.specs.Answers.{IsFirstRepair, NoneRepairs};
ghost use Rattle.repair_job.specs.Job.{Passes, PassesAll};
ghost use Rattle.repair_job.specs.Patches.{AreTried};
ghost use Rattle.repair_cli.specs.Jobs.{job_of, CanBeDone};

use crate::job::Job;
use crate::tried::{Space, patched};
use c_meaning::{Outcome, plain_run};
use c_stdio::Test;
use c_tree::NoMemory;
use c_types::Typed;
use std::alloc::Global;

/// The rank of the first patch that makes the program pass every test, if there is one.
pub(crate) fn first_repair(alloc: Global, job: &Job, space: &Space) -> Result<Option<u32>, NoMemory>
    requires able { CanBeDone (job_of job.now) }
    requires tried { AreTried (job_of job.now) space.now }
    ensures { IfOk result (λ found. MatchOption found
        (NoneRepairs (job_of job.now))
        (IsFirstRepair (job_of job.now))) }
{
    'ranks: for rank in 0..space.len() {
        let other = patched(alloc, job, space, rank)?;
        if passes_all(alloc, &other, job)? {
            return Ok(Some(rank));
        }
    }
    Ok(None)
}

/// Whether the program passes every test of the job.
pub(crate) fn passes_all(alloc: Global, program: &Typed, job: &Job) -> Result<bool, NoMemory>
    requires { CanBeDone (job_of job.now) }
    ensures { IfOk result (λ all. IsTrue all ↔ PassesAll (job_of job.now) (tree_of program.now)) }
{
    let tests: &[Test] = &job.tests;
    'tests: for test in tests {
        if !passes(alloc, program, job, test)? {
            return Ok(false);
        }
    }
    Ok(true)
}

// Whether the program passes the test within the job's limit.
#[tactic(auto, unfolding(repair_job::specs::Job::Passes))]
fn passes(alloc: Global, program: &Typed, job: &Job, test: &Test) -> Result<bool, NoMemory>
    requires { CanBeDone (job_of job.now) }
    ensures { IfOk result (λ passed.
        IsTrue passed ↔ Passes (job_of job.now) (tree_of program.now) test.now) }
{
    let outcome = plain_run(alloc, program, test, job.limit)?;
    Ok(outcome == Outcome::Passed)
}
