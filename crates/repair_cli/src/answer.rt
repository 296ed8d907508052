//! The answer for a job.
ghost use Rattle.std.specs.Prelude.{IfOk};
ghost use Rattle.repair_job.specs.Answers.{IsRight, IsSound};
ghost use Rattle.repair_job.specs.Texts.{IsText};
ghost use Rattle.repair_cli.specs.Jobs.{job_of, CanBeDone};

use crate::job::Job;
use crate::search::{first_repair, passes_all};
use crate::tried::{shown, tried};
use c_tree::NoMemory;
use repair_job::Answer;
use std::alloc::Global;

/// An answer with its text.
#[derive(Drop)]
pub(crate) struct Reply {
    pub(crate) answer: Answer,
    pub(crate) text: Vec<u8>,
}

/// The reply for the job.
pub(crate) fn settled(alloc: Global, job: &Job) -> Result<Reply, NoMemory>
    requires { CanBeDone (job_of job.now) }
    ensures right { IfOk result (λ reply. IsRight (job_of job.now) reply.answer) }
    ensures text { IfOk result (λ reply. IsText (job_of job.now) reply.answer reply.text.items) }
{
    if passes_all(alloc, &job.program, job)? {
        return Ok(Reply {
            answer: Answer::Sound,
            text: b"nothing to repair\n".to_vec(alloc)?,
        });
    }
    repaired(alloc, job)
}

// The same for a program that fails a test.
fn repaired(alloc: Global, job: &Job) -> Result<Reply, NoMemory>
    requires able { CanBeDone (job_of job.now) }
    requires fails { ¬ IsSound (job_of job.now) }
    ensures right { IfOk result (λ reply. IsRight (job_of job.now) reply.answer) }
    ensures text { IfOk result (λ reply. IsText (job_of job.now) reply.answer reply.text.items) }
{
    let space = tried(alloc, job)?;
    match first_repair(alloc, job, &space)? {
        Some(rank) => Ok(Reply {
            answer: Answer::Patch(rank),
            text: shown(alloc, job, &space, rank)?,
        }),
        None => Ok(Reply {
            answer: Answer::Nothing,
            text: b"none\n".to_vec(alloc)?,
        }),
    }
}
