//! A job: a program that is to be repaired, with its suite.

use c_stdio::Test;
use c_types::Typed;
use repair_job::Shown;

/// What a repair is given. Contracts see it as `job_of`.
#[derive(Drop)]
pub(crate) struct Job {
    /// The bytes of the source.
    pub(crate) source: Vec<u8>,
    /// The program that they state.
    pub(crate) program: Typed,
    /// The tests that it is to pass.
    pub(crate) tests: Vec<Test>,
    /// How many units each test may take.
    pub(crate) limit: u64,
    /// How many patches are tried at most.
    pub(crate) most_patches: u32,
    /// What an answer shows of a patch.
    pub(crate) shown: Shown,
}
