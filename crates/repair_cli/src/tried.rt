//! The patches that a job tries, and what each makes of its program and of its source. All that the
//! command asks of spaces of patches and of locations stands in this file.
ghost use Rattle.std.specs.Prelude.{◌≡◌, ◌<◌, length, slice_get, option_map, Some, IfOk, IfErr};
ghost use Rattle.c_location.specs.Faults.{Causes};
ghost use Rattle.c_location.specs.Locations.{locations as locations_of};
ghost use Rattle.c_types.specs.Shown.{tree_of};
ghost use Rattle.repair_job.specs.Patches.{AreTried, HasFewLocations, patches};
ghost use Rattle.repair_job.specs.Patches.{patched as program_with, patched_text as text_with, patched_line as line_with};
ghost use Rattle.repair_job.specs.Texts.{shown_of};
ghost use Rattle.repair_cli.specs.Jobs.{job_of, CanBeDone};

use crate::job::Job;
use c_tree::NoMemory;
use c_types::Typed;
use patch_print::{edit_line, splice};
pub(crate) use patch_space::Space;
use patch_space::{SpaceFault, apply, patches_change};
use repair_job::Shown;
use schemas::{LocFault, locations};
use std::alloc::Global;

/// That the program has so few locations that its patches are listed. Here they are listed to be
/// counted, before the suite is read; the space lists them again where a test fails.
pub(crate) fn few_locations(alloc: Global, program: &Typed) -> Result<(), LocFault>
    ensures few { IfOk result (λ _. HasFewLocations (tree_of program.now)) }
    ensures refused { IfErr result (λ fault. Causes fault (locations_of (tree_of program.now))) }
{
    match locations(alloc, program) {
        Ok(_) => Ok(()),
        Err(fault) => Err(fault),
    }
}

/// The patches that the job tries.
#[tactic(auto, unfolding(repair_job::specs::Patches::patches))]
pub(crate) fn tried(alloc: Global, job: &Job) -> Result<Space, NoMemory>
    requires { CanBeDone (job_of job.now) }
    ensures { IfOk result (AreTried (job_of job.now)) }
{
    match Space::build(alloc, &job.program, job.most_patches) {
        Ok(space) => Ok(space),
        Err(SpaceFault::TooManyLocations(_)) => unreachable!(),
        Err(SpaceFault::NoMemory) => Err(NoMemory),
    }
}

/// The job's program with the patch of this rank.
#[tactic(auto, unfolding(repair_job::specs::Patches::patched))]
pub(crate) fn patched(alloc: Global, job: &Job, space: &Space, rank: u32) -> Result<Typed, NoMemory>
    requires able { CanBeDone (job_of job.now) }
    requires tried { AreTried (job_of job.now) space.now }
    requires ranked { rank < length (patches (job_of job.now)) }
    ensures { let patch = slice_get (patches (job_of job.now)) rank in
        IfOk result (λ other.
        option_map (program_with (job_of job.now)) patch ≡ Some (tree_of other)) }
{
    apply(alloc, &job.program, space, rank)
}

/// What the job shows of the patch of this rank: the source with it, or the line that says what it
/// changes.
pub(crate) fn shown(alloc: Global, job: &Job, space: &Space, rank: u32) -> Result<Vec<u8>, NoMemory>
    requires tried { AreTried (job_of job.now) space.now }
    requires ranked { rank < length (patches (job_of job.now)) }
    ensures { let patch = slice_get (patches (job_of job.now)) rank in
        IfOk result (λ text. option_map (shown_of (job_of job.now)) patch ≡ Some text.items) }
{
    match job.shown {
        Shown::Source => patched_text(alloc, job, space, rank),
        Shown::Line => patched_line(alloc, job, space, rank),
    }
}

/// The job's source with the patch of this rank.
#[tactic(auto, unfolding(repair_job::specs::Patches::patched_text))]
fn patched_text(alloc: Global, job: &Job, space: &Space, rank: u32) -> Result<Vec<u8>, NoMemory>
    requires tried { AreTried (job_of job.now) space.now }
    requires ranked { rank < length (patches (job_of job.now)) }
    ensures { let patch = slice_get (patches (job_of job.now)) rank in
        IfOk result (λ text. option_map (text_with (job_of job.now)) patch ≡ Some text.items) }
{
    // (a law: it does nothing)
    patches_change();
    let patch = space.patch(rank);
    let location = space.location(patch.loc);
    splice(alloc, &job.source, &job.program, location, &patch.edit)
}

/// The line that says what the patch of this rank changes.
#[tactic(auto, unfolding(repair_job::specs::Patches::patched_line))]
fn patched_line(alloc: Global, job: &Job, space: &Space, rank: u32) -> Result<Vec<u8>, NoMemory>
    requires tried { AreTried (job_of job.now) space.now }
    requires ranked { rank < length (patches (job_of job.now)) }
    ensures { let patch = slice_get (patches (job_of job.now)) rank in
        IfOk result (λ line. option_map (line_with (job_of job.now)) patch ≡ Some line.items) }
{
    let line = edit_line(alloc, &job.source, space, rank, &job.program)?;
    Ok(line.into_bytes())
}
