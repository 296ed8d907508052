//! The run of a program on a test.

ghost use Rattle.std.specs.Prelude.{◌≡◌, ◌≤◌, IfOk, map};
ghost use Rattle.c_tree.specs.Views.{outer, program as program_tree};
ghost use Rattle.c_types.specs.Shown.{tree_of};
ghost use Rattle.c_meaning.specs.World.{Gives};
ghost use Rattle.c_meaning.specs.Meaning.{own_run};
ghost use Rattle.c_meaning.specs.Ends.{outcome};

use crate::bind::definition;
use crate::context::{CALL_LIMIT, Context};
use crate::globals::make_globals;
use crate::outcome::{Outcome, finished, outcome_at};
use crate::run::call_function;
use crate::state::State;
use crate::stop::{End, Stop};
use c_stdio::Test;
use c_tree::{External, NoMemory, Program};
use c_types::Typed;
use std::alloc::Global;

/// How a program ends on a test, in a run of at most `limit` units, from 1 to 10,000,000.
///
/// # Errors
///
/// `NoMemory` where memory runs out.
pub fn plain_run(
    alloc: Global,
    program: &Typed,
    test: &Test,
    limit: u64,
) -> Result<Outcome, NoMemory>
    requires some { 1 ≤ limit }
    requires most { limit ≤ 10000000 }
    ensures { IfOk result (λ o. o ≡ outcome (tree_of program.now) test.now limit) }
{
    run_on(alloc, program.program(), test, limit)
}

/// The same for the tree of a program.
fn run_on(alloc: Global, program: &Program, test: &Test, limit: u64) -> Result<Outcome, NoMemory>
    ensures { IfOk result (λ o. o ≡ outcome (program_tree program.now) test.now limit) }
{
    let mut state = State::new(alloc, test, limit);
    match run_program(alloc, &program.externals, &mut state) {
        Ok(value) => Ok(finished(test.status, &state, value)),
        Err(Stop::Over(end)) => Ok(outcome_at(test.status, &state, end)),
        Err(Stop::Memory(error)) => Err(error),
    }
}

/// Runs a whole program, and gives what `main` returns.
fn run_program(alloc: Global, externals: &[External], state: &mut State<'_>) -> Result<i64, Stop>
    ensures { Gives (λ v. v) result state.new (own_run (map outer externals.now) state.old) }
{
    let context = Context {
        alloc,
        externals,
        left: CALL_LIMIT,
    };
    make_globals(&context, state)?;
    let main = definition(externals, b"main".as_slice());
    match call_function(&context, main, &[], state)? {
        Some(value) => Ok(value),
        None => Err(Stop::Over(End::Trapped)),
    }
}
