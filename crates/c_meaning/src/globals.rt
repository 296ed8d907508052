//! The objects of file scope (C11 6.7.9 p10).

ghost use Rattle.c_tree.specs.Views.{initial, variables};
ghost use Rattle.c_meaning.specs.World.{Gives};
ghost use Rattle.c_meaning.specs.Own.{own_global, own_globals, own_make_globals};

use crate::bind::{cell_count, make_variable, store_zeros};
use crate::context::Context;
use crate::run::declare_object;
use crate::state::State;
use crate::stop::Stop;
use c_tree::{Declarator, External, Start, Ty};

/// Makes the objects of a declaration at file scope.
fn declare_globals(
    context: &Context<'_>,
    ty: Ty,
    declarators: &[Declarator],
    state: &mut State<'_>,
) -> Result<(), Stop>
    ensures { Gives (λ _. tt) result state.new
        (own_globals context.now ty (variables declarators.now) state.old) }
{
    for declarator in declarators {
        declare_global(context, ty, declarator, state)?;
    }
    Ok(())
}

/// Makes an object of file scope. Without an initialiser it is 0.
fn declare_global(
    context: &Context<'_>,
    ty: Ty,
    declarator: &Declarator,
    state: &mut State<'_>,
) -> Result<(), Stop>
    ensures { Gives (λ _. tt) result state.new
        (own_global context.now ty declarator.now.slot declarator.now.shape
        (initial declarator.now.start) state.old) }
{
    match &declarator.start {
        Start::Bare => {
            let count = cell_count(declarator.shape, 0);
            make_variable(context.alloc, ty, declarator.slot, count, state)?;
            store_zeros(declarator.slot, 0, count, state)
        }
        Start::One(_) | Start::List(_) => { declare_object(context, ty, declarator, state) }
    }
}

/// Makes the objects of file scope, in the order of the text.
pub fn make_globals(context: &Context<'_>, state: &mut State<'_>) -> Result<(), Stop>
    ensures { Gives (λ _. tt) result state.new (own_make_globals context.now state.old) }
{
    for external in context.externals {
        match external {
            External::Vars(ty, declarators) => {
                declare_globals(context, *ty, declarators, state)?
            }
            External::Func(_) => {}
        }
    }
    Ok(())
}
