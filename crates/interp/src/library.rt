//! Calls of the library, and the begin of other calls.

ghost use Rattle.std.specs.Prelude.{◌≡◌, []};
ghost use Rattle.c_meaning.specs.World.{Gives};
ghost use Rattle.interp_code.specs.Go.{do_call};
ghost use Rattle.interp.specs.Joined.{no_function, opened, opening_of};

use c_meaning::{
    Argument, End, State, Stop, bind_params, call_abs, call_exit, call_getchar, call_printf,
    call_putchar, call_scanf,
};
use c_tree::Param;
use interp_code::Callee;
use std::alloc::Global;

/// The value of a call of the library.
pub fn call(
    alloc: Global,
    callee: Callee,
    arguments: &[Argument],
    state: &mut State<'_>,
) -> Result<Option<i64>, Stop>
    ensures { Gives (λ v. v) result state.new (do_call no_function callee arguments.now state.old) }
{
    match callee {
        Callee::Getchar => call_getchar(arguments, state),
        Callee::Putchar => call_putchar(arguments, state),
        Callee::Printf => call_printf(alloc, arguments, state),
        Callee::Scanf => call_scanf(arguments, state),
        Callee::Abs => call_abs(arguments, state),
        Callee::Exit => call_exit(arguments, state),
        Callee::Function(_) => Err(Stop::Over(End::Trapped)),
    }
}

/// The variables of a call's caller, and the number of objects before the call.
#[derive(Drop)]
pub struct Opened {
    /// Which objects the variables of the caller mean.
    pub slots: Vec<Option<usize>>,
    /// The number of objects.
    pub count: usize,
}

/// Begins a call whose unit is taken, with no variable yet, and makes the objects of its parameters.
pub fn open(
    alloc: Global,
    empty: Vec<Option<usize>>,
    params: &[Param],
    arguments: &[Argument],
    state: &mut State<'_>,
) -> Result<Opened, Stop>
    requires { empty.items ≡ [] }
    ensures { Gives opening_of result state.new (opened params.now arguments.now state.old) }
{
    let slots = state.swap(empty);
    let count = state.object_count();
    bind_params(alloc, params, arguments, state)?;
    Ok(Opened { slots, count })
}
