//! The functions of the library.

ghost use Rattle.std.specs.Prelude.{◌≡◌, option_map, IfOk};
ghost use Rattle.c_meaning.specs.World.{Gives};
ghost use Rattle.c_meaning.specs.Library.{one_number as one_number_of, numbers as numbers_in};
ghost use Rattle.c_meaning.specs.Library.{call_getchar as getchar, call_putchar as putchar};
ghost use Rattle.c_meaning.specs.Library.{call_printf as printf, print as print_by};
ghost use Rattle.c_meaning.specs.Library.{call_scanf as scanf, read_to as read_to_place};
ghost use Rattle.c_meaning.specs.Library.{call_abs as abs_of, call_exit as exit_with};

use crate::argument::Argument;
use crate::state::State;
use crate::stop::{End, Stop};
use c_arith::fitting;
use c_stdio::{Scan, conversion_count};
use c_tree::{NoMemory, Text, Ty};
use std::alloc::Global;

/// The one number among the arguments.
fn one_number(arguments: &[Argument], state: &State<'_>) -> Result<i64, Stop>
    ensures { Gives (λ v. v) result state.now (one_number_of arguments.now state.now) }
{
    match arguments {
        [Argument::Number(value)] => Ok(*value),
        _ => Err(Stop::Over(End::Trapped)),
    }
}

/// The value of `getchar`.
pub fn call_getchar(arguments: &[Argument], state: &mut State<'_>) -> Result<Option<i64>, Stop>
    ensures { Gives (λ v. v) result state.new (getchar arguments.now state.old) }
{
    match arguments {
        [] => Ok(Some(state.get())),
        _ => Err(Stop::Over(End::Trapped)),
    }
}

/// The value of `putchar`.
pub fn call_putchar(arguments: &[Argument], state: &mut State<'_>) -> Result<Option<i64>, Stop>
    ensures { Gives (λ v. v) result state.new (putchar arguments.now state.old) }
{
    let value = one_number(arguments, state)?;
    Ok(Some(state.put(value)?))
}

/// The value of `printf`.
pub fn call_printf(
    alloc: Global,
    arguments: &[Argument],
    state: &mut State<'_>,
) -> Result<Option<i64>, Stop>
    ensures { Gives (λ v. v) result state.new (printf arguments.now state.old) }
{
    let [Argument::Format(format), rest @ ..] = arguments else {
        return Err(Stop::Over(End::Trapped));
    };
    let Some(numbers) = numbers_of(alloc, rest)? else {
        return Err(Stop::Over(End::Trapped));
    };
    Ok(Some(print(format, &numbers, state)?))
}

/// Writes a format with these numbers, which have to be as many as its conversions.
fn print(format: &Text, numbers: &[i64], state: &mut State<'_>) -> Result<i64, Stop>
    ensures { Gives (λ v. v) result state.new (print_by format.now numbers.now state.old) }
{
    if conversion_count(format.as_slice()) != Some(numbers.len()) {
        return Err(Stop::Over(End::Trapped));
    }
    Ok(state.print(format.as_slice(), numbers)?)
}

/// The numbers that these arguments are, if all are numbers.
fn numbers_of(alloc: Global, arguments: &[Argument]) -> Result<Option<Vec<i64>>, NoMemory>
    ensures { IfOk result (λ o. option_map (λ v. v.items) o ≡ numbers_in arguments.now) }
{
    let mut numbers = Vec::new(alloc);
    for argument in arguments {
        let Argument::Number(value) = argument else {
            return Ok(None);
        };
        numbers.push(*value)?;
    }
    Ok(Some(numbers))
}

/// The value of `scanf`.
pub fn call_scanf(arguments: &[Argument], state: &mut State<'_>) -> Result<Option<i64>, Stop>
    ensures { Gives (λ v. v) result state.new (scanf arguments.now state.old) }
{
    let [Argument::Format(format), rest @ ..] = arguments else {
        return Err(Stop::Over(End::Trapped));
    };
    if format.as_slice() != b"%d".as_slice() {
        return Err(Stop::Over(End::Trapped));
    }
    read_to(rest, state)
}

/// Reads a number into the one place among these arguments.
fn read_to(arguments: &[Argument], state: &mut State<'_>) -> Result<Option<i64>, Stop>
    ensures { Gives (λ v. v) result state.new (read_to_place arguments.now state.old) }
{
    let [Argument::Place(slot, index)] = arguments else {
        return Err(Stop::Over(End::Trapped));
    };
    match state.scan() {
        Scan::Number(value) => {
            state.store(*slot, *index, value)?;
            Ok(Some(1))
        }
        Scan::End => Ok(Some(-1)),
        Scan::NoNumber => Ok(Some(0)),
        Scan::TooWide => Err(Stop::Over(End::Trapped)),
    }
}

/// The value of `abs`.
pub fn call_abs(arguments: &[Argument], state: &State<'_>) -> Result<Option<i64>, Stop>
    ensures { Gives (λ v. v) result state.now (abs_of arguments.now state.now) }
{
    let value = one_number(arguments, state)?;
    let Some(absolute) = value.checked_abs() else {
        return Err(Stop::Over(End::Trapped));
    };
    match fitting(Ty::Int, absolute) {
        Some(absolute) => Ok(Some(absolute)),
        None => Err(Stop::Over(End::Trapped)),
    }
}

/// `exit`, which ends the run.
pub fn call_exit(arguments: &[Argument], state: &State<'_>) -> Result<Option<i64>, Stop>
    ensures { Gives (λ v. v) result state.now (exit_with arguments.now state.now) }
{
    let value = one_number(arguments, state)?;
    Err(Stop::Over(End::Exit(value)))
}
