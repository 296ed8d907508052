//! The arguments of calls, which are on the stack.

ghost use Rattle.std.specs.Prelude.{◌≡◌, ◌∷◌, [], IfOk, option_map, List};
ghost use Rattle.c_meaning.specs.declared.argument.Argument.{Argument as Argument_of};
ghost use Rattle.interp_code.specs.Go.{take_before, taken};
ghost use Rattle.interp.specs.Left.{upper};

use c_meaning::Argument;
use c_tree::{NoMemory, copy_text};
use interp_code::Given;
use std::alloc::Global;

/// Takes an argument from the stack, if it is there.
fn take_argument(
    alloc: Global,
    given: &Given,
    values: &mut Vec<i64>,
) -> Result<Option<Argument>, NoMemory>
    ensures { (gs : List Argument_of) → IfOk result (λ o.
        take_before given.now gs (upper values.old.items) ≡
        option_map (λ a. record { arguments = a ∷ gs; below = upper values.new.items }) o) }
{
    match given {
        Given::Number => match values.pop() {
            Some(value) => Ok(Some(Argument::Number(value))),
            None => Ok(None),
        },
        Given::Array => match values.pop() {
            Some(number) => Ok(Some(Argument::Array(number.unsigned_abs() as usize))),
            None => Ok(None),
        },
        Given::Format(format) => Ok(Some(Argument::Format(copy_text(alloc, format)?))),
        Given::Place(slot) => match values.pop() {
            Some(index) => Ok(Some(Argument::Place(*slot, index))),
            None => Ok(None),
        },
    }
}

/// Takes the arguments of a call from the stack into an empty list, if all are there. The last one is uppermost.
pub fn take_arguments(
    alloc: Global,
    given: &[Given],
    values: &mut Vec<i64>,
    empty: Vec<Argument>,
) -> Result<Option<Vec<Argument>>, NoMemory>
    requires { empty.items ≡ [] }
    ensures { IfOk result (λ o. taken given.now (upper values.old.items) ≡
        option_map (λ gs. record { arguments = gs.items; below = upper values.new.items }) o) }
{
    let mut arguments = empty;
    let mut left = given.len();
    'each: while left > 0 {
        left -= 1;
        let Some(argument) = take_argument(alloc, &given[left], values)? else {
            return Ok(None);
        };
        arguments.insert(0, argument)?;
    }
    Ok(Some(arguments))
}
