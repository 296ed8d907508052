//! The line that says what a patch changes.

ghost use Rattle.std.specs.Prelude.{◌≡◌, IfOk};
ghost use Rattle.c_types.specs.Shown.{tree_of};
ghost use Rattle.patch_space.specs.Shown.{change as seen, located_change as seen_there};
ghost use Rattle.patch_print.specs.Lines.{changed_line as line_of, line_with_change as line_of_any, line_of_rank};

use c_location::Change;
use c_tree::{Loc, NoMemory, Text};
use c_types::Typed;
use patch_space::{Space, changed};
use patch_text::Form;
use std::alloc::Global;

/// The line that says what the patch of this rank in the space changes in the source of the
/// program: where, at what cost, how, and by which expression. Where the space has no such patch,
/// or its edit can't be made, the line is empty; in a space of the program's own each can be made.
///
/// # Errors
///
/// `NoMemory` where memory runs out.
pub fn edit_line(
    alloc: Global,
    source: &[u8],
    space: &Space,
    i: u32,
    program: &Typed,
) -> Result<Text, NoMemory>
    ensures { IfOk result (λ line.
        line ≡ line_of_rank source.now (tree_of program.now) space.now i) }
{
    if i >= space.len() {
        return Ok(Text::new(Vec::new(alloc)));
    }
    let there = changed(alloc, program, space, i)?;
    let cost = space.patch(i).cost;
    line_with_change(alloc, source, cost, &there)
}

/// The line of the change of this cost at the location, if there is one.
fn line_with_change(
    alloc: Global,
    source: &[u8],
    cost: u8,
    there: &Option<(Loc, Change)>,
) -> Result<Text, NoMemory>
    ensures { IfOk result (λ line. line ≡ line_of_any source.now cost (seen_there there.now)) }
{
    match there {
        None => Ok(Text::new(Vec::new(alloc))),
        Some((loc, change)) => changed_line(alloc, source, cost, *loc, change),
    }
}

/// The line of the change of this cost at the location.
fn changed_line(
    alloc: Global,
    source: &[u8],
    cost: u8,
    loc: Loc,
    change: &Change,
) -> Result<Text, NoMemory>
    ensures { IfOk result (λ line. line ≡ line_of source.now cost loc (seen change.now)) }
{
    let (form, e) = match change {
        Change::Replaced(new) => (Form::Replace, new),
        Change::Narrowed(bound) => (Form::And, bound),
        Change::Widened(bound) => (Form::Or, bound),
        Change::Guarded(test) => (Form::Guard, test),
    };
    patch_text::edit_line(alloc, source, loc.at, cost, form, e)
}
