//! A source with the text of an edit in it.

ghost use Rattle.std.specs.Prelude.{◌≡◌, IfOk};
ghost use Rattle.c_types.specs.Shown.{tree_of};
ghost use Rattle.patch_space.specs.Shown.{change as seen, located_change as seen_there};
ghost use Rattle.patch_reread.specs.ReadsAgain.{ReadsAs, IsSourceOf};
ghost use Rattle.patch_reread.specs.Texts.{changed_text as text_of, text_with_change, edited_text};
ghost use Rattle.patch_print.specs.Edited.{edited_program, IsCandidate};

use c_location::Change;
use c_tree::{BinOp, Loc, NoMemory};
use c_types::Typed;
use patch_reread::patches_read_again;
use patch_space::changed_at;
use patch_text::{splice_expr, splice_guarded, splice_joined};
use schemas::Edit;
use std::alloc::Global;

/// The source with the edit made at the location of the program: what stands there is replaced,
/// joined to a bound, or guarded by one. Where the edit can't be made there, the source as it is.
///
/// Where the source states the program, and the edit is a candidate at the location, the text is
/// read again as the edited program, but for spans and the spelling of constants; its length
/// and its nesting may be more than a source's may.
///
/// # Errors
///
/// `NoMemory` where memory runs out.
pub fn splice(
    alloc: Global,
    source: &[u8],
    program: &Typed,
    loc: &Loc,
    edit: &Edit,
) -> Result<Vec<u8>, NoMemory>
    ensures text { IfOk result (λ text.
        text.items ≡ edited_text source.now (tree_of program.now) loc.now edit.now) }
    ensures read_again { IsSourceOf source.now (tree_of program.now)
        → IsCandidate (tree_of program.now) loc.now edit.now
        → IfOk result (λ text.
        ReadsAs text.items (edited_program (tree_of program.now) loc.now edit.now)) }
{
    // (a law: it does nothing)
    patches_read_again();
    let there = changed_at(alloc, program, loc, edit)?;
    source_with(alloc, source, &there)
}

/// The source with the change at the location, if there is one.
fn source_with(
    alloc: Global,
    source: &[u8],
    there: &Option<(Loc, Change)>,
) -> Result<Vec<u8>, NoMemory>
    ensures { IfOk result (λ text.
        text.items ≡ text_with_change source.now (seen_there there.now)) }
{
    match there {
        None => source.to_vec(alloc),
        Some((loc, change)) => changed_text(alloc, source, *loc, change),
    }
}

/// The source with the change at the location.
fn changed_text(
    alloc: Global,
    source: &[u8],
    loc: Loc,
    change: &Change,
) -> Result<Vec<u8>, NoMemory>
    ensures { IfOk result (λ text. text.items ≡ text_of source.now loc (seen change.now)) }
{
    match change {
        Change::Replaced(new) => splice_expr(alloc, source, loc.at, new),
        Change::Narrowed(bound) => splice_joined(alloc, source, loc.at, BinOp::Both, bound),
        Change::Widened(bound) => splice_joined(alloc, source, loc.at, BinOp::Either, bound),
        Change::Guarded(test) => splice_guarded(alloc, source, loc.at, test),
    }
}
