//! What a patch makes of a program.

ghost use Rattle.std.specs.Prelude.{◌≡◌, ◌<◌, length, slice_get, Some, IsSome, IfOk, option_map};
ghost use Rattle.c_location.specs.Locations.{expression, statement};
ghost use Rattle.c_location.specs.Shown.{lent};
ghost use Rattle.c_tree.specs.Views.{tree, code, program as tree_program};
ghost use Rattle.c_types.specs.Evidence.{IsChecked, IsOrdered};
ghost use Rattle.c_types.specs.Shown.{tree_of};
ghost use Rattle.patch_space.specs.Contents.{IsSpaceOf};
ghost use Rattle.patch_space.specs.Shown.{change, located_change as shown};
ghost use Rattle.patch_space.specs.Space.{change_of as change_by, changed_at as change_at_location, changed as change_of_patch, with_change as changed_program, applied};

use crate::laws::{patched_is_checked, patches_change};
use crate::patch::Patch;
use crate::space::Space;
use c_location::{Change, Part, change_at, part_at};
use c_tree::{Expr, Loc, NoMemory, Program, Stmt, copy_program};
use c_types::Typed;
use schemas::{Edit, bound_expr, edited_expr};
use std::alloc::Global;

/// The change that the edit makes of the expression, if it is one of an expression.
#[tactic(auto, using(crate::proofs::Spans::spans))]
fn change_of_expr(alloc: Global, e: &Expr, edit: &Edit) -> Result<Option<Change>, NoMemory>
    ensures { IfOk result (λ r. option_map change r
        ≡ change_by edit.now (expression (tree e.now))) }
{
    match edit {
        Edit::Op(_)
        | Edit::Leaf(..)
        | Edit::Plus(_)
        | Edit::Side(_)
        | Edit::Negate
        | Edit::Take(_) => Ok(Some(Change::Replaced(edited_expr(alloc, e, edit)?))),
        Edit::Narrow(bound) => Ok(Some(Change::Narrowed(bound_expr(alloc, bound, e.span)?))),
        Edit::Widen(bound) => Ok(Some(Change::Widened(bound_expr(alloc, bound, e.span)?))),
        Edit::Guard(_) => Ok(None),
    }
}

/// The change that the edit makes of the statement, if it is one of a statement.
#[tactic(auto, using(crate::proofs::Spans::spans))]
fn change_of_stmt(alloc: Global, st: &Stmt, edit: &Edit) -> Result<Option<Change>, NoMemory>
    ensures { IfOk result (λ r. option_map change r
        ≡ change_by edit.now (statement (code st.now))) }
{
    match edit {
        Edit::Guard(bound) => Ok(Some(Change::Guarded(bound_expr(alloc, bound, st.span)?))),
        _ => Ok(None),
    }
}

/// The change that the edit makes of the part, if it can be made there.
fn change_of(alloc: Global, part: &Part, edit: &Edit) -> Result<Option<Change>, NoMemory>
    ensures { IfOk result (λ r. option_map change r ≡ change_by edit.now (lent part.now)) }
{
    match part {
        Part::Expr(e) => change_of_expr(alloc, e, edit),
        Part::Stmt(st) => change_of_stmt(alloc, st, edit),
    }
}

/// The location and the change of the edit that is made there, if it can be made.
fn located_change(
    alloc: Global,
    program: &Program,
    location: Loc,
    edit: &Edit,
) -> Result<Option<(Loc, Change)>, NoMemory>
    ensures { IfOk result (λ r. shown r ≡
        change_at_location (tree_program program.now) edit.now (Some location)) }
{
    match part_at(program, &location) {
        None => Ok(None),
        Some(part) => match change_of(alloc, &part, edit)? {
            None => Ok(None),
            Some(change) => Ok(Some((location, change))),
        },
    }
}

/// The location and the change of the patch, if the program has such a location and the edit can be
/// made there.
fn changed_by(
    alloc: Global,
    program: &Program,
    locations: &[Loc],
    patch: &Patch,
) -> Result<Option<(Loc, Change)>, NoMemory>
    ensures { IfOk result (λ r. shown r ≡
        change_of_patch (tree_program program.now) locations.now patch.now) }
{
    match locations.get(patch.loc as usize) {
        None => Ok(None),
        Some(location) => located_change(alloc, program, *location, &patch.edit),
    }
}

/// A copy of the program, with the change made at the location, if there is one.
#[tactic(auto, using(crate::proofs::ChangeLemmas::rewrite_shown))]
fn with_change(
    alloc: Global,
    program: &Program,
    there: &Option<(Loc, Change)>,
) -> Result<Program, NoMemory>
    ensures { IfOk result (λ r. tree_program r ≡
        changed_program (tree_program program.now) (shown there.now)) }
{
    let mut copy = copy_program(alloc, program)?;
    match there {
        None => Ok(copy),
        Some((location, change)) => {
            change_at(alloc, &mut copy, location, change)?;
            Ok(copy)
        }
    }
}

/// The program that the patch makes, of which the caller shows that it is checked: a copy, with the
/// one part changed.
fn apply_patch(
    alloc: Global,
    program: &Program,
    locations: &[Loc],
    patch: &Patch,
) -> Result<Typed, NoMemory>
    requires { IsChecked (applied (tree_program program.now) locations.now patch.now) }
    ensures { IfOk result (λ r. tree_of r ≡
        applied (tree_program program.now) locations.now patch.now) }
{
    let there = changed_by(alloc, program, locations, patch)?;
    let patched = with_change(alloc, program, &there)?;
    Ok(Typed::new(patched))
}

/// The location, and the change that the edit makes there of the program. There is none where the
/// program has no such location, or the edit can't be made there.
///
/// # Errors
///
/// `NoMemory` where memory runs out.
pub fn changed_at(
    alloc: Global,
    program: &Typed,
    location: &Loc,
    edit: &Edit,
) -> Result<Option<(Loc, Change)>, NoMemory>
    ensures { IfOk result (λ r. shown r ≡
        change_at_location (tree_of program.now) edit.now (Some location.now)) }
{
    located_change(alloc, program.program(), *location, edit)
}

/// The location at which the patch of this rank changes the program, and the change that it makes
/// there. There is one wherever the space is the program's own.
///
/// # Errors
///
/// `NoMemory` where memory runs out.
pub fn changed(
    alloc: Global,
    program: &Typed,
    space: &Space,
    i: u32,
) -> Result<Option<(Loc, Change)>, NoMemory>
    requires { i < length space.now.patches }
    ensures made { IfOk result (λ r.
        option_map (change_of_patch (tree_of program.now) space.now.locations)
        (slice_get space.now.patches i) ≡ Some (shown r)) }
    ensures own { IsSpaceOf (tree_of program.now) space.now → IfOk result (λ r. IsSome r) }
{
    let patch = space.patch(i);
    // (a law: it does nothing)
    patches_change();
    changed_by(alloc, program.program(), space.all_locations(), patch)
}

/// The program that the patch of this rank makes of one in text order, as `check` gives it, whose
/// space this is. The new program needn't be in text order.
///
/// # Errors
///
/// `NoMemory` where memory runs out.
pub fn apply(alloc: Global, program: &Typed, space: &Space, i: u32) -> Result<Typed, NoMemory>
    requires ranked { i < length space.now.patches }
    requires ordered { IsOrdered (tree_of program.now) }
    requires own { IsSpaceOf (tree_of program.now) space.now }
    ensures { IfOk result (λ r.
        option_map (applied (tree_of program.now) space.now.locations)
        (slice_get space.now.patches i) ≡ Some (tree_of r)) }
{
    let patch = space.patch(i);
    patched_is_checked();
    apply_patch(alloc, program.program(), space.all_locations(), patch)
}
