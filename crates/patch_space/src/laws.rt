//! The laws of patched programs, each as the contract of a function.

ghost use Rattle.patch_space.specs.Laws.{PatchedIsChecked, PatchesChange, EditedIsApplied, TestIsApplied};

use c_location::each_names_one_place;
use schemas::candidates_can_be_made;
use scope_laws::scopes_agree;

/// What each of its patches makes of a checked program in text order is a checked program: it has no fault of scopes
/// and kinds (C11 6.5 to 6.9), and each name in it has the slot of its variable. In text order a location names one
/// place, so the patch changes one part alone; and what is visible there by the text is what is in scope there.
pub fn patched_is_checked()
    ensures { PatchedIsChecked }
{
    each_names_one_place();
    scopes_agree();
}

/// Each patch of a program makes a change in it: the program has its location, and its edit can be made there.
pub fn patches_change()
    ensures { PatchesChange }
{
    candidates_can_be_made();
}

/// What an edit makes at a part, by which candidates are told apart, is what a patch with it puts there: the new
/// expression in the place of the old one, and the test of the `if` round a statement.
pub fn edits_are_applied()
    ensures expression { EditedIsApplied }
    ensures test { TestIsApplied }
{}
