//! Laws of checked programs with a hole at a location, each the contract of a function that does nothing.

ghost use Rattle.hole_laws.specs.Laws.{HoledIsChecked, HolesStand};
ghost use Rattle.hole_laws.specs.Laws.{WaitingRunsShowLocations, FilledRunsShowLocations};

use c_location::{each_names_one_place, locations_rise};
use c_types::names_are_resolved;
use rewrite_laws::rewritten_is_checked;
use run_laws::{holes_are_typed, typed_states_show_variables};
use scope_laws::scopes_agree;

/// A checked program with a hole at a location, or with none, is a checked program: it has no fault of scopes and kinds
/// (C11 6.5 to 6.9), and each name in it has the slot of its variable.
pub fn holed_is_checked()
    ensures { HoledIsChecked }
{
    rewritten_is_checked();
}

/// A checked program in text order, with a hole at one of its locations, has that one hole, and in scope at the hole is
/// what was in scope at the location: it makes visible what is visible there by the text (C11 6.2.1p4), in the same
/// order.
pub fn holes_stand_at_locations()
    ensures { HolesStand }
{
    each_names_one_place();
    locations_rise();
    scopes_agree();
}

/// Wherever a run of a checked program in text order with a hole at one of its locations waits, each variable that is
/// visible at the location, and each that what stands there names, has a live object of its type (C11 6.2.4), of one
/// cell unless it is an array, and each number in the object is a value of that type.
pub fn waiting_states_show_what_is_visible()
    ensures runs { WaitingRunsShowLocations }
    ensures filled { FilledRunsShowLocations }
{
    holed_is_checked();
    holes_stand_at_locations();
    names_are_resolved();
    holes_are_typed();
    typed_states_show_variables();
}
