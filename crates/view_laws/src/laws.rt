//! The law that joins the machine to the laws of programs with a hole, as the contract of a function that does nothing.

ghost use Rattle.view_laws.specs.Laws.{StatesShowLocations, ViewsReadLocations};

use hole_laws::waiting_states_show_what_is_visible;
use interp::machines_follow;

/// Where a machine that runs a checked program in text order with a hole at one of its locations says that the hole is
/// due, each variable that is visible at the location, and each that what stands there names, has a live object of its
/// type (C11 6.2.4), of one cell unless it is an array, and each number in the object is a value of that type. A view of
/// that state shows its cells, so all that a reader asks of a variable before it reads it is there.
pub fn views_show_what_is_visible()
    ensures states { StatesShowLocations }
    ensures views { ViewsReadLocations }
{
    machines_follow();
    waiting_states_show_what_is_visible();
}
