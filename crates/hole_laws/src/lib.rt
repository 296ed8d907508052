//! Laws of checked programs with a hole at a location: where the hole's run waits, what is visible at the location has
//! its objects.
#![tactic(auto)]

mod laws;

pub use laws::{holed_is_checked, holes_stand_at_locations, waiting_states_show_what_is_visible};
