//! The locations of a program, which are the places that a patch can change; what stands at one of them, and the
//! program with that part changed.
#![tactic(auto)]

mod change;
mod fault;
mod laws;
mod list;
mod part;
mod rewrite;
mod tally;
mod walk;

pub use change::Change;
pub use fault::LocFault;
pub use laws::{
    each_names_one_place, locations_rise, nothing_elsewhere, one_location_at_each_byte,
};
pub use list::locations;
pub use part::{Part, is_at, part_at};
pub use rewrite::change_at;
