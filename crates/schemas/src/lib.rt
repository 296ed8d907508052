//! The locations of a checked program, which are the places that a patch can change, the edits that it can make there,
//! and the atoms that new expressions are made of.
#![tactic(auto)]

mod around;
mod atom;
mod between;
mod build;
mod candidates_at;
mod constants;
mod edit;
mod laws;
mod leaves;
mod list;
mod offered;

pub use around::atoms;
pub use atom::{Atom, Bound, bound_expr};
pub use between::bounds;
pub use c_location::LocFault;
pub use candidates_at::{candidates, edited};
pub use edit::{Edit, edited_expr};
pub use laws::{candidates_can_be_made, same_are_equal_when_bare};
pub use list::locations;
