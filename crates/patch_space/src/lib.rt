//! The patches of a program by rank, and the program that each of them makes.
#![tactic(auto)]

mod change;
mod fault;
mod laws;
mod patch;
mod ranks;
mod space;

pub use change::{apply, changed, changed_at};
pub use fault::SpaceFault;
pub use laws::{edits_are_applied, patched_is_checked, patches_change};
pub use patch::Patch;
pub use space::Space;
