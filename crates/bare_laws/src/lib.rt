//! Laws of names and kinds in programs that are the same but for spans, slots and the spelling of
//! constants.
#![tactic(auto)]

mod laws;

pub use laws::{checked_alike, same_faults, slots_alike};
