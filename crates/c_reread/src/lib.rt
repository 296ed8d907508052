//! The text of a patch, read again.
#![tactic(auto)]

mod laws;

pub use laws::texts_read_again;
