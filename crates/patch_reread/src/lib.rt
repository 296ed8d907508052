//! The text of a patch, read again, is the patched program.
#![tactic(auto)]

mod laws;

pub use laws::patches_read_again;
