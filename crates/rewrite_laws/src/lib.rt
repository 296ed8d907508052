//! The law of programs in which what stands at one location becomes something else.
#![tactic(auto)]

mod laws;

pub use laws::rewritten_is_checked;
