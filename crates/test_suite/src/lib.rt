//! The reading of a suite: tests of a program, as JSON text.
#![tactic(auto)]

mod fault;
mod read;
mod tests_of;

pub use fault::{Key, SuiteFault};
pub use read::{Suite, read_suite};
