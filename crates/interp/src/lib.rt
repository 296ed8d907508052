//! A machine with an explicit stack, which runs flat code on a test and waits where a hole is due.
#![tactic(auto)]

mod arguments;
mod calls;
mod engine;
mod flow;
mod holes;
mod laws;
mod library;
mod machine;
mod numbers;
mod objects;
mod places;
mod run;
mod steps;
mod supers;

pub use laws::{cells_fit_while_waiting, ends_without_hole, machines_follow, trees_are_whole};
pub use machine::{Event, Machine, View};
pub use steps::Steps;
