//! The command `f1x repair PROGRAM SUITE`, with its options, over any files and sinks.
#![tactic(auto)]

mod accept;
mod answer;
mod fault;
mod gather;
mod job;
mod laws;
mod limits;
mod refusal;
mod report;
mod run;
mod search;
mod status;
#[cfg(test)]
mod tests;
mod tried;
mod words;

pub use laws::{accepted_are_answered, all_are_judged, one_answer, one_end, patched_sources_pass};
pub use run::run_alone;
pub use status::Status;
