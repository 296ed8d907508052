//! What a repair is given, and what is right to answer.
#![tactic(auto)]

mod answer;
mod laws;

pub use answer::{Answer, Shown};
pub use laws::one_answer;
