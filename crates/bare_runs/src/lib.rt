//! A run looks at no span and at no spelling of a constant: the law.
#![tactic(auto)]

mod laws;

pub use laws::runs_alike;
