//! Tests of whole calls, and of what crosses the crates below them, by public calls alone.
#![tactic(auto)]

#[cfg(test)]
mod calls;
#[cfg(test)]
mod first_faults;
