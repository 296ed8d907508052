//! Tests of the machine with a hole: what its events and views are, from the text of programs.
#![tactic(auto)]

#[cfg(test)]
mod run;
#[cfg(test)]
mod views;
#[cfg(test)]
mod visits;
