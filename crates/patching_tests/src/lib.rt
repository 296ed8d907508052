//! Tests of the crates that patch a program: its locations, the edits of its parts, its patches by rank, and their text.
#![tactic(auto)]

#[cfg(test)]
mod build;
#[cfg(test)]
mod edits;
#[cfg(test)]
mod exprs;
#[cfg(test)]
mod listed;
#[cfg(test)]
mod locations;
#[cfg(test)]
mod parts;
#[cfg(test)]
mod patches;
#[cfg(test)]
mod printing;
#[cfg(test)]
mod read_again;
#[cfg(test)]
mod texts;
#[cfg(test)]
mod whole_programs;
