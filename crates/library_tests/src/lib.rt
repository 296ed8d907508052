//! Tests of the crates of arithmetic, tests and suites: operators, `printf` and `scanf` over a test, and the reading of a
//! suite.
#![tactic(auto)]

#[cfg(test)]
mod arithmetic;
#[cfg(test)]
mod printing;
#[cfg(test)]
mod scanning;
#[cfg(test)]
mod suites;
