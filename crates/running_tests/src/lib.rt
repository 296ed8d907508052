//! Tests of runs: what whole programs do on tests, from their text.
#![tactic(auto)]

#[cfg(test)]
mod ends;
#[cfg(test)]
mod functions;
#[cfg(test)]
mod library;
#[cfg(test)]
mod limits;
#[cfg(test)]
mod operators;
#[cfg(test)]
mod order;
#[cfg(test)]
mod run;
#[cfg(test)]
mod scans;
#[cfg(test)]
mod units;
#[cfg(test)]
mod worked;
