//! Tests of the crates that read a source: the trees, the tokens and the parser.
#![tactic(auto)]

#[cfg(test)]
mod parsing;
#[cfg(test)]
mod tokens;
#[cfg(test)]
mod trees;
