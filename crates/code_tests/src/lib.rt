//! Tests of flat code: how many nodes there are, and where some of them lead.
#![tactic(auto)]

#[cfg(test)]
mod holes;
#[cfg(test)]
mod joined;
