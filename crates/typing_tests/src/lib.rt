//! Tests of scopes and kinds: which programs are accepted, the first fault of the others, and what names mean.
#![tactic(auto)]

#[cfg(test)]
mod accepted;
#[cfg(test)]
mod faults;
#[cfg(test)]
mod files;
#[cfg(test)]
mod held;
#[cfg(test)]
mod names;
#[cfg(test)]
mod pairs;
#[cfg(test)]
mod scopes;
#[cfg(test)]
mod slots;
#[cfg(test)]
mod source;
#[cfg(test)]
mod visible;
#[cfg(test)]
mod words;
#[cfg(test)]
mod worked;
