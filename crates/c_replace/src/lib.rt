//! Laws of the grammar by the kinds of tokens alone: what is derived when the tokens of a location
//! are replaced by others.
#![tactic(auto)]

mod laws;

pub use laws::{expressions_by_kinds, programs_by_kinds, tokens_changed, tokens_replaced};
