//! The tokens of the text of an expression that a patch writes.
#![tactic(auto)]

mod laws;

pub use laws::{
    cut_into_its_tokens, makes_no_trigraph, pure_prints, tokens_derive_it, words_of_the_source,
    zero_and_one,
};
