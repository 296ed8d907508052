//! The parser of C programs, by recursive descent: tokens to trees.
#![tactic(auto)]

mod cursor;
mod declaration;
mod expression;
mod fault;
mod program;
mod statement;
mod tree;

pub use c_grammar::one_program;
pub use fault::ParseFault;
pub use program::parse;
