//! The tokens of a source (C11 6.4). A call takes memory only where it can answer `NoMemory` or
//! `AllocError`.
#![tactic(auto)]

mod character;
mod constant;
mod directive;
mod fault;
mod form;
mod line;
mod literal;
mod macros;
mod opening;
mod piece;
mod reading;
mod scan;
mod spelling;
mod target;
mod token;

pub use fault::LexFault;
pub use reading::{lex, one_outcome, some_outcome};
pub use token::{Keyword, Punct, Token, TokenKind};
