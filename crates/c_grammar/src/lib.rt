//! The grammar of the language (C11 6.5 to 6.9), apart from the code that reads it. No call of it
//! takes memory.
#![tactic(auto)]

mod laws;
mod nesting;
mod nonterminal;
mod terminal;

pub use laws::{exact, one_program, own_tokens, text_order, too_deep, verdict};
pub use nesting::{nesting_is_room, viable_nesting_is_room};
pub use nonterminal::Nonterminal;
pub use terminal::{Terminal, terminal_of};
