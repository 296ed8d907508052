//! The bytes of a patch's text: a pure expression as C text, a source with what a patch puts in
//! place of a part, and the line that says what the patch changes.
#![tactic(auto)]

mod line;
mod operator;
mod position;
mod print;
mod splice;

pub use line::{Form, edit_line};
pub use position::line_and_column;
pub use print::print_expr;
pub use splice::{splice_expr, splice_guarded, splice_joined};
