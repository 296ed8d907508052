//! The text of a patch: the source with an edit made at a location, which is read again as the
//! edited program, and the line that says what a patch changes.
#![tactic(auto)]

mod line;
mod source;

pub use line::edit_line;
pub use patch_text::print_expr;
pub use source::splice;
