//! Laws of views: where a machine says that a hole is due, what is visible at the hole's location can be read.
#![tactic(auto)]

mod laws;

pub use laws::views_show_what_is_visible;
