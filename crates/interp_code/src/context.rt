//! What the code of a part depends on.

use c_tree::{External, Loc};
use std::alloc::Global;

/// What the code of a part depends on.
#[derive(Drop)]
pub struct Context<'a> {
    /// Where memory comes from.
    pub alloc: Global,
    /// The program.
    pub externals: &'a [External],
    /// Where the hole is, if there is one.
    pub hole: Option<Loc>,
}
