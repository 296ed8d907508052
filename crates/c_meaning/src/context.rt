//! What a part of a run stands in.

use c_tree::External;
use std::alloc::Global;

/// The most calls that can be live.
pub const CALL_LIMIT: u32 = 256;

/// What a part of a run stands in.
#[derive(Drop)]
pub struct Context<'a> {
    /// Where memory comes from.
    pub alloc: Global,
    /// The program.
    pub externals: &'a [External],
    /// How many more calls may be live.
    pub left: u32,
}
