//! The functions of a program in flat code.

use c_tree::Param;

/// A function: its parameters, and where its body begins.
#[derive(Drop)]
pub struct Routine {
    /// The parameters, in their order.
    pub params: Vec<Param>,
    /// The place of the first node of the body.
    pub start: usize,
}
