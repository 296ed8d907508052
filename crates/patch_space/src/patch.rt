//! A patch: one edit at one location.

use schemas::Edit;

/// A patch of a program.
#[derive(Drop)]
pub struct Patch {
    /// What it costs: patches that cost less have a lower rank.
    pub cost: u8,
    /// The number of its location in the list of all locations of the program, counted from 0.
    pub loc: u32,
    /// What it does there.
    pub edit: Edit,
}
