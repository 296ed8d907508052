//! The arguments of calls.

use c_tree::{Slot, Text};

/// An argument of a call, evaluated.
#[derive(Drop)]
pub enum Argument {
    /// A number.
    Number(i64),
    /// An array: the number of the caller's object.
    Array(usize),
    /// A format.
    Format(Text),
    /// A place whose address is given: its variable and its index.
    Place(Slot, i64),
}
