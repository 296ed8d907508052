//! C arithmetic on whole numbers: the operators and the conversions of each type of numbers (C11 6.2.5, 6.3.1.3, 6.5).
//! No call takes memory.
#![tactic(auto)]

mod bits;
mod conversion;
mod laws;
mod operators;
mod prefixes;
mod products;
mod shifts;
mod sums;
mod values;

pub use conversion::{byte_of, convert};
pub use laws::{bits_are_those, conversion_is_modulo, division_is_whole};
pub use operators::binary;
pub use prefixes::unary;
pub use values::fitting;
