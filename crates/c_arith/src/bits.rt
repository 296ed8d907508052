//! The operators on the bits of two numbers in two's complement (C11 6.5.10 to 6.5.12).

ghost use Rattle.std.specs.Prelude.{◌≡◌};
ghost use Rattle.c_arith.specs.Arith.{bits_of_both, bits_of_either, bits_of_one};

/// The number whose bits are those of both (C11 6.5.10 p4).
pub fn bit_and(left: i64, right: i64) -> i64
    ensures { result ≡ bits_of_both left right }
{
    left & right
}

/// The number whose bits are those of one or both (C11 6.5.12 p4).
pub fn bit_or(left: i64, right: i64) -> i64
    ensures { result ≡ bits_of_either left right }
{
    left | right
}

/// The number whose bits are those of one alone (C11 6.5.11 p4).
pub fn bit_xor(left: i64, right: i64) -> i64
    ensures { result ≡ bits_of_one left right }
{
    left ^ right
}
