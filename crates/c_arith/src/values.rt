//! The values of each type of numbers: the one place that names the limits of a type.

ghost use Rattle.std.specs.Prelude.{◌≡◌};
ghost use Rattle.c_arith.specs.Arith.{least as least_of, greatest as greatest_of, width as width_of, fitting as fitting_in, truth as truth_of};

use c_tree::Ty;

/// The least value of a type (C11 5.2.4.2.1).
pub fn least(ty: Ty) -> i64
    ensures { result ≡ least_of ty }
{
    match ty {
        Ty::Int => -2147483648,
        Ty::Char => -128,
    }
}

/// The greatest value of a type (C11 5.2.4.2.1).
pub fn greatest(ty: Ty) -> i64
    ensures { result ≡ greatest_of ty }
{
    match ty {
        Ty::Int => 2147483647,
        Ty::Char => 127,
    }
}

/// The number of bits of a type, its sign bit among them (C11 6.2.6.2).
pub fn width(ty: Ty) -> u32
    ensures { result ≡ width_of ty }
{
    match ty {
        Ty::Int => 32,
        Ty::Char => 8,
    }
}

/// The number itself where it is a value of the type. Another result of an operator is undefined (C11 6.5 p5).
pub fn fitting(ty: Ty, value: i64) -> Option<i64>
    ensures { result ≡ fitting_in ty value }
{
    if least(ty) <= value && value <= greatest(ty) {
        Some(value)
    } else {
        None
    }
}

/// 1 for true and 0 for false (C11 6.5.8 p6, 6.5.9 p3).
pub fn truth(holds: bool) -> i64
    ensures { result ≡ truth_of holds }
{
    if holds { 1 } else { 0 }
}
