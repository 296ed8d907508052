//! Sums and differences (C11 6.5.6).

ghost use Rattle.std.specs.Prelude.{◌≡◌};
ghost use Rattle.c_tree.specs.declared.expr.BinOp.TheVariants.{Add, Sub};
ghost use Rattle.c_arith.specs.Arith.{op as op_of};

use crate::values::fitting;
use c_tree::Ty;

/// The sum, where it is a value of the type (C11 6.5.6 p5).
pub fn sum(ty: Ty, left: i64, right: i64) -> Option<i64>
    ensures { result ≡ op_of ty Add left right }
{
    match left.checked_add(right) {
        Some(sum) => fitting(ty, sum),
        None => None,
    }
}

/// The difference, where it is a value of the type (C11 6.5.6 p6).
pub fn difference(ty: Ty, left: i64, right: i64) -> Option<i64>
    ensures { result ≡ op_of ty Sub left right }
{
    match left.checked_sub(right) {
        Some(difference) => fitting(ty, difference),
        None => None,
    }
}
