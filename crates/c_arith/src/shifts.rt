//! Shifts (C11 6.5.7).

ghost use Rattle.std.specs.Prelude.{◌≡◌};
ghost use Rattle.c_tree.specs.declared.expr.BinOp.TheVariants.{Shl, Shr};
ghost use Rattle.c_arith.specs.Arith.{may_shift as may_shift_by, op as op_of};

use crate::values::{fitting, width};
use c_tree::Ty;

/// Whether a shift by so many bits has a value: at least 0 and fewer than the type has (C11 6.5.7 p3).
fn may_shift(ty: Ty, by: i64) -> bool
    ensures { result ≡ may_shift_by ty by }
{
    0 <= by && by < i64::from(width(ty))
}

/// The number times 2 to the right number, where the number isn't negative and the result is a value of the type
/// (C11 6.5.7 p4).
pub fn shift_left(ty: Ty, left: i64, right: i64) -> Option<i64>
    ensures { result ≡ op_of ty Shl left right }
{
    if !may_shift(ty, right) || left < 0 {
        return None;
    }
    match left.checked_mul(1 << right) {
        Some(product) => fitting(ty, product),
        None => None,
    }
}

/// The number divided by 2 to the right number, rounded down, so that a negative number stays negative (C11 6.5.7 p5).
pub fn shift_right(ty: Ty, left: i64, right: i64) -> Option<i64>
    ensures { result ≡ op_of ty Shr left right }
{
    if may_shift(ty, right) {
        Some(left >> right)
    } else {
        None
    }
}
