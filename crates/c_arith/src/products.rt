//! Products, quotients and remainders (C11 6.5.5).

ghost use Rattle.std.specs.Prelude.{◌≡◌};
ghost use Rattle.c_tree.specs.declared.expr.BinOp.TheVariants.{Mul, Div, Rem};
ghost use Rattle.c_arith.specs.Arith.{op as op_of};

use crate::values::fitting;
use c_tree::Ty;

/// The product, where it is a value of the type (C11 6.5.5 p4).
pub fn product(ty: Ty, left: i64, right: i64) -> Option<i64>
    ensures { result ≡ op_of ty Mul left right }
{
    match left.checked_mul(right) {
        Some(product) => fitting(ty, product),
        None => None,
    }
}

/// The quotient, rounded towards 0, where there is one and it is a value of the type (C11 6.5.5 p5, p6).
pub fn quotient(ty: Ty, left: i64, right: i64) -> Option<i64>
    ensures { result ≡ op_of ty Div left right }
{
    match left.checked_div(right) {
        Some(quotient) => fitting(ty, quotient),
        None => None,
    }
}

/// The remainder, with the sign of the left number, where the quotient has a value (C11 6.5.5 p5, p6).
pub fn remainder(ty: Ty, left: i64, right: i64) -> Option<i64>
    ensures { result ≡ op_of ty Rem left right }
{
    match left.checked_div(right) {
        Some(quotient) => match fitting(ty, quotient) {
            Some(_) => Some(left % right),
            None => None,
        },
        None => None,
    }
}
