//! The operators between two numbers (C11 6.5.5 to 6.5.14).

ghost use Rattle.std.specs.Prelude.{◌≡◌};
ghost use Rattle.c_arith.specs.Arith.{op as op_of};

use crate::bits::{bit_and, bit_or, bit_xor};
use crate::products::{product, quotient, remainder};
use crate::shifts::{shift_left, shift_right};
use crate::sums::{difference, sum};
use crate::values::truth;
use c_tree::{BinOp, Ty};

/// The value of an operator between two values of a type, or none where it is undefined (C11 6.5.5 to 6.5.14): a result
/// of `+ - * / % <<` outside of the type, a division by 0, a shift by less than 0 or by as many bits as the type has, and
/// `<<` of a negative number. `&&` and `||` have the value that they have when both operands were evaluated.
pub fn binary(ty: Ty, op: BinOp, left: i64, right: i64) -> Option<i64>
    ensures { result ≡ op_of ty op left right }
{
    match op {
        BinOp::Mul => product(ty, left, right),
        BinOp::Div => quotient(ty, left, right),
        BinOp::Rem => remainder(ty, left, right),
        BinOp::Add => sum(ty, left, right),
        BinOp::Sub => difference(ty, left, right),
        BinOp::Shl => shift_left(ty, left, right),
        BinOp::Shr => shift_right(ty, left, right),
        BinOp::Lt => Some(truth(left < right)),
        BinOp::Le => Some(truth(left <= right)),
        BinOp::Gt => Some(truth(left > right)),
        BinOp::Ge => Some(truth(left >= right)),
        BinOp::Eq => Some(truth(left == right)),
        BinOp::Ne => Some(truth(left != right)),
        BinOp::BitAnd => Some(bit_and(left, right)),
        BinOp::BitXor => Some(bit_xor(left, right)),
        BinOp::BitOr => Some(bit_or(left, right)),
        BinOp::Both => Some(truth(left != 0 && right != 0)),
        BinOp::Either => Some(truth(left != 0 || right != 0)),
    }
}
