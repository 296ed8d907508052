//! The prefix operators (C11 6.5.3.3).

ghost use Rattle.std.specs.Prelude.{◌≡◌};
ghost use Rattle.c_arith.specs.Arith.{prefix as prefix_of};

use crate::values::{fitting, truth};
use c_tree::{Ty, UnOp};

/// The value of a prefix operator at a value of a type, or none where it is undefined (C11 6.5.3.3): the negative of a
/// number, where it is outside of the type.
pub fn unary(ty: Ty, op: UnOp, value: i64) -> Option<i64>
    ensures { result ≡ prefix_of ty op value }
{
    match op {
        UnOp::Plus => Some(value),
        UnOp::Minus => match value.checked_neg() {
            Some(negated) => fitting(ty, negated),
            None => None,
        },
        UnOp::Flip => Some(truth(value == 0)),
        UnOp::Compl => Some(!value),
    }
}
