//! Conversions between types of numbers (C11 6.3.1.3).

ghost use Rattle.std.specs.Prelude.{◌≡◌, pos};
ghost use Rattle.c_arith.specs.Arith.{convert as converted, count_of, reduced as reduced_to, byte_of as byte_at};

use crate::values::{fitting, greatest, width};
use c_tree::Ty;

/// The number of values of a type: 2 to the number of its bits.
fn value_count(ty: Ty) -> i128
    ensures { result ≡ count_of ty }
{
    1 << width(ty)
}

/// The value of the type that equals the number modulo the number of the type's values (C11 6.3.1.3 p2, p3).
fn reduced(ty: Ty, value: i64) -> i64
    ensures { result ≡ reduced_to ty value }
{
    let count = value_count(ty);
    let rest = i128::from(value).rem_euclid(count);
    if rest <= i128::from(greatest(ty)) {
        rest as i64
    } else {
        (rest - count) as i64
    }
}

/// The one value of the type that equals the number modulo 2 to the number of the type's bits (C11 6.3.1.3). A value of
/// the type stays as it is.
pub fn convert(ty: Ty, value: i64) -> i64
    ensures { result ≡ converted ty value }
{
    match fitting(ty, value) {
        Some(kept) => kept,
        None => reduced(ty, value),
    }
}

/// The byte that equals the number modulo 256, as `unsigned char` has it (C11 7.21.7.3 p2).
pub fn byte_of(value: i64) -> u8
    ensures { result ≡ byte_at value }
{
    value.rem_euclid(256) as u8
}
