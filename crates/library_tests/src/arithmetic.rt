//! Arithmetic: operators and conversions at the ends of their types, by hand from C11 6.3.1.3, 6.5.3 and 6.5.5 to 6.5.14.

use c_arith::{binary, byte_of, convert, fitting, unary};
use c_tree::{BinOp, Ty, UnOp};
use std::test::Fail;

const LEAST: i64 = -2_147_483_648;

const GREATEST: i64 = 2_147_483_647;

/// Two operands of `int`, the operator between them, and its value, or none where C11 leaves it undefined.
const BINARY: [(i64, BinOp, i64, Option<i64>); 44] = [
    (GREATEST, BinOp::Add, 0, Some(GREATEST)),
    (GREATEST, BinOp::Add, 1, None),
    (LEAST, BinOp::Add, -1, None),
    (LEAST, BinOp::Sub, 0, Some(LEAST)),
    (LEAST, BinOp::Sub, 1, None),
    (0, BinOp::Sub, LEAST, None),
    (46_341, BinOp::Mul, 46_340, Some(2_147_441_940)),
    (46_341, BinOp::Mul, 46_341, None),
    (65_536, BinOp::Mul, -32_768, Some(LEAST)),
    (LEAST, BinOp::Mul, -1, None),
    (-7, BinOp::Div, 2, Some(-3)),
    (7, BinOp::Div, -2, Some(-3)),
    (1, BinOp::Div, 0, None),
    (LEAST, BinOp::Div, -1, None),
    (LEAST, BinOp::Div, 1, Some(LEAST)),
    (-7, BinOp::Rem, 2, Some(-1)),
    (7, BinOp::Rem, -2, Some(1)),
    (0, BinOp::Rem, 0, None),
    (LEAST, BinOp::Rem, -1, None),
    (1, BinOp::Shl, 30, Some(1_073_741_824)),
    (1, BinOp::Shl, 31, None),
    (0, BinOp::Shl, 31, Some(0)),
    (0, BinOp::Shl, 32, None),
    (1, BinOp::Shl, -1, None),
    (-1, BinOp::Shl, 0, None),
    (-5, BinOp::Shr, 1, Some(-3)),
    (-1, BinOp::Shr, 31, Some(-1)),
    (GREATEST, BinOp::Shr, 31, Some(0)),
    (1, BinOp::Shr, 32, None),
    (1, BinOp::Shr, -1, None),
    (LEAST, BinOp::Lt, GREATEST, Some(1)),
    (3, BinOp::Lt, 3, Some(0)),
    (3, BinOp::Le, 3, Some(1)),
    (3, BinOp::Gt, 3, Some(0)),
    (3, BinOp::Ge, 3, Some(1)),
    (3, BinOp::Eq, 4, Some(0)),
    (3, BinOp::Ne, 4, Some(1)),
    (-4, BinOp::BitAnd, 7, Some(4)),
    (-4, BinOp::BitXor, 7, Some(-5)),
    (-4, BinOp::BitOr, 7, Some(-1)),
    (-1, BinOp::Both, 2, Some(1)),
    (5, BinOp::Both, 0, Some(0)),
    (0, BinOp::Either, -3, Some(1)),
    (0, BinOp::Either, 0, Some(0)),
];

#[test]
fn operators_have_values(rt: HostRuntime) -> Result<(), Fail> {
    for (row, (left, op, right, value)) in BINARY.iter().enumerate() {
        assert_eq!(rt; binary(Ty::Int, *op, *left, *right), *value, "row {row}");
    }
    for (op, operand, value) in [
        (UnOp::Plus, LEAST, Some(LEAST)),
        (UnOp::Minus, GREATEST, Some(-GREATEST)),
        (UnOp::Minus, LEAST, None),
        (UnOp::Flip, 0, Some(1)),
        (UnOp::Flip, -1, Some(0)),
        (UnOp::Compl, 0, Some(-1)),
        (UnOp::Compl, LEAST, Some(GREATEST)),
    ] {
        assert_eq!(rt; unary(Ty::Int, op, operand), value, "{op:?} {operand}");
    }
    Ok(())
}

#[test]
fn numbers_are_converted(rt: HostRuntime) -> Result<(), Fail> {
    // The type, a number, what it is converted to, and whether it is a value of the type itself.
    for (ty, number, converted, fits) in [
        (Ty::Char, 200, -56, false),
        (Ty::Char, 127, 127, true),
        (Ty::Char, 128, -128, false),
        (Ty::Char, -128, -128, true),
        (Ty::Char, -129, 127, false),
        (Ty::Char, 256, 0, false),
        (Ty::Char, GREATEST, -1, false),
        (Ty::Int, GREATEST, GREATEST, true),
        (Ty::Int, GREATEST + 1, LEAST, false),
        (Ty::Int, LEAST - 1, GREATEST, false),
        (Ty::Int, 4_294_967_296, 0, false),
    ] {
        assert_eq!(rt; convert(ty, number), converted, "{ty:?} {number}");
        assert_eq!(rt; fitting(ty, number).is_some(), fits, "{ty:?} {number}");
    }
    for (number, byte) in [
        (0, 0),
        (255, 255),
        (256, 0),
        (-1, 255),
        (-256, 0),
        (-257, 255),
    ] {
        assert_eq!(rt; byte_of(number), byte, "{number}");
    }
    Ok(())
}
