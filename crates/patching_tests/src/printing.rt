//! The text of expressions: each operator, and operands in and out of parentheses.

use crate::exprs::{
    Built, a, b, binary, cast, choice, comma, constant, element, name, one, pair, sum, unary,
};
use c_tree::{BinOp, Ty, UnOp};
use patch_text::print_expr;
use std::alloc::Global;
use std::process::Abort;
use std::test::Fail;

/// Checks the text of an expression.
fn expect(rt: &impl Abort, alloc: Global, built: Built, text: &str) -> Result<(), Fail> {
    let printed = print_expr(alloc, &built?)?;
    assert_eq!(rt; printed.as_slice(), text.as_bytes(), "{text}");
    Ok(())
}

/// Each operator between two operands, with its text.
const INFIX: [(BinOp, &str); 18] = [
    (BinOp::Mul, "a * b"),
    (BinOp::Div, "a / b"),
    (BinOp::Rem, "a % b"),
    (BinOp::Add, "a + b"),
    (BinOp::Sub, "a - b"),
    (BinOp::Shl, "a << b"),
    (BinOp::Shr, "a >> b"),
    (BinOp::Lt, "a < b"),
    (BinOp::Le, "a <= b"),
    (BinOp::Gt, "a > b"),
    (BinOp::Ge, "a >= b"),
    (BinOp::Eq, "a == b"),
    (BinOp::Ne, "a != b"),
    (BinOp::BitAnd, "a & b"),
    (BinOp::BitXor, "a ^ b"),
    (BinOp::BitOr, "a | b"),
    (BinOp::Both, "a && b"),
    (BinOp::Either, "a || b"),
];

#[test]
fn spells_operators(rt: HostRuntime) -> Result<(), Fail> {
    let alloc = rt.alloc();
    for (op, text) in INFIX {
        expect(
            &rt,
            alloc,
            binary(alloc, op, name(alloc, b"a"), name(alloc, b"b")),
            text,
        )?;
    }
    let prefix = [
        (UnOp::Plus, "+x"),
        (UnOp::Minus, "-x"),
        (UnOp::Flip, "!x"),
        (UnOp::Compl, "~x"),
    ];
    for (op, text) in prefix {
        expect(&rt, alloc, unary(alloc, op, name(alloc, b"x")), text)?;
    }
    for (ty, text) in [(Ty::Int, "(int) x"), (Ty::Char, "(char) x")] {
        expect(&rt, alloc, cast(alloc, ty, name(alloc, b"x")), text)?;
    }
    Ok(())
}

#[test]
fn puts_operands_in_parentheses(rt: HostRuntime) -> Result<(), Fail> {
    let alloc = rt.alloc();
    expect(&rt, alloc, constant(alloc, 10, b"'\\n'"), "'\\n'")?;
    expect(&rt, alloc, a(alloc), "a")?;
    expect(
        &rt,
        alloc,
        element(alloc, b"cells", sum(alloc)),
        "cells[a + 1]",
    )?;
    expect(
        &rt,
        alloc,
        binary(alloc, BinOp::Gt, sum(alloc), b(alloc)),
        "(a + 1) > b",
    )?;
    expect(
        &rt,
        alloc,
        binary(alloc, BinOp::Sub, b(alloc), sum(alloc)),
        "b - (a + 1)",
    )?;
    expect(&rt, alloc, unary(alloc, UnOp::Flip, pair(alloc)), "!(a, 1)")
}

#[test]
fn puts_nested_parts_in_parentheses(rt: HostRuntime) -> Result<(), Fail> {
    let alloc = rt.alloc();
    expect(
        &rt,
        alloc,
        unary(alloc, UnOp::Minus, unary(alloc, UnOp::Minus, one(alloc))),
        "-(-1)",
    )?;
    expect(
        &rt,
        alloc,
        cast(alloc, Ty::Int, cast(alloc, Ty::Char, a(alloc))),
        "(int) ((char) a)",
    )?;
    expect(
        &rt,
        alloc,
        choice(alloc, pair(alloc), b(alloc), sum(alloc)),
        "(a, 1) ? b : (a + 1)",
    )?;
    expect(
        &rt,
        alloc,
        comma(
            alloc,
            sum(alloc),
            choice(alloc, a(alloc), one(alloc), b(alloc)),
        ),
        "(a + 1), (a ? 1 : b)",
    )?;
    let inner = element(alloc, b"from", one(alloc));
    expect(
        &rt,
        alloc,
        unary(alloc, UnOp::Compl, element(alloc, b"to", inner)),
        "~to[from[1]]",
    )
}
