//! Whole lists of candidates, with what is left out since it is the old expression or an earlier candidate.

use crate::build::checked;
use crate::edits::expect;
use crate::exprs::greater;
use c_tree::{BinOp, Expr, Slot, Span, Text};
use patch_text::print_expr;
use schemas::{Atom, Bound, Edit, bound_expr, edited_expr};
use std::alloc::Global;
use std::process::Abort;
use std::test::Fail;

/// The locations are 1, `a = a + 1;`, `a + 1`, `a == 1`, `a = 0x0;`, `0x0`, `return a;` and a. The atoms are a, 0 and 1,
/// but for the first, where a isn't visible yet.
const SMALL: &str = "int main(void) { int a = 1; a = a + 1; if (a == 1) a = 0x0; return a; }";

/// Locations of it by number, with the candidates of a cost.
const LISTED: [(usize, u8, &[&str]); 26] = [
    // 1 is there already.
    (0, 1, &[]),
    (0, 2, &["0", "1 + 1", "1 - 1"]),
    (0, 3, &[]),
    (1, 1, &[]),
    (1, 2, &[]),
    (1, 3, &[]),
    (2, 1, &["a - 1", "a * 1", "a / 1", "a % 1"]),
    (
        2,
        2,
        &[
            "0 + 1",
            "1 + 1",
            "a + a",
            "a + 0",
            "(a + 1) + 1",
            "(a + 1) - 1",
        ],
    ),
    (2, 3, &["a", "0", "1"]),
    (2, 4, &[]),
    (2, 6, &[]),
    (3, 1, &["a != 1", "a < 1", "a <= 1", "a > 1", "a >= 1"]),
    (
        3,
        2,
        &[
            "0 == 1",
            "1 == 1",
            "a == a",
            "a == 0",
            "a == (1 + 1)",
            "a == (1 - 1)",
        ],
    ),
    (3, 3, &["!(a == 1)"]),
    (
        3,
        4,
        &[
            "(a == 1) && (a == 0)",
            "(a == 1) && (a != 0)",
            "(a == 1) && (a < 0)",
            "(a == 1) && (a <= 0)",
            "(a == 1) && (a > 0)",
            "(a == 1) && (a >= 0)",
            "(a == 1) && (a == 1)",
            "(a == 1) && (a != 1)",
            "(a == 1) && (a < 1)",
            "(a == 1) && (a <= 1)",
            "(a == 1) && (a > 1)",
            "(a == 1) && (a >= 1)",
        ],
    ),
    (
        3,
        5,
        &[
            "(a == 1) || (a == 0)",
            "(a == 1) || (a != 0)",
            "(a == 1) || (a < 0)",
            "(a == 1) || (a <= 0)",
            "(a == 1) || (a > 0)",
            "(a == 1) || (a >= 0)",
            "(a == 1) || (a == 1)",
            "(a == 1) || (a != 1)",
            "(a == 1) || (a < 1)",
            "(a == 1) || (a <= 1)",
            "(a == 1) || (a > 1)",
            "(a == 1) || (a >= 1)",
        ],
    ),
    (3, 6, &[]),
    (
        4,
        6,
        &[
            "a == 0", "a != 0", "a < 0", "a <= 0", "a > 0", "a >= 0", "a == 1", "a != 1", "a < 1",
            "a <= 1", "a > 1", "a >= 1",
        ],
    ),
    // 0 is there already, in another spelling; as atoms a and 1 come at cost 2.
    (5, 1, &[]),
    (5, 2, &["a", "1", "0x0 + 1", "0x0 - 1"]),
    (5, 3, &[]),
    (6, 2, &[]),
    (7, 1, &[]),
    (7, 2, &["0", "1", "a + 1", "a - 1"]),
    (7, 3, &[]),
    (7, 5, &[]),
];

/// The condition, location 1, has an element in it, whose index is replaced, and its name isn't. The atoms are a, 0, 1.
const ELEMENT: &str = "int v[2]; int main(void) { int a = 1; if (v[a] < 1) ; }";

/// The value, location 2, has ten names in it. The atoms are a, 0, 1.
const TEN: &str = "int main(void) { int a = 1; return a + a + a + a + a + a + a + a + a + a; }";

/// Checks that the candidates of a cost make the expressions of these texts, and no further ones.
fn expect_all(
    rt: &impl Abort,
    alloc: Global,
    source: &str,
    row: (usize, u8, &[&str]),
) -> Result<(), Fail> {
    let (l, cost, texts) = row;
    let program = checked(alloc, source.as_bytes())?;
    expect(rt, alloc, &program, l, cost, texts.len(), texts)
}

/// Checks the text of an expression.
fn expect_text(rt: &impl Abort, alloc: Global, e: &Expr, text: &str) -> Result<(), Fail> {
    let printed = print_expr(alloc, e)?;
    assert_eq!(rt; printed.as_slice(), text.as_bytes(), "{text}");
    Ok(())
}

#[test]
fn candidates_stand_in_their_order(rt: HostRuntime) -> Result<(), Fail> {
    for row in LISTED {
        expect_all(&rt, rt.alloc(), SMALL, row)?;
    }
    Ok(())
}

#[test]
fn an_index_is_replaced_and_a_name_of_an_array_is_not(rt: HostRuntime) -> Result<(), Fail> {
    let alloc = rt.alloc();
    let second = [
        "v[0] < 1",
        "v[1] < 1",
        "v[a] < a",
        "v[a] < 0",
        "v[a] < (1 + 1)",
        "v[a] < (1 - 1)",
    ];
    expect_all(&rt, alloc, ELEMENT, (1, 2, second.as_slice()))
}

#[test]
fn the_first_eight_names_are_replaced(rt: HostRuntime) -> Result<(), Fail> {
    let alloc = rt.alloc();
    let program = checked(alloc, TEN.as_bytes())?;
    // Each by 0 and by 1; and itself plus and minus 1.
    expect(&rt, alloc, &program, 2, 2, 18, &[])
}

#[test]
fn expressions_are_edited(rt: HostRuntime) -> Result<(), Fail> {
    let alloc = rt.alloc();
    let word = Text::new(b"a".to_vec(alloc)?);
    let slot = Slot::Local(0);
    let left = Atom::Var { word, slot };
    let word = Text::new(b"'\\0'".to_vec(alloc)?);
    let right = Atom::Num { value: 0, word };
    let op = BinOp::Le;
    let bound = Bound { left, op, right };
    let made = bound_expr(alloc, &bound, Span { from: 3, to: 8 })?;
    expect_text(&rt, alloc, &made, "a <= '\\0'")?;
    for (edit, text) in [
        (Edit::Op(BinOp::Ge), "a >= b"),
        (Edit::Side(false), "a > (b - 1)"),
        (Edit::Negate, "!(a > b)"),
        (Edit::Widen(bound), "(a > b) || (a <= '\\0')"),
    ] {
        let made = edited_expr(alloc, &greater(alloc)?, &edit)?;
        expect_text(&rt, alloc, &made, text)?;
    }
    Ok(())
}
