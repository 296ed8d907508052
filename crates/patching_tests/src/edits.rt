//! Candidates of small programs, each by the text of the expression that it makes.

use crate::build::checked;
use c_tree::{Expr, Loc, NoMemory, Text};
use c_types::Typed;
use patch_text::print_expr;
use schemas::{Atom, atoms, bounds, candidates, candidates_can_be_made, edited, locations};
use std::alloc::Global;
use std::process::Abort;
use std::test::Fail;

/// The expression that the candidate of that number makes, if there is so many.
fn made(
    alloc: Global,
    program: &Typed,
    loc: &Loc,
    cost: u8,
    i: usize,
) -> Result<Option<Expr>, NoMemory> {
    let edits = candidates(alloc, program, loc, cost)?;
    candidates_can_be_made();
    if i >= edits.len() {
        return Ok(None);
    }
    Ok(Some(edited(alloc, program, loc, &edits[i])?))
}

/// The text of the expression that the candidate of that number makes.
fn made_text(alloc: Global, program: &Typed, loc: &Loc, cost: u8, i: usize) -> Result<Text, Fail> {
    let e = made(alloc, program, loc, cost, i)?.ok_or("no such candidate")?;
    Ok(print_expr(alloc, &e)?)
}

/// The location of that number.
fn location(alloc: Global, program: &Typed, l: usize) -> Result<Loc, Fail> {
    Ok(*locations(alloc, program)?.get(l).ok_or("no such location")?)
}

/// Checks how many candidates of a cost there are, and the first of them.
pub fn expect(
    rt: &impl Abort,
    alloc: Global,
    program: &Typed,
    l: usize,
    cost: u8,
    count: usize,
    first: &[&str],
) -> Result<(), Fail> {
    let loc = location(alloc, program, l)?;
    assert_eq!(rt; candidates(alloc, program, &loc, cost)?.len(), count);
    for (i, text) in first.iter().enumerate() {
        let made = made_text(alloc, program, &loc, cost, i)?;
        assert_eq!(rt; made.as_slice(), text.as_bytes(), "{text}");
    }
    Ok(())
}

/// Checks the atoms of a location by their words.
fn expect_atoms(
    rt: &impl Abort,
    alloc: Global,
    program: &Typed,
    l: usize,
    words: &[&str],
) -> Result<(), Fail> {
    let loc = location(alloc, program, l)?;
    let found = atoms(alloc, program, &loc)?;
    assert_eq!(rt; found.len(), words.len());
    for (atom, word) in found.iter().zip(words) {
        let found = match atom {
            Atom::Var { word, .. } => word,
            Atom::Num { word, .. } => word,
        };
        assert_eq!(rt; found.as_slice(), word.as_bytes(), "{word}");
    }
    Ok(())
}

/// The lesser of two numbers that are read.
const LESSER: &str = "#include <stdio.h>
int main(void) {
    int a, b;
    scanf(\"%d\", &a);
    scanf(\"%d\", &b);
    if (a < b)
        printf(\"%d\\n\", a);
    else
        printf(\"%d\\n\", b);
    return 0;
}
";

#[test]
fn a_comparison_has_candidates_of_five_costs(rt: HostRuntime) -> Result<(), Fail> {
    let alloc = rt.alloc();
    let program = checked(alloc, LESSER.as_bytes())?;
    expect_atoms(&rt, alloc, &program, 2, &["b", "a", "0", "1"])?;
    let first = ["a == b", "a != b", "a <= b", "a > b", "a >= b"];
    expect(&rt, alloc, &program, 2, 1, 5, &first)?;
    let second = [
        "b < b",
        "0 < b",
        "1 < b",
        "a < a",
        "a < 0",
        "a < 1",
        "a < (b + 1)",
        "a < (b - 1)",
    ];
    expect(&rt, alloc, &program, 2, 2, 8, &second)?;
    expect(&rt, alloc, &program, 2, 3, 1, &["!(a < b)"])?;
    let fourth = [
        "(a < b) && (b == a)",
        "(a < b) && (b != a)",
        "(a < b) && (b < a)",
        "(a < b) && (b <= a)",
        "(a < b) && (b > a)",
        "(a < b) && (b >= a)",
        "(a < b) && (b == 0)",
    ];
    expect(&rt, alloc, &program, 2, 4, 30, &fourth)?;
    expect(&rt, alloc, &program, 2, 5, 30, &["(a < b) || (b == a)"])?;
    expect(&rt, alloc, &program, 2, 6, 0, &[])
}

#[test]
fn a_statement_has_guards(rt: HostRuntime) -> Result<(), Fail> {
    let alloc = rt.alloc();
    let program = checked(alloc, LESSER.as_bytes())?;
    for cost in [1, 2, 3, 4, 5] {
        expect(&rt, alloc, &program, 0, cost, 0, &[])?;
    }
    expect(
        &rt,
        alloc,
        &program,
        0,
        6,
        30,
        &["b == a", "b != a", "b < a"],
    )
}

#[test]
fn a_right_side_has_candidates_of_three_costs(rt: HostRuntime) -> Result<(), Fail> {
    let alloc = rt.alloc();
    let source = b"int main(void) { int a = 7; int b; b = a - 1; return b; }";
    let program = checked(alloc, source)?;
    // The locations: 7, `b = a - 1;`, `a - 1`, `return b;`, b.
    expect_atoms(&rt, alloc, &program, 2, &["b", "a", "0", "1", "7"])?;
    let first = ["a + 1", "a * 1", "a / 1", "a % 1"];
    expect(&rt, alloc, &program, 2, 1, 4, &first)?;
    let second = [
        "b - 1",
        "0 - 1",
        "1 - 1",
        "7 - 1",
        "a - b",
        "a - a",
        "a - 0",
        "a - 7",
        "(a - 1) + 1",
        "(a - 1) - 1",
    ];
    expect(&rt, alloc, &program, 2, 2, 10, &second)?;
    expect(&rt, alloc, &program, 2, 3, 5, &["b", "a", "0", "1", "7"])?;
    expect(&rt, alloc, &program, 2, 4, 0, &[])?;
    // At the initialiser, `a` isn't visible yet: of the atoms 0, 1 and 7 the last is the old expression.
    expect_atoms(&rt, alloc, &program, 0, &["0", "1", "7"])?;
    expect(&rt, alloc, &program, 0, 1, 0, &[])?;
    expect(&rt, alloc, &program, 0, 2, 4, &["0", "1", "7 + 1", "7 - 1"])?;
    // 0 and 1 were made at cost 2.
    expect(&rt, alloc, &program, 0, 3, 0, &[])
}

#[test]
fn an_initialiser_sees_neither_its_name_nor_one_that_it_hides(rt: HostRuntime) -> Result<(), Fail> {
    let alloc = rt.alloc();
    let source = b"int main(void) { int y = 2; int x = 3; { int x = y; putchar(x); } return 0; }";
    let program = checked(alloc, source)?;
    expect_atoms(&rt, alloc, &program, 2, &["y", "0", "1", "2", "3"])
}

#[test]
fn an_impure_condition_is_only_narrowed_and_widened(rt: HostRuntime) -> Result<(), Fail> {
    let alloc = rt.alloc();
    let source = b"#include <stdio.h>
int main(void) { int c; while ((c = getchar()) != EOF) putchar(c); return 0; }";
    let program = checked(alloc, source)?;
    // The locations: the condition, `getchar()`, `putchar(c);`, `return 0;`, 0.
    expect_atoms(&rt, alloc, &program, 0, &["c", "0", "1", "EOF"])?;
    for cost in [1, 2, 3] {
        expect(&rt, alloc, &program, 0, cost, 0, &[])?;
    }
    expect(&rt, alloc, &program, 0, 4, 18, &[])?;
    expect(&rt, alloc, &program, 0, 5, 18, &[])?;
    for cost in [1, 2, 3] {
        expect(&rt, alloc, &program, 1, cost, 0, &[])?;
    }
    Ok(())
}

#[test]
fn a_logical_operator_has_the_other_one(rt: HostRuntime) -> Result<(), Fail> {
    let alloc = rt.alloc();
    let source = b"int main(void) { int a, b; if (b != 0 && a / b > 1) putchar('y'); return 0; }";
    let program = checked(alloc, source)?;
    expect_atoms(&rt, alloc, &program, 0, &["b", "a", "0", "1", "'y'"])?;
    expect(
        &rt,
        alloc,
        &program,
        0,
        1,
        1,
        &["(b != 0) || ((a / b) > 1)"],
    )?;
    let second = [
        "(a != 0) && ((a / b) > 1)",
        "(0 != 0) && ((a / b) > 1)",
        "(1 != 0) && ((a / b) > 1)",
        "('y' != 0) && ((a / b) > 1)",
        "(b != b) && ((a / b) > 1)",
    ];
    // Five places with five atoms each, of which one is there already; the operator at the top is no comparison.
    expect(&rt, alloc, &program, 0, 2, 20, &second)?;
    expect(
        &rt,
        alloc,
        &program,
        0,
        3,
        1,
        &["!((b != 0) && ((a / b) > 1))"],
    )
}

#[test]
fn eight_variables_and_four_further_constants_are_atoms(rt: HostRuntime) -> Result<(), Fail> {
    let alloc = rt.alloc();
    let source = b"int a, b, c, d, e, f, g, h, i, k[9];
int main(void) { if (a == b) ; for (;; 2 + 3 + 2 + 4 + 5 + 6) ; }";
    let program = checked(alloc, source)?;
    let words = [
        "i", "h", "g", "f", "e", "d", "c", "b", "0", "1", "2", "3", "4", "5",
    ];
    expect_atoms(&rt, alloc, &program, 0, &words)?;
    expect(&rt, alloc, &program, 0, 1, 5, &[])?;
    // Two places with fourteen atoms each, of which one is there already at the second, and two more.
    expect(&rt, alloc, &program, 0, 2, 29, &["i == b", "h == b"])?;
    expect(&rt, alloc, &program, 0, 3, 1, &[])?;
    expect(&rt, alloc, &program, 0, 4, 456, &["(a == b) && (i == h)"])?;
    expect(&rt, alloc, &program, 0, 5, 456, &["(a == b) || (i == h)"])
}

#[test]
fn macros_are_atoms_by_their_names(rt: HostRuntime) -> Result<(), Fail> {
    let alloc = rt.alloc();
    let source = b"#define MAX 50
int f(int n) { return n + MAX + 50 + 9; }
int a[3] = {7, 8, 9};
int main(void) { int x = 'a'; int b[4] = {2}; return x; }";
    let program = checked(alloc, source)?;
    // The locations: `return ..;` and its value in f; `'a'`, `return x;` and x.
    expect_atoms(&rt, alloc, &program, 0, &["n", "0", "1", "MAX", "9"])?;
    expect_atoms(&rt, alloc, &program, 3, &["x", "0", "1", "'a'", "2"])
}

#[test]
fn bounds_compare_a_variable_with_a_later_atom(rt: HostRuntime) -> Result<(), Fail> {
    let alloc = rt.alloc();
    let program = checked(alloc, LESSER.as_bytes())?;
    let loc = location(alloc, &program, 2)?;
    let atoms = atoms(alloc, &program, &loc)?;
    // b with a, 0 and 1, and a with 0 and 1, by six comparisons each.
    assert_eq!(rt; bounds(alloc, &atoms)?.len(), 30);
    assert_eq!(rt; bounds(alloc, &[])?.len(), 0);
    Ok(())
}
