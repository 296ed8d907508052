//! Where a unit is taken, by hand: the entry of `main` is the first one.

use crate::run::{outcome, test_of};
use c_meaning::Outcome;
use std::test::Fail;

/// A program that writes nothing and returns 0, and the units that its run takes: with one fewer it doesn't end.
const TAKEN: &[(&str, u64)] = &[
    // nothing but the entry
    ("int main(void) { }", 1),
    ("int main(void) { ; { } { ; ; } }", 1),
    ("int main(void) { int a; int b[5]; char c, d; }", 1),
    ("int a = 1 + 2; int b[2] = {1, 2}; int main(void) { }", 1),
    // expression statements
    ("int main(void) { 1; }", 2),
    ("int main(void) { 1; { 2; } ; 3; }", 4),
    (
        "int a[3]; int main(void) { a[0] = a[1] = 1 && 2 ? 3 : (4, 5); }",
        2,
    ),
    ("int main(void) { abs(abs(-1)); }", 2),
    // declarators with an initialiser
    ("int main(void) { int a = 1; }", 2),
    ("int main(void) { int a = 1, b, c = 2; }", 3),
    ("int main(void) { int a[3] = {1, 2, 3}; }", 2),
    ("int main(void) { int a[3] = {1}, b[] = {1, 2}; }", 3),
    // `if`
    ("int main(void) { if (0) ; }", 2),
    ("int main(void) { if (1) ; else ; }", 2),
    ("int main(void) { if (0) 1; else 2; }", 3),
    ("int main(void) { if (1) if (0) 1; }", 3),
    ("int main(void) { if (0) 1; else if (1) 2; }", 4),
    // each test of a loop
    ("int main(void) { while (0) ; }", 2),
    ("int n; int main(void) { while (n < 3) n++; }", 8),
    ("int n; int main(void) { while (n++ < 3) ; }", 5),
    ("int n; int main(void) { while (n++ < 3) { } }", 5),
    ("int main(void) { do ; while (0); }", 2),
    ("int n; int main(void) { do n++; while (n < 3); }", 7),
    ("int n; int main(void) { for (n = 0; n < 3; n++) ; }", 5),
    ("int n; int main(void) { for (; n < 3;) n++; }", 8),
    ("int main(void) { for (int i = 0; i < 3; i++) ; }", 6),
    (
        "int main(void) { for (int i = 0, j = 1, k; i < j; i++) ; }",
        5,
    ),
    ("int main(void) { for (int i; 0; i) ; }", 2),
    ("int main(void) { for (1; 0; 2) ; }", 2),
    (
        "int main(void) { for (int i = 0; i < 2; i++) for (int j = 0; j < 2; j++) ; }",
        13,
    ),
    // `break`, `continue`, `return`
    ("int main(void) { while (1) break; }", 3),
    ("int main(void) { for (;;) break; }", 3),
    ("int main(void) { do break; while (1); }", 2),
    ("int main(void) { do continue; while (0); }", 3),
    ("int n; int main(void) { while (n++ < 2) continue; }", 6),
    ("int n; int main(void) { for (; n < 2; n++) continue; }", 6),
    (
        "int main(void) { for (int i = 0;; i++) { if (i == 1) break; } }",
        7,
    ),
    ("int main(void) { return 0; }", 2),
    ("int main(void) { for (;;) return 0; }", 3),
    ("int main(void) { { { return 0; } } }", 2),
    // the entry into a body; arguments and parameters cost nothing
    ("void f(void) { } int main(void) { f(); }", 3),
    ("void f(void) { return; } int main(void) { f(); }", 4),
    (
        "int f(void) { return 0; } int main(void) { return f() + f(); }",
        6,
    ),
    (
        "int f(int a, int b[]) { return a; } int b[3]; int main(void) { f(1 + 2 * 3, b); }",
        4,
    ),
    (
        "int f(int n) { return n; } int main(void) { return f(f(f(0))); }",
        8,
    ),
    (
        "int f(int n) { if (n == 0) return 0; return f(n - 1); } int main(void) { return f(2); }",
        11,
    ),
    ("void f(void) { } int main(void) { for (f(); 0; f()) ; }", 3),
    (
        "void f(void) { } int main(void) { (f(), 1) + (f(), 2); }",
        4,
    ),
    (
        "int n; int main(void) { if (n++ < 2) main(); return 0; }",
        11,
    ),
];

/// How a program that writes nothing ends in a run of at most so many units: what is at fault comes after the unit.
const CUT: &[(&str, u64, Outcome)] = &[
    ("int main(void) { 1 / 0; }", 1, Outcome::Budget),
    ("int main(void) { 1 / 0; }", 2, Outcome::Trapped),
    ("int main(void) { int a = 1 / 0; }", 1, Outcome::Budget),
    ("int main(void) { int a = 1 / 0; }", 2, Outcome::Trapped),
    ("int main(void) { int a[2] = {1 / 0}; }", 1, Outcome::Budget),
    (
        "int main(void) { int a[2] = {1 / 0}; }",
        2,
        Outcome::Trapped,
    ),
    ("int main(void) { if (1 / 0) ; }", 1, Outcome::Budget),
    ("int main(void) { if (1 / 0) ; }", 2, Outcome::Trapped),
    ("int main(void) { while (1 / 0) ; }", 1, Outcome::Budget),
    ("int main(void) { while (1 / 0) ; }", 2, Outcome::Trapped),
    ("int main(void) { do ; while (1 / 0); }", 1, Outcome::Budget),
    (
        "int main(void) { do ; while (1 / 0); }",
        2,
        Outcome::Trapped,
    ),
    ("int main(void) { for (; 1 / 0;) ; }", 1, Outcome::Budget),
    ("int main(void) { for (; 1 / 0;) ; }", 2, Outcome::Trapped),
    ("int main(void) { return 1 / 0; }", 1, Outcome::Budget),
    ("int main(void) { return 1 / 0; }", 2, Outcome::Trapped),
    // the first clause and the step of a `for` take none
    ("int main(void) { for (1 / 0;;) ; }", 1, Outcome::Trapped),
    ("int main(void) { for (;; 1 / 0) ; }", 1, Outcome::Budget),
    ("int main(void) { for (;; 1 / 0) ; }", 2, Outcome::Trapped),
    (
        "int main(void) { for (int i = 1 / 0;;) ; }",
        1,
        Outcome::Budget,
    ),
    (
        "int main(void) { for (int i = 1 / 0;;) ; }",
        2,
        Outcome::Trapped,
    ),
    // an initialiser at file scope takes none
    ("int a = 1 / 0; int main(void) { }", 1, Outcome::Trapped),
    // arguments come before the unit of the entry
    (
        "void f(int n) { } int main(void) { f(1 / 0); }",
        2,
        Outcome::Trapped,
    ),
    (
        "void f(int n) { } int main(void) { f(1); }",
        2,
        Outcome::Budget,
    ),
    (
        "void f(int n) { 1 / 0; } int main(void) { f(1); }",
        3,
        Outcome::Budget,
    ),
    (
        "void f(int n) { 1 / 0; } int main(void) { f(1); }",
        4,
        Outcome::Trapped,
    ),
    // loops without an end
    ("int main(void) { for (;;) ; }", 1_000, Outcome::Budget),
    ("int main(void) { while (1) ; }", 1_000, Outcome::Budget),
    (
        "int main(void) { do continue; while (1); }",
        1_000,
        Outcome::Budget,
    ),
    // the return value of `main`
    ("int main(void) { return 7; }", 1, Outcome::Budget),
    ("int main(void) { return 7; }", 2, Outcome::Status(7)),
];

#[test]
fn units_are_taken(rt: HostRuntime) -> Result<(), Fail> {
    let alloc = rt.alloc();
    let quiet = test_of(alloc, b"", b"", 0)?;
    for (text, units) in TAKEN {
        let source = text.as_bytes();
        let found = outcome(alloc, source, &quiet, *units)?;
        assert_eq!(rt; found, Outcome::Passed, "at {text}");
        if *units > 1 {
            let found = outcome(alloc, source, &quiet, units.wrapping_sub(1))?;
            assert_eq!(rt; found, Outcome::Budget, "at {text}");
        }
    }
    for (text, limit, want) in CUT {
        let found = outcome(alloc, text.as_bytes(), &quiet, *limit)?;
        assert_eq!(rt; found, *want, "at {text}, {limit}");
    }
    Ok(())
}
