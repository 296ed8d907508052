//! The limits on live calls and live cells, and which of them comes first.

use crate::run::{ENOUGH, joined, outcome, test_of};
use c_meaning::Outcome;
use std::test::Fail;

/// How a program ends that writes nothing and returns 0. There are 1,048,576 cells.
const CELLS: &[(&str, Outcome)] = &[
    (
        "int main(void) { int a[1048576]; return 0; }",
        Outcome::Passed,
    ),
    (
        "int a[1048576]; int main(void) { return 0; }",
        Outcome::Passed,
    ),
    (
        "char a[1048576]; int main(void) { int i; return 0; }",
        Outcome::Cells,
    ),
    (
        "int main(void) { char a[1048576]; char c; return 0; }",
        Outcome::Cells,
    ),
    (
        "int main(void) { int a[1048575]; char c; return 0; }",
        Outcome::Passed,
    ),
    (
        "int main(void) { int a[1048575], b, c; return 0; }",
        Outcome::Cells,
    ),
    (
        "int main(void) { int a[1048574], b[2]; return 0; }",
        Outcome::Passed,
    ),
    (
        "int main(void) { int a[1048574], b[3]; return 0; }",
        Outcome::Cells,
    ),
    (
        "int main(void) { int a[1048574], b[] = {1, 2}; return 0; }",
        Outcome::Passed,
    ),
    (
        "int main(void) { int a[1048574], b[] = {1, 2, 3}; return 0; }",
        Outcome::Cells,
    ),
    (
        "int b = 1; int main(void) { int a[1048576]; return 0; }",
        Outcome::Cells,
    ),
    // a block gives its cells back at its end
    (
        "int main(void) { int a[1048575]; { int b; } { int c; } int d; return 0; }",
        Outcome::Passed,
    ),
    (
        "int main(void) { int a[1048575]; { int b; { int c; } } return 0; }",
        Outcome::Cells,
    ),
    (
        "int main(void) { { int a[1048576]; } { int a[1048576]; } return 0; }",
        Outcome::Passed,
    ),
    (
        "int main(void) { int a[1048575]; if (1) { int b; } int c; return 0; }",
        Outcome::Passed,
    ),
    // each turn of a loop, and a `for` after its last one
    (
        "int main(void) { int a[1048574], n = 3; while (n--) { int b; } return 0; }",
        Outcome::Passed,
    ),
    (
        "int main(void) { int a[1048575], n = 3; while (n--) { int b; } return 0; }",
        Outcome::Cells,
    ),
    (
        "int main(void) { int a[1048574]; for (int i = 0; i < 3; i++) { int b; } return 0; }",
        Outcome::Passed,
    ),
    (
        "int main(void) { int a[1048575]; for (int i = 0; i < 3; i++) { int b; } return 0; }",
        Outcome::Cells,
    ),
    (
        "int main(void) { int a[1048575]; for (int i = 0; i < 3; i++) ; int c; return 0; }",
        Outcome::Passed,
    ),
    (
        "int n; int main(void) { int a[1048574]; do { int b; n++; } while (n < 3); int c; return 0; }",
        Outcome::Passed,
    ),
    // `break`, `continue` and `return` give back what they leave
    (
        "int main(void) { int a[1048575]; while (1) { int b; break; } int c; return 0; }",
        Outcome::Passed,
    ),
    (
        "int main(void) { int a[1048574]; while (1) { int b; { int c; break; } } int d, e; return 0; }",
        Outcome::Passed,
    ),
    (
        "int main(void) { int a[1048574]; for (int i = 0; ; ) { int b; break; } int d, e; return 0; }",
        Outcome::Passed,
    ),
    (
        "int n; int main(void) { int a[1048574]; while (n++ < 3) { int b; continue; } int c; return 0; }",
        Outcome::Passed,
    ),
    (
        "int main(void) { int a[1048574]; for (int i = 0; i < 3; i++) { int b; if (i) continue; b = 1; } \
return 0; }",
        Outcome::Passed,
    ),
    (
        "void f(void) { int b; { int c; return; } } int main(void) { int a[1048574]; f(); f(); \
int d, e; return 0; }",
        Outcome::Passed,
    ),
    (
        "int f(void) { for (int b = 0; ; ) { int c; return 0; } } \
int main(void) { int a[1048574]; f(); return f(); }",
        Outcome::Passed,
    ),
    (
        "void f(void) { int b; int c; int d; } int main(void) { int a[1048574]; f(); return 0; }",
        Outcome::Cells,
    ),
    // parameters: one cell for each scalar, given back after the call; none for an array
    (
        "void f(int b, char c) { } int main(void) { int a[1048574]; f(1, 2); f(3, 4); return 0; }",
        Outcome::Passed,
    ),
    (
        "void f(int b, char c) { } int main(void) { int a[1048575]; f(1, 2); return 0; }",
        Outcome::Cells,
    ),
    (
        "int f(int b) { return b; } int main(void) { int a[1048575]; return f(f(f(0))); }",
        Outcome::Passed,
    ),
    (
        "void f(int v[]) { v[0] = 1; } int main(void) { int a[1048576]; f(a); return 0; }",
        Outcome::Passed,
    ),
    (
        "void f(int v[], int n) { } int main(void) { int a[1048576]; f(a, 1); return 0; }",
        Outcome::Cells,
    ),
    (
        "void f(int n) { if (n) f(n - 1); } int main(void) { int a[1048573]; f(2); f(2); return 0; }",
        Outcome::Passed,
    ),
    (
        "void f(int n) { if (n) f(n - 1); } int main(void) { int a[1048573]; f(3); return 0; }",
        Outcome::Cells,
    ),
    // objects at file scope one after another
    (
        "int a = 1 / 0, b[1048576]; int main(void) { }",
        Outcome::Trapped,
    ),
    (
        "int b[1048576], a = 1 / 0; int main(void) { }",
        Outcome::Cells,
    ),
];

/// How a program ends that writes nothing and returns 0. There are 256 live calls, `main` among them.
const CALLS: &[(&str, Outcome)] = &[
    (
        "int f(int n) { if (n == 0) return 0; return f(n - 1); } int main(void) { return f(254); }",
        Outcome::Passed,
    ),
    (
        "int f(int n) { if (n == 0) return 0; return f(n - 1); } int main(void) { return f(255); }",
        Outcome::Depth,
    ),
    // calls that have ended don't count, library calls never do
    (
        "int f(int n) { if (n == 0) return 0; return f(n - 1); } \
int main(void) { f(254); f(254); return f(253); }",
        Outcome::Passed,
    ),
    (
        "int f(int n) { if (n == 0) return abs(getchar() + 1); return f(n - 1); } \
int main(void) { return f(254); }",
        Outcome::Passed,
    ),
    (
        "int g(void) { return 0; } int f(int n) { if (n == 0) return g(); return f(n - 1); } \
int main(void) { return f(253); }",
        Outcome::Passed,
    ),
    (
        "int g(void) { return 0; } int f(int n) { if (n == 0) return g(); return f(n - 1); } \
int main(void) { return f(254); }",
        Outcome::Depth,
    ),
    (
        "int n; int main(void) { if (n++ < 255) main(); return 0; }",
        Outcome::Passed,
    ),
    (
        "int n; int main(void) { if (n++ < 256) main(); return 0; }",
        Outcome::Depth,
    ),
    (
        "int g(int n); int f(int n) { return n ? g(n - 1) : 0; } int g(int n) { return n ? f(n - 1) : 0; } \
int main(void) { return f(254); }",
        Outcome::Passed,
    ),
    (
        "int g(int n); int f(int n) { return n ? g(n - 1) : 0; } int g(int n) { return n ? f(n - 1) : 0; } \
int main(void) { return f(255); }",
        Outcome::Depth,
    ),
];

/// What stands before the statements of `main`, where two cells are taken: `f` calls `g` where so many calls of `f` are
/// live; `deeper` calls itself without an end; `traps` does so until its argument traps.
const BEFORE: &str = "int n, m; int g(int k) { return k; } \
int f(void) { if (++n == m) return g(0); return f(); } \
int deeper(int k) { return deeper(k + 1); } \
int traps(int at, int k) { return traps(at, k == at ? 1 / 0 : k + 1); } int main(void) { ";

/// The statements of `main`, the limit on units, and the end.
const ORDER: &[(&str, u64, Outcome)] = &[
    // arguments before Depth
    ("return traps(254, 0);", ENOUGH, Outcome::Trapped),
    ("return traps(255, 0);", ENOUGH, Outcome::Depth),
    // Depth before the unit: each call takes one for its entry and one for its `return`
    ("return deeper(0);", 511, Outcome::Budget),
    ("return deeper(0);", 512, Outcome::Depth),
    // Depth before the cells
    (
        "int a[1048574]; m = 255; return f();",
        ENOUGH,
        Outcome::Depth,
    ),
    (
        "int a[1048574]; m = 254; return f();",
        ENOUGH,
        Outcome::Cells,
    ),
    // the unit before the cells
    ("int a[1048574]; g(1);", 2, Outcome::Budget),
    ("int a[1048574]; g(1);", 3, Outcome::Cells),
    ("int a[1048574], b = 1;", 1, Outcome::Budget),
    ("int a[1048574], b = 1;", 2, Outcome::Cells),
    ("int a[1048574], b;", 1, Outcome::Cells),
    ("int a[1048574]; for (int b = 1;;) ;", 1, Outcome::Budget),
    ("int a[1048574]; for (int b;;) ;", 1, Outcome::Cells),
    // the cells before the initialiser
    ("int a[1048574], b = 1 / 0;", 2, Outcome::Cells),
    ("int a[1048573], b = 1 / 0;", 2, Outcome::Trapped),
    ("int a[1048573], b[2] = {1 / 0};", 2, Outcome::Cells),
    ("int a[1048572], b[2] = {1 / 0};", 2, Outcome::Trapped),
    // arguments before the cells of parameters
    ("int a[1048574]; g(1 / 0);", 2, Outcome::Trapped),
    ("int a[1048573]; g(g(g(1)));", ENOUGH, Outcome::Passed),
    ("int a[1048574]; g(g(1));", 3, Outcome::Cells),
];

#[test]
fn live_calls_are_counted(rt: HostRuntime) -> Result<(), Fail> {
    let alloc = rt.alloc();
    let quiet = test_of(alloc, b"", b"", 0)?;
    for (text, want) in CALLS {
        let found = outcome(alloc, text.as_bytes(), &quiet, ENOUGH)?;
        assert_eq!(rt; found, *want, "at {text}");
    }
    Ok(())
}

#[test]
fn live_cells_are_counted(rt: HostRuntime) -> Result<(), Fail> {
    let alloc = rt.alloc();
    let quiet = test_of(alloc, b"", b"", 0)?;
    for (text, want) in CELLS {
        let found = outcome(alloc, text.as_bytes(), &quiet, ENOUGH)?;
        assert_eq!(rt; found, *want, "at {text}");
    }
    Ok(())
}

#[test]
fn limits_come_in_order(rt: HostRuntime) -> Result<(), Fail> {
    let alloc = rt.alloc();
    let quiet = test_of(alloc, b"", b"", 0)?;
    for (text, limit, want) in ORDER {
        let source = joined(alloc, &[BEFORE, text, " }"])?;
        let found = outcome(alloc, &source, &quiet, *limit)?;
        assert_eq!(rt; found, *want, "at {text}, {limit}");
    }
    Ok(())
}
