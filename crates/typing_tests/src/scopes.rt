//! Where a name is in scope (C11 6.2.1), and where it isn't any more: the mark is at a use that isn't.

use crate::files::MAIN;
use crate::source::{Rule, breaks, keeps};
use std::test::Fail;

/// Uses outside the scope of the name.
const OUTSIDE: &[&str] = &[
    // before the declaration
    "int main(void) { @y = 1; int y; return y; }",
    "int main(void) { int z = @y, y = 1; return z; }",
    "int f(void) { return @y; } int y; int main(void) { return y; }",
    "int main(void) { int z[2] = {@y, 1}; int y; return 0; }",
    // after the block
    "int main(void) { { int y; y = 1; } @y = 1; return 0; }",
    "int main(void) { if (1) { int y; } else { @y = 1; } return 0; }",
    "int main(void) { while (1) { int y; break; } return @y; }",
    "int main(void) { do { int y; y = 1; } while (@y); return 0; }",
    "int main(void) { { { int y; } @y = 1; } return 0; }",
    // after the `for`, and in it before its declaration
    "int main(void) { for (int i = 0; i < 3; i++) ; return @i; }",
    "int main(void) { for (int i = 0; i < 3; i++) i; @i = 1; return 0; }",
    "int main(void) { for (int i = @j, j = 0; j; j++) ; return 0; }",
    "int main(void) { for (int i = 0; i < 3; @j++) { int j; j = 1; } return 0; }",
    "int main(void) { for (int i = 0; @j; i++) { int j; j = 1; } return 0; }",
    // in another function, and after a prototype
    "int f(int a) { return a; } int main(void) { return @a; }",
    "int f(void) { int y; y = 1; return y; } int main(void) { return @y; }",
    "int f(int a); int main(void) { return @a; } int f(int b) { return b; }",
    "int f(int a); int f(int b) { return @a; } int main(void) { return 0; }",
    // a function before its first declaration, or with no definition
    "int main(void) { return @f(); } int f(void) { return 1; }",
    "int g(void) { return @f(); } int f(void) { return 1; } int main(void) { return f(); }",
    "int f(void); int main(void) { return @f(); }",
    "int f(void); int f(void); int main(void) { return @f(); } int f(void);",
];

/// Uses in the scope of the name.
const INSIDE: &[&str] = &[
    "int main(void) { int y = y; return y; }",
    "int main(void) { int y = 1, z = y; return z; }",
    "int main(void) { int y[2] = {1, y[0]}; return y[1]; }",
    "int y; int f(void) { return y; } int main(void) { return y; }",
    "int main(void) { int y; { y = 1; { y = 2; } } while (y) y = 0; return y; }",
    "int main(void) { for (int i = 0, j = i; i < j; i++, j--) { i = j; } return 0; }",
    "int main(void) { for (int i = 0; i < 3; i++) i = i + 1; return 0; }",
    "int main(void) { for (int i = 0; i < 3; i++) { int i = 5; i = i + 1; } return 0; }",
    "int main(void) { for (int i = 0; i < 3; i++) for (int i = 0; i < 2; i++) ; return 0; }",
    "int f(int a, char b[]) { return a + b[a]; } int main(void) { return 0; }",
    "int f(void) { return 1; } int main(void) { return f(); }",
    "int f(void); int main(void) { return f(); } int f(void) { return 1; }",
    "int f(int n) { return f(n - 1); } int main(void) { return f(1); }",
    "int f(int n); int main(void) { return 0; }",
];

/// A name that hides another: only the hidden one could stand there.
const HIDDEN: &[&str] = &[
    "int x[2]; int main(void) { int x; x = 1; return @x[0]; }",
    "int x; int f(int x[]) { return @x; } int main(void) { return x; }",
    "int f(int x[]) { { int x; x = 1; } return @x; } int main(void) { return 0; }",
    "int main(void) { int x; { int x[2]; @x = 1; } return 0; }",
    "int main(void) { int x; for (int x[2]; ; ) return @x; }",
    "int main(void) { for (int x = 0; x < 2; x++) { int x[2]; return @x; } return 0; }",
    "int main(void) { int x[2]; for (int x = 0; x < 2; x++) ; return @x; }",
    "int f(int f) { return @f(1); } int main(void) { return 0; }",
    "int main(void) { int putchar; @putchar(1); return 0; }",
    "int main(void) { { int abs = 1; abs = abs; } return @abs; }",
];

#[test]
fn names_are_visible_in_their_scope(rt: HostRuntime) -> Result<(), Fail> {
    let alloc = rt.alloc();
    for row in OUTSIDE {
        breaks(alloc, Rule::Unknown, "", row, "")?;
    }
    for row in INSIDE {
        keeps(alloc, "", row, "")?;
    }
    for row in HIDDEN {
        breaks(alloc, Rule::WrongKind, "", row, "")?;
    }
    breaks(
        alloc,
        Rule::Unknown,
        "int f(int a, int b[]);",
        " int y = @b;",
        MAIN,
    )
}
