//! What is accepted, each beside something that isn't.

use crate::faults::{AFTER, BEFORE};
use crate::files::MAIN;
use crate::source::keeps;
use std::test::Fail;

/// Statements of `main`.
const STATEMENTS: &[&str] = &[
    "",
    ";",
    "{ }",
    "x;",
    "g();",
    "(g());",
    "exit(1);",
    "g(), x;",
    "x = (g(), 1);",
    "for (g(); x; g()) ;",
    "for (exit(0);;) ;",
    "for (;;) ;",
    "f(1);",
    "x = f(f(c));",
    "c = x = a[c] = s[x];",
    "(x) = 1;",
    "((a[0])) = 1;",
    "(a[0])++;",
    "--(x);",
    "++a[x++];",
    "x = a[a[0]];",
    "x += c -= 1;",
    "sum(a, 1);",
    "sum((a), c);",
    "fill(s);",
    "fill(((s)));",
    "scanf(\"%d\", &x);",
    "scanf(\"%d\", &(x));",
    "scanf(\"%d\", &a[0]);",
    "scanf(\"%d\", &((a[x + 1])));",
    "x = scanf(\"\\45d\", &x);",
    "printf(\"\");",
    "printf(\"%%\");",
    "printf(\"%%%d%c%%\", 1, c);",
    "printf(\"\\45d\", x);",
    "x = printf(\"a\\n\");",
    "printf(\"%d\", printf(\"%d\", 1));",
    "putchar(getchar());",
    "x = abs(-x);",
    "int y = y;",
    "int y = 1, z = y;",
    "int y[] = {1, 2};",
    "int y[2] = {1};",
    "int y[2] = {1, 2,};",
    "char y[1] = {300};",
    "int y[1];",
    "int y[1048576];",
    "int y['a'];",
    "int y[010] = {1, 2, 3, 4, 5, 6, 7, 8};",
    "{ int y; } { char y[2]; }",
    "int x; { int x; }",
    "int f = 1; x = f;",
    "int a = 1; a = a + 1;",
    "int printf = 1; printf++;",
    "int putchar[2]; putchar[0] = 1;",
    "while (x) { if (x) break; else continue; }",
    "do break; while (x);",
    "do { { continue; } } while (x);",
    "for (;;) { while (x) ; break; }",
    "if (x) while (x) continue;",
    "{ return 1; }",
    "return main();",
    "int main; main = 1;",
];

/// Files.
const FILES: &[&str] = &[
    "",
    "int x; char c; int a[2], b;",
    "int x = 1 + 2 * -3, y = (int) 'a' << 2, z = 1 ? ~0 : !1;",
    "char s[] = {'a', (char) 300, EOF}; int a[3] = {1 / 0, 2,};",
    "#define N 3\nint a[N];",
    "int a[1048576];",
    "int f(void); int f(void) { return 1; }",
    "int f(int a); int f(int b); int f(int c) { return c; } int f(int d);",
    "int f(); int f(void) { return 1; } int f();",
    "int f(int a[3]); int f(int a[]) { return a[0]; } int f(int b[0]);",
    "int f(int n) { return n ? f(n - 1) : 0; }",
    "int f(int n); int g(int n) { return f(n); } int f(int n) { return g(n); }",
    "int f(int n); int g(int n);",
    "int f(int f) { return f; }",
    "int f(int a) { { int a; a = 1; } return a; }",
    "void f(void) { return; } void g(void) { } int h(void) { }",
    "char f(char c) { return c + 1; } int x; int g(void) { return f(300); }",
    "int x; int f(void) { return x; } int g(int x) { return x; }",
    "int f(int printf) { return printf; } int g(void) { return printf(\"\"); }",
    "void f(int v[], char s[]) { f(v, s); }",
    "int a[2]; int f(int v[]) { return v[0]; } int g(int v[]) { return f(v) + f(a); }",
    "int main(void);",
];

/// Files with their `main`.
const WHOLE: &[&str] = &[
    "int main(void) { }",
    "int main() { return 0; }",
    "int main(void) { return 0; } int main(void);",
    "int main(void) { return 0; } int f(void) { return main(); }",
    "int main(void) { return 0; } int f(void) { int main = 1; return main; }",
];

#[test]
fn what_is_accepted(rt: HostRuntime) -> Result<(), Fail> {
    for (rows, before, after) in [
        (STATEMENTS, BEFORE, AFTER),
        (FILES, "", MAIN),
        (WHOLE, "", ""),
    ] {
        for row in rows {
            keeps(rt.alloc(), before, row, after)?;
        }
    }
    Ok(())
}
