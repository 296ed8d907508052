//! Functions, arrays and objects: the status that `main` returns says what was computed.

use crate::run::{ENOUGH, outcome, test_of};
use c_meaning::Outcome;
use std::test::Fail;

/// A program that writes nothing, and the value that `main` returns.
const VALUES: &[(&str, u8)] = &[
    // an array parameter is the caller's array
    (
        "void f(int v[]) { v[1] = 7; } int main(void) { int a[2]; f(a); return a[1]; }",
        7,
    ),
    (
        "void f(int v[]) { v[1]++; } int a[2] = {1, 2}; int main(void) { f(a); f(a); return a[1]; }",
        4,
    ),
    (
        "void g(int w[], int n) { w[n] = n; } void f(int v[]) { g(v, 2); v[0] += v[2]; } \
int main(void) { int a[3] = {5}; f(a); return a[0] * 10 + a[2]; }",
        72,
    ),
    (
        "int sum(int v[], int n) { return n ? v[n - 1] + sum(v, n - 1) : 0; } \
int main(void) { int a[] = {1, 2, 3, 4}; return sum(a, 4); }",
        10,
    ),
    (
        "int f(int v[], int w[]) { v[0] = 3; return w[0]; } int main(void) { int a[1] = {1}; \
return f(a, a); }",
        3,
    ),
    (
        "void swap(int v[], int i, int j) { int t = v[i]; v[i] = v[j]; v[j] = t; } \
int main(void) { int a[3] = {1, 2, 3}; swap(a, 0, 2); return a[0] * 100 + a[1] * 10 + a[2] - 300; }",
        21,
    ),
    (
        "void f(char s[]) { s[0] = 300; } int main(void) { char s[2]; f(s); return s[0]; }",
        44,
    ),
    (
        "int a[1] = {5}; int f(int v[]) { int a[1] = {6}; v[0]++; return a[0]; } \
int main(void) { return f(a) * 10 + a[0]; }",
        66,
    ),
    (
        "void f(int n, int v[]) { if (n) { int w[1]; w[0] = v[0] + n; f(n - 1, w); v[0] = w[0]; } } \
int main(void) { int a[1] = {0}; f(4, a); return a[0]; }",
        10,
    ),
    // `char` stored, passed, returned
    (
        "int f(char c) { return c == -56; } int main(void) { return f(200); }",
        1,
    ),
    (
        "char f(int n) { return n; } int main(void) { return f(300); }",
        44,
    ),
    (
        "char f(int n) { return n; } int main(void) { return f(200) == -56; }",
        1,
    ),
    (
        "int f(int n) { return n; } int main(void) { char c = 200; return f(c) == -56; }",
        1,
    ),
    ("char g; int main(void) { g = 511; return g == -1; }", 1),
    ("char g = 300; int main(void) { return g; }", 44),
    (
        "char g[3] = {300, 'a', -300}; int main(void) { return g[0] == 44 && g[2] == -44; }",
        1,
    ),
    (
        "int main(void) { char c[2] = {257, 128}; return c[0] == 1 && c[1] == -128; }",
        1,
    ),
    (
        "int f(char c) { c += 100; return c; } int main(void) { return f(100) == -56; }",
        1,
    ),
    // a parameter is an object of the call
    (
        "int f(int n) { n = n + 1; return n; } int main(void) { int n = 5; return f(n) * 10 + n; }",
        65,
    ),
    (
        "int f(int n) { return n < 2 ? n : f(n - 1) + f(n - 2); } int main(void) { return f(10); }",
        55,
    ),
    (
        "int f(int n) { if (n < 2) return 1; return n * f(n - 1); } int main(void) { return f(5); }",
        120,
    ),
    (
        "int gcd(int a, int b) { while (b) { int r = a % b; a = b; b = r; } return a; } \
int main(void) { return gcd(84, 36); }",
        12,
    ),
    (
        "int odd(int n); int even(int n) { return n ? odd(n - 1) : 1; } \
int odd(int n) { return n ? even(n - 1) : 0; } int main(void) { return even(10) * 2 + odd(7); }",
        3,
    ),
    (
        "int f(int f) { return f; } int main(void) { return f(9); }",
        9,
    ),
    // a function that ends without a value, which isn't used
    ("int f(void) { } int main(void) { f(); return 1; }", 1),
    ("int f(void) { } int main(void) { (f()); return 1; }", 1),
    ("int f(void) { } int main(void) { return f(), 2; }", 2),
    (
        "int f(void) { } int main(void) { for (f(); 0; ) ; return 3; }",
        3,
    ),
    (
        "int f(void) { } int main(void) { for (int i = 0; i < 2; f(), i++) ; return 4; }",
        4,
    ),
    (
        "int n; int f(void) { n++; } int main(void) { for (; n < 2; f()) ; return 5; }",
        5,
    ),
    (
        "int f(int n) { if (n) return 6; } int main(void) { f(0); return f(1); }",
        6,
    ),
    (
        "void f(int n) { if (n) return; n = 1 / n; } int main(void) { f(1); return 7; }",
        7,
    ),
    ("int main(void) { }", 0),
    (
        "int n; int main(void) { if (n++ == 0) return main() + 3; }",
        3,
    ),
    // objects at file scope are zero, and made in the order of the text
    (
        "int a, b[3]; char c; int main(void) { return a + b[0] + b[2] + c; }",
        0,
    ),
    (
        "int a[4] = {1, 2}; int main(void) { return a[0] * 10 + a[1] + a[2] + a[3]; }",
        12,
    ),
    ("int a = 2 * 3 + 1; int main(void) { return a; }", 7),
    (
        "#define N 5\nint a[N] = {N, N + 1,}; int main(void) { return a[1] + a[N - 1]; }",
        6,
    ),
    (
        "int main(void) { int a[] = {1, 2, 3}; a[2]++; return a[2]; }",
        4,
    ),
    (
        "int main(void) { int a[3] = {7}; return a[0] + a[1] + a[2]; }",
        7,
    ),
    // the inner name hides the outer one, which keeps its value
    (
        "int x = 1; int f(int x) { { int x = 3; x++; } return x; } \
int main(void) { int y = x; int x = 5; { int x = 9; x = 0; } return f(x) * 10 + y + x - 5; }",
        51,
    ),
    (
        "int main(void) { int i = 8; for (int i = 0; i < 3; i++) { int i = 5; i++; } return i; }",
        8,
    ),
    (
        "int putc(int n) { int abs = n; return abs; } int main(void) { return putc(4); }",
        4,
    ),
    // the value of `main` modulo 256
    ("int main(void) { return 256; }", 0),
    ("int main(void) { return -1; }", 255),
    ("int main(void) { return 1000; }", 232),
    ("int main(void) { return -2147483647 - 1; }", 0),
];

/// Programs that trap.
const TRAPPED: &[&str] = &[
    // the value of a function that ended without one is used
    "int f(void) { } int main(void) { return f(); }",
    "int f(void) { } int main(void) { int x = f(); return 0; }",
    "int f(void) { } int main(void) { 0, f(); return 0; }",
    "int f(void) { } int main(void) { (char) f(); return 0; }",
    "int f(void) { } int main(void) { -f(); return 0; }",
    "int f(void) { } int main(void) { 1 ? f() : 0; return 0; }",
    "int f(void) { } int main(void) { f() && 0; return 0; }",
    "int f(void) { } int main(void) { 1 && f(); return 0; }",
    "int f(void) { } int main(void) { while (f()) ; return 0; }",
    "int f(void) { } int main(void) { do ; while (f()); return 0; }",
    "int f(void) { } int main(void) { for (; f(); ) ; return 0; }",
    "int f(void) { } int main(void) { for (0, f(); 0; ) ; return 0; }",
    "int f(void) { } int g(int n) { return 0; } int main(void) { return g(f()); }",
    "int f(void) { } int main(void) { putchar(f()); return 0; }",
    "int f(int n) { if (n) return 6; } int main(void) { return f(0); }",
    "char f(int n) { while (n) return 1; } int main(void) { return f(0); }",
    // objects that are made anew have no value
    "int main(void) { int x; return x; }",
    "int main(void) { char c; return c; }",
    "int main(void) { int x = x; return 0; }",
    "int main(void) { int a[2]; a[0] = 1; return a[1]; }",
    "int x = 1; int main(void) { int x = x; return 0; }",
    "int main(void) { int x = 1; { int x; return x; } }",
    "int main(void) { for (int i = 0; i < 2; i++) { int x; if (i) return x; x = 1; } return 0; }",
    "int n; int f(void) { int x; if (n++) return x; x = 1; return f(); } int main(void) { return f(); }",
    "void f(int v[]) { v[0]++; } int main(void) { int a[1]; f(a); return 0; }",
    "int main(void) { int i; for (int i = 0; i < 2; i++) ; return i; }",
    // indexes by the array that was passed
    "int f(int v[]) { return v[2]; } int main(void) { int a[2] = {1}; return f(a); }",
    "int f(int v[9]) { return v[2]; } int main(void) { int a[2] = {1}; return f(a); }",
    "int a[3]; int main(void) { a[-1] = 0; return 0; }",
    "int a[3]; int main(void) { a[3] = 0; return 0; }",
    "int a[3]; int b; int main(void) { return a[3]; }",
    // at file scope
    "int a = 1 / 0; int main(void) { return 0; }",
    "int a = 1; int b[2] = {1, 2147483647 + 1}; int main(void) { return 0; }",
    "char c = 1 << 31; int main(void) { return 0; }",
];

#[test]
fn functions_have_their_values(rt: HostRuntime) -> Result<(), Fail> {
    let alloc = rt.alloc();
    for (text, status) in VALUES {
        let test = test_of(alloc, b"", b"", *status)?;
        let found = outcome(alloc, text.as_bytes(), &test, ENOUGH)?;
        assert_eq!(rt; found, Outcome::Passed, "at {text}");
    }
    let quiet = test_of(alloc, b"", b"", 0)?;
    for text in TRAPPED {
        let found = outcome(alloc, text.as_bytes(), &quiet, ENOUGH)?;
        assert_eq!(rt; found, Outcome::Trapped, "at {text}");
    }
    Ok(())
}
