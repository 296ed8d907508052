//! Programs that break several rules: the earliest place is reported, and of several at one place the first rule of
//! the list of faults.

use crate::faults::{AFTER, BEFORE};
use crate::files::MAIN;
use crate::source::{Rule, breaks};
use std::test::Fail;

/// A rule that is broken, and the text with a mark at its place.
type Row = (Rule, &'static str);

/// Statements that break rules at two places.
const EARLIER: &[Row] = &[
    (Rule::Unknown, "x = @q; int y; int y;"),
    (Rule::Twice, "int y; int @y; x = q;"),
    (Rule::LoopOnly, "@break; q = 1;"),
    (Rule::Unknown, "@q = 1; break;"),
    (Rule::WrongCount, "@f(q, 1);"),
    (Rule::Unknown, "f(@q) + f();"),
    (Rule::WrongCount, "sum(a, @f()) + q;"),
    (Rule::WrongKind, "sum(@x, q);"),
    (Rule::WrongCount, "@g(a);"),
    (Rule::BadFormat, "printf(@\"%s\", q);"),
    (Rule::BadFormat, "printf(\"%d\", @\"a\", q);"),
    (Rule::WrongCount, "@printf(\"%d\", q, 1);"),
    (Rule::BadFormat, "printf(@\"%s\", a);"),
    (Rule::BadFormat, "printf(@\"%s\", 1, 2, 3);"),
    (Rule::BadFormat, "scanf(@\"%c\", x);"),
    (Rule::WrongCount, "@printf(\"%d\", printf(\"%s\"), 1);"),
    (Rule::BadFormat, "printf(\"%d\", printf(@\"%s\", 1));"),
    (Rule::WrongCount, "printf(\"%d\", @printf(\"%d\"));"),
    (Rule::WrongKind, "scanf(\"%d\", &@c), q;"),
    (Rule::NotPlace, "@3 = q;"),
    (Rule::NotPlace, "@f(q) = q;"),
    (Rule::Unknown, "f(@q) + (3 = 4);"),
    (Rule::Unknown, "@q = g();"),
    (Rule::Unknown, "a[@q] = g();"),
    (Rule::WrongKind, "x = @a + q;"),
    (Rule::WrongKind, "@g() + q;"),
    (Rule::WrongKind, "@x[q] = 1;"),
    (Rule::WrongKind, "@x(q);"),
    (Rule::WrongKind, "@return; q = 1;"),
    (Rule::BadArrayLength, "int @y[0], z = q;"),
    (Rule::BadArrayLength, "int @y[1048577] = {q};"),
    (Rule::WrongCount, "int @y[1] = {q, 2};"),
    (Rule::Unknown, "int y[1] = {@q}; int z[0];"),
    (Rule::Unknown, "for (; x; @q) p;"),
    (Rule::Unknown, "for (; @q; p) p;"),
    (Rule::Unknown, "do @q; while (p);"),
    (Rule::Unknown, "if (@q) p; else p;"),
    (Rule::LoopOnly, "if (x) @break; else q;"),
    (Rule::WrongKind, "x ? @a : q;"),
    (Rule::Unknown, "@(q) + (q);"),
];

/// Calls with more arguments than conversions: nothing is wanted of the others but that their parts are right.
const BEYOND: &[Row] = &[
    (Rule::BadFormat, "printf(\"\", a, @\"x\");"),
    (Rule::BadFormat, "printf(\"\", f, @\"x\");"),
    (Rule::BadFormat, "printf(\"%%\", g(), @\"x\");"),
    (Rule::BadFormat, "printf(\"%d\", 1, a, @\"x\");"),
    (Rule::BadFormat, "printf(\"%c%d\", 1, 2, g(), a, @\"x\");"),
    (Rule::BadFormat, "scanf(\"%d\", &x, a, @\"x\");"),
    (Rule::BadFormat, "scanf(\"%d\", &x, g(), @\"x\");"),
    (Rule::WrongKind, "printf(\"%d\", @a, \"x\");"),
    (Rule::WrongKind, "printf(\"%c%d\", 1, @g(), a, \"x\");"),
    (Rule::WrongKind, "printf(\"\", @a + 1, \"x\");"),
    (Rule::WrongKind, "printf(\"\", &@x, \"x\");"),
    (Rule::WrongKind, "scanf(\"%d\", &x, &@x, \"x\");"),
    (Rule::Unknown, "printf(\"\", @q, \"x\");"),
    (Rule::Unknown, "scanf(\"%d\", &x, @q, \"x\");"),
    (Rule::BadFormat, "printf(@\"%s\", a, \"x\");"),
    (Rule::WrongCount, "@printf(\"\", a);"),
    (Rule::WrongCount, "@printf(\"%d\", 1, a);"),
    (Rule::WrongCount, "@printf(\"%d\", 1, g());"),
    (Rule::WrongCount, "@scanf(\"%d\", &x, a);"),
    (Rule::WrongCount, "@putchar(1, a, \"x\");"),
];

/// Files that break rules at two places.
const EARLIER_IN_FILES: &[Row] = &[
    (Rule::LoopOnly, "void f(void) { @break; } int x;"),
    (Rule::Unknown, "int f(int n) { return @q; } char f(int n);"),
    (Rule::Twice, "int f(int a, int @a) { return q; }"),
    (
        Rule::WrongKind,
        "int f(int a); char @f(int a) { return q; }",
    ),
    (Rule::WrongCount, "int f(int a); int @f(int a, int a);"),
    (Rule::WrongKind, "void f(void) { @return q; }"),
    (Rule::NotConstant, "int x; int y = @x + q;"),
    (Rule::Unknown, "int x; int y = @q + x;"),
    (Rule::NotConstant, "int x; int y = 1 + @(x, q);"),
    (Rule::NotConstant, "int y[3] = {1, @(2, 3), q};"),
    (Rule::Twice, "int @putchar; int x, x;"),
    (
        Rule::Twice,
        "int @abs(int n); int f(void) { return abs(1, 2); }",
    ),
];

/// Statements that break two rules at one place.
const SAME_PLACE: &[Row] = &[
    (Rule::Unknown, "@late();"),
    (Rule::Unknown, "@late(1, 2);"),
    (Rule::Unknown, "sum(@q, 1);"),
    (Rule::Unknown, "printf(@q);"),
    (Rule::Unknown, "scanf(\"%d\", @q);"),
    (Rule::Unknown, "f(&@q);"),
    (Rule::Unknown, "@q() = 1;"),
    (Rule::Twice, "int y; int @y[0];"),
    (Rule::Twice, "int y; int @y[1] = {1, 2};"),
    (Rule::WrongKind, "x = @g(1);"),
    (Rule::WrongKind, "scanf(\"%d\", &@3);"),
    (Rule::WrongKind, "f(&@3);"),
    (Rule::WrongKind, "printf(\"%d\", &@3);"),
    (Rule::WrongKind, "scanf(\"%d\", &@f(1));"),
    (Rule::WrongKind, "sum(@\"x\", 1);"),
    (Rule::WrongKind, "printf(&@x);"),
    (Rule::WrongKind, "printf(&@3);"),
    (Rule::WrongKind, "@x() = 1;"),
    (Rule::WrongKind, "sum(@f(), 1);"),
    (Rule::WrongCount, "@f() = 1;"),
    (Rule::WrongCount, "@g(1) = 1;"),
    (Rule::WrongCount, "int @y[0] = {1};"),
    (Rule::WrongCount, "int @y[EOF] = {1, 2};"),
    (Rule::NotPlace, "@printf() = 1;"),
    (Rule::NotPlace, "@g() = 1;"),
];

/// Files that break two rules at one place.
const SAME_PLACE_IN_FILES: &[Row] = &[
    (Rule::Unknown, "int y = @q;"),
    (Rule::Unknown, "int late(int n); int y = @late();"),
    (
        Rule::Twice,
        "int f(void) { return 1; } int @f(int a) { return a; }",
    ),
    (
        Rule::Twice,
        "int f(void) { return 1; } char @f(void) { return 1; }",
    ),
    (Rule::Twice, "char @getchar(int n);"),
    (Rule::Twice, "int x; void @x(int n);"),
    (Rule::Twice, "int x; int @x[] = {1};"),
    (Rule::Twice, "int x; int @x[];"),
    (Rule::Twice, "int @abs[0];"),
    (Rule::WrongKind, "int f(int a); char @f(void);"),
    (
        Rule::WrongKind,
        "int f(int a, int b); int @f(char a) { return a; }",
    ),
    (Rule::WrongKind, "int a[2]; int y = @a;"),
    (Rule::WrongKind, "void f(void) { } int y = @f();"),
    (Rule::WrongKind, "int x; int y = @x[0];"),
    (Rule::WrongCount, "int f(int a) { return a; } int y = @f();"),
    (Rule::WrongCount, "int @y[0] = {1};"),
    (Rule::WrongCount, "int y = @printf(\"%d\");"),
    (Rule::NotPlace, "int y = @3 = 4;"),
    (Rule::NotPlace, "int y = @3++;"),
    (Rule::NotConstant, "int y = @printf();"),
];

#[test]
fn the_first_of_two_faults(rt: HostRuntime) -> Result<(), Fail> {
    for (rows, before, after) in [
        (EARLIER, BEFORE, AFTER),
        (BEYOND, BEFORE, AFTER),
        (EARLIER_IN_FILES, "", MAIN),
        (SAME_PLACE, BEFORE, AFTER),
        (SAME_PLACE_IN_FILES, "", MAIN),
    ] {
        for (rule, row) in rows {
            breaks(rt.alloc(), *rule, before, row, after)?;
        }
    }
    Ok(())
}
