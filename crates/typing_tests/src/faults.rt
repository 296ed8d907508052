//! Each fault alone, in a statement of `main`: the text of the statement with a mark at the place of the fault.

use crate::source::{Rule, breaks};
use std::test::Fail;

/// What stands before the statement.
pub const BEFORE: &str = "int x, a[3]; char c, s[4]; int f(int n) { return n; } void g(void) { } \
int sum(int v[], int n) { return v[n]; } void fill(char t[]) { t[0] = 1; } int late(int n); \
int main(void) { ";

/// What stands after it.
pub const AFTER: &str = " return 0; }";

/// A name that isn't visible, in each part of an expression and of a statement.
const UNKNOWN: &[&str] = &[
    "@q;",
    "@q = 1;",
    "@q += 1;",
    "@q[0] = 1;",
    "a[@q] = 1;",
    "x = @q;",
    "x += @q;",
    "x = @(q);",
    "x = 1 + @(q);",
    "@(q) + 1;",
    "x = a[@q];",
    "x = @q[0];",
    "x = @(q[0]);",
    "@q++;",
    "--@q;",
    "-@q;",
    "!@q;",
    "(char) @q;",
    "@q * 1;",
    "1 * @q;",
    "1 && @q;",
    "@q || 1;",
    "@q ? 1 : 2;",
    "x ? @q : 2;",
    "x ? 1 : @q;",
    "@q, 1;",
    "1, @q;",
    "f(@q);",
    "f(@(q));",
    "sum(a, @q);",
    "putchar(@q);",
    "printf(\"%d\", @q);",
    "printf(\"%d%d\", 1, @q);",
    "scanf(\"%d\", &@q);",
    "scanf(\"%d\", &a[@q]);",
    "if (@q) ;",
    "if (x) @q;",
    "if (x) ; else @q;",
    "while (@q) ;",
    "while (x) @q;",
    "do @q; while (x);",
    "do ; while (@q);",
    "for (@q; x; x) ;",
    "for (x; @q; x) ;",
    "for (x; x; @q) ;",
    "for (;;) @q;",
    "for (int i = @q;;) ;",
    "return @q;",
    "{ { @q; } }",
    "int y = @q;",
    "int y = 1, z = @q;",
    "int y[2] = {1, @q};",
    "char y = 1 + @q;",
];

/// A called function that the file doesn't define.
const UNDEFINED: &[&str] = &[
    "@q();",
    "@q(1);",
    "x = @late(1);",
    "x = 1 + @(late(1));",
    "f(@late(1));",
];

/// A name that is declared again in its scope.
const TWICE: &[&str] = &[
    "int y; int @y;",
    "int y, @y;",
    "int y; char @y[2];",
    "int y[2]; int @y = 1;",
    "{ int y; int @y; }",
    "for (int i = 0, @i = 1;;) ;",
    "int y; { int y; } int @y;",
    "int y; x = 1; int @y;",
    "int putchar; int @putchar;",
];

/// An array, a function or a void call where a number is wanted.
const NO_NUMBER: &[&str] = &[
    "@a;",
    "@f;",
    "@(a);",
    "@putchar;",
    "x = @a;",
    "x = @(a);",
    "x = @f;",
    "x = @g();",
    "x = @exit(1);",
    "x = @printf;",
    "x = @late;",
    "x += @a;",
    "a[@a] = 1;",
    "a[@g()] = 1;",
    "x = a[@f];",
    "@a + 1;",
    "1 + @f;",
    "1 + @g();",
    "@g() + 1;",
    "@a == a;",
    "1 && @a;",
    "@g() || 1;",
    "-@f;",
    "!@g();",
    "~@a;",
    "(int) @a;",
    "(char) @g();",
    "@a ? 1 : 2;",
    "x ? @a : 1;",
    "x ? 1 : @g();",
    "@a, x;",
    "@f, x;",
    "x, @a;",
    "x, @g();",
    "g(), @g(), x;",
    "f(@a);",
    "f(@f);",
    "f(@g());",
    "f(@(g()));",
    "sum(a, @a);",
    "putchar(@s);",
    "abs(@g());",
    "exit(@f);",
    "printf(\"%d\", @a);",
    "printf(\"%c\", @g());",
    "if (@a) ;",
    "while (@g()) ;",
    "do ; while (@f);",
    "for (@a;;) ;",
    "for (; @g();) ;",
    "for (;; @f) ;",
    "return @a;",
    "return @g();",
    "int y = @a;",
    "int y = @g();",
    "int y[1] = {@f};",
];

/// What isn't an array's name of the parameter's element type.
const NO_ARRAY: &[&str] = &[
    "sum(@x, 1);",
    "sum(@1, 1);",
    "sum(@a[0], 1);",
    "sum(@s, 1);",
    "fill(@a);",
    "fill(@c);",
    "sum(@f, 1);",
    "sum(@putchar, 1);",
    "sum(@g(), 1);",
    "sum(@-x, 1);",
    "sum(@(x), 1);",
    "sum(@(x, a), 1);",
    "sum(@\"x\", 1);",
    "fill(@\"x\");",
    "sum(&@x, 1);",
    "fill(&@s[0]);",
];

/// `[` after no array, and `(` after no function.
const NO_SUBSCRIPT: &[&str] = &[
    "@x[0];",
    "@x[0] = 1;",
    "@x[0]++;",
    "@f[0];",
    "@late[0];",
    "@putchar[0] = 1;",
    "f(@c[1]);",
    "@x();",
    "@a(1);",
    "x = @c(1, 2);",
    "f(@x());",
];

/// `&` elsewhere than before the place that `scanf` stores in, and that place without it.
const NO_ADDRESS: &[&str] = &[
    "f(&@x);",
    "putchar(&@x);",
    "abs(&@a[0]);",
    "printf(\"%d\", &@x);",
    "printf(&@x);",
    "scanf(&@x);",
    "scanf(&@x, &x);",
    "scanf(\"%d\", &@c);",
    "scanf(\"%d\", &@s[0]);",
    "scanf(\"%d\", &@a);",
    "scanf(\"%d\", &@(c));",
    "scanf(\"%d\", &@f);",
    "scanf(\"%d\", &@x[0]);",
    "scanf(\"%d\", @x);",
    "scanf(\"%d\", @a[0]);",
    "scanf(\"%d\", @a);",
    "scanf(\"%d\", @(x));",
    "scanf(\"%d\", @1);",
];

/// The name of an array or a function as a place, and a `return` without its value.
const NO_OBJECT: &[&str] = &[
    "@a = 1;",
    "@(a) = 1;",
    "@f = 1;",
    "@late = 1;",
    "@a += 1;",
    "@putchar -= 1;",
    "@a++;",
    "@(f)--;",
    "++@s;",
    "--@g;",
    "x = @a = 1;",
    "@return;",
    "{ @return; }",
    "if (x) @return;",
];

/// Another number of arguments than parameters or conversions, more initialisers than elements.
const WRONG_COUNT: &[&str] = &[
    "@f();",
    "@f(1, 2);",
    "@g(1);",
    "@sum(a);",
    "@sum();",
    "@getchar(1);",
    "@putchar();",
    "@putchar(1, 2);",
    "@exit();",
    "@abs(1, 2);",
    "x = @f();",
    "x = 1 + @(f());",
    "f(@f());",
    "@printf(\"%d\");",
    "@printf(\"x\", 1);",
    "@printf(\"\", 1);",
    "@printf(\"%%\", 1);",
    "@printf(\"%%d\", 1);",
    "@printf(\"%d%c\", 1);",
    "@printf(\"%d%c\", 1, 2, 3);",
    "@scanf(\"%d\");",
    "@scanf(\"%d\", &x, &x);",
    "@scanf(\"%d\", &x, 1);",
    "int @y[1] = {1, 2};",
    "char @y[2] = {1, 2, 3,};",
    "for (int @y[1] = {1, 2};;) ;",
];

/// Neither a name nor an element where a value is stored.
const NOT_PLACE: &[&str] = &[
    "@3 = 4;",
    "@3 += 4;",
    "@'a' = 4;",
    "@EOF = 4;",
    "@-x = 1;",
    "@!x += 1;",
    "@f(1) = 2;",
    "@g() = 2;",
    "@x++ = 1;",
    "@--x = 1;",
    "@(x + 1) = 2;",
    "@(x, x) = 2;",
    "@(x = 1) = 2;",
    "@(x ? x : x) = 1;",
    "@((int) x) = 1;",
    "x = @1 = 2;",
    "a[@1 = 2];",
    "++@3;",
    "--@-x;",
    "++@f(1);",
    "++@++x;",
    "@3++;",
    "@f(1)--;",
    "@(x++)++;",
    "@(-x)++;",
];

/// A length below 1 or above 1,048,576, or none and no list.
const BAD_LENGTH: &[&str] = &[
    "int @y[0];",
    "int @y[00];",
    "char @y[0x0];",
    "int @y['\\0'];",
    "int @y[EOF];",
    "int @y[1048577];",
    "int @y[2147483647];",
    "int @y[];",
    "int y, @z[];",
    "for (int @y[0];;) ;",
];

/// `break` and `continue` outside a loop.
const LOOP_ONLY: &[&str] = &[
    "@break;",
    "@continue;",
    "if (x) @break;",
    "if (x) ; else @continue;",
    "{ @break; }",
    "while (x) ; @break;",
    "for (;;) ; @continue;",
    "do ; while (x); @break;",
];

/// A string literal that is no format, and a format that isn't one.
const BAD_FORMAT: &[&str] = &[
    "@printf();",
    "@scanf();",
    "printf(@x);",
    "printf(@1, 2);",
    "printf(@a);",
    "printf(@f);",
    "printf(@g());",
    "printf(@(x));",
    "scanf(@x, &x);",
    "scanf(@a, &x);",
    "printf(@\"%\");",
    "printf(@\"%%%\");",
    "printf(@\"%s\", 1);",
    "printf(@\"%i\", 1);",
    "printf(@\"%D\", 1);",
    "printf(@\"% d\", 1);",
    "printf(@\"%5d\", 1);",
    "printf(@\"%-d\", 1);",
    "printf(@\"%ld\", 1);",
    "printf(@\"%.2d\", 1);",
    "printf(@\"%d%x\", 1, 2);",
    "printf(@\"%\\0d\", 1);",
    "printf(@\"a\\0\");",
    "printf(@\"\\x0\");",
    "scanf(@\"\", &x);",
    "scanf(@\"%c\", &x);",
    "scanf(@\"%i\", &x);",
    "scanf(@\" %d\", &x);",
    "scanf(@\"%d\\n\", &x);",
    "scanf(@\"%d%d\", &x);",
    "scanf(@\"%5d\", &x);",
    "scanf(@\"%d\\0\", &x);",
    "putchar(@\"a\");",
    "abs(@\"1\");",
    "f(@\"a\");",
    "sum(a, @\"a\");",
    "printf(\"%d\", @\"a\");",
    "printf(\"\", @\"a\");",
    "scanf(\"%d\", @\"%d\");",
    "scanf(\"%d\", &x, @\"%d\");",
];

#[test]
fn each_fault_alone(rt: HostRuntime) -> Result<(), Fail> {
    for (rule, rows) in [
        (Rule::Unknown, UNKNOWN),
        (Rule::Unknown, UNDEFINED),
        (Rule::Twice, TWICE),
        (Rule::WrongKind, NO_NUMBER),
        (Rule::WrongKind, NO_ARRAY),
        (Rule::WrongKind, NO_SUBSCRIPT),
        (Rule::WrongKind, NO_ADDRESS),
        (Rule::WrongKind, NO_OBJECT),
        (Rule::WrongCount, WRONG_COUNT),
        (Rule::NotPlace, NOT_PLACE),
        (Rule::BadArrayLength, BAD_LENGTH),
        (Rule::LoopOnly, LOOP_ONLY),
        (Rule::BadFormat, BAD_FORMAT),
    ] {
        for row in rows {
            breaks(rt.alloc(), rule, BEFORE, row, AFTER)?;
        }
    }
    Ok(())
}
