//! Each fault alone, in a whole file with a mark at the place of the fault.

use crate::source::{Rule, breaks};
use std::test::Fail;

/// What stands after a file that has no `main` of its own.
pub const MAIN: &str = " int main(void) { return 0; }";

/// A name that is declared again at file scope, as a parameter, or in the block of a function's body.
const TWICE: &[&str] = &[
    "int x; int @x;",
    "int x; char @x[2];",
    "int x, @x = 1;",
    "int f(void); int @f;",
    "int x; int @x(void);",
    "int x; int @x(void) { return 1; }",
    "int f(void) { return 1; } int @f(void) { return 2; }",
    "int f(void); int f(void) { return 1; } int f(void); int @f(void) { return 2; }",
    "int f(int a, int @a);",
    "int f(int a, char b, int @a[]) { return 0; }",
    "int f(int a) { int @a; return 0; }",
    "int f(int a) { { int a; } int @a; return 0; }",
    "int f(int a[]) { int b, @a = 1; return 0; }",
    "int @printf;",
    "int @getchar(void);",
    "int @putchar(int c);",
    "int @abs(int n) { return n; }",
    "void @exit(int n);",
    "int @printf(int n);",
    "char @scanf[2];",
    "void f(void) { } int main(void) { return 0; } int @main;",
];

/// A prototype or definition that differs from an earlier one, and `return` with or without a value.
const WRONG_KIND: &[&str] = &[
    "int f(void); void @f(void);",
    "void f(void); int @f(void) { return 1; }",
    "int f(void); char @f(void);",
    "int f(void) { return 1; } char @f(void);",
    "int f(int a); int @f(char a);",
    "int f(int a); int @f(int a[]);",
    "int f(char a[]); int @f(int a[]);",
    "int f(int a, char b); int @f(int a, int b) { return a; }",
    "int f(int a); int f(int b); int f(int c) { return c; } int @f(char d);",
    "int f(void); int f(void) { return 1; } char @f(void);",
    "void f(void) { @return 1; }",
    "void f(void) { while (1) { @return f; } }",
    "char f(void) { @return; }",
    "int f(void) { for (;;) @return; }",
    "int a[2]; int f(int v[]) { return @v; }",
    "int f(int v[]) { @v = 1; return 0; }",
    "int f(int v[]) { @v++; return 0; }",
    "int f(char v[]); int g(int v[]) { return f(@v); } int f(char v[]) { return f(v); }",
];

/// Another number of parameters than an earlier prototype or definition, more initialisers than elements.
const WRONG_COUNT: &[&str] = &[
    "int f(int a); int @f(void);",
    "int f(void); int @f(int a) { return a; }",
    "int f(int a) { return a; } int @f(int a, int b);",
    "int f(); int @f(int a);",
    "int @y[1] = {1, 2};",
    "int x; char @y[2] = {1, 2, 3};",
    "int f(int a, int b) { return a; } int g(void) { return @f(1); }",
];

/// An initialiser at file scope that isn't made of constants and operators.
const NOT_CONSTANT: &[&str] = &[
    "int x; int y = @x;",
    "int x; int y = @(x);",
    "int y = @y;",
    "int x; int y = 1 + @x;",
    "int x; int y = -@x;",
    "int x; char y = (char) @x;",
    "int x; int y = 1 ? 2 : @x;",
    "int x; int y = 0 && @x;",
    "int a[2]; int y = @a[0];",
    "int f(void) { return 1; } int y = @f();",
    "int y = @getchar();",
    "int y = 1 + @abs(2);",
    "int x; int y = @x = 1;",
    "int x; int y = @(x = 1);",
    "int x; int y = @x += 1;",
    "int x; int y = @x++;",
    "int x; int y = @--x;",
    "int y = @(1, 2);",
    "int y = @((1, 2));",
    "int y = 1 + @(2, 3);",
    "int x; int y[2] = {1, @x};",
    "int y[] = {1, @y[0]};",
];

/// A length below 1 or above 1,048,576, or none and no list.
const BAD_LENGTH: &[&str] = &[
    "int @y[0];",
    "int @y[];",
    "char x, @y[1048577];",
    "#define N -1\nint @y[N];",
    "#define N 0\nint x; int @y[N];",
    "int @y['\\0'];",
    "int @y[EOF];",
];

/// `break` and `continue` outside a loop of their function.
const LOOP_ONLY: &[&str] = &[
    "void f(void) { @break; }",
    "void f(void) { while (1) { } { @continue; } }",
    "void f(void) { while (1) break; } void g(void) { @break; }",
];

/// No definition of `main` with the result `int` and no parameters: the mark is at the end.
const NO_MAIN: &[&str] = &[
    "int x;@",
    "int f(void) { return 1; }@",
    "int f(void) { return 1; }\n\n@",
    "int f(void) { return 1; } /* main */@",
    "int main(void);@",
    "int main;@",
    "int main[2];@",
    "void main(void) { }@",
    "char main(void) { return 0; }@",
    "int main(int n) { return n; }@",
    "int main(char s[]) { return 0; }@",
    "int main(void); int f(void) { int main = 1; return main; }@",
];

#[test]
fn each_fault_alone_in_a_file(rt: HostRuntime) -> Result<(), Fail> {
    for (rule, rows, after) in [
        (Rule::Twice, TWICE, MAIN),
        (Rule::WrongKind, WRONG_KIND, MAIN),
        (Rule::WrongCount, WRONG_COUNT, MAIN),
        (Rule::NotConstant, NOT_CONSTANT, MAIN),
        (Rule::BadArrayLength, BAD_LENGTH, MAIN),
        (Rule::LoopOnly, LOOP_ONLY, MAIN),
        (Rule::NoMain, NO_MAIN, ""),
    ] {
        for row in rows {
            breaks(rt.alloc(), rule, "", row, after)?;
        }
    }
    Ok(())
}
