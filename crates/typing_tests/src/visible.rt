//! The variables that are visible at a place, by hand: the innermost scope first, in a scope the latest first, hidden
//! ones left out; in a scalar's initialiser neither the new name nor one that it hides.

use crate::source::{Marked, parsed, without_mark};
use c_tree::{NoMemory, Slot, Ty};
use c_types::{Visible, check};
use std::alloc::Global;
use std::test::Fail;

/// A source with a mark, and what is visible there.
const ROWS: &[(&str, &str)] = &[
    // before, between and after declarations at file scope
    ("@int g; int main(void) { return 0; }", ""),
    ("int @g; int main(void) { return 0; }", ""),
    ("int g@; int main(void) { return 0; }", " int g=G0"),
    ("int g[@2]; int main(void) { return 0; }", ""),
    ("int g[2]@; int main(void) { return 0; }", " int g[]=G0"),
    (
        "int g; char h; int main(void) { @return 0; }",
        " char h=G1 int g=G0",
    ),
    ("int g; int main(void) { @return 0; } int h;", " int g=G0"),
    (
        "int g; int main(void) { return 0; } int h;@",
        " int h=G1 int g=G0",
    ),
    // a scalar's initialiser, and a list
    ("int main(void) { int x @= 1; return x; }", " int x=L0"),
    ("int main(void) { int x = @1; return x; }", ""),
    ("int main(void) { int x = 1@; return x; }", " int x=L0"),
    ("int main(void) { int x = @(1); return x; }", ""),
    ("int main(void) { int x = (1@); return x; }", ""),
    ("int main(void) { int x = (1)@; return x; }", " int x=L0"),
    ("int x; int main(void) { int x = @1; return x; }", ""),
    (
        "int x; int main(void) { int x[2] = {@1, 2}; return 0; }",
        " int x[]=L0",
    ),
    (
        "int main(void) { int a = 1, b = @a; return b; }",
        " int a=L0",
    ),
    (
        "int main(void) { int a = 1, b = a, c@; return b; }",
        " int c=L2 int b=L1 int a=L0",
    ),
    (
        "int main(void) { int y = 2; int x = 3; { int x = @y; putchar(x); } return 0; }",
        " int y=L0",
    ),
    (
        "int main(void) { int y = 2; int x = 3; { int x = y; @putchar(x); } return 0; }",
        " int x=L2 int y=L0",
    ),
    (
        "int main(void) { int y = 2; int x = 3; { int x = y; putchar(x); } @return 0; }",
        " int x=L1 int y=L0",
    ),
    // parameters, and blocks
    (
        "int f(int @a, char b[]) { return a; } int main(void) { return 0; }",
        "",
    ),
    (
        "int f(int a, @char b[]) { return a; } int main(void) { return 0; }",
        " int a=L0",
    ),
    (
        "int f(int a, char b[]) @{ return a; } int main(void) { return 0; }",
        " char b[]=L1 int a=L0",
    ),
    (
        "int f(int a, char b[]) { return a; } @int main(void) { return 0; }",
        "",
    ),
    ("int f(int a); int main(void) { @return 0; }", ""),
    (
        "int g; int f(int a, char b[]) { int c; { int d; @; } int e; return e; } \
int main(void) { return 0; }",
        " int d=L3 int c=L2 char b[]=L1 int a=L0 int g=G0",
    ),
    (
        "int g; int f(int a, char b[]) { int c; { int d; ; } int e; @return e; } \
int main(void) { return 0; }",
        " int e=L4 int c=L2 char b[]=L1 int a=L0 int g=G0",
    ),
    (
        "int main(void) { { int d; d = 1; @} return 0; }",
        " int d=L0",
    ),
    ("int main(void) { { int d; d = 1; }@ return 0; }", ""),
    // a `for`
    (
        "int main(void) { for (int i = 0, j = 1; @i < j; i++) { int k; k = i; } return 0; }",
        " int j=L1 int i=L0",
    ),
    (
        "int main(void) { for (int i = 0, j = 1; i < j; i++) { int k; @k = i; } return 0; }",
        " int k=L2 int j=L1 int i=L0",
    ),
    (
        "int main(void) { for (int i = 0, j = 1; i < j; @i++) { int k; k = i; } return 0; }",
        " int j=L1 int i=L0",
    ),
    (
        "int main(void) { for (int i = 0; i < 2; i++) ; @return 0; }",
        "",
    ),
    // hidden ones
    (
        "int x; char y; int f(int x) { { char x[2]; @x[0] = y; } return x; } \
int main(void) { return 0; }",
        " char x[]=L1 char y=G1",
    ),
    (
        "int x; char y; int f(int x) { { char x[2]; x[0] = y; } return @x; } \
int main(void) { return 0; }",
        " int x=L0 char y=G1",
    ),
    (
        "int main(void) { for (int i = 0; i < 2; i++) { char i; @i = 1; } return 0; }",
        " char i=L1",
    ),
    (
        "int a, b, c; int main(void) { int b; { int a; @return a + b + c; } }",
        " int a=L1 int b=L0 int c=G2",
    ),
];

// A variable, as ` int x=L0`, or ` char x[]=G0`.
fn add(alloc: Global, out: &mut String, v: &Visible) -> Result<(), NoMemory> {
    out.push_str(match v.ty {
        Ty::Int => " int ",
        Ty::Char => " char ",
    })?;
    for byte in v.word.as_slice() {
        out.push(char::from(*byte))?;
    }
    out.push_str(if v.array { "[]" } else { "" })?;
    let text = match v.slot {
        Slot::Unset => String::from_str(alloc, "=?")?,
        Slot::Global(n) => format!(in alloc; "=G{n}")?,
        Slot::Local(n) => format!(in alloc; "=L{n}")?,
    };
    out.push_str(text.as_str())
}

// What is visible at the mark.
fn visible(alloc: Global, text: &str) -> Result<String, Fail> {
    let Marked { source, place } = without_mark(alloc, "", text, "")?;
    let program = parsed(alloc, &source)?;
    let typed = check(alloc, program, source.len() as u32)?;
    let mut out = String::new(alloc);
    for v in &typed.scope_at(alloc, place)? {
        add(alloc, &mut out, v)?;
    }
    Ok(out)
}

#[test]
fn variables_are_visible_at_a_place(rt: HostRuntime) -> Result<(), Fail> {
    for (text, variables) in ROWS {
        let found = visible(rt.alloc(), text)?;
        assert_eq!(rt; found.as_str(), *variables, "at {text}");
    }
    Ok(())
}
