//! The slot of each name, by hand: variables of file scope are counted from 0, and the parameters and local
//! declarators of each prototype or definition by themselves.

use crate::names::names_of;
use crate::source::parsed;
use c_types::check;
use std::alloc::Global;
use std::test::Fail;

/// A program, and the names of its tree with their slots: parameters, declared names and uses.
const ROWS: &[(&str, &str)] = &[
    ("int main(void) { return 0; }", ""),
    (
        "int a, b[2]; int main(void) { return a + b[a]; }",
        " a=G0 b=G1 a=G0 b=G1 a=G0",
    ),
    (
        "int a; int f(void) { return 1; } char b[3], c; int main(void) { return b[a] + c; }",
        " a=G0 b=G1 c=G2 b=G1 a=G0 c=G2",
    ),
    (
        "int f(int a, int b[]); int f(int b, int c[]) { int d; d = b; return c[d]; } \
int main(void) { int e = 1; return e; }",
        " a=L0 b=L1 b=L0 c=L1 d=L2 d=L2 b=L0 c=L1 d=L2 e=L0 e=L0",
    ),
    // A declarator is in scope in its own initialiser.
    (
        "int a; int main(void) { int a = a; int b[2] = {1, b[0]}; return b[a]; }",
        " a=G0 a=L0 a=L0 b=L1 b=L1 b=L1 a=L0",
    ),
    // The use before a declaration in the block means the outer variable.
    (
        "int a; int main(void) { a = 1; int a; a = 2; return a; }",
        " a=G0 a=G0 a=L0 a=L0 a=L0",
    ),
    // A block's variables go on counting, and after it the outer one is meant again.
    (
        "int main(void) { int a; { int b; char a; a = b; { int a; a = 1; } a = 2; } int c; c = a; \
return c; }",
        " a=L0 b=L1 a=L2 a=L2 b=L1 a=L3 a=L3 a=L2 c=L4 c=L4 a=L0 c=L4",
    ),
    // A `for` has a scope, and its body another one inside.
    (
        "int i; int main(void) { for (int i = 0, j = i; i < j; i++) { int i; i = j; } \
for (i = 0; i < 1; ++i) i = 2; return i; }",
        " i=G0 i=L0 j=L1 i=L0 i=L0 j=L1 i=L0 i=L2 i=L2 j=L1 i=G0 i=G0 i=G0 i=G0 i=G0",
    ),
    // A name that hides another at each level.
    (
        "int x; int f(int x) { { int x; x = 1; for (char x = 2; x; x = 0) { int x[3]; x[0] = 3; } \
x = 4; } return x; } int main(void) { return x; }",
        " x=G0 x=L0 x=L1 x=L1 x=L2 x=L2 x=L2 x=L3 x=L3 x=L1 x=L0 x=G0",
    ),
    // Names in every part of expressions and statements.
    (
        "int v[2], s; int f(int n, int w[]) { return w[n]; } int main(void) { int a; char c; \
c = a ? s : (a, -s); v[a++] += (char) c; if (!a) s = f(a, v); else scanf(\"%d\", &v[s]); \
while (a && c) --s; do printf(\"%d%c\", s, c); while (a || s); return abs(s); }",
        " v=G0 s=G1 n=L0 w=L1 w=L1 n=L0 a=L0 c=L1 c=L1 a=L0 s=G1 a=L0 s=G1 v=G0 a=L0 c=L1 a=L0 \
s=G1 a=L0 v=G0 v=G0 s=G1 a=L0 c=L1 s=G1 s=G1 c=L1 a=L0 s=G1 s=G1",
    ),
    // A library name that a local hides, and a function that a parameter hides.
    (
        "int f(int f) { int abs = f; return abs; } int main(void) { int main = f(1); return main; }",
        " f=L0 abs=L1 f=L0 abs=L1 main=L0 main=L0",
    ),
    // A branch without a block sees what was declared before.
    (
        "int main(void) { int a; if (1) a = 1; else { int a; a = 2; } for (;;) { int b; b = a; } }",
        " a=L0 a=L0 a=L1 a=L1 b=L2 b=L2 a=L0",
    ),
];

// The names of a checked source.
fn names(alloc: Global, source: &[u8]) -> Result<String, Fail> {
    let program = parsed(alloc, source)?;
    let typed = check(alloc, program, source.len() as u32)?;
    Ok(names_of(alloc, typed.program())?)
}

#[test]
fn names_have_their_slots(rt: HostRuntime) -> Result<(), Fail> {
    for (source, slots) in ROWS {
        let found = names(rt.alloc(), source.as_bytes())?;
        assert_eq!(rt; found.as_str(), *slots, "at {source}");
    }
    Ok(())
}
