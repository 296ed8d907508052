//! Patched texts that are read again: each is the text of the program that its patch makes.

use crate::build::{checked, text_with};
use c_lex::lex;
use c_parse::{ParseFault, parse};
use c_tree::same_tree;
use patch_space::{Space, apply};
use std::alloc::Global;
use std::process::Abort;
use std::test::Fail;

/// How many patches of a program are made at most.
const MOST: u32 = 2000;

/// Small programs, each with changes at seams of another kind.
const SOURCES: [&str; 11] = [
    // A loop without braces, and a macro in the condition that is changed.
    "#define MAX 10
int main(void) { int i, s; s = 0; for (i = 0; i < MAX; i++) s = s + i; return s; }",
    // Statements before `else`, also of an `if` inside another.
    "int main(void) { int a; a = 1; if (a) a = 2; else++a; if (a == 2) if (a) --a; else a = 5; return-a; }",
    // What ends a loop or a function, behind `if`, `else`, `do` and `while`.
    "int f(int n) { if (n < 0) return 0 - n; else return(n); }
int main(void) { while (f(1)) break; do continue; while (0); for (;;) if (f(2)) return f(0); else break; }",
    // A condition in several lines, with comments before, in and after it.
    "int main(void) {
    int a, b; a = 1; b = 2;
    while (/* first */ a < b // second
        && /* third */ b
        == 2 /* last */ ) // end
        a = /**/b/**/; // ???
    return /* value */ a /* of a */;
}
",
    // Variables that hide others, in blocks in blocks.
    "int x = 5;
int main(void) { int y = x; { int x = y + 1; { int x = 3; y = x; } y = y * x; } return y; }",
    // An array that is handed to a function, and elements.
    "int v[2] = {1, 2};
int sum(int a[], int n) { int s = 0, i; for (i = 0; i < n; ++i) s = s + a[i]; return s; }
int main(void) { int w[2] = {4, 5}; w[w[0] - 4] = v[1] = 6; return sum(v, 2) - sum(w, 1); }",
    // Conditions that read.
    "#include <stdio.h>
int main(void) { int c, n; while ((c = getchar()) != EOF && scanf(\"%d\", &n) == 1)
    printf(\"%d%c?\\n\", n, c); do n++; while (c = n, n < 3); return 0; }",
    // Choices and commas, of which a part is changed, or the whole.
    "int main(void) { int a = 1, b = 2; if (a ? b : a) b = a ? b : 3; for (; b, a ? b : a;) a ? b = 1 : b; return a ? b : a; }",
    // Casts, operators before their operands, and constants of every spelling.
    "#define LOW (- 5)
int main(void) { char d = '\\n'; int y = 0x1f; y = -(char) y;
    if (!~d) y = (int) LOW; while (y >> 1 & 1 | d ^ '?') y = - -010; return +y; }",
    // Assignments in assignments, and in a condition.
    "int main(void) { int a, b = 0; a = b = 1; a += b = 2; if (a = b) b; return a = b; }",
    // A loop that declares its variable, and one with a block as its body.
    "int main(void) { for (int i = 0, j = i; i <= j; i = i + 1) { ; j = i; } do { int k = 7; k; } while(0 > 1); }",
];

/// Checks that the text of each of the first patches is read as the program that the patch makes.
fn expect_read_again(rt: &impl Abort, alloc: Global, source: &str) -> Result<(), Fail> {
    let program = checked(alloc, source.as_bytes())?;
    let space = Space::build(alloc, &program, MOST)?;
    for rank in 0..space.len() {
        let text = text_with(alloc, source.as_bytes(), &program, &space, rank)?;
        let read = checked(alloc, &text)?;
        let patched = apply(alloc, &program, &space, rank)?;
        assert!(rt;
            same_tree(read.program(), patched.program()),
            "{rank} of {source}"
        );
    }
    // The patches of the greatest cost were among them.
    (space.len() > 0).then_some(()).ok_or("no patch")?;
    assert_eq!(rt; space.patch(space.len() - 1).cost, 6);
    Ok(())
}

#[test]
fn patched_texts_are_read_as_their_programs(rt: HostRuntime) -> Result<(), Fail> {
    for source in SOURCES {
        expect_read_again(&rt, rt.alloc(), source)?;
    }
    Ok(())
}

/// Whether the text is refused since it is nested too deep.
fn is_too_deep(alloc: Global, text: &[u8]) -> Result<bool, Fail> {
    (text.len() < 65_536).then_some(()).ok_or("too long")?;
    let tokens = lex(alloc, text)?;
    let read = parse(alloc, &tokens, text.len() as u32);
    Ok(matches!(read, Err(ParseFault::TooDeep(_))))
}

/// `int main(void) { int a = 1; if (((a < 1))) a; }` with so many parentheses round the condition.
fn nested(alloc: Global, parentheses: usize) -> Result<Vec<u8>, Fail> {
    let mut source = b"int main(void) { int a = 1; if (".to_vec(alloc)?;
    for _ in 0..parentheses {
        source.push(b'(')?;
    }
    source.extend_from_slice(b"a < 1")?;
    for _ in 0..parentheses {
        source.push(b')')?;
    }
    source.extend_from_slice(b") a; }")?;
    Ok(source)
}

/// Checks which patches of the program with so many parentheses have a text that is nested too deep: those of these
/// costs.
fn expect_too_deep(
    rt: &impl Abort,
    alloc: Global,
    parentheses: usize,
    costs: &[u8],
) -> Result<(), Fail> {
    let source = nested(alloc, parentheses)?;
    let program = checked(alloc, &source)?;
    let space = Space::build(alloc, &program, MOST)?;
    // 5, then 3 and 6, 1, 12, 12 and 12.
    assert_eq!(rt; space.len(), 51);
    for rank in 0..space.len() {
        let text = text_with(alloc, &source, &program, &space, rank)?;
        let cost = space.patch(rank).cost;
        assert_eq!(rt; is_too_deep(alloc, &text)?, costs.contains(&cost), "{rank}");
    }
    Ok(())
}

#[test]
fn a_condition_can_be_joined_one_opener_below_the_limit(rt: HostRuntime) -> Result<(), Fail> {
    let alloc = rt.alloc();
    // The block, `if`, its parenthesis and `<` are open beside these, and one further parenthesis round the old text.
    expect_too_deep(&rt, alloc, 59, &[])?;
    expect_too_deep(&rt, alloc, 60, &[4, 5])?;
    assert!(rt; is_too_deep(alloc, &nested(alloc, 61)?)?);
    Ok(())
}
