//! The first faults of sources: their places are counted by hand, or follow from where a source was
//! cut or changed.

use c_lex::{Token, lex};
use c_parse::{ParseFault, parse};
use c_tree::{NoMemory, Span};
use std::alloc::Global;
use std::test::Fail;

// The head of the program whose parts follow.
const HEAD: &[u8] = b"#define N 3\n";

// A program that uses each production at least once: each part is what stands at file scope.
const PARTS: &[&str] = &[
    "char c, v[N] = {1, 2,}, w[] = {'a'};\n",
    "int f(int x, char y[], int z[4]);\n",
    "void g();\n",
    "int h(void) { return 0; }\n",
    "void g() { ; return; }\n",
    "int f(int x, char y[], int z[4]) {\n",
    "int main(void) { return f(EOF, v, w); }\n",
];

// What stands in the body of `f`, up to its closing brace.
const BODY: &[&str] = &[
    "int i = 0, j; char k;\n",
    "for (;;) { break; }\n",
    "for (i = 0; i < 2; i++) continue;\n",
    "for (int n = 1; n; --n) j = i ? x : y[0], j += -x;\n",
    "while (x && y[1] || !z[0]) if (x) x--; else if (x == 1) ; else { x = (char) 2; }\n",
    "do x <<= ~1; while (x != 0);\n",
    "++i <= j, i > j, i >= j, i << j, i + j;\n",
    "i *= 2, i /= 2, i %= 2, i -= 2, i >>= 1, i &= 1, i ^= 1, i |= 1;\n",
    "printf(\"%d\", x, h(), (i, j));\n",
    "scanf(\"%d\", &z[i]);\n",
    "return (x | 1 ^ 2 & 3) >> 1 * 2 / 3 % 4 - +5;\n",
    "}\n",
];

fn add(out: &mut Vec<u8>, text: &[u8]) -> Result<(), NoMemory> {
    for byte in text {
        out.push(*byte)?;
    }
    Ok(())
}

// The program, and the places where its parts begin.
fn program(alloc: Global) -> Result<(Vec<u8>, Vec<usize>), NoMemory> {
    let mut source = Vec::new(alloc);
    let mut begins = Vec::new(alloc);
    add(&mut source, HEAD)?;
    for part in PARTS {
        begins.push(source.len())?;
        add(&mut source, part.as_bytes())?;
        if part.as_bytes().ends_with(b"{\n") {
            for piece in BODY {
                add(&mut source, piece.as_bytes())?;
            }
        }
    }
    Ok((source, begins))
}

// The tokens of a source that can be cut into them.
fn cut(alloc: Global, source: &[u8]) -> Result<Vec<Token>, Fail> {
    (source.len() < 65_536).then_some(()).ok_or("too long")?;
    Ok(lex(alloc, source)?)
}

// What `parse` says of such a source.
fn fault(alloc: Global, source: &[u8]) -> Result<Option<ParseFault>, Fail> {
    let end = u32::try_from(source.len()).ok().ok_or("too long")?;
    let tokens = cut(alloc, source)?;
    match parse(alloc, &tokens, end) {
        Ok(_) => Ok(None),
        Err(fault) => Ok(Some(fault)),
    }
}

// The source with this text in the place of the bytes of the span.
fn replaced(alloc: Global, source: &[u8], at: Span, text: &[u8]) -> Result<Vec<u8>, NoMemory> {
    let mut out = Vec::new(alloc);
    for (place, byte) in source.iter().enumerate() {
        if place == at.from as usize {
            add(&mut out, text)?;
        }
        if place < at.from as usize || place >= at.to as usize {
            out.push(*byte)?;
        }
    }
    Ok(out)
}

#[test]
fn a_prefix_of_a_program_has_its_fault_at_the_end(rt: HostRuntime) -> Result<(), Fail> {
    let alloc = rt.alloc();
    let (source, begins) = program(alloc)?;
    assert_eq!(rt; fault(alloc, &source)?, None);
    let tokens = cut(alloc, &source)?;
    for token in tokens.iter() {
        let cut = token.span.from;
        let mut want = Some(ParseFault::Unexpected(cut));
        for begin in begins.iter() {
            if *begin == cut as usize && cut as usize > HEAD.len() {
                want = None;
            }
        }
        let prefix = source.get(..cut as usize).ok_or("no such place")?;
        assert_eq!(rt; fault(alloc, prefix)?, want, "at {cut}");
    }
    Ok(())
}

#[test]
fn a_keyword_of_no_production_is_the_fault(rt: HostRuntime) -> Result<(), Fail> {
    let alloc = rt.alloc();
    let (source, _) = program(alloc)?;
    let tokens = cut(alloc, &source)?;
    for token in tokens.iter() {
        let changed = replaced(alloc, &source, token.span, b" struct ")?;
        let want = Some(ParseFault::Unexpected(token.span.from.wrapping_add(1)));
        assert_eq!(rt; fault(alloc, &changed)?, want, "at {}", token.span.from);
    }
    Ok(())
}

#[test]
fn tokens_left_out_or_doubled(rt: HostRuntime) -> Result<(), Fail> {
    let alloc = rt.alloc();
    let table = [
        ("", 0),
        ("int", 3),
        ("int main", 8),
        ("int main(void) { return 1 }", 26),
        ("int main(void) { return 1; } }", 29),
        ("int main(void) { return 1 1; }", 26),
        ("int main(void) { return return 1; }", 24),
        ("int main(void) { return (1; }", 26),
        ("int main(void) { return 1); }", 25),
        ("int main(void { return 1; }", 14),
        ("int main void) { return 1; }", 9),
        ("main(void) { return 1; }", 0),
        ("int (void) { return 1; }", 4),
        ("int main(void) return 1; }", 15),
        ("int main(void) { if 1) ; }", 20),
        ("int main(void) { if (1 ; }", 23),
        ("int main(void) { if (1) else ; }", 24),
        ("int main(void) { if (1) ; else }", 31),
    ];
    for (source, place) in table {
        let want = Some(ParseFault::Unexpected(place));
        assert_eq!(rt; fault(alloc, source.as_bytes())?, want, "at {source}");
    }
    Ok(())
}

#[test]
fn what_the_language_lacks(rt: HostRuntime) -> Result<(), Fail> {
    let alloc = rt.alloc();
    let table = [
        ("int *p;", 4),
        ("int a[2][2];", 8),
        ("int a[];int b[1+1];", 15),
        ("int f(int);", 9),
        ("int f(void, int a);", 10),
        ("void a;", 6),
        ("int main(void) { \"a\"; }", 17),
        ("int main(void) { f(\"a\" \"b\"); }", 23),
        ("int main(void) { f(&&a); }", 19),
        ("int main(void) { a->b; }", 19),
        ("int main(void) { x: ; }", 18),
        ("int main(void) { int a = {1}; }", 25),
        ("int main(void) { int a[1] = 1; }", 28),
        ("int main(void) { (void) 1; }", 18),
        ("int main(void) { a + b = 1; }", 23),
        ("int main(void) { (a)(1); }", 20),
        ("int main(void) { a[1][1]; }", 21),
        ("int main(void) { a++ ++; }", 21),
    ];
    for (source, place) in table {
        let want = Some(ParseFault::Unexpected(place));
        assert_eq!(rt; fault(alloc, source.as_bytes())?, want, "at {source}");
    }
    Ok(())
}

#[test]
fn more_that_the_language_lacks(rt: HostRuntime) -> Result<(), Fail> {
    let alloc = rt.alloc();
    let table = [
        ("int main(void) { do ; while (1) }", 32),
        ("int main(void) { do ; (1); }", 22),
        ("int main(void) { for (1; 1) ; }", 26),
        ("int main(void) { for (int a; 1; 1; 1) ; }", 33),
        ("int main(void) { for (1) ; }", 23),
        ("int main(void) { else ; }", 17),
        ("int main(void) { if (1) int a; }", 24),
        ("int main(void) { ; } int a = 1, ;", 32),
        ("int a[1] = {};", 12),
        ("int a[1] = {1,,};", 14),
        ("int a b;", 6),
        ("int main(void) { 1 ? 2; }", 22),
        ("int main(void) { f(1,); }", 21),
        ("int main(void) { f(,1); }", 19),
        ("int main(void) { (); }", 18),
        ("int main(void) { - ; }", 19),
        ("int main(void) { break 1; }", 23),
        ("static int a;", 0),
    ];
    for (source, place) in table {
        let want = Some(ParseFault::Unexpected(place));
        assert_eq!(rt; fault(alloc, source.as_bytes())?, want, "at {source}");
    }
    Ok(())
}
