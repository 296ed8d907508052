//! Sources that are refused, with the message of each first fault, and sources that are spelled in
//! other ways.

use super::{Bytes, LINE, PASSED, SURE, Want, call};
use std::alloc::Global;
use std::process::Abort;
use std::test::Fail;

// A call on this program, and how it must end.
fn ends(rt: &impl Abort, alloc: Global, program: &str, want: Want) -> Result<(), Fail> {
    let bytes = Bytes {
        program: program.as_bytes(),
        suite: PASSED.as_bytes(),
    };
    call(rt, alloc, LINE, bytes, SURE, want)
}

// The program is refused with this message.
fn refuses(rt: &impl Abort, alloc: Global, program: &str, message: &str) -> Result<(), Fail> {
    let want = Want {
        number: 4,
        out: "",
        err: message,
    };
    ends(rt, alloc, program, want)
}

/// Sources with a fault of their tokens or their grammar.
const TEXTS: [(&str, &str); 16] = [
    ("int main(void){ return @; }", "p.c:1:24: stray byte\n"),
    ("int main(void){} /* x", "p.c:1:18: comment is not closed\n"),
    (
        "int main(void){ putchar('a); }",
        "p.c:1:25: literal is not closed\n",
    ),
    ("int main(void) { return 08; }", "p.c:1:25: bad constant\n"),
    (
        "int main(void) { return 2147483648; }",
        "p.c:1:25: constant too large\n",
    ),
    (
        "int main(void) { return 0; } #define N 1",
        "p.c:1:30: directive after the first declaration\n",
    ),
    ("#pragma once", "p.c:1:1: unknown directive\n"),
    ("#define N 1\n#define N 2", "p.c:2:9: macro defined twice\n"),
    ("int main(void) <% %>", "p.c:1:16: digraph\n"),
    (
        "int main(void) { return 0; } /* ??= */",
        "p.c:1:33: trigraph\n",
    ),
    ("// \\\n", "p.c:1:4: line splice\n"),
    (
        "int main(void) { return 1 }",
        "p.c:1:27: unexpected token\n",
    ),
    ("", "p.c:1:1: unexpected token\n"),
    (
        "int main(void)\n{\n    return 1\n}\n",
        "p.c:4:1: unexpected token\n",
    ),
    ("int main(void) {\n", "p.c:2:1: unexpected token\n"),
    ("\n\n  ?", "p.c:3:3: unexpected token\n"),
];

#[test]
fn reports_the_first_fault_of_a_text(rt: HostRuntime) -> Result<(), Fail> {
    for (program, message) in TEXTS {
        refuses(&rt, rt.alloc(), program, message)?;
    }
    Ok(())
}

/// Sources with a fault of names and kinds.
const KINDS: [(&str, &str); 11] = [
    ("int main(void) { a = 1; }", "p.c:1:18: unknown name\n"),
    (
        "int main(void) { int a; int a; }",
        "p.c:1:29: declared twice\n",
    ),
    (
        "int a[2]; int main(void) { return a; }",
        "p.c:1:35: wrong kind\n",
    ),
    (
        "int f(int a) { return a; }\nint main(void) { return f(); }",
        "p.c:2:25: wrong count\n",
    ),
    ("int main(void) { 1 = 2; }", "p.c:1:18: not a place\n"),
    (
        "int a = getchar();\nint main(void) { }",
        "p.c:1:9: not a constant\n",
    ),
    (
        "int main(void) { int a[0]; }",
        "p.c:1:22: bad array length\n",
    ),
    ("int main(void) { break; }", "p.c:1:18: outside a loop\n"),
    (
        "int main(void) { printf(\"%x\"); }",
        "p.c:1:25: bad format\n",
    ),
    ("int f(void) { return 0; }\n", "p.c:2:1: no main\n"),
    (
        "int main(void) { printf(\"a\"); a; }",
        "p.c:1:31: unknown name\n",
    ),
];

#[test]
fn reports_the_first_fault_of_scopes_and_kinds(rt: HostRuntime) -> Result<(), Fail> {
    for (program, message) in KINDS {
        refuses(&rt, rt.alloc(), program, message)?;
    }
    Ok(())
}

#[test]
fn reads_other_spellings(rt: HostRuntime) -> Result<(), Fail> {
    let table = [
        "int main() { putchar(getchar() + 1); return 0; }",
        "int main(void) { putchar(getchar() + 0x1); return 00; }",
        "int main(void) { putchar((getchar()) + (1)); return (0); }",
        "#define N 1\nint main(void) { putchar(getchar() + N); return 0; }",
        "#include <stdlib.h>\n# define N (1)\nint main(void) { putchar(getchar() + N); return 0; }",
        "int main(void) { putchar(getchar() + '\\1'); return '\\0'; }",
        "/* next */ int main(void) { // a line\n putchar /* of */ (getchar() + 1); return 0; }",
    ];
    for program in table {
        let want = Want {
            number: 2,
            out: "nothing to repair\n",
            err: "",
        };
        ends(&rt, rt.alloc(), program, want)?;
    }
    Ok(())
}

#[test]
fn repairs_among_comments_and_parentheses(rt: HostRuntime) -> Result<(), Fail> {
    let table = [
        (
            "int main() { int a; a = getchar(); if (((a)) < 'B' /* small */) { putchar(a + 1); } }",
            "int main() { int a; a = getchar(); if ((a != 'B') /* small */) { putchar(a + 1); } }",
        ),
        (
            "#define N 0\nint main() { int a; a = getchar(); if ((a == N)) { putchar(a + 1); } }",
            "#define N 0\nint main() { int a; a = getchar(); if ((a != N)) { putchar(a + 1); } }",
        ),
    ];
    for (program, repaired) in table {
        let want = Want {
            number: 0,
            out: repaired,
            err: "",
        };
        ends(&rt, rt.alloc(), program, want)?;
    }
    Ok(())
}
