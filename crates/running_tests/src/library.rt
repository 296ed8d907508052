//! The library: what `printf` writes, what `scanf` reads, and the ends by `exit` and `abs`.

use crate::run::{ENOUGH, joined, outcome, test_of};
use c_meaning::Outcome;
use std::test::Fail;

/// What stands before the statements of `main`. `p` writes a digit and gives it; `leave` doesn't come back.
const BEFORE: &str = "int a[3]; int p(int n) { putchar('0' + n); return n; } \
int leave(int n) { exit(n); return 9; } int nested(int n) { leave(n); putchar('x'); return 9; } \
int main(void) { ";

/// What stands after them.
const AFTER: &str = " }";

/// Statements, and what they write; the status is 0.
const PRINTED: &[(&str, &[u8])] = &[
    (r#"printf("");"#, b""),
    (r#"printf("ab");"#, b"ab"),
    (r#"printf("a\tb\n");"#, b"a\tb\n"),
    // numbers in decimal
    (r#"printf("%d", 0);"#, b"0"),
    (r#"printf("%d", 7);"#, b"7"),
    (r#"printf("%d", 10);"#, b"10"),
    (r#"printf("%d", 1009000);"#, b"1009000"),
    (r#"printf("%d", -1);"#, b"-1"),
    (r#"printf("%d", 2147483647);"#, b"2147483647"),
    (r#"printf("%d", -2147483647 - 1);"#, b"-2147483648"),
    (r#"char c = 200; printf("%d", c);"#, b"-56"),
    // one byte, modulo 256
    (r#"printf("%c", 'a');"#, b"a"),
    (r#"printf("%c", 0);"#, b"\0"),
    (r#"printf("%c", 255);"#, b"\xff"),
    (r#"printf("%c", 256);"#, b"\0"),
    (r#"printf("%c", -1);"#, b"\xff"),
    (r#"printf("%c", -2147483647 - 1);"#, b"\0"),
    (r#"char c = 200; printf("%c", c);"#, b"\xc8"),
    (r#"printf("%c", '%');"#, b"%"),
    // `%` itself
    (r#"printf("%%");"#, b"%"),
    (r#"printf("%%%%");"#, b"%%"),
    (r#"printf("%%d%%c");"#, b"%d%c"),
    (r#"printf("%%%d%%", 5);"#, b"%5%"),
    // several conversions, each with its own argument
    (r#"printf("%d%d", 1, 2);"#, b"12"),
    (r#"printf("%d %c %d\n", 1, 'x', -3);"#, b"1 x -3\n"),
    (r#"printf("%c%d%c", 'a', 'a', 98);"#, b"a97b"),
    (r#"printf("d%dc%cd", 1, 'c');"#, b"d1ccd"),
    (r#"printf("a"); printf("b%d", 1); putchar('c');"#, b"ab1c"),
];

/// Statements, what is expected, and the end where the status that is wanted is 0.
const ENDS: &[(&str, &[u8], Outcome)] = &[
    (r#"printf("abc");"#, b"abc", Outcome::Passed),
    (r#"printf("abc");"#, b"xbc", Outcome::Wrong),
    (r#"printf("abc");"#, b"axc", Outcome::Wrong),
    (r#"printf("abc");"#, b"abx", Outcome::Wrong),
    // more than what is expected, and less
    (r#"printf("abc");"#, b"ab", Outcome::Wrong),
    (r#"printf("abc");"#, b"", Outcome::Wrong),
    (r#"printf("abc");"#, b"abcd", Outcome::Short),
    (r#"printf("");"#, b"a", Outcome::Short),
    (r#"printf("%d", 123);"#, b"223", Outcome::Wrong),
    (r#"printf("%d", 123);"#, b"133", Outcome::Wrong),
    (r#"printf("%d", 123);"#, b"124", Outcome::Wrong),
    (r#"printf("%d", 123);"#, b"12", Outcome::Wrong),
    (r#"printf("%d", 123);"#, b"1234", Outcome::Short),
    (r#"printf("%d", -5);"#, b"5", Outcome::Wrong),
    (r#"printf("%d", 5);"#, b"+5", Outcome::Wrong),
    (r#"printf("%d", 5);"#, b"05", Outcome::Wrong),
    (r#"printf("a%%b");"#, b"a%%b", Outcome::Wrong),
    (r#"printf("%c%d", 0, 0);"#, b"\0", Outcome::Wrong),
    // nothing is done after the first wrong byte
    (r#"printf("ax"); return 1 / 0;"#, b"ay", Outcome::Wrong),
    (r#"printf("ab"); return 1 / 0;"#, b"ab", Outcome::Trapped),
    (r#"for (;;) printf("ab");"#, b"abab", Outcome::Wrong),
    (r#"for (;;) printf("");"#, b"", Outcome::Budget),
    // arguments come before the first byte
    (r#"printf("x%d", 1 / 0);"#, b"y", Outcome::Trapped),
    (r#"int u; printf("x%d", u);"#, b"y", Outcome::Trapped),
    (r#"printf("x%d", p(1));"#, b"1x1", Outcome::Passed),
    (r#"printf("x%d", p(1));"#, b"x1", Outcome::Wrong),
    (r#"printf("x%d", leave(0));"#, b"", Outcome::Passed),
    // `exit`, from calls inside one another
    ("nested(3); return 9;", b"", Outcome::Status(3)),
    ("nested(0); return 9;", b"", Outcome::Passed),
    ("nested(256); return 9;", b"", Outcome::Passed),
    ("nested(-1); return 9;", b"", Outcome::Status(255)),
    ("nested(259); return 9;", b"", Outcome::Status(3)),
    ("exit(-256);", b"", Outcome::Passed),
    ("exit(0); 1 / 0;", b"", Outcome::Passed),
    ("exit(0);", b"a", Outcome::Short),
    (r#"printf("a"); exit(2);"#, b"ab", Outcome::Short),
    (r#"printf("a"); exit(2);"#, b"a", Outcome::Status(2)),
    ("exit(p(1) - 1);", b"1", Outcome::Passed),
    ("exit(1 / 0);", b"", Outcome::Trapped),
    ("for (;; exit(0)) ;", b"", Outcome::Passed),
    // `abs` of the least `int`, and beside it
    ("abs(-2147483647 - 1);", b"", Outcome::Trapped),
    (
        "return abs(-2147483647) - 2147483647;",
        b"",
        Outcome::Passed,
    ),
    ("return abs(2147483647) - 2147483647;", b"", Outcome::Passed),
    ("return abs(-5) - 5;", b"", Outcome::Passed),
    ("return abs(0);", b"", Outcome::Passed),
];

/// Statements, what they write, and the status: the value of `printf` is the number of bytes.
const WRITTEN: &[(&str, &[u8], u8)] = &[
    (r#"return printf("ab");"#, b"ab", 2),
    (r#"return printf("");"#, b"", 0),
    (r#"return printf("%%");"#, b"%", 1),
    (r#"return printf("%d", 123);"#, b"123", 3),
    (r#"return printf("%c%c", 0, 300);"#, b"\0,", 2),
    (r#"return printf("%d%%\n", 10);"#, b"10%\n", 4),
    (
        r#"return printf("%d", -2147483647 - 1);"#,
        b"-2147483648",
        11,
    ),
    (r#"return printf("%d", printf("ab"));"#, b"ab2", 1),
    (
        r#"return printf("%d%d", printf("x"), printf("yz"));"#,
        b"xyz12",
        2,
    ),
    ("return putchar('a');", b"a", 97),
    ("exit(putchar('a'));", b"a", 97),
    (r#"return printf("%d", putchar(-1));"#, b"\xff255", 3),
];

/// Statements, and what they write: the order of evaluation.
const ORDER: &[(&str, &[u8])] = &[
    (r#"printf("%d%d%d", p(1), p(2), p(3));"#, b"123123"),
    (r#"printf("%d", p(1)) + p(2);"#, b"112"),
    (
        r#"printf("a") - printf("b") * (printf("c") + printf("d"));"#,
        b"abcd",
    ),
    (r#"printf("") && printf("a"); printf("b");"#, b"b"),
    (r#"printf("a") || printf("b");"#, b"a"),
    (r#"printf("a") ? printf("b") : printf("c");"#, b"ab"),
    (
        r#"a[printf("x")] = printf("yy"); printf("%d", a[1]);"#,
        b"xyy2",
    ),
    (
        r#"a[printf("x")] += printf("yy"); printf("%d", a[1]);"#,
        b"xyy2",
    ),
    (r#"int i = 0; printf("%d%d%d", i++, ++i, i);"#, b"022"),
    (
        r#"int i = printf("a"), j = printf("b%d", i); printf("%d", j);"#,
        b"ab12",
    ),
    (r#"for (printf("a"); printf("b"), 0; printf("c")) ;"#, b"ab"),
];

#[test]
fn formats_are_written(rt: HostRuntime) -> Result<(), Fail> {
    let alloc = rt.alloc();
    for rows in [PRINTED, ORDER] {
        for (text, output) in rows {
            let source = joined(alloc, &[BEFORE, text, " return 0;", AFTER])?;
            let test = test_of(alloc, b"", output, 0)?;
            let found = outcome(alloc, &source, &test, ENOUGH)?;
            assert_eq!(rt; found, Outcome::Passed, "at {text}");
        }
    }
    for (text, output, status) in WRITTEN {
        let source = joined(alloc, &[BEFORE, text, AFTER])?;
        let test = test_of(alloc, b"", output, *status)?;
        let found = outcome(alloc, &source, &test, ENOUGH)?;
        assert_eq!(rt; found, Outcome::Passed, "at {text}");
    }
    Ok(())
}

#[test]
fn library_runs_end(rt: HostRuntime) -> Result<(), Fail> {
    let alloc = rt.alloc();
    for (text, output, want) in ENDS {
        let source = joined(alloc, &[BEFORE, text, " return 0;", AFTER])?;
        let test = test_of(alloc, b"", output, 0)?;
        let found = outcome(alloc, &source, &test, ENOUGH)?;
        assert_eq!(rt; found, *want, "at {text}");
    }
    Ok(())
}
