//! How a run ends: the first of its ends by time; what is read and written by bytes.

use crate::run::{ENOUGH, joined, outcome, test_of};
use c_meaning::{End, Outcome, State, finished, outcome_at};
use std::test::Fail;

const BEFORE: &str = "int main(void) { ";

const AFTER: &str = " }";

/// The statements of `main`, what is expected where the status that is wanted is 0, and the end.
const ENDS: &[(&str, &[u8], Outcome)] = &[
    ("", b"", Outcome::Passed),
    ("putchar('a'); putchar('b');", b"ab", Outcome::Passed),
    ("putchar('a'); putchar('b');", b"abc", Outcome::Short),
    ("putchar('a'); putchar('b');", b"a", Outcome::Wrong),
    ("putchar('a'); putchar('b');", b"ac", Outcome::Wrong),
    ("putchar('a'); putchar('b');", b"", Outcome::Wrong),
    ("return 3;", b"", Outcome::Status(3)),
    ("return -1;", b"", Outcome::Status(255)),
    ("return 259;", b"", Outcome::Status(3)),
    ("return 256;", b"", Outcome::Passed),
    // what is short comes before the status, what is wrong before all that follows
    ("putchar('a'); return 3;", b"ab", Outcome::Short),
    ("putchar('a'); return 3;", b"a", Outcome::Status(3)),
    ("putchar('x'); return 1 / 0;", b"a", Outcome::Wrong),
    ("putchar('a'); return 1 / 0;", b"a", Outcome::Trapped),
    ("putchar('a'); return 1 / 0;", b"ab", Outcome::Trapped),
    ("putchar('a'); for (;;) ;", b"a", Outcome::Budget),
    ("for (;;) putchar('a');", b"aaa", Outcome::Wrong),
    // a byte is written modulo 256
    (
        "putchar(256 + 'a'); putchar('a' - 256);",
        b"aa",
        Outcome::Passed,
    ),
    (
        "putchar(-1); putchar(255); putchar(0);",
        b"\xff\xff\0",
        Outcome::Passed,
    ),
    ("putchar(-2147483647 - 1);", b"\0", Outcome::Passed),
    ("putchar(putchar('a') + 1);", b"ab", Outcome::Passed),
    ("char c = 200; putchar(c);", b"\xc8", Outcome::Passed),
];

/// The statements, what they write, and the status: the value of `putchar` is the byte from 0 to 255.
const WRITTEN: &[(&str, &[u8], u8)] = &[
    ("return putchar(-1) == 255;", b"\xff", 1),
    ("return putchar(256 + 7);", b"\x07", 7),
    ("return putchar(0) + 1;", b"\0", 1),
    ("char c = -1; return putchar(c) + c;", b"\xff", 254),
];

/// The statements, what they read, and the status: a byte is read as the value from 0 to 255, and -1 comes at the end.
const READ: &[(&str, &[u8], u8)] = &[
    ("return getchar();", b"A", 65),
    ("return getchar() == 255;", b"\xff", 1),
    ("return getchar() == 0;", b"\0", 1),
    ("return getchar() == EOF;", b"", 1),
    ("getchar(); return getchar() + getchar();", b"x", 254),
    ("char c = getchar(); return c == -56;", b"\xc8", 1),
    ("char c = getchar(); return c == EOF;", b"\xff", 1),
    ("return getchar() * 2 - getchar();", b"ab", 96),
    ("return getchar() - '0';", b"7 is not read whole", 7),
];

/// What is still to be written, the status that is wanted, how a run ended, and what comes of it.
const OUTCOMES: &[(&[u8], u8, End, Outcome)] = &[
    (b"", 0, End::Exit(0), Outcome::Passed),
    (b"", 3, End::Exit(259), Outcome::Passed),
    (b"", 0, End::Exit(3), Outcome::Status(3)),
    (b"", 3, End::Exit(0), Outcome::Status(0)),
    (b"", 0, End::Exit(-1), Outcome::Status(255)),
    (b"a", 0, End::Exit(0), Outcome::Short),
    (b"a", 0, End::Exit(3), Outcome::Short),
    (b"", 0, End::Wrong, Outcome::Wrong),
    (b"a", 0, End::Trapped, Outcome::Trapped),
    (b"", 0, End::Budget, Outcome::Budget),
    (b"", 0, End::Depth, Outcome::Depth),
    (b"a", 0, End::Cells, Outcome::Cells),
];

/// What is read is written again.
const COPIED: &[&[u8]] = &[b"", b"a", b"a\0\xff\nz", b"\xff\xfe\r\n"];

#[test]
fn runs_end(rt: HostRuntime) -> Result<(), Fail> {
    let alloc = rt.alloc();
    for (text, output, want) in ENDS {
        let source = joined(alloc, &[BEFORE, text, AFTER])?;
        let test = test_of(alloc, b"", output, 0)?;
        let found = outcome(alloc, &source, &test, ENOUGH)?;
        assert_eq!(rt; found, *want, "at {text}");
    }
    Ok(())
}

#[test]
fn ends_have_outcomes(rt: HostRuntime) -> Result<(), Fail> {
    let alloc = rt.alloc();
    for (left, wanted, end, want) in OUTCOMES {
        let test = test_of(alloc, b"", left, *wanted)?;
        let state = State::new(alloc, &test, ENOUGH);
        assert_eq!(rt; outcome_at(*wanted, &state, *end), *want, "at {end:?}");
        if let End::Exit(value) = end {
            assert_eq!(rt; finished(*wanted, &state, *value), *want, "at {value}");
        }
    }
    Ok(())
}

#[test]
fn bytes_are_read_and_written(rt: HostRuntime) -> Result<(), Fail> {
    let alloc = rt.alloc();
    for (text, output, status) in WRITTEN {
        let source = joined(alloc, &[BEFORE, text, AFTER])?;
        let test = test_of(alloc, b"", output, *status)?;
        let found = outcome(alloc, &source, &test, ENOUGH)?;
        assert_eq!(rt; found, Outcome::Passed, "at {text}");
    }
    for (text, input, status) in READ {
        let source = joined(alloc, &[BEFORE, text, AFTER])?;
        let test = test_of(alloc, input, b"", *status)?;
        let found = outcome(alloc, &source, &test, ENOUGH)?;
        assert_eq!(rt; found, Outcome::Passed, "at {text}");
    }
    let copy = b"int main(void) { int c; while ((c = getchar()) != EOF) putchar(c); }";
    for bytes in COPIED {
        let test = test_of(alloc, bytes, bytes, 0)?;
        let found = outcome(alloc, copy, &test, ENOUGH)?;
        assert_eq!(rt; found, Outcome::Passed, "at {bytes:?}");
    }
    Ok(())
}
