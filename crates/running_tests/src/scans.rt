//! What `scanf` reads, what it stores and what it leaves.

use crate::run::{ENOUGH, is_accepted, outcome, test_of};
use c_meaning::Outcome;
use std::test::Fail;

/// A program that reads one number. It writes the value of `scanf`, the variable, which was 7, and the next byte.
const ONE: &str = r#"int main(void) {
    int x = 7, n = scanf("%d", &x);
    printf("%d %d %d", n, x, getchar());
}
"#;

/// What is read, and what `ONE` writes.
const READ: &[(&[u8], &[u8])] = &[
    (b"5", b"1 5 -1"),
    (b"12 ", b"1 12 32"),
    (b"12\n", b"1 12 10"),
    // white space of each kind is skipped, and no other byte
    (b" 5", b"1 5 -1"),
    (b"\t5", b"1 5 -1"),
    (b"\n5", b"1 5 -1"),
    (b"\x0b5", b"1 5 -1"),
    (b"\x0c5", b"1 5 -1"),
    (b"\r5", b"1 5 -1"),
    (b" \t\n\x0b\x0c\r 5\r", b"1 5 13"),
    (b"\x085", b"0 7 8"),
    (b"\x0e5", b"0 7 14"),
    (b"\x1f5", b"0 7 31"),
    (b"!5", b"0 7 33"),
    (b"\xa05", b"0 7 160"),
    (b"\x855", b"0 7 133"),
    (b"\x005", b"0 7 0"),
    // the end before anything else
    (b"", b"-1 7 -1"),
    (b" ", b"-1 7 -1"),
    (b" \t\n\x0b\x0c\r", b"-1 7 -1"),
    // a sign is taken, also where no digit follows
    (b"+5", b"1 5 -1"),
    (b"-5", b"1 -5 -1"),
    (b" -5 ", b"1 -5 32"),
    (b"-0", b"1 0 -1"),
    (b"+0", b"1 0 -1"),
    (b"-", b"0 7 -1"),
    (b"+", b"0 7 -1"),
    (b" -", b"0 7 -1"),
    (b"- 5", b"0 7 32"),
    (b"-x", b"0 7 120"),
    (b"--5", b"0 7 45"),
    (b"+-5", b"0 7 45"),
    (b"-+5", b"0 7 43"),
    // no digit
    (b"x", b"0 7 120"),
    (b" x", b"0 7 120"),
    (b"/", b"0 7 47"),
    (b":", b"0 7 58"),
    (b".5", b"0 7 46"),
    // digits as long as they stand there
    (b"0", b"1 0 -1"),
    (b"00", b"1 0 -1"),
    (b"008", b"1 8 -1"),
    (b"-0012", b"1 -12 -1"),
    (b"12a", b"1 12 97"),
    (b"12.5", b"1 12 46"),
    (b"12/", b"1 12 47"),
    (b"12:", b"1 12 58"),
    (b"0x10", b"1 0 120"),
    (b"1-2", b"1 1 45"),
    (b"1\x002", b"1 1 0"),
    // the limits of `int`
    (b"2147483647", b"1 2147483647 -1"),
    (b"+2147483647", b"1 2147483647 -1"),
    (b"2147483646x", b"1 2147483646 120"),
    (b"-2147483648", b"1 -2147483648 -1"),
    (b"-2147483647", b"1 -2147483647 -1"),
];

/// What is read where a number is no `int`.
const WIDE: &[&[u8]] = &[
    b"2147483648",
    b"-2147483649",
    b"+2147483648",
    b"02147483648",
    b"21474836470",
    b"4294967296",
    b"4294967301",
    b"9999999999",
    b"10000000000",
    b"9223372036854775807",
    b"-9223372036854775808",
    b"9223372036854775808",
    b"18446744073709551616",
    b"18446744073709551621",
    b"-18446744073709551621",
    b"340282366920938463463374607431768211461",
];

/// A program, what it reads, and its status where it writes nothing.
const VALUES: &[(&str, &[u8], u8)] = &[
    // places
    (
        r#"int a[3]; int main(void) { scanf("%d", &a[2]); return a[2] * 10 + a[1]; }"#,
        b"9",
        90,
    ),
    (
        r#"int x = 1; int main(void) { int x = 2; scanf("%d", &x); return x; }"#,
        b"9",
        9,
    ),
    (
        r#"int f(int n) { scanf("%d", &n); return n; } int main(void) { int n = 1; return f(n) + n; }"#,
        b"9",
        10,
    ),
    (
        r#"void f(int v[]) { scanf("%d", &v[1]); } int main(void) { int a[2]; f(a); return a[1]; }"#,
        b"9",
        9,
    ),
    // the index comes first, and once
    (
        r#"int main(void) { int a[2], i = 0; scanf("%d", &a[i++]); return a[0] * 10 + i; }"#,
        b"4",
        41,
    ),
    (
        r#"int main(void) { int a[9]; scanf("%d", &a[getchar() - '0']); return a[1]; }"#,
        b"17",
        7,
    ),
    (
        r#"int main(void) { int a[9], n = 2; scanf("%d", &n); scanf("%d", &a[n]); return a[n]; }"#,
        b"3 8",
        8,
    ),
    // where nothing is stored, the index may lie outside
    (
        r#"int a[3]; int main(void) { return scanf("%d", &a[3]); }"#,
        b"",
        255,
    ),
    (
        r#"int a[3]; int main(void) { return scanf("%d", &a[-1]); }"#,
        b" ",
        255,
    ),
    (
        r#"int a[3]; int main(void) { return scanf("%d", &a[3]) + getchar(); }"#,
        b"-x",
        120,
    ),
    // one after another
    (
        r#"int main(void) { int x, y; scanf("%d", &x); scanf("%d", &y); return x * y; }"#,
        b"12-7",
        172,
    ),
    (
        r#"int main(void) { int x; getchar(); scanf("%d", &x); return x; }"#,
        b"123",
        23,
    ),
    (
        r#"int main(void) { int x; return scanf("%d", &x) * 100 + scanf("%d", &x) * 10 + x; }"#,
        b"5 6",
        116,
    ),
    (
        r#"int main(void) { int x = 3; scanf("%d", &x); scanf("%d", &x); return x; }"#,
        b"x5",
        3,
    ),
    // until a number isn't there
    (
        r#"int main(void) { int n = 0, x; while (scanf("%d", &x) == 1) n += x; return n; }"#,
        b"1 2\n3",
        6,
    ),
    (
        r#"int main(void) { int n = 0, x; while (scanf("%d", &x) == 1) n += x; return n; }"#,
        b"",
        0,
    ),
    (
        r#"int main(void) { int n = 0, x; while (scanf("%d", &x) == 1) n += x; return n; }"#,
        b"1 2 x 3",
        3,
    ),
    (
        r#"int main(void) { int n = 0, x; while (scanf("%d", &x) == 1) n += x; return n; }"#,
        b"5 - 6",
        5,
    ),
    (
        r#"int main(void) { int n = 0, x; while (scanf("%d", &x) != EOF) n++; return n; }"#,
        b"5 - 6 ",
        3,
    ),
];

/// A program, and what it reads where it traps.
const TRAPPED: &[(&str, &[u8])] = &[
    (r#"int a[3]; int main(void) { scanf("%d", &a[3]); }"#, b"9"),
    (r#"int a[3]; int main(void) { scanf("%d", &a[-1]); }"#, b"9"),
    (
        r#"int a[3]; int main(void) { scanf("%d", &a[2147483647]); }"#,
        b"-9",
    ),
    // the index traps, though nothing would be stored
    (
        r#"int a[3]; int main(void) { scanf("%d", &a[1 / 0]); }"#,
        b"",
    ),
    (
        r#"int a[3]; int main(void) { int u; scanf("%d", &a[u]); }"#,
        b"x",
    ),
    // too wide, wherever the place lies
    (
        r#"int a[3]; int main(void) { scanf("%d", &a[3]); }"#,
        b"2147483648",
    ),
    // what wasn't stored stays uninitialised
    (
        r#"int main(void) { int x; scanf("%d", &x); return x; }"#,
        b"",
    ),
    (
        r#"int main(void) { int x; scanf("%d", &x); return x; }"#,
        b"x",
    ),
];

/// A program that returns 0, what it reads and writes, and the units that its run takes: calls of the library cost nothing.
const TAKEN: &[(&str, &[u8], &[u8], u64)] = &[
    (
        r#"int main(void) { printf("%d%c", 1, 'a'); }"#,
        b"",
        b"1a",
        2,
    ),
    (
        r#"int main(void) { printf("%d", printf("a")); }"#,
        b"",
        b"a1",
        2,
    ),
    (r#"int main(void) { int x; scanf("%d", &x); }"#, b"", b"", 2),
    (
        r#"int main(void) { int x; scanf("%d", &x); printf("%d", x); }"#,
        b" 10",
        b"10",
        3,
    ),
    ("int main(void) { exit(abs(0)); }", b"", b"", 2),
    (
        "int main(void) { while (getchar() != EOF) ; }",
        b"ab",
        b"",
        4,
    ),
    (
        r#"int main(void) { int x, s = 0; while (scanf("%d", &x) == 1) s += x; printf("%d", s); }"#,
        b"1 2",
        b"3",
        8,
    ),
    (
        r#"int main(void) { for (int i = 0; i < 3; printf("%d", i++)) ; }"#,
        b"",
        b"012",
        6,
    ),
];

/// How many zeros stand before a number that is read.
const ZEROS: u32 = 3_000;

#[test]
fn numbers_are_read(rt: HostRuntime) -> Result<(), Fail> {
    let alloc = rt.alloc();
    for (input, output) in READ {
        let test = test_of(alloc, input, output, 0)?;
        let found = outcome(alloc, ONE.as_bytes(), &test, ENOUGH)?;
        assert_eq!(rt; found, Outcome::Passed, "at {input:?}");
    }
    for input in WIDE {
        let test = test_of(alloc, input, b"", 0)?;
        let found = outcome(alloc, ONE.as_bytes(), &test, ENOUGH)?;
        assert_eq!(rt; found, Outcome::Trapped, "at {input:?}");
    }
    Ok(())
}

/// Leading zeros change nothing, however many they are.
#[test]
fn zeros_are_read(rt: HostRuntime) -> Result<(), Fail> {
    let alloc = rt.alloc();
    let mut input = Vec::new(alloc);
    input.push(b'-')?;
    for _ in 0..ZEROS {
        input.push(b'0')?;
    }
    let test = test_of(alloc, &input, b"1 0 -1", 0)?;
    let found = outcome(alloc, ONE.as_bytes(), &test, ENOUGH)?;
    assert_eq!(rt; found, Outcome::Passed);
    input.extend_from_slice(b"2147483648 ")?;
    let test = test_of(alloc, &input, b"1 -2147483648 32", 0)?;
    let found = outcome(alloc, ONE.as_bytes(), &test, ENOUGH)?;
    assert_eq!(rt; found, Outcome::Passed);
    Ok(())
}

#[test]
fn numbers_are_stored(rt: HostRuntime) -> Result<(), Fail> {
    let alloc = rt.alloc();
    for (text, input, status) in VALUES {
        let test = test_of(alloc, input, b"", *status)?;
        let found = outcome(alloc, text.as_bytes(), &test, ENOUGH)?;
        assert_eq!(rt; found, Outcome::Passed, "at {text}, {input:?}");
    }
    for (text, input) in TRAPPED {
        let test = test_of(alloc, input, b"", 0)?;
        let found = outcome(alloc, text.as_bytes(), &test, ENOUGH)?;
        assert_eq!(rt; found, Outcome::Trapped, "at {text}, {input:?}");
    }
    Ok(())
}

/// A number is read into an `int` alone.
#[test]
fn no_char_is_read(rt: HostRuntime) -> Result<(), Fail> {
    let alloc = rt.alloc();
    for (text, want) in [
        (r#"int main(void) { int c; scanf("%d", &c); }"#, true),
        (r#"int main(void) { char c; scanf("%d", &c); }"#, false),
        (r#"int main(void) { int s[2]; scanf("%d", &s[1]); }"#, true),
        (
            r#"int main(void) { char s[2]; scanf("%d", &s[1]); }"#,
            false,
        ),
    ] {
        let found = is_accepted(alloc, text.as_bytes())?;
        assert_eq!(rt; found, want, "at {text}");
    }
    Ok(())
}

#[test]
fn the_library_takes_no_units(rt: HostRuntime) -> Result<(), Fail> {
    let alloc = rt.alloc();
    for (text, input, output, units) in TAKEN {
        let test = test_of(alloc, input, output, 0)?;
        let found = outcome(alloc, text.as_bytes(), &test, *units)?;
        assert_eq!(rt; found, Outcome::Passed, "at {text}");
        let found = outcome(alloc, text.as_bytes(), &test, units.wrapping_sub(1))?;
        assert_eq!(rt; found, Outcome::Budget, "at {text}");
    }
    Ok(())
}
