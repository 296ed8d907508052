//! The order of evaluation, seen through what is written. `p` writes a digit and gives it.

use crate::run::{ENOUGH, joined, outcome, test_of};
use c_meaning::Outcome;
use std::test::Fail;

/// What stands before the statements of `main`.
const BEFORE: &str = "int a[4] = {1, 2, 3}, x; int p(int n) { putchar('0' + n); return n; } \
int three(int x, int y, int z) { return x + y + z; } int none(void) { } int main(void) { ";

/// What stands after them.
const AFTER: &str = " return 0; }";

/// Statements, and what they write.
type Written = (&'static str, &'static str);

/// Operands, arguments and places from left to right; what isn't needed is skipped.
const EXPRESSIONS: &[Written] = &[
    ("p(1) + p(2) * p(3);", "123"),
    ("p(1) - (p(2) - p(3));", "123"),
    ("p(3) < p(2) == p(1);", "321"),
    ("three(p(3), p(1), p(2));", "312"),
    ("three(p(1), three(p(2), p(3), p(4)) - 7, p(5));", "12345"),
    ("p(p(p(1)));", "111"),
    ("p(1), p(2), p(3);", "123"),
    ("p(0) && p(1);", "0"),
    ("p(1) && p(2);", "12"),
    ("p(1) || p(2);", "1"),
    ("p(0) || p(0);", "00"),
    ("p(0) && p(1) || p(2);", "02"),
    ("p(0) ? p(1) : p(2);", "02"),
    ("p(1) ? p(2) : p(3);", "12"),
    ("p(1) ? p(0) ? p(2) : p(3) : p(4);", "103"),
    ("p(a[p(1)]);", "12"),
    // the place's index, the right side, the store
    ("a[p(1)] = p(2);", "12"),
    ("a[p(0)] = a[p(1)] = p(2);", "012"),
    ("a[x] = ++x + 5; p(a[0]);", "6"),
    ("x = 1; a[x] = x = 3; p(a[1]); p(x);", "33"),
    ("x = x++ + 1; p(x);", "1"),
    // the index, the right side, the old value, the operation, the store
    ("a[p(1)] += p(2); p(a[1]);", "124"),
    ("a[x] += ++x; p(a[0]);", "2"),
    ("x = 1; x += x = 3; p(x);", "6"),
    ("x = 5; x -= x++; p(x);", "1"),
    ("x = 1; x += p(x) + (x = 2); p(x);", "15"),
    // the prefix form gives the stored value, the postfix form the old one
    ("x = 3; p(x++); p(x);", "34"),
    ("x = 3; p(++x); p(x);", "44"),
    ("x = 3; p(x--); p(x);", "32"),
    ("x = 3; p(--x); p(x);", "22"),
    ("a[x++]++; p(a[0]); p(x);", "21"),
    ("p(++a[p(1)]); p(a[1]);", "133"),
    ("p(a[p(1)]--); p(a[1]);", "121"),
    ("p(x++ + x++); p(x);", "12"),
    // an assignment's value is the stored one
    ("char c; p(c = 257);", "1"),
    ("char c; p(c += 250 - (c = 1));", "*"),
    ("char c; c = 127; p(c++ - 120); p(-120 - c);", "78"),
];

/// Declarators, initialisers and statements in the order of the text.
const STATEMENTS: &[Written] = &[
    ("int i = p(1), j = p(2), k = i + j; p(k);", "123"),
    ("int b[3] = {p(1), p(2)}; p(b[1]); p(b[2]);", "1220"),
    ("int b[2] = {p(4), b[0] + 1}; p(b[1]);", "45"),
    ("int b[] = {p(4), p(5), b[1] + 1}; p(b[2]);", "456"),
    ("if (p(0)) p(1); else p(2);", "02"),
    ("if (p(1)) p(2); else p(3); p(4);", "124"),
    ("if (p(0)) p(1); p(2);", "02"),
    ("if (1) if (0) p(1); else p(2);", "2"),
    ("if (0) if (1) p(1); else p(2); p(3);", "3"),
    ("while (p(x++) < 2) p(7);", "07172"),
    (
        "while (p(x) < 3) { x++; if (x == 2) continue; p(7); }",
        "071273",
    ),
    ("do p(x); while (p(++x) < 3);", "011223"),
    (
        "do { if (x == 0) continue; p(9); } while (p(++x) < 2);",
        "192",
    ),
    ("do { p(1); break; } while (p(2)); p(3);", "13"),
    ("for (p(1); p(2) < 2; p(3)) p(4);", "12"),
    ("for (p(1); p(x) < 2; x = x + 1) p(5);", "105152"),
    ("for (int i = p(3); i < 5; p(i++)) p(7);", "37374"),
    (
        "for (x = 0; x < 3; p(x), x++) { if (x == 1) continue; p(8); }",
        "80182",
    ),
    ("for (;;) { if (p(x++) == 2) break; }", "012"),
    (
        "for (x = 0; x < 2; x++) { while (1) { p(x); break; } p(5); }",
        "0515",
    ),
    (
        "for (x = 0; x < 2; x++) for (int i = 0; i < 2; i++) p(i);",
        "0101",
    ),
    ("while (1) { for (;;) { p(1); return 0; } } p(2);", "1"),
    ("{ p(1); { return p(2) - 2; } } p(3);", "12"),
];

/// Statements that end as trapped after they wrote this.
const TRAPPED: &[Written] = &[
    // a read or a store traps when it is due, and not when the index is there
    ("a[5] = p(1);", "1"),
    ("a[-1] = p(1);", "1"),
    ("a[5] += p(1);", "1"),
    ("a[5] = p(1) + a[5] + p(2);", "1"),
    ("a[p(5)]++;", "5"),
    ("a[p(5)] + p(1);", "5"),
    ("int u; u + p(1);", ""),
    ("int u; p(1) + u + p(2);", "1"),
    ("int u; u += p(1);", "1"),
    ("int u; p(u);", ""),
    ("int u; three(p(1), u, p(2));", "1"),
    ("int u; u, p(1);", ""),
    ("int u; u ? p(1) : p(2);", ""),
    ("int b[3] = {p(1), b[2], p(3)};", "1"),
    // an operation traps after both operands
    ("p(1) / p(0) + p(2);", "10"),
    ("p(1) + (2147483647 + p(1)) + p(2);", "11"),
    ("x = 2147483647; x += p(1);", "1"),
    ("p(1) << p(2) * 16;", "12"),
    // the value of a function that ended without one, at the call
    ("none() + p(1);", ""),
    ("p(1) + none() + p(2);", "1"),
    ("three(p(1), none(), p(2));", "1"),
    ("p(1), none();", "1"),
    ("x = p(1) + 0 * none();", "1"),
    ("a[p(5)] = none();", "5"),
    ("a[none()] = p(1);", ""),
    ("if (none()) p(1); else p(2);", ""),
    ("int i = p(1), j = none(), k = p(2);", "1"),
    ("return none();", ""),
];

#[test]
fn parts_are_evaluated_in_order(rt: HostRuntime) -> Result<(), Fail> {
    let alloc = rt.alloc();
    for (rows, want) in [
        (EXPRESSIONS, Outcome::Passed),
        (STATEMENTS, Outcome::Passed),
        (TRAPPED, Outcome::Trapped),
    ] {
        for (text, output) in rows {
            let source = joined(alloc, &[BEFORE, text, AFTER])?;
            let test = test_of(alloc, b"", output.as_bytes(), 0)?;
            let found = outcome(alloc, &source, &test, ENOUGH)?;
            assert_eq!(rt; found, want, "at {text}");
        }
    }
    Ok(())
}

/// The same where one byte more is expected than was written before the trap, and one byte less.
#[test]
fn nothing_is_written_after_a_trap(rt: HostRuntime) -> Result<(), Fail> {
    let alloc = rt.alloc();
    for (text, output) in TRAPPED {
        let source = joined(alloc, &[BEFORE, text, AFTER])?;
        let mut more = output.as_bytes().to_vec(alloc)?;
        more.push(b'!')?;
        let test = test_of(alloc, b"", &more, 0)?;
        let found = outcome(alloc, &source, &test, ENOUGH)?;
        assert_eq!(rt; found, Outcome::Trapped, "at {text}");
        if let Some((_, fewer)) = output.as_bytes().split_last() {
            let test = test_of(alloc, b"", fewer, 0)?;
            let found = outcome(alloc, &source, &test, ENOUGH)?;
            assert_eq!(rt; found, Outcome::Wrong, "at {text}");
        }
    }
    Ok(())
}
