//! Each operator at the limits of `int` and `char`, and each undefined act beside its nearest defined neighbour.

use crate::run::{ENOUGH, joined, outcome, test_of};
use c_meaning::Outcome;
use std::test::Fail;

/// What stands before the expression.
const BEFORE: &str =
    "int main(void) { int low = -2147483647 - 1, high = 2147483647, i = 5, j = -5, u; \
char c = 'A'; int a[3] = {10, 20, 30}; return (";

/// An expression, and its value as another one.
type Value = (&'static str, &'static str);

/// Sums, differences and signs.
const SUMS: &[Value] = &[
    ("+high", "2147483647"),
    ("+low", "low"),
    ("-high", "-2147483647"),
    ("-(low + 1)", "high"),
    ("-0", "0"),
    ("high + 0", "high"),
    ("high + -1", "2147483646"),
    ("low + 0", "low"),
    ("low + 1", "-2147483647"),
    ("high + low", "-1"),
    ("1073741824 + 1073741823", "2147483647"),
    ("-1073741824 + -1073741824", "low"),
    ("low - 0", "low"),
    ("low - -1", "-2147483647"),
    ("high - 0", "high"),
    ("0 - high", "-2147483647"),
    ("-1 - low", "high"),
    ("-1 - high", "low"),
    ("low - low", "0"),
    ("10 - 4 - 3", "3"),
    ("- -3", "3"),
];

/// Products, quotients and remainders.
const PRODUCTS: &[Value] = &[
    ("46340 * 46340", "2147395600"),
    ("65536 * 32767", "2147418112"),
    ("65536 * -32768", "low"),
    ("low * 1", "low"),
    ("high * -1", "-2147483647"),
    ("1073741823 * 2", "2147483646"),
    ("0 * low", "0"),
    ("7 / 2", "3"),
    ("-7 / 2", "-3"),
    ("7 / -2", "-3"),
    ("-7 / -2", "3"),
    ("0 / 5", "0"),
    ("low / 1", "low"),
    ("low / 2", "-1073741824"),
    ("(low + 1) / -1", "high"),
    ("high / -1", "-2147483647"),
    ("low / low", "1"),
    ("7 % 2", "1"),
    ("-7 % 2", "-1"),
    ("7 % -2", "1"),
    ("-7 % -2", "-1"),
    ("low % 1", "0"),
    ("low % 10", "-8"),
    ("(low + 1) % -1", "0"),
    ("high % low", "high"),
    ("low % high", "-1"),
    ("100 / 10 / 5", "2"),
    ("-7 / 2 * 2 + -7 % 2", "-7"),
    ("1 + 2 * 3", "7"),
    ("-2 * -3", "6"),
];

/// Shifts.
const SHIFTS: &[Value] = &[
    ("1 << 0", "1"),
    ("1 << 30", "1073741824"),
    ("0 << 31", "0"),
    ("3 << 29", "1610612736"),
    ("high << 0", "high"),
    ("1073741823 << 1", "2147483646"),
    ("5 >> 1", "2"),
    ("-5 >> 1", "-3"),
    ("-1 >> 31", "-1"),
    ("low >> 0", "low"),
    ("low >> 1", "-1073741824"),
    ("low >> 31", "-1"),
    ("high >> 31", "0"),
    ("high >> 30", "1"),
    ("1 << 2 + 1", "8"),
    ("16 >> 2 << 1", "8"),
];

/// Comparisons.
const COMPARISONS: &[Value] = &[
    ("low < high", "1"),
    ("high < low", "0"),
    ("high < high", "0"),
    ("low <= low", "1"),
    ("high <= low", "0"),
    ("high > low", "1"),
    ("low > low", "0"),
    ("high >= high", "1"),
    ("low >= high", "0"),
    ("low == low", "1"),
    ("low == high", "0"),
    ("low != high", "1"),
    ("high != high", "0"),
    ("5 > 4 > 3", "0"),
    ("2 == 2 != 0", "1"),
    ("-1 < 0", "1"),
];

/// Bits.
const BITS: &[Value] = &[
    ("~low", "high"),
    ("~high", "low"),
    ("~0", "-1"),
    ("low & high", "0"),
    ("low & -1", "low"),
    ("high & -1", "high"),
    ("low | high", "-1"),
    ("low | 0", "low"),
    ("low ^ -1", "high"),
    ("low ^ high", "-1"),
    ("high ^ high", "0"),
    ("6 & 3", "2"),
    ("6 | 3", "7"),
    ("6 ^ 3", "5"),
    ("-6 & 3", "2"),
    ("-6 | 3", "-5"),
    ("-6 ^ 3", "-7"),
    ("-6 & -3", "-8"),
    ("7 & 3 == 3", "1"),
    ("1 | 2 ^ 3 & 2", "1"),
];

/// Truth, choices and commas.
const CHOICES: &[Value] = &[
    ("!0", "1"),
    ("!low", "0"),
    ("!-1", "0"),
    ("!!7", "1"),
    ("!0 + 1", "2"),
    ("1 && 2", "1"),
    ("-1 && low", "1"),
    ("1 && 0", "0"),
    ("0 && 1 / 0", "0"),
    ("0 && u", "0"),
    ("0 && a[3]", "0"),
    ("0 || 3", "1"),
    ("0 || 0", "0"),
    ("1 || 1 / 0", "1"),
    ("low || a[-1]", "1"),
    ("1 || 0 && 0", "1"),
    ("1 ? 2 : 1 / 0", "2"),
    ("0 ? 1 / 0 : 3", "3"),
    ("low ? 1 : u", "1"),
    ("0 ? 1 : 0 ? 2 : 3", "3"),
    ("1 ? 0 ? 1 : 2 : 3", "2"),
    ("1 ? 2, 3 : 4", "3"),
    ("1, 2", "2"),
    ("1, 2, 3", "3"),
];

/// Conversions to `char`: by a cast, by a store, and none of what is read.
const CONVERSIONS: &[Value] = &[
    ("(char) 127", "127"),
    ("(char) 128", "-128"),
    ("(char) 200", "-56"),
    ("(char) 256", "0"),
    ("(char) 300 + 1", "45"),
    ("(char) -129", "127"),
    ("(char) low", "0"),
    ("(char) high", "-1"),
    ("(int) (char) 255", "-1"),
    ("(int) high", "high"),
    ("-(char) 128", "128"),
    ("(char) 1 << 7", "128"),
    ("(char) (1 << 7)", "-128"),
    ("(int) c", "65"),
    ("c * c", "4225"),
    ("(c = 100) + (c = 100)", "200"),
    ("c = 200", "-56"),
    ("(c = 200, c)", "-56"),
    ("i = c = 257", "1"),
    ("(c = 127, c++)", "127"),
    ("(c = 127, c++, c)", "-128"),
    ("(c = 127, ++c)", "-128"),
    ("(c = -128, c--, c)", "127"),
    ("(c = -128, --c)", "127"),
    ("c += 100", "-91"),
    ("c -= 200", "121"),
    ("c *= 4", "4"),
    ("c /= 2", "32"),
    ("c %= 10", "5"),
    ("c <<= 1", "-126"),
    ("(c = -1, c >>= 1)", "-1"),
    ("c |= 128", "-63"),
    ("c ^= 255", "-66"),
    ("c &= -2", "64"),
];

/// Assignments, `++` and `--`, elements, and objects without a value.
const STORES: &[Value] = &[
    ("i = 7", "7"),
    ("i = j = 3", "3"),
    ("(i = j = 3, i * 10 + j)", "33"),
    ("(i += 3) + i", "16"),
    ("i -= 7", "-2"),
    ("i *= -1", "-5"),
    ("i /= 2", "2"),
    ("i %= 3", "2"),
    ("i <<= 28", "1342177280"),
    ("j >>= 1", "-3"),
    ("i &= 4", "4"),
    ("i ^= 1", "4"),
    ("i |= 8", "13"),
    ("i += j += 2", "2"),
    ("i++", "5"),
    ("(i++, i)", "6"),
    ("++i", "6"),
    ("i--", "5"),
    ("--i", "4"),
    ("(high--, high)", "2147483646"),
    ("++low", "-2147483647"),
    ("high += 0", "high"),
    ("(u = 1) + u", "2"),
    ("(u = 1, u++, u)", "2"),
    ("a[0]", "10"),
    ("a[2]", "30"),
    ("a[2] = 7", "7"),
    ("(a[0] = 7, a[0])", "7"),
    ("a[a[0] / 10]", "20"),
    ("(a[1]++, a[1])", "21"),
    ("a[1] += a[2]", "50"),
];

/// What is undefined.
const TRAPS: &[&str] = &[
    "-low",
    "high + 1",
    "low + -1",
    "1073741824 + 1073741824",
    "low - 1",
    "0 - low",
    "high - -1",
    "46341 * 46341",
    "65536 * 32768",
    "-65536 * 32769",
    "-1 * low",
    "1073741824 * 2",
    "1 / 0",
    "0 / 0",
    "low / -1",
    "1 % 0",
    "low % -1",
    "1 << 31",
    "1 << 32",
    "0 << 32",
    "1 << -1",
    "3 << 30",
    "high << 1",
    "1073741824 << 1",
    "-1 << 0",
    "low << 0",
    "1 >> 32",
    "1 >> -1",
    "-1 >> 32",
    "1 && 1 / 0",
    "0 || 1 / 0",
    "1 / 0 && 0",
    "1 / 0 ? 1 : 2",
    "1 ? 1 / 0 : 1",
    "0 ? 1 : 1 / 0",
    "(1 / 0, 2)",
    "(2, 1 / 0)",
    "(char) (high + 1)",
    "!(1 / 0)",
    "u",
    "-u",
    "(u, 1)",
    "u == u",
    "u++",
    "--u",
    "u += 1",
    "i = u",
    "a[u]",
    "a[3]",
    "a[-1]",
    "a[high]",
    "a[low]",
    "a[3] = 1",
    "a[-1] = 1",
    "a[3] += 1",
    "a[3]++",
    "--a[-1]",
    "a[1 / 0]",
    "a[1 / 0] = 1",
    "high++",
    "++high",
    "low--",
    "--low",
    "high += 1",
    "low -= 1",
    "high *= 2",
    "i /= 0",
    "low /= -1",
    "i %= 0",
    "i <<= 29",
    "j <<= 1",
    "i >>= 32",
    "c /= 0",
    "(c = -128, c <<= 1)",
];

#[test]
fn operators_have_their_values(rt: HostRuntime) -> Result<(), Fail> {
    let alloc = rt.alloc();
    let one = test_of(alloc, b"", b"", 1)?;
    for rows in [
        SUMS,
        PRODUCTS,
        SHIFTS,
        COMPARISONS,
        BITS,
        CHOICES,
        CONVERSIONS,
        STORES,
    ] {
        for (text, value) in rows {
            let source = joined(alloc, &[BEFORE, text, ") == (", value, "); }"])?;
            let found = outcome(alloc, &source, &one, ENOUGH)?;
            assert_eq!(rt; found, Outcome::Passed, "at {text}");
        }
    }
    Ok(())
}

#[test]
fn undefined_acts_trap(rt: HostRuntime) -> Result<(), Fail> {
    let alloc = rt.alloc();
    let one = test_of(alloc, b"", b"", 1)?;
    for text in TRAPS {
        let source = joined(alloc, &[BEFORE, text, "); }"])?;
        let found = outcome(alloc, &source, &one, ENOUGH)?;
        assert_eq!(rt; found, Outcome::Trapped, "at {text}");
    }
    Ok(())
}
