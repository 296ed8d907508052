//! Whole programs of a first course, each on a few tests.

use crate::run::{ENOUGH, outcome, test_of};
use c_meaning::Outcome;
use std::test::Fail;

/// What a program reads, what is expected, the status that is wanted, the limit, and the end.
type On = (&'static [u8], &'static [u8], u8, u64, Outcome);

/// The lesser of two bytes.
const BYTES: &str = "int main(void) {
    int a;
    int b;
    a = getchar();
    b = getchar();
    if (a < b) {
        putchar(a);
    } else {
        putchar(b);
    }
    return 0;
}
";

/// What is read is written.
const COPY: &str = "#include <stdio.h>
int main(void) {
    int c;
    while ((c = getchar()) != EOF)
        putchar(c);
    return 0;
}
";

/// An inner name whose initialiser means an outer one.
const INNER: &str = "int main(void) { int y = 2; int x = 3; { int x = y; putchar(x); } return 0; }";

/// A loop without an end.
const ENDLESS: &str = "int a, b, c, d, e, f, g, h;
int main(void) {
    if (a == b) ;
    for (;; 2 + 3 + 4 + 5) ;
}
";

/// The lesser of two numbers.
const LESSER: &str = r#"#include <stdio.h>
int main(void) {
    int a, b;
    scanf("%d", &a);
    scanf("%d", &b);
    if (a < b)
        printf("%d\n", a);
    else
        printf("%d\n", b);
    return 0;
}
"#;

/// The sum of the numbers up to one that is read.
const SUM: &str = r#"#include <stdio.h>
int main(void) {
    int n, i, sum = 0;
    if (scanf("%d", &n) != 1) {
        printf("no number\n");
        return 1;
    }
    for (i = 1; i <= n; i++)
        sum += i;
    printf("sum = %d\n", sum);
    return 0;
}
"#;

/// How many characters and lines there are.
const COUNT: &str = r#"#include <stdio.h>
int main(void) {
    int c, characters = 0, lines = 0;
    while ((c = getchar()) != EOF) {
        characters++;
        if (c == '\n')
            lines++;
    }
    printf("%d %d\n", characters, lines);
    return 0;
}
"#;

/// A table of products.
const TABLE: &str = r#"#include <stdio.h>
int main(void) {
    int n;
    scanf("%d", &n);
    for (int i = 1; i <= n; i++) {
        for (int j = 1; j <= n; j++)
            printf("%d%c", i * j, j < n ? '\t' : '\n');
    }
    return 0;
}
"#;

/// The average of at most five numbers, to one digit after the point.
const AVERAGE: &str = r#"#include <stdio.h>
#define MOST 5
int main(void) {
    int marks[MOST], n = 0, sum = 0, i;
    while (n < MOST && scanf("%d", &marks[n]) == 1)
        n++;
    for (i = 0; i < n; i++)
        sum += marks[i];
    printf("%d of %d: %d.%d\n", n, MOST, sum / n, sum * 10 / n % 10);
    return 0;
}
"#;

/// Factorials and powers, each by a function that calls itself.
const RECURSION: &str = r#"#include <stdio.h>
int factorial(int n) {
    if (n <= 1)
        return 1;
    return n * factorial(n - 1);
}

int power(int base, int n) {
    return n == 0 ? 1 : base * power(base, n - 1);
}

int main(void) {
    int n;
    while (scanf("%d", &n) == 1)
        printf("%d! = %d, 2^%d = %d\n", n, factorial(n), n, power(2, n));
    return 0;
}
"#;

/// The digits of a number from its last, and the number of them as the status.
const REVERSED: &str = r#"#include <stdio.h>
#include <stdlib.h>
int count;

void digits(int n) {
    if (n >= 10) {
        printf("%d", n % 10);
        count++;
        digits(n / 10);
        return;
    }
    printf("%d\n", n);
    exit(count + 1);
}

int main(void) {
    int n;
    scanf("%d", &n);
    digits(abs(n));
    printf("never\n");
    return 0;
}
"#;

/// The programs with their tests.
const ROWS: &[(&str, &[On])] = &[
    (
        BYTES,
        &[
            (b"12", b"1", 0, ENOUGH, Outcome::Passed),
            (b"53", b"5", 0, ENOUGH, Outcome::Wrong),
            (b"9", b"\xff", 0, ENOUGH, Outcome::Passed),
        ],
    ),
    (
        COPY,
        &[
            (b"ab\0c", b"ab", 0, ENOUGH, Outcome::Wrong),
            (b"ab\0c", b"ab\0c", 0, ENOUGH, Outcome::Passed),
            (b"", b"", 0, ENOUGH, Outcome::Passed),
            (b"\xff", b"\xff", 0, ENOUGH, Outcome::Passed),
        ],
    ),
    (INNER, &[(b"", b"\x02", 0, ENOUGH, Outcome::Passed)]),
    (ENDLESS, &[(b"", b"", 0, 50_000, Outcome::Budget)]),
    (
        LESSER,
        &[
            (b"1 2", b"1\n", 0, ENOUGH, Outcome::Passed),
            (b"5 3\n", b"3\n", 0, ENOUGH, Outcome::Passed),
            (b"-7\n-8", b"-8\n", 0, ENOUGH, Outcome::Passed),
            (b"4 4", b"4\n", 0, ENOUGH, Outcome::Passed),
            (b"1 2\n", b"2\n", 0, ENOUGH, Outcome::Wrong),
            (b"5 3\n", b"5\n", 0, ENOUGH, Outcome::Wrong),
            (b"1 2", b"1", 0, ENOUGH, Outcome::Wrong),
            (b"1 2", b"1\n\n", 0, ENOUGH, Outcome::Short),
            (b"1 2", b"1\n", 1, ENOUGH, Outcome::Status(0)),
            // the second number isn't there
            (b"1", b"1\n", 0, ENOUGH, Outcome::Trapped),
            (b"1 x", b"1\n", 0, ENOUGH, Outcome::Trapped),
            (b"1 2147483648", b"1\n", 0, ENOUGH, Outcome::Trapped),
            // the entry, four statements, and the one that `if` selects
            (b"1 2", b"1\n", 0, 6, Outcome::Passed),
            (b"1 2", b"1\n", 0, 5, Outcome::Budget),
        ],
    ),
    (
        SUM,
        &[
            (b"4", b"sum = 10\n", 0, ENOUGH, Outcome::Passed),
            (b"0", b"sum = 0\n", 0, ENOUGH, Outcome::Passed),
            (b"-3", b"sum = 0\n", 0, ENOUGH, Outcome::Passed),
            (b"100", b"sum = 5050\n", 0, ENOUGH, Outcome::Passed),
            (b"4", b"sum = 11\n", 0, ENOUGH, Outcome::Wrong),
            (b"4", b"sum: 10\n", 0, ENOUGH, Outcome::Wrong),
            (b"", b"no number\n", 1, ENOUGH, Outcome::Passed),
            (b"four", b"no number\n", 0, ENOUGH, Outcome::Status(1)),
            (b"1000", b"sum = 500500\n", 0, ENOUGH, Outcome::Passed),
            // each turn takes two units
            (b"1000", b"sum = 500500\n", 0, 2_006, Outcome::Passed),
            (b"1000", b"sum = 500500\n", 0, 2_005, Outcome::Budget),
            (b"1000000", b"", 0, 10_000, Outcome::Budget),
        ],
    ),
    (
        COUNT,
        &[
            (b"", b"0 0\n", 0, ENOUGH, Outcome::Passed),
            (b"a b\n\nc", b"6 2\n", 0, ENOUGH, Outcome::Passed),
            (b"\0\xff\n", b"3 1\n", 0, ENOUGH, Outcome::Passed),
            (b"ab", b"2 1\n", 0, ENOUGH, Outcome::Wrong),
        ],
    ),
    (
        TABLE,
        &[
            (b"1", b"1\n", 0, ENOUGH, Outcome::Passed),
            (
                b"3",
                b"1\t2\t3\n2\t4\t6\n3\t6\t9\n",
                0,
                ENOUGH,
                Outcome::Passed,
            ),
            (b"0", b"", 0, ENOUGH, Outcome::Passed),
            (b"2", b"1 2\n2 4\n", 0, ENOUGH, Outcome::Wrong),
            (b"2", b"1\t2\n2\t4\n3", 0, ENOUGH, Outcome::Short),
            (b"", b"", 0, ENOUGH, Outcome::Trapped),
        ],
    ),
    (
        AVERAGE,
        &[
            (b"3 4", b"2 of 5: 3.5\n", 0, ENOUGH, Outcome::Passed),
            (b"5 5 2 9 x", b"4 of 5: 5.2\n", 0, ENOUGH, Outcome::Passed),
            (
                b"1 2 3 4 5 6 7",
                b"5 of 5: 3.0\n",
                0,
                ENOUGH,
                Outcome::Passed,
            ),
            (b"3 4", b"2 of 5: 3.0\n", 0, ENOUGH, Outcome::Wrong),
            (b"", b"", 0, ENOUGH, Outcome::Trapped),
        ],
    ),
    (
        RECURSION,
        &[
            (
                b"0 5",
                b"0! = 1, 2^0 = 1\n5! = 120, 2^5 = 32\n",
                0,
                ENOUGH,
                Outcome::Passed,
            ),
            (
                b"12",
                b"12! = 479001600, 2^12 = 4096\n",
                0,
                ENOUGH,
                Outcome::Passed,
            ),
            (b"13", b"13! = 1932053504", 0, ENOUGH, Outcome::Trapped),
            (b"-1", b"", 0, ENOUGH, Outcome::Depth),
            (b"3", b"3! = 6, 2^3 = 9\n", 0, ENOUGH, Outcome::Wrong),
            (b"", b"", 0, ENOUGH, Outcome::Passed),
        ],
    ),
    (
        REVERSED,
        &[
            (b"7", b"7\n", 1, ENOUGH, Outcome::Passed),
            (b"-1203", b"3021\n", 4, ENOUGH, Outcome::Passed),
            (b"1203", b"3021\n", 0, ENOUGH, Outcome::Status(4)),
            (b"1203", b"3021\nnever\n", 0, ENOUGH, Outcome::Short),
            (b"-2147483648", b"", 0, ENOUGH, Outcome::Trapped),
        ],
    ),
];

#[test]
fn programs_run(rt: HostRuntime) -> Result<(), Fail> {
    let alloc = rt.alloc();
    for (source, tests) in ROWS {
        for (input, output, status, limit, want) in *tests {
            let test = test_of(alloc, input, output, *status)?;
            let found = outcome(alloc, source.as_bytes(), &test, *limit)?;
            assert_eq!(rt; found, *want, "at {source}, {limit}");
        }
    }
    Ok(())
}

#[test]
fn a_run_ends_at_the_largest_limits(rt: HostRuntime) -> Result<(), Fail> {
    let alloc = rt.alloc();
    let quiet = test_of(alloc, b"", b"", 0)?;
    for limit in [5_000_000, 10_000_000] {
        let found = outcome(alloc, ENDLESS.as_bytes(), &quiet, limit)?;
        assert_eq!(rt; found, Outcome::Budget, "at {limit}");
    }
    Ok(())
}
