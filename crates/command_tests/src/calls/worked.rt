//! Whole programs of a first course, with `printf` and `scanf`, and their repairs, by hand.

use super::{Bytes, LINE, SURE, Want, call};
use std::alloc::Global;
use std::process::Abort;
use std::test::Fail;

/// The words that ask for the line of a patch.
const WITH_LINE: &str = "repair p.c s.json --edit";

/// The lesser of two numbers is written.
const LESSER_NUMBER: &str = "#include <stdio.h>
int main(void) {
    int a, b;
    scanf(\"%d\", &a);
    scanf(\"%d\", &b);
    if (a < b)
        printf(\"%d\\n\", a);
    else
        printf(\"%d\\n\", b);
    return 0;
}
";

/// The same for the greater one.
const GREATER_NUMBER: &str = "#include <stdio.h>
int main(void) {
    int a, b;
    scanf(\"%d\", &a);
    scanf(\"%d\", &b);
    if ((a > b))
        printf(\"%d\\n\", a);
    else
        printf(\"%d\\n\", b);
    return 0;
}
";

/// By steps of two the number isn't met where it is odd.
const STEPS: &str = "#include <stdio.h>
int main(void) {
    int i, n;
    scanf(\"%d\", &n);
    i = 0;
    while (i != n)
        i = i + 2;
    printf(\"%d\\n\", i);
    return 0;
}
";

/// Up to the number or the one after it.
const STEPS_END: &str = "#include <stdio.h>
int main(void) {
    int i, n;
    scanf(\"%d\", &n);
    i = 0;
    while ((i < n))
        i = i + 2;
    printf(\"%d\\n\", i);
    return 0;
}
";

/// Statistics of a list of marks, in which the lesser of two is taken for the larger.
const MARKS: &str = "#include <stdio.h>
#include <stdlib.h>
#define MAX 50

/* Statistics of a list of marks. */
int larger(int a, int b) {
    if (a < b)
        return a;
    return b;
}

void sort(int v[], int n) {
    int i, j, key;
    for (i = 1; i < n; i++) {
        key = v[i];
        j = i - 1;
        while (j >= 0 && v[j] > key) {
            v[j + 1] = v[j];
            j--;
        }
        v[j + 1] = key;
    }
}

int main(void) {
    int marks[MAX];
    int n = 0, x, i, best, sum = 0;
    while (n < MAX && scanf(\"%d\", &x) == 1)
        marks[n++] = x;
    if (n == 0) {
        printf(\"no marks\\n\");
        exit(1);
    }
    best = marks[0];
    for (i = 0; i < n; i++) {
        best = larger(best, marks[i]);
        sum += marks[i];
    }
    sort(marks, n);
    printf(\"n %d best %d mean %d.%d\\n\",
           n, best, sum / n, sum * 10 / n % 10);
    for (i = 0; i < n; i++)
        printf(\"%d%c\", marks[i], i + 1 < n ? ' ' : '\\n');
    return 0;
}
";

/// The same with the larger one.
const MARKS_MENDED: &str = "#include <stdio.h>
#include <stdlib.h>
#define MAX 50

/* Statistics of a list of marks. */
int larger(int a, int b) {
    if ((a > b))
        return a;
    return b;
}

void sort(int v[], int n) {
    int i, j, key;
    for (i = 1; i < n; i++) {
        key = v[i];
        j = i - 1;
        while (j >= 0 && v[j] > key) {
            v[j + 1] = v[j];
            j--;
        }
        v[j + 1] = key;
    }
}

int main(void) {
    int marks[MAX];
    int n = 0, x, i, best, sum = 0;
    while (n < MAX && scanf(\"%d\", &x) == 1)
        marks[n++] = x;
    if (n == 0) {
        printf(\"no marks\\n\");
        exit(1);
    }
    best = marks[0];
    for (i = 0; i < n; i++) {
        best = larger(best, marks[i]);
        sum += marks[i];
    }
    sort(marks, n);
    printf(\"n %d best %d mean %d.%d\\n\",
           n, best, sum / n, sum * 10 / n % 10);
    for (i = 0; i < n; i++)
        printf(\"%d%c\", marks[i], i + 1 < n ? ' ' : '\\n');
    return 0;
}
";

/// Copies its input up to the end.
const COPY: &str = "#include <stdio.h>
int main(void) {
    int c;
    while ((c = getchar()) != EOF)
        putchar(c);
    return 0;
}
";

/// Up to a zero byte.
const COPY_TEXT: &str = "#include <stdio.h>
int main(void) {
    int c;
    while (((c = getchar()) != EOF) && (c != 0))
        putchar(c);
    return 0;
}
";

/// Whether one number goes more than once into another, where that one isn't 0.
const RATIO: &str = "#include <stdio.h>
int main(void) {
    int a, b;
    scanf(\"%d\", &a);
    scanf(\"%d\", &b);
    if (b != 0 && a / b > 1)
        putchar('y');
    else
        putchar('n');
    return 0;
}
";

/// Whether it doesn't.
const NO_RATIO: &str = "#include <stdio.h>
int main(void) {
    int a, b;
    scanf(\"%d\", &a);
    scanf(\"%d\", &b);
    if ((!((b != 0) && ((a / b) > 1))))
        putchar('y');
    else
        putchar('n');
    return 0;
}
";

/// Two ways, by a number.
const TWO_WAYS: &str = "#include <stdio.h>
int main(void) {
    int a, x;
    x = 0;
    scanf(\"%d\", &a);
    if (a) x = 1; else x = 2;
    printf(\"%d\\n\", x);
    return 0;
}
";

/// The first way for 1 alone. No other expression has this effect.
const THREE_WAYS: &str = "#include <stdio.h>
int main(void) {
    int a, x;
    x = 0;
    scanf(\"%d\", &a);
    if (a) { if (a == 1) x = 1; } else x = 2;
    printf(\"%d\\n\", x);
    return 0;
}
";

/// The inner variable hides the outer one, and so is no name for 3 where it is declared.
const HIDDEN: &str =
    "int main(void) { int y = 2; int x = 3; { int x = y; putchar(x); putchar(y); } return 0; }";

/// The one that is declared is 3.
const HIDDEN_MENDED: &str =
    "int main(void) { int y = 2; int x = 3; { int x = (3); putchar(x); putchar(y); } return 0; }";

/// Whether a letter is the first one.
const FIRST: &str = "int main(void) { int c = getchar(); if (c == 'a') putchar('y'); return 0; }";

/// Whether it is the first one or the last.
const FIRST_OR_LAST: &str =
    "int main(void) { int c = getchar(); if ((c == 'a') || (c > 'y')) putchar('y'); return 0; }";

/// Doesn't end.
const FOREVER: &str = "int main(void){while(1);}";

/// Ends at once.
const ENDS: &str = "int main(void){while((0));}";

/// A product that is 0.
const PRODUCT: &str = "int main(void) { return 0 * 5; }";

/// The sum.
const SUM: &str = "int main(void) { return (0 + 5); }";

/// A suite for the greater of two numbers.
const GREATER_SUITE: &str =
    r#"{"tests":[{"input":"1 2\n","output":"2\n"},{"input":"5 3\n","output":"5\n"}]}"#;

/// A suite for the marks.
const MARKS_SUITE: &str = r#"{"limit":20000,"tests":[
    {"name":"three","input":"3 1 2\n","output":"n 3 best 3 mean 2.0\n1 2 3\n"},
    {"name":"none given","output":"no marks\n","status":1},
    {"name":"one","input":"7\n","output":"n 1 best 7 mean 7.0\n7\n"},
    {"name":"stops","input":"5 5 2 9 x","output":"n 4 best 9 mean 5.2\n2 5 5 9\n"}]}"#;

/// A program and a suite, the program repaired, and the line of the patch.
const REPAIRED: [(&str, &str, &str, &str); 10] = [
    (
        LESSER_NUMBER,
        GREATER_SUITE,
        GREATER_NUMBER,
        "6:9+5 cost 1 replace (a > b)\n",
    ),
    (
        STEPS,
        r#"{"limit":1000,"tests":[{"input":"5","output":"6\n"},{"input":"4","output":"4\n"}]}"#,
        STEPS_END,
        "6:12+6 cost 1 replace (i < n)\n",
    ),
    (
        MARKS,
        MARKS_SUITE,
        MARKS_MENDED,
        "7:9+5 cost 1 replace (a > b)\n",
    ),
    (
        FOREVER,
        r#"{"limit":100,"tests":[{"output":""}]}"#,
        ENDS,
        "1:22+1 cost 2 replace (0)\n",
    ),
    (
        PRODUCT,
        r#"{"tests":[{"output":"","status":5}]}"#,
        SUM,
        "1:25+5 cost 1 replace (0 + 5)\n",
    ),
    (
        HIDDEN,
        r#"{"tests":[{"output":"\u0003\u0002"}]}"#,
        HIDDEN_MENDED,
        "1:50+1 cost 2 replace (3)\n",
    ),
    (
        RATIO,
        r#"{"tests":[{"input":"4 0","output":"y"}]}"#,
        NO_RATIO,
        "6:9+19 cost 3 replace (!((b != 0) && ((a / b) > 1)))\n",
    ),
    (
        COPY,
        r#"{"tests":[{"input":"ab\u0000c","output":"ab"}]}"#,
        COPY_TEXT,
        "4:12+22 cost 4 and (c != 0)\n",
    ),
    (
        FIRST,
        r#"{"tests":[{"input":"a","output":"y"},{"input":"z","output":"y"},
            {"input":"b","output":""},{"output":""}]}"#,
        FIRST_OR_LAST,
        "1:41+8 cost 5 or (c > 'y')\n",
    ),
    (
        TWO_WAYS,
        r#"{"tests":[{"input":"1","output":"1\n"},{"input":"0","output":"2\n"},
            {"input":"5","output":"0\n"}]}"#,
        THREE_WAYS,
        "6:12+6 cost 6 guard (a == 1)\n",
    ),
];

/// A program and a suite that have no patch for an answer, the status, and what is written.
const UNCHANGED: [(&str, &str, u8, &str); 3] = [
    (
        LESSER_NUMBER,
        r#"{"tests":[{"input":"1 2","output":"1\n"}]}"#,
        2,
        "nothing to repair\n",
    ),
    (LESSER_NUMBER, r#"{"tests":[]}"#, 2, "nothing to repair\n"),
    (
        LESSER_NUMBER,
        r#"{"tests":[{"input":"1 2","output":"2\n"},{"input":"1 2","output":"1\n"}]}"#,
        1,
        "none\n",
    ),
];

// A call on these files with the words of this line ends with this number and writes this.
fn ends(
    rt: &impl Abort,
    alloc: Global,
    line: &str,
    files: (&str, &str),
    number: u8,
    out: &str,
) -> Result<(), Fail> {
    let bytes = Bytes {
        program: files.0.as_bytes(),
        suite: files.1.as_bytes(),
    };
    let err = "";
    call(rt, alloc, line, bytes, SURE, Want { number, out, err })
}

#[test]
fn whole_programs_are_repaired(rt: HostRuntime) -> Result<(), Fail> {
    for (program, suite, repaired, line) in REPAIRED {
        let files = (program, suite);
        ends(&rt, rt.alloc(), LINE, files, 0, repaired)?;
        ends(&rt, rt.alloc(), WITH_LINE, files, 0, line)?;
    }
    Ok(())
}

#[test]
fn whole_programs_are_left(rt: HostRuntime) -> Result<(), Fail> {
    for (program, suite, number, out) in UNCHANGED {
        let files = (program, suite);
        ends(&rt, rt.alloc(), LINE, files, number, out)?;
        ends(&rt, rt.alloc(), WITH_LINE, files, number, out)?;
    }
    Ok(())
}
