//! Programs that fail a test, and their repairs.

use super::{Bytes, GREATER, LESSER, LINE, REPAIRED, SURE, Want, call};
use std::test::Fail;

/// A program, a suite, the status, and what is written.
type Repair = (&'static str, &'static str, u8, &'static str);

const NONE: &str = "none\n";

const SOUND: &str = "nothing to repair\n";

const STARS: &str = "int main(void) {
    int i; int n;
    i = 0;
    n = getchar() - 48;
    while (i <= n) { putchar(42); i = i + 1; }
    return 0;
}
";

/// The repairs of small programs.
const REPAIRS: [Repair; 9] = [
    (LESSER, GREATER, 0, REPAIRED),
    (
        LESSER,
        r#"{"tests":[{"input":"12","output":"1"}]}"#,
        2,
        SOUND,
    ),
    (
        LESSER,
        r#"{"tests":[{"input":"12","output":"1"},{"input":"12","output":"2"}]}"#,
        1,
        NONE,
    ),
    // A condition that reads has no patch where no variable is visible.
    (
        "int main(void) { if (getchar() < 97) { putchar(121); } return 0; }",
        r#"{"tests":[{"input":"b","output":"y"}]}"#,
        1,
        NONE,
    ),
    // The one repair is the last patch of the second condition.
    (
        "int main(void) {
    int a; a = getchar();
    if (a == 48) { putchar(48); }
    if (a < 53) { putchar(53); }
    return 0;
}
",
        r#"{"tests":[{"input":"5","output":"5"},{"input":"6","output":"5"},
            {"input":"0","output":"0"}]}"#,
        0,
        "int main(void) {
    int a; a = getchar();
    if (a == 48) { putchar(48); }
    if ((a >= 53)) { putchar(53); }
    return 0;
}
",
    ),
    // A condition inside another is repaired.
    (
        "int main(void) {
    int a; int b; a = getchar(); b = getchar();
    if (a < b) { if (a == 48) { putchar(b); } } else { putchar(a); }
    return 0;
}
",
        r#"{"tests":[{"input":"12","output":"2"},{"input":"01","output":""},
            {"input":"/1","output":""},{"input":"21","output":"2"}]}"#,
        0,
        "int main(void) {
    int a; int b; a = getchar(); b = getchar();
    if (a < b) { if ((a > 48)) { putchar(b); } } else { putchar(a); }
    return 0;
}
",
    ),
    // The condition of another function is repaired, by the other logical operator.
    (
        "int digit(int c) { if (c >= 48 || c <= 57) { return 1; } return 0; }
int main(void) { putchar(48 + digit(getchar())); }
",
        r#"{"tests":[{"input":"5","output":"1"},{"input":"a","output":"0"},
            {"input":"/","output":"0"}]}"#,
        0,
        "int digit(int c) { if (((c >= 48) && (c <= 57))) { return 1; } return 0; }
int main(void) { putchar(48 + digit(getchar())); }
",
    ),
    // Of two repairs the first is taken.
    (
        STARS,
        r#"{"tests":[{"input":"3","output":"***"},{"input":"0","output":""}]}"#,
        0,
        "int main(void) {
    int i; int n;
    i = 0;
    n = getchar() - 48;
    while ((i != n)) { putchar(42); i = i + 1; }
    return 0;
}
",
    ),
    // A patched program that runs too long passes no test.
    (
        STARS,
        r#"{"tests":[{"input":"3","output":"***"},{"input":"/","output":""}]}"#,
        0,
        "int main(void) {
    int i; int n;
    i = 0;
    n = getchar() - 48;
    while ((i < n)) { putchar(42); i = i + 1; }
    return 0;
}
",
    ),
];

#[test]
fn repairs(rt: HostRuntime) -> Result<(), Fail> {
    for (program, suite, number, out) in REPAIRS {
        let want = Want {
            number,
            out,
            err: "",
        };
        let bytes = Bytes {
            program: program.as_bytes(),
            suite: suite.as_bytes(),
        };
        call(&rt, rt.alloc(), LINE, bytes, SURE, want)?;
    }
    Ok(())
}
