//! The words of a call: names, options and their order, and the limit that a job has of them.

use super::{Bytes, LINE, SURE, USAGE, Want, call};
use std::alloc::Global;
use std::process::Abort;
use std::test::Fail;

/// A program whose run takes two units: one for the entry into `main`, one for the `return`.
const SEVEN: &str = "int main(void) { return 7; }";

/// A suite that it passes with two units.
const SEVEN_PASSES: &str = r#"{"tests":[{"output":"","status":7}]}"#;

const SOUND: &str = "nothing to repair\n";

const NONE: &str = "none\n";

/// Lines that are no command: the command and the names.
const NO_COMMANDS: [&str; 27] = [
    "",
    " ",
    "repair",
    "repair p.c",
    "repair p.c s.json s.json",
    "repair  s.json",
    "repair p.c ",
    "repair p.c s.json ",
    "repair  p.c s.json",
    "p.c s.json",
    "mend p.c s.json",
    "Repair p.c s.json",
    "repai p.c s.json",
    "repairs p.c s.json",
    "sample 40",
    "--limit=5 repair p.c s.json",
    "repair --limit=5",
    "repair --limit=5 p.c",
    "repair p.c s.json p.c --limit=5",
    "repair -p.c s.json",
    "repair p.c -s.json",
    "repair p.c s.json -x",
    "repair - s.json",
    "repair p.c -",
    "repair p.c s.json -",
    "repair -- p.c s.json",
    "repair p.c s.json --",
];

/// What follows the names of a command, and makes the line none: options of other names, and with
/// other numbers.
const NO_OPTIONS: [&str; 66] = [
    "-h",
    "--help",
    "--version",
    "--stats",
    "--all",
    "--workers=1",
    "--edits",
    "-edit",
    "--Edit",
    "--edit=",
    "--edit=1",
    "--edit ",
    "--edit --edit",
    "--edit --limit=5 --edit",
    "--max-patches",
    "--max-patches=",
    "--max-patches 5",
    "--max-patch=5",
    "--max_patches=5",
    "--max-patches=x",
    "--max-patches=0",
    "--max-patches=65537",
    "--max-patches=4294967297",
    "--max-patches=00000000001",
    "--max-patches=5 --max-patches=5",
    "--max-patches=5 --edit --max-patches=6",
    "-limit=5",
    "---limit=5",
    "--Limit=5",
    "--limi=5",
    "--limits=5",
    "--limit:5",
    "--limit5",
    "--limit",
    "--limit 5",
    "--limit= 5",
    "--limit=",
    "--limit==5",
    "--limit=-",
    "--limit=+",
    "--limit=+5",
    "--limit=-5",
    "--limit=0",
    "--limit=00",
    "--limit=0000000000",
    "--limit=10000001",
    "--limit=0010000001",
    "--limit=9999999999",
    "--limit=4294967297",
    "--limit=18446744073709551617",
    "--limit=00000000005",
    "--limit=00010000000",
    "--limit=10000000000",
    "--limit=5x",
    "--limit=x5",
    "--limit=5.0",
    "--limit=5e0",
    "--limit=0x5",
    "--limit=5,",
    "--limit=1_0",
    "--limit=\u{665}",
    "--limit=5 --limit=5",
    "--limit=5 --limit=6",
    "--limit=5 --limit=x",
    "--limit=5 --limit",
    "--limit=5 --edit --limit=5",
];

/// Commands whose limit is at least 2.
const COMMANDS: [&str; 19] = [
    "repair p.c s.json",
    "repair --limit=2 p.c s.json",
    "repair p.c --limit=2 s.json",
    "repair p.c s.json --limit=2",
    "repair p.c s.json --limit=9",
    "repair p.c s.json --limit=02",
    "repair p.c s.json --limit=0000000002",
    "repair p.c s.json --limit=10",
    "repair p.c s.json --limit=9999999",
    "repair p.c s.json --limit=10000000",
    "repair p.c s.json --limit=0010000000",
    "repair p.c s.json --edit",
    "repair --edit p.c s.json",
    "repair p.c --edit s.json",
    "repair p.c s.json --max-patches=1",
    "repair --max-patches=65536 p.c s.json",
    "repair p.c --max-patches=0000065536 s.json",
    "repair p.c s.json --limit=2 --max-patches=9 --edit",
    "repair --edit p.c --max-patches=9 s.json --limit=2",
];

/// Commands whose limit is 1.
const COMMANDS_OF_ONE: [&str; 5] = [
    "repair --limit=1 p.c s.json",
    "repair p.c --limit=1 s.json",
    "repair p.c s.json --limit=1",
    "repair p.c s.json --limit=01",
    "repair p.c s.json --limit=0000000001",
];

/// Commands that name other files, and the message for the first that is absent.
const OTHER_NAMES: [(&str, &str); 8] = [
    ("repair a s.json", "f1x: cannot read a\n"),
    ("repair p.c b", "f1x: cannot read b\n"),
    ("repair a b", "f1x: cannot read a\n"),
    ("repair repair repair", "f1x: cannot read repair\n"),
    ("repair ./-p.c s.json", "f1x: cannot read ./-p.c\n"),
    ("repair p.c s --limit=5", "f1x: cannot read s\n"),
    ("repair p-c s.json", "f1x: cannot read p-c\n"),
    ("repair \u{e9}.c s.json", "f1x: cannot read \u{e9}.c\n"),
];

// A call with the words of this line and this suite, and how it must end.
fn ends(
    rt: &impl Abort,
    alloc: Global,
    line: &str,
    files: (&str, &str),
    want: Want,
) -> Result<(), Fail> {
    let bytes = Bytes {
        program: files.0.as_bytes(),
        suite: files.1.as_bytes(),
    };
    call(rt, alloc, line, bytes, SURE, want)
}

// The words of this line are no command.
fn refuses(rt: &impl Abort, alloc: Global, line: &str) -> Result<(), Fail> {
    let want = Want {
        number: 3,
        out: "",
        err: USAGE,
    };
    ends(rt, alloc, line, (SEVEN, SEVEN_PASSES), want)
}

// The call gives this answer.
fn answers(
    rt: &impl Abort,
    alloc: Global,
    line: &str,
    files: (&str, &str),
    answer: &str,
) -> Result<(), Fail> {
    let number = if answer == SOUND { 2 } else { 1 };
    let want = Want {
        number,
        out: answer,
        err: "",
    };
    ends(rt, alloc, line, files, want)
}

#[test]
fn refuses_other_words(rt: HostRuntime) -> Result<(), Fail> {
    for line in NO_COMMANDS {
        refuses(&rt, rt.alloc(), line)?;
    }
    for options in NO_OPTIONS {
        let line = format!(in rt.alloc(); "repair p.c s.json {options}")?;
        refuses(&rt, rt.alloc(), line.as_str())?;
        let line = format!(in rt.alloc(); "repair {options} p.c s.json")?;
        refuses(&rt, rt.alloc(), line.as_str())?;
    }
    refuses(&rt, rt.alloc(), "repair --limit=5 p.c s.json --limit=5")
}

#[test]
fn takes_commands(rt: HostRuntime) -> Result<(), Fail> {
    for line in COMMANDS {
        answers(&rt, rt.alloc(), line, (SEVEN, SEVEN_PASSES), SOUND)?;
    }
    for line in COMMANDS_OF_ONE {
        answers(&rt, rt.alloc(), line, (SEVEN, SEVEN_PASSES), NONE)?;
    }
    for (line, err) in OTHER_NAMES {
        let want = Want {
            number: 6,
            out: "",
            err,
        };
        ends(&rt, rt.alloc(), line, (SEVEN, SEVEN_PASSES), want)?;
    }
    Ok(())
}

/// Words, a program and a suite, and the answer: the option's limit, else the suite's, else
/// 100,000.
const LIMITS: [(&str, &str, &str, &str); 7] = [
    (
        LINE,
        SEVEN,
        r#"{"limit":2,"tests":[{"output":"","status":7}]}"#,
        SOUND,
    ),
    (
        LINE,
        SEVEN,
        r#"{"limit":1,"tests":[{"output":"","status":7}]}"#,
        NONE,
    ),
    (
        "repair p.c s.json --limit=2",
        SEVEN,
        r#"{"limit":1,"tests":[{"output":"","status":7}]}"#,
        SOUND,
    ),
    (
        "repair p.c s.json --limit=1",
        SEVEN,
        r#"{"limit":2,"tests":[{"output":"","status":7}]}"#,
        NONE,
    ),
    (
        "repair p.c s.json --limit=1",
        SEVEN,
        r#"{"limit":10000000,"tests":[{"output":"","status":7}]}"#,
        NONE,
    ),
    ("repair p.c s.json --limit=2", SEVEN, SEVEN_PASSES, SOUND),
    ("repair p.c s.json --limit=1", SEVEN, SEVEN_PASSES, NONE),
];

#[test]
fn takes_the_limit_of_the_words_first(rt: HostRuntime) -> Result<(), Fail> {
    for (line, program, suite, answer) in LIMITS {
        answers(&rt, rt.alloc(), line, (program, suite), answer)?;
    }
    // A suite's limit is judged also where it doesn't count.
    let want = Want {
        number: 5,
        out: "",
        err: "s.json: bad limit\n",
    };
    let line = "repair p.c s.json --limit=2";
    ends(
        &rt,
        rt.alloc(),
        line,
        (SEVEN, r#"{"limit":0,"tests":[]}"#),
        want,
    )
}

/// A program whose run takes 100,001 units: one for each of 99,999 tests of the loop, one for the
/// entry into `main`, and one for the `return`.
const LONG: &str = "int main(void) { int i; for (i = 99998; i; i--) ; return 0; }";

#[test]
fn takes_the_default_limit_last(rt: HostRuntime) -> Result<(), Fail> {
    let files = (LONG, r#"{"tests":[{"output":""}]}"#);
    // The first patch sets the variable to itself, which traps.
    answers(
        &rt,
        rt.alloc(),
        "repair p.c s.json --max-patches=1",
        files,
        NONE,
    )?;
    answers(
        &rt,
        rt.alloc(),
        "repair p.c s.json --limit=100001",
        files,
        SOUND,
    )
}

/// A program whose first two patches are `a == b` and `a != b`, of which the second passes.
const UNEQUAL: (&str, &str) = (
    "int main(void) { int a = getchar(), b = getchar(); if (a < b) putchar('y'); }",
    r#"{"tests":[{"input":"12","output":"y"},{"input":"21","output":"y"},
        {"input":"11","output":""}]}"#,
);

/// What is written of its answer.
const UNEQUAL_MENDED: &str =
    "int main(void) { int a = getchar(), b = getchar(); if ((a != b)) putchar('y'); }";

/// The line of that patch.
const UNEQUAL_LINE: &str = "1:56+5 cost 1 replace (a != b)\n";

#[test]
fn takes_the_most_patches_of_the_words(rt: HostRuntime) -> Result<(), Fail> {
    for (options, number, out) in [
        ("--max-patches=1", 1, NONE),
        ("--max-patches=2", 0, UNEQUAL_MENDED),
        ("--limit=9", 0, UNEQUAL_MENDED),
        ("--edit", 0, UNEQUAL_LINE),
        ("--edit --max-patches=1", 1, NONE),
        ("--max-patches=2 --edit", 0, UNEQUAL_LINE),
    ] {
        let line = format!(in rt.alloc(); "repair p.c s.json {options}")?;
        let want = Want {
            number,
            out,
            err: "",
        };
        ends(&rt, rt.alloc(), line.as_str(), UNEQUAL, want)?;
    }
    Ok(())
}
