//! Whole calls over fakes: how each ends, and what it leaves on both sinks.

mod refusals;
mod repairs;
mod suites;
mod words;
mod worked;

use fx_io::{MemFiles, MemSink};
use repair_cli::run_alone;
use std::alloc::{AllocError, Global};
use std::process::Abort;
use std::test::Fail;

/// The valid words of most calls.
const LINE: &str = "repair p.c s.json";

/// A program that gives the byte after the one that it gets.
const NEXT: &str = "int main(void) { putchar(getchar() + 1); return 0; }";

/// A program with a name that it doesn't declare.
const UNDECLARED: &str = "int main(void) { a = 1; }";

/// A suite with no tests, which every program passes.
const NO_TESTS: &str = r#"{"tests":[]}"#;

/// A suite that `NEXT` passes.
const PASSED: &str = r#"{"tests":[{"input":"A","output":"B"},{"input":"h","output":"i"}]}"#;

/// A suite of which `NEXT` fails the last test alone.
const LAST_FAILS: &str = r#"{"tests":[{"input":"A","output":"B"},{"input":"h","output":"h"}]}"#;

/// A program that writes the smaller of two bytes.
const LESSER: &str = "int main(void) {
    int a;
    int b;
    a = getchar();
    b = getchar();
    if (a < b) {
        putchar(a);
    } else {
        putchar(b);
    }
    return 0;
}
";

/// A suite for the greater of two bytes.
const GREATER: &str = r#"{"tests":[{"input":"12","output":"2"},{"input":"53","output":"5"}]}"#;

/// The program, repaired for that suite.
const REPAIRED: &str = "int main(void) {
    int a;
    int b;
    a = getchar();
    b = getchar();
    if ((a > b)) {
        putchar(a);
    } else {
        putchar(b);
    }
    return 0;
}
";

/// A program that writes what it reads.
const ECHO: &str = "int main(void) {
    int c = getchar();
    while (c >= 0) { putchar(c); c = getchar(); }
    return 0;
}
";

/// A program that does nothing.
const IDLE: &str = "int main(void) { return 0; }";

/// The number of no call.
const NEVER: u64 = 1_000_000;

/// The bytes of the files `p.c` and `s.json`.
#[derive(Clone, Copy)]
struct Bytes<'a> {
    program: &'a [u8],
    suite: &'a [u8],
}

/// The calls that fail: one of the files, and one write to each sink, by its number.
#[derive(Clone, Copy)]
struct Failing {
    files: u64,
    out: u64,
    err: u64,
}

/// No call fails.
const SURE: Failing = Failing {
    files: NEVER,
    out: NEVER,
    err: NEVER,
};

/// How a call must end: its number, and what it leaves on both sinks.
#[derive(Clone, Copy)]
struct Want<'a> {
    number: u8,
    out: &'a str,
    err: &'a str,
}

// The words of this line, each up to the next space; of an empty line there are none.
fn words_of(alloc: Global, line: &str) -> Result<Vec<String>, AllocError> {
    let mut words = Vec::new(alloc);
    if line.is_empty() {
        return Ok(words);
    }
    for word in line.split(' ') {
        words.push(String::from_str(alloc, word)?)?;
    }
    Ok(words)
}

// Calls with the words of this line. A read gives at most 4,096 bytes, and a write takes at most
// ten.
fn call(
    rt: &impl Abort,
    alloc: Global,
    line: &str,
    bytes: Bytes,
    failing: Failing,
    want: Want,
) -> Result<(), Fail> {
    let words = words_of(alloc, line)?;
    let mut held = Vec::new(alloc);
    held.push((
        String::from_str(alloc, "p.c")?,
        bytes.program.to_vec(alloc)?,
    ))?;
    held.push((
        String::from_str(alloc, "s.json")?,
        bytes.suite.to_vec(alloc)?,
    ))?;
    let mut files = MemFiles::new(held, [failing.files].to_vec(alloc)?, 4096);
    let mut out = MemSink::new(alloc, 2000, [failing.out].to_vec(alloc)?, 10)?;
    let mut err = MemSink::new(alloc, 100, [failing.err].to_vec(alloc)?, 10)?;
    let status = run_alone(alloc, &words, &mut files, &mut out, &mut err);
    assert_eq!(rt; status.number(), want.number, "{line}");
    assert_eq!(rt; out.written(), want.out.as_bytes(), "{line}");
    assert_eq!(rt; err.written(), want.err.as_bytes(), "{line}");
    Ok(())
}

const SOUND: &str = "nothing to repair\n";

const USAGE: &str = "usage: f1x repair PROGRAM SUITE [--limit=N] [--max-patches=N] [--edit]\n";

const REFUSED: &str = "p.c: too many locations\n";

const NO_PROGRAM: &str = "f1x: cannot read p.c\n";

const NO_SUITE: &str = "f1x: cannot read s.json\n";

const NO_WRITE: &str = "f1x: cannot write\n";

/// A program, a suite, and how a call on them must end where no call fails.
type Row = (&'static str, &'static str, u8, &'static str, &'static str);

/// Programs and suites.
const FILES: [Row; 19] = [
    ("@", "[", 4, "", "p.c:1:1: stray byte\n"),
    (UNDECLARED, PASSED, 4, "", "p.c:1:18: unknown name\n"),
    (UNDECLARED, "[", 4, "", "p.c:1:18: unknown name\n"),
    (NEXT, "[", 5, "", "s.json: not JSON\n"),
    (
        "int main(void) { for (;;) { break; } }",
        PASSED,
        1,
        "none\n",
        "",
    ),
    (
        "int main(void) { putchar(",
        PASSED,
        4,
        "",
        "p.c:1:26: unexpected token\n",
    ),
    (
        IDLE,
        r#"{"tests":[{"output":"","status":0,"name":""}]}"#,
        2,
        SOUND,
        "",
    ),
    (IDLE, r#"{"limit":2,"tests":[{"output":""}]}"#, 2, SOUND, ""),
    (
        IDLE,
        r#"{"limit":1,"tests":[{"output":""}]}"#,
        1,
        "none\n",
        "",
    ),
    (
        "int main(void) { return 257; }",
        r#"{"tests":[{"output":"","status":1}]}"#,
        2,
        SOUND,
        "",
    ),
    (
        IDLE,
        r#"{"tests":[{"output":"x","output":""}]}"#,
        2,
        SOUND,
        "",
    ),
    (
        "int main(void) { return 256; }",
        r#"{"tests":[{"output":""}]}"#,
        2,
        SOUND,
        "",
    ),
    // The value of the `return` is a constant, and the first other one is 0.
    (
        "int main(void) { return 1; }",
        r#"{"tests":[{"output":""}]}"#,
        0,
        "int main(void) { return (0); }",
        "",
    ),
    (
        "int main(void) { int a; scanf(\"%d\", &a); printf(\"%d\", a); }",
        NO_TESTS,
        2,
        SOUND,
        "",
    ),
    ("int main(void) { printf(\"a\"); }", PASSED, 1, "none\n", ""),
    // A program with no expression has no patch.
    (
        "int main(void){}",
        r#"{"tests":[{"output":"x"}]}"#,
        1,
        "none\n",
        "",
    ),
    (NEXT, NO_TESTS, 2, SOUND, ""),
    (NEXT, PASSED, 2, SOUND, ""),
    (NEXT, LAST_FAILS, 1, "none\n", ""),
];

// Calls on the files of the row, and looks how it ends.
fn judge(rt: &impl Abort, alloc: Global, row: Row) -> Result<(), Fail> {
    let (program, suite, number, out, err) = row;
    let bytes = Bytes {
        program: program.as_bytes(),
        suite: suite.as_bytes(),
    };
    call(rt, alloc, LINE, bytes, SURE, Want { number, out, err })
}

#[test]
fn judges_files(rt: HostRuntime) -> Result<(), Fail> {
    for row in FILES {
        judge(&rt, rt.alloc(), row)?;
    }
    // The program is judged before the suite is looked for.
    let bytes = Bytes {
        program: b"",
        suite: b"",
    };
    let want = Want {
        number: 4,
        out: "",
        err: "p.c:1:1: unexpected token\n",
    };
    call(&rt, rt.alloc(), "repair p.c b", bytes, SURE, want)?;
    // One file can be both.
    let want = Want {
        number: 5,
        out: "",
        err: "p.c: not JSON\n",
    };
    let bytes = Bytes {
        program: NEXT.as_bytes(),
        suite: b"",
    };
    call(&rt, rt.alloc(), "repair p.c p.c", bytes, SURE, want)
}

// This text, and spaces after it up to this length.
fn padded(alloc: Global, text: &str, length: usize) -> Result<Vec<u8>, AllocError> {
    let mut bytes = text.as_bytes().to_vec(alloc)?;
    bytes.resize(length, b' ')?;
    Ok(bytes)
}

#[test]
fn judges_lengths(rt: HostRuntime) -> Result<(), Fail> {
    for (program_length, suite_length, number, out, err) in [
        (65_536, 4_194_304, 2, "nothing to repair\n", ""),
        (65_536, 4_194_305, 5, "", "s.json: too long\n"),
        (65_537, 100, 4, "", "p.c: too long\n"),
    ] {
        let program = padded(rt.alloc(), NEXT, program_length)?;
        let suite = padded(rt.alloc(), PASSED, suite_length)?;
        let bytes = Bytes {
            program: &program,
            suite: &suite,
        };
        let want = Want { number, out, err };
        call(&rt, rt.alloc(), LINE, bytes, SURE, want)?;
    }
    Ok(())
}

/// The words, the failing calls, and how the call must end. The calls of the files are an opening,
/// a read of the bytes and a read of the end, for each file.
const FAILED: [(&str, u64, u64, u64, u8, &str, &str); 21] = [
    (LINE, 0, NEVER, NEVER, 6, "", NO_PROGRAM),
    (LINE, 1, NEVER, NEVER, 6, "", NO_PROGRAM),
    (LINE, 2, NEVER, NEVER, 6, "", NO_PROGRAM),
    (LINE, 3, NEVER, NEVER, 6, "", NO_SUITE),
    (LINE, 4, NEVER, NEVER, 6, "", NO_SUITE),
    (LINE, 5, NEVER, NEVER, 6, "", NO_SUITE),
    (LINE, 6, NEVER, NEVER, 2, SOUND, ""),
    (LINE, NEVER, 0, NEVER, 7, "", NO_WRITE),
    (LINE, NEVER, 1, NEVER, 7, "nothing to", NO_WRITE),
    (LINE, NEVER, 2, 0, 2, SOUND, ""),
    (LINE, NEVER, 0, 0, 7, "", ""),
    (LINE, NEVER, 1, 1, 7, "nothing to", "f1x: canno"),
    ("repair", NEVER, 0, 0, 7, "", ""),
    ("repair", NEVER, 0, 1, 7, "", "usage: f1x"),
    ("repair s.json p.c", NEVER, 0, 1, 7, "", "s.json"),
    ("repair p.c p.c", NEVER, 0, 1, 7, "", "p.c"),
    (LINE, 0, 0, 0, 7, "", ""),
    (LINE, 0, 0, 1, 7, "", "f1x: canno"),
    (LINE, 0, 0, 2, 7, "", "f1x: cannot read "),
    (LINE, 0, 0, 3, 7, "", "f1x: cannot read p.c"),
    (LINE, 0, 0, 4, 6, "", NO_PROGRAM),
];

#[test]
fn reports_failed_calls(rt: HostRuntime) -> Result<(), Fail> {
    for (line, files, out, err, number, written, said) in FAILED {
        let bytes = Bytes {
            program: NEXT.as_bytes(),
            suite: PASSED.as_bytes(),
        };
        let failing = Failing { files, out, err };
        let want = Want {
            number,
            out: written,
            err: said,
        };
        call(&rt, rt.alloc(), line, bytes, failing, want)?;
    }
    Ok(())
}

// A text of which one piece stands so many times before the middle, and another as many times after
// it.
fn nested(
    alloc: Global,
    head: &str,
    pieces: (&str, &str, &str),
    tail: &str,
    count: usize,
) -> Result<Vec<u8>, AllocError> {
    let mut bytes = head.as_bytes().to_vec(alloc)?;
    for _ in 0..count {
        bytes.extend_from_slice(pieces.0.as_bytes())?;
    }
    bytes.extend_from_slice(pieces.1.as_bytes())?;
    for _ in 0..count {
        bytes.extend_from_slice(pieces.2.as_bytes())?;
    }
    bytes.extend_from_slice(tail.as_bytes())?;
    Ok(bytes)
}

/// Sources at a limit and beyond it: the repeated pieces, how often, and the message, where there
/// is one.
const SOURCES: [(&str, &str, &str, usize, &str); 4] = [
    ("if (a < a) {", "a = 1;", "}", 31, ""),
    (
        "if (a < a) {",
        "a = a + 1;",
        "}",
        31,
        "p.c:1:403: nested too deep\n",
    ),
    ("a = 1;", "", "", 2048, ""),
    ("a = 1;", "putchar(1);", "", 2048, REFUSED),
];

/// The call finds nothing to repair.
const FINDS_NOTHING: Want<'static> = Want {
    number: 2,
    out: SOUND,
    err: "",
};

// How a call ends that accepts both files, or refuses the program with this message.
fn judged(message: &'static str) -> Want<'static> {
    if message.is_empty() {
        return FINDS_NOTHING;
    }
    Want {
        number: 4,
        out: "",
        err: message,
    }
}

#[test]
fn keeps_its_limits(rt: HostRuntime) -> Result<(), Fail> {
    for (opening, middle, closing, count, message) in SOURCES {
        let program = nested(
            rt.alloc(),
            "int main(void) { int a; ",
            (opening, middle, closing),
            "}",
            count,
        )?;
        let bytes = Bytes {
            program: &program,
            suite: NO_TESTS.as_bytes(),
        };
        call(&rt, rt.alloc(), LINE, bytes, SURE, judged(message))?;
    }
    Ok(())
}

#[test]
fn keeps_its_nesting(rt: HostRuntime) -> Result<(), Fail> {
    for (count, message) in [(63, ""), (64, "p.c:1:86: nested too deep\n")] {
        let program = nested(
            rt.alloc(),
            "int main(void){return ",
            ("(", "0", ")"),
            ";}",
            count,
        )?;
        let bytes = Bytes {
            program: &program,
            suite: NO_TESTS.as_bytes(),
        };
        call(&rt, rt.alloc(), LINE, bytes, SURE, judged(message))?;
    }
    Ok(())
}

#[test]
fn keeps_its_locations(rt: HostRuntime) -> Result<(), Fail> {
    for (count, message) in [(4_096, ""), (4_097, REFUSED)] {
        let program = nested(rt.alloc(), "int main(void){", ("0;", "", ""), "}", count)?;
        let bytes = Bytes {
            program: &program,
            suite: NO_TESTS.as_bytes(),
        };
        call(&rt, rt.alloc(), LINE, bytes, SURE, judged(message))?;
    }
    Ok(())
}

// Escapes of characters whose UTF-8 text has each byte that such a text can have.
fn escapes(alloc: Global) -> Result<String, AllocError> {
    let mut text = String::new(alloc);
    for code in 0..0xc0u32 {
        write!(text, "\\u{code:04x}")?;
    }
    for lead in 3..32u32 {
        let code = lead * 64;
        write!(text, "\\u{code:04x}")?;
    }
    for lead in 1..16u32 {
        let code = lead * 4096;
        write!(text, "\\u{code:04x}")?;
    }
    text.push_str(r"\u0800\ud800\udc00\ud8c0\udc00\ud9c0\udc00\udac0\udc00\udbc0\udc00")?;
    Ok(text)
}

#[test]
fn passes_every_byte(rt: HostRuntime) -> Result<(), Fail> {
    let text = escapes(rt.alloc())?;
    let suite = format!(in rt.alloc();
        "{{\"tests\":[{{\"input\":\"{text}\",\"output\":\"{text}\"}}]}}"
    )?;
    let bytes = Bytes {
        program: ECHO.as_bytes(),
        suite: suite.as_bytes(),
    };
    call(&rt, rt.alloc(), LINE, bytes, SURE, FINDS_NOTHING)
}

#[test]
fn reports_broken_repairs(rt: HostRuntime) -> Result<(), Fail> {
    let no_write = "f1x: cannot write\n";
    for (out, err, number, written, said) in [
        (0, NEVER, 7, "", no_write),
        (1, NEVER, 7, "int main(v", no_write),
        (1, 1, 7, "int main(v", "f1x: canno"),
        (NEVER, 0, 0, REPAIRED, ""),
    ] {
        let failing = Failing {
            files: NEVER,
            out,
            err,
        };
        let want = Want {
            number,
            out: written,
            err: said,
        };
        let bytes = Bytes {
            program: LESSER.as_bytes(),
            suite: GREATER.as_bytes(),
        };
        call(&rt, rt.alloc(), LINE, bytes, failing, want)?;
    }
    Ok(())
}
