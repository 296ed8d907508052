//! Suites that are refused, with the message of the first refusal, and suites at the limits.

use super::{Bytes, Failing, IDLE, LINE, NEVER, SURE, Want, call};
use std::alloc::{AllocError, Global};
use std::process::Abort;
use std::test::Fail;

// A call on this suite, and how it must end: it is refused with these words, or where there are
// none it is passed.
fn judges(rt: &impl Abort, alloc: Global, suite: &[u8], words: &str) -> Result<(), Fail> {
    let bytes = Bytes {
        program: IDLE.as_bytes(),
        suite,
    };
    if words.is_empty() {
        let want = Want {
            number: 2,
            out: "nothing to repair\n",
            err: "",
        };
        return call(rt, alloc, LINE, bytes, SURE, want);
    }
    let message = format!(in alloc; "s.json: {words}\n")?;
    let want = Want {
        number: 5,
        out: "",
        err: message.as_str(),
    };
    call(rt, alloc, LINE, bytes, SURE, want)
}

/// Suites with one thing wrong, or none.
const ONE_WRONG: [(&str, &str); 54] = [
    ("", "not JSON"),
    ("[", "not JSON"),
    ("{", "not JSON"),
    ("{'tests':[]}", "not JSON"),
    (r#"{"tests":[],}"#, "not JSON"),
    (r#"{"tests":[{"output":""},]}"#, "not JSON"),
    (r#"{"tests":[{"outp"#, "not JSON"),
    (r#"{"tests":[]} x"#, "not JSON"),
    (r#"{"tests":[{"output":"\0"}]}"#, "not JSON"),
    (r#"{"tests":[{"output":"\udc00"}]}"#, "not JSON"),
    (r#"{"tests":[{"output":"\udc00\ud800"}]}"#, "not JSON"),
    ("\u{feff}{\"tests\":[]}", "not JSON"),
    ("3", "no tests"),
    ("[]", "no tests"),
    (r#"[{"output":""}]"#, "no tests"),
    ("{}", "no tests"),
    (r#"{"Tests":[]}"#, "no tests"),
    (r#"{"tests":{}}"#, "no tests"),
    (r#"{"tests":null}"#, "no tests"),
    (r#"{"tests":[],"tests":3}"#, "no tests"),
    (r#"{"tests":[],"limit":0}"#, "bad limit"),
    (r#"{"tests":[],"limit":-1}"#, "bad limit"),
    (r#"{"tests":[],"limit":-0}"#, "bad limit"),
    (r#"{"tests":[],"limit":10000001}"#, "bad limit"),
    (r#"{"tests":[],"limit":1.0}"#, "bad limit"),
    (r#"{"tests":[],"limit":1e3}"#, "bad limit"),
    (r#"{"tests":[],"limit":"5"}"#, "bad limit"),
    (r#"{"tests":[],"limit":null}"#, "bad limit"),
    (r#"{"tests":[],"limit":0,"limit":1}"#, ""),
    (r#"{"tests":[],"limit":10000000}"#, ""),
    (r#"{"tests":[3]}"#, "test 0: not a test"),
    (r#"{"tests":[[]]}"#, "test 0: not a test"),
    (r#"{"tests":["a"]}"#, "test 0: not a test"),
    (r#"{"tests":[null]}"#, "test 0: not a test"),
    (r#"{"tests":[{}]}"#, "test 0: bad field output"),
    (r#"{"tests":[{"expected":""}]}"#, "test 0: bad field output"),
    (r#"{"tests":[{"output":5}]}"#, "test 0: bad field output"),
    (r#"{"tests":[{"output":null}]}"#, "test 0: bad field output"),
    (
        r#"{"tests":[{"output":["a"]}]}"#,
        "test 0: bad field output",
    ),
    (
        r#"{"tests":[{"output":"","name":1}]}"#,
        "test 0: bad field name",
    ),
    (
        r#"{"tests":[{"output":"","name":null}]}"#,
        "test 0: bad field name",
    ),
    (
        r#"{"tests":[{"output":"","input":1}]}"#,
        "test 0: bad field input",
    ),
    (
        r#"{"tests":[{"output":"","input":{}}]}"#,
        "test 0: bad field input",
    ),
    (
        r#"{"tests":[{"output":"","status":256}]}"#,
        "test 0: bad field status",
    ),
    (
        r#"{"tests":[{"output":"","status":-1}]}"#,
        "test 0: bad field status",
    ),
    (
        r#"{"tests":[{"output":"","status":0.0}]}"#,
        "test 0: bad field status",
    ),
    (
        r#"{"tests":[{"output":"","status":"0"}]}"#,
        "test 0: bad field status",
    ),
    (
        r#"{"tests":[{"output":"","status":null}]}"#,
        "test 0: bad field status",
    ),
    (r#"{"tests":[{"output":"","status":1,"status":0}]}"#, ""),
    (r#"{"tests":[{"output":"","expected":3}],"more":[]}"#, ""),
    (
        r#"{"tests":[{"name":"n","input":"","output":"","status":0}]}"#,
        "",
    ),
    (r#"{"tests":[{"output":""},3]}"#, "test 1: not a test"),
    (
        r#"{"tests":[{"output":""},{}]}"#,
        "test 1: bad field output",
    ),
    (
        r#"{"tests":[{"output":""},{"output":"","status":256}]}"#,
        "test 1: bad field status",
    ),
];

/// Suites with several things wrong: the first in the order of the rules is told.
const MORE_WRONG: [(&str, &str); 14] = [
    (r#"{"limit":0} x"#, "not JSON"),
    (r#"{"limit":0}"#, "no tests"),
    (r#"{"limit":0,"tests":3}"#, "no tests"),
    (r#"{"tests":[3],"limit":0}"#, "bad limit"),
    (r#"{"tests":[{}],"limit":10000001}"#, "bad limit"),
    (r#"{"tests":[{},3]}"#, "test 0: bad field output"),
    (r#"{"tests":[3,{}]}"#, "test 0: not a test"),
    (
        r#"{"tests":[{"output":""},{"output":"","name":1},{}]}"#,
        "test 1: bad field name",
    ),
    (
        r#"{"tests":[{"output":"","status":256},{"name":1}]}"#,
        "test 0: bad field status",
    ),
    (
        r#"{"tests":[{"status":256,"output":1,"input":1,"name":1}]}"#,
        "test 0: bad field name",
    ),
    (
        r#"{"tests":[{"status":256,"output":1,"input":1}]}"#,
        "test 0: bad field input",
    ),
    (
        r#"{"tests":[{"status":256,"output":1}]}"#,
        "test 0: bad field output",
    ),
    (r#"{"tests":[{"status":256}]}"#, "test 0: bad field output"),
    (
        r#"{"tests":[{"status":256,"output":""}]}"#,
        "test 0: bad field status",
    ),
];

#[test]
fn tells_the_first_refusal_of_a_suite(rt: HostRuntime) -> Result<(), Fail> {
    for (suite, words) in ONE_WRONG {
        judges(&rt, rt.alloc(), suite.as_bytes(), words)?;
    }
    for (suite, words) in MORE_WRONG {
        judges(&rt, rt.alloc(), suite.as_bytes(), words)?;
    }
    // A text that isn't UTF-8.
    judges(
        &rt,
        rt.alloc(),
        b"{\"tests\":[{\"output\":\"\xff\"}]}",
        "not JSON",
    )
}

/// Suites with a repeated piece: what stands before it, the piece, how often, what stands after it,
/// and the words.
const LONG: [(&str, &str, usize, &str, &str); 18] = [
    (
        r#"{"tests":["#,
        r#"{"output":""},"#,
        255,
        r#"{"output":""}]}"#,
        "",
    ),
    (
        r#"{"tests":["#,
        r#"{"output":""},"#,
        256,
        r#"{"output":""}]}"#,
        "too many tests",
    ),
    (r#"{"tests":["#, "3,", 256, "3]}", "too many tests"),
    (
        r#"{"limit":0,"tests":["#,
        "3,",
        256,
        "3]}",
        "too many tests",
    ),
    (r#"{"tests":["#, "3,", 255, "3]}", "test 0: not a test"),
    (
        r#"{"tests":["#,
        r#"{"output":""},"#,
        255,
        "3]}",
        "test 255: not a test",
    ),
    (
        r#"{"tests":["#,
        r#"{"output":""},"#,
        255,
        "{}]}",
        "test 255: bad field output",
    ),
    (
        r#"{"tests":["#,
        r#"{"output":""},"#,
        99,
        r#"{"output":"","status":256},3]}"#,
        "test 99: bad field status",
    ),
    (
        r#"{"tests":[{"output":"","name":""#,
        "n",
        65_536,
        r#""}]}"#,
        "",
    ),
    (
        r#"{"tests":[{"output":"","name":""#,
        "n",
        65_537,
        r#""}]}"#,
        "test 0: too long name",
    ),
    (
        r#"{"tests":[{"output":"","input":""#,
        "i",
        65_536,
        r#""}]}"#,
        "",
    ),
    (
        r#"{"tests":[{"output":"","input":""#,
        "i",
        65_537,
        r#""}]}"#,
        "test 0: too long input",
    ),
    (
        r#"{"tests":[{"output":""},{"output":""#,
        "o",
        65_537,
        r#""}]}"#,
        "test 1: too long output",
    ),
    // The two bytes of a letter count.
    (
        r#"{"tests":[{"output":"","input":""#,
        "\\u00e9",
        32_769,
        r#""}]}"#,
        "test 0: too long input",
    ),
    // One byte too many.
    (
        r#"{"tests":[{"output":"","input":"a"#,
        "\\u00e9",
        32_768,
        r#""}]}"#,
        "test 0: too long input",
    ),
    // The name is looked at before the input, and a text's kind before its length.
    (
        r#"{"tests":[{"output":3,"input":3,"name":""#,
        "n",
        65_537,
        r#""}]}"#,
        "test 0: too long name",
    ),
    (
        r#"{"tests":[{"name":3,"output":""#,
        "o",
        65_537,
        r#""}]}"#,
        "test 0: bad field name",
    ),
    (
        r#"{"tests":[{"status":256,"output":""#,
        "o",
        65_537,
        r#""},3]}"#,
        "test 0: too long output",
    ),
];

// A text in which a piece stands so many times between others.
fn repeated(
    alloc: Global,
    before: &str,
    piece: &str,
    count: usize,
    after: &str,
) -> Result<Vec<u8>, AllocError> {
    let mut bytes = before.as_bytes().to_vec(alloc)?;
    for _ in 0..count {
        bytes.extend_from_slice(piece.as_bytes())?;
    }
    bytes.extend_from_slice(after.as_bytes())?;
    Ok(bytes)
}

#[test]
fn tells_of_long_suites(rt: HostRuntime) -> Result<(), Fail> {
    for (before, piece, count, after, words) in LONG {
        let suite = repeated(rt.alloc(), before, piece, count, after)?;
        judges(&rt, rt.alloc(), &suite, words)?;
    }
    Ok(())
}

/// The write that fails, and what stands on standard error after it: the message of a suite is
/// written in pieces.
const BROKEN: [(u64, &str); 6] = [
    (0, ""),
    (1, "s.json"),
    (2, "s.json: test "),
    (3, "s.json: test 1"),
    (4, "s.json: test 1: "),
    (5, "s.json: test 1: not a test"),
];

#[test]
fn reports_broken_messages_of_suites(rt: HostRuntime) -> Result<(), Fail> {
    for (write, said) in BROKEN {
        let bytes = Bytes {
            program: IDLE.as_bytes(),
            suite: r#"{"tests":[{"output":""},3]}"#.as_bytes(),
        };
        let failing = Failing {
            files: NEVER,
            out: NEVER,
            err: write,
        };
        let want = Want {
            number: 7,
            out: "",
            err: said,
        };
        call(&rt, rt.alloc(), LINE, bytes, failing, want)?;
    }
    Ok(())
}
