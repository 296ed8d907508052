//! Suites that are read, suites that are refused, and suites at a bound, by hand.

use std::alloc::{AllocError, Global};
use std::test::Fail;
use test_suite::Key::{Input, Name, Output, Status};
use test_suite::SuiteFault::{
    BadField, BadLimit, NoTests, NotATest, NotJson, TooLongText, TooMany,
};
use test_suite::{SuiteFault, read_suite};

/// The limit, and for each test its name, `:`, its input, `=`, its output, `;` and its status.
const READ: [(&str, u64, &[u8]); 16] = [
    (r#"{"tests":[]}"#, 100_000, b""),
    (" {\n\t\"tests\" : [ ] } \r\n", 100_000, b""),
    (r#"{"limit":1,"tests":[]}"#, 1, b""),
    (r#"{"tests":[],"limit":10000000}"#, 10_000_000, b""),
    (r#"{"\u0074ests":[]}"#, 100_000, b""),
    (r#"{"tests":[{"output":"0"}]}"#, 100_000, b":=0;\x00"),
    (
        r#"{"tests":[{"name":"a","input":"1 2","output":"3\n","status":7},{"output":"","status":255}]}"#,
        100_000,
        b"a:1 2=3\n;\x07:=;\xff",
    ),
    (
        r#"{"tests":[{"status":0,"output":"","input":"","name":""}]}"#,
        100_000,
        b":=;\x00",
    ),
    (
        r#"{"tests":[{"input":"\u0000","output":"\u00ff\n\\\"\/\b\f\r\t"}]}"#,
        100_000,
        b":\x00=\xc3\xbf\n\\\"/\x08\x0c\r\t;\x00",
    ),
    (
        "{\"tests\":[{\"input\":\"\u{e9}\",\"output\":\"\\ud83d\\ude00\"}]}",
        100_000,
        b":\xc3\xa9=\xf0\x9f\x98\x80;\x00",
    ),
    // Other keys are ignored, whatever they hold.
    (
        r#"{"x":{"limit":0},"tests":[{"y":null,"output":"0","z":[1e3],"Name":3}],"Limit":0}"#,
        100_000,
        b":=0;\x00",
    ),
    // Of repeated keys the last one counts.
    (
        r#"{"tests":[{"input":null,"output":3,"status":-1,"input":"i","output":"a","output":"b","status":2}]}"#,
        100_000,
        b":i=b;\x02",
    ),
    (
        r#"{"tests":3,"limit":0,"tests":[{"output":"a"}],"limit":5,"tests":[]}"#,
        5,
        b"",
    ),
    (
        r#"{"tests":[],"x":-0,"y":1.0,"z":18446744073709551616}"#,
        100_000,
        b"",
    ),
    (r#"{"tests":[{"output":"=:;"}]}"#, 100_000, b":==:;;\x00"),
    (r#"{"limit":9999999,"tests":[]}"#, 9_999_999, b""),
];

#[test]
fn suites_are_read(rt: HostRuntime) -> Result<(), Fail> {
    for (text, limit, tests) in READ {
        let suite = read_suite(rt.alloc(), text.as_bytes())?;
        assert_eq!(rt; suite.limit, limit, "{text}");
        let mut found = Vec::new(rt.alloc());
        for test in &suite.tests {
            found.extend_from_slice(test.name.as_slice())?;
            found.push(b':')?;
            found.extend_from_slice(test.input.as_slice())?;
            found.push(b'=')?;
            found.extend_from_slice(test.output.as_slice())?;
            found.push(b';')?;
            found.push(test.status)?;
        }
        assert_eq!(rt; found.as_slice(), tests, "{text}");
    }
    Ok(())
}

/// Suites that are refused, with their refusals.
const REFUSED: [(&[u8], SuiteFault); 77] = [
    (b"", NotJson),
    (b" ", NotJson),
    (b"[", NotJson),
    (b"{", NotJson),
    (b"{\"tests\":[]}x", NotJson),
    (b"{\"tests\":[]}{}", NotJson),
    (b"{\"tests\":[]}\x00", NotJson),
    (b"{\"tests\":[],}", NotJson),
    (b"{tests:[]}", NotJson),
    (b"{\"tests\":[],\"x\":1e999}", NotJson),
    (b"{\"tests\":[{\"output\":\"\",\"status\":00}]}", NotJson),
    (b"{\"tests\":[],\"x\":\"\xff\"}", NotJson),
    (b"{\"tests\":[],\"x\":\"\xc0\x80\"}", NotJson),
    (b"{\"tests\":[],\"x\":\"\\ud800\"}", NotJson),
    (b"{\"tests\":[{\"output\":\"\n\"}]}", NotJson),
    (b"{\"tests\":[{\"output\":\"\"},]}", NotJson),
    (b"3", NoTests),
    (b"null", NoTests),
    (b"\"tests\"", NoTests),
    (b"[]", NoTests),
    (b"[{\"tests\":[]}]", NoTests),
    (b"{}", NoTests),
    (b"{\"Tests\":[]}", NoTests),
    (b"{\"tests\":3}", NoTests),
    (b"{\"tests\":null}", NoTests),
    (b"{\"tests\":{}}", NoTests),
    (b"{\"tests\":[],\"tests\":3}", NoTests),
    (b"{\"limit\":0}", NoTests),
    (b"{\"tests\":[],\"limit\":0}", BadLimit),
    (b"{\"tests\":[],\"limit\":10000001}", BadLimit),
    (b"{\"tests\":[],\"limit\":-1}", BadLimit),
    (b"{\"tests\":[],\"limit\":-0}", BadLimit),
    (b"{\"tests\":[],\"limit\":1.0}", BadLimit),
    (b"{\"tests\":[],\"limit\":1e0}", BadLimit),
    (b"{\"tests\":[],\"limit\":18446744073709551615}", BadLimit),
    (b"{\"tests\":[],\"limit\":18446744073709551616}", BadLimit),
    (b"{\"tests\":[],\"limit\":\"5\"}", BadLimit),
    (b"{\"tests\":[],\"limit\":null}", BadLimit),
    (b"{\"tests\":[],\"limit\":5,\"limit\":0}", BadLimit),
    (b"{\"tests\":[3],\"limit\":0}", BadLimit),
    (b"{\"tests\":[3]}", NotATest(0)),
    (b"{\"tests\":[null]}", NotATest(0)),
    (b"{\"tests\":[[]]}", NotATest(0)),
    (b"{\"tests\":[\"output\"]}", NotATest(0)),
    (b"{\"tests\":[{\"output\":\"\"},true]}", NotATest(1)),
    (b"{\"tests\":[{}]}", BadField(0, Output)),
    (b"{\"tests\":[{\"input\":\"a\"}]}", BadField(0, Output)),
    (b"{\"tests\":[{\"output\":3}]}", BadField(0, Output)),
    (b"{\"tests\":[{\"output\":null}]}", BadField(0, Output)),
    (
        b"{\"tests\":[{\"output\":\"a\",\"output\":3}]}",
        BadField(0, Output),
    ),
    (
        b"{\"tests\":[{\"output\":\"\",\"name\":3}]}",
        BadField(0, Name),
    ),
    (
        b"{\"tests\":[{\"output\":\"\",\"name\":null}]}",
        BadField(0, Name),
    ),
    (
        b"{\"tests\":[{\"output\":\"\",\"input\":null}]}",
        BadField(0, Input),
    ),
    (
        b"{\"tests\":[{\"output\":\"\",\"input\":[]}]}",
        BadField(0, Input),
    ),
    (
        b"{\"tests\":[{\"output\":\"\",\"status\":256}]}",
        BadField(0, Status),
    ),
    (
        b"{\"tests\":[{\"output\":\"\",\"status\":263}]}",
        BadField(0, Status),
    ),
    (
        b"{\"tests\":[{\"output\":\"\",\"status\":-1}]}",
        BadField(0, Status),
    ),
    (
        b"{\"tests\":[{\"output\":\"\",\"status\":-0}]}",
        BadField(0, Status),
    ),
    (
        b"{\"tests\":[{\"output\":\"\",\"status\":1.0}]}",
        BadField(0, Status),
    ),
    (
        b"{\"tests\":[{\"output\":\"\",\"status\":1e0}]}",
        BadField(0, Status),
    ),
    (
        b"{\"tests\":[{\"output\":\"\",\"status\":18446744073709551616}]}",
        BadField(0, Status),
    ),
    (
        b"{\"tests\":[{\"output\":\"\",\"status\":\"0\"}]}",
        BadField(0, Status),
    ),
    (
        b"{\"tests\":[{\"output\":\"\",\"status\":null}]}",
        BadField(0, Status),
    ),
    (
        b"{\"tests\":[{\"output\":\"\",\"status\":true}]}",
        BadField(0, Status),
    ),
    // The first in order of two.
    (
        b"{\"tests\":[{\"name\":3,\"input\":3,\"output\":3,\"status\":3.5}]}",
        BadField(0, Name),
    ),
    (
        b"{\"tests\":[{\"status\":3.5,\"output\":3,\"input\":3}]}",
        BadField(0, Input),
    ),
    (
        b"{\"tests\":[{\"status\":3.5,\"input\":\"\"}]}",
        BadField(0, Output),
    ),
    (
        b"{\"tests\":[{\"output\":\"\",\"status\":256},{\"output\":3}]}",
        BadField(0, Status),
    ),
    (
        b"{\"tests\":[{\"output\":\"\"},{\"output\":3},{\"name\":3}]}",
        BadField(1, Output),
    ),
    (
        b"{\"tests\":[{\"output\":\"\"},{\"output\":\"\"},4]}",
        NotATest(2),
    ),
    (b"{\"tests\":[{\"output\":3},4]}", BadField(0, Output)),
    (b"{\"tests\":[4,{\"output\":3}]}", NotATest(0)),
    (b"{\"tests\":3,\"limit\":0}", NoTests),
    (b"{\"tests\":[4],\"limit\":0,\"x\":", NotJson),
    (
        b"{\"tests\":[{\"output\":\"\",\"status\":[0]}]}",
        BadField(0, Status),
    ),
    (
        b"{\"tests\":[{\"output\":{\"output\":\"\"}}]}",
        BadField(0, Output),
    ),
    (b"{\"tests\":[{\"Output\":\"\"}]}", BadField(0, Output)),
];

#[test]
fn suites_are_refused(rt: HostRuntime) -> Result<(), Fail> {
    for (place, (bytes, refusal)) in REFUSED.iter().enumerate() {
        let outcome = read_suite(rt.alloc(), bytes).err();
        assert_eq!(rt; outcome, Some(*refusal), "suite {place}");
    }
    Ok(())
}

#[test]
fn suites_keep_to_bounds(rt: HostRuntime) -> Result<(), Fail> {
    let tests = Shape::new(r#"{"tests":[{"output":""}"#, r#",{"output":""}"#, "", "]}");
    let no_tests = Shape::new(r#"{"limit":0,"tests":[3"#, ",3", "", "]}");
    let name = Shape::new(r#"{"tests":[{"output":3,"name":""#, "a", "", r#""}]}"#);
    let input = Shape::new(r#"{"tests":[{"output":"","input":""#, "a", "", r#""}]}"#);
    let output = Shape::new(r#"{"tests":[{"output":""},{"output":""#, "a", "", r#""}]}"#);
    let pairs_of_bytes = Shape::new(r#"{"tests":[{"output":""#, r"\u00ff", "", r#""}]}"#);
    let threes_of_bytes = Shape::new("{\"tests\":[{\"output\":\"a", "\u{20ac}", "", r#""}]}"#);
    let ignored = Shape::new(r#"{"tests":[],"x":""#, "a", "", r#""}"#);
    let nested = Shape::new(r#"{"tests":[],"x":"#, "[", "]", "}");
    let rows = [
        (&tests, 255, None),
        (&tests, 256, Some(TooMany(257))),
        (&no_tests, 255, Some(BadLimit)),
        (&no_tests, 256, Some(TooMany(257))),
        (&name, 65_536, Some(BadField(0, Output))),
        (&name, 65_537, Some(TooLongText(0, Name))),
        (&input, 65_536, None),
        (&input, 65_537, Some(TooLongText(0, Input))),
        (&output, 65_536, None),
        (&output, 65_537, Some(TooLongText(1, Output))),
        // Bytes are counted, and not characters: 2 for each, and 1 and 3 for each.
        (&pairs_of_bytes, 32_768, None),
        (&pairs_of_bytes, 32_769, Some(TooLongText(0, Output))),
        (&threes_of_bytes, 21_845, None),
        (&threes_of_bytes, 21_846, Some(TooLongText(0, Output))),
        (&ignored, 70_000, None),
        // The object is a level too, and 127 levels are read.
        (&nested, 126, None),
        (&nested, 127, Some(NotJson)),
    ];
    for (shape, count, refusal) in rows {
        let text = shape.text(rt.alloc(), count)?;
        let found = read_suite(rt.alloc(), text.as_bytes()).err();
        assert_eq!(rt; found, refusal, "{count} times after {}", shape.before);
    }
    Ok(())
}

#[test]
fn refusals_have_words(rt: HostRuntime) -> Result<(), Fail> {
    let rows = [
        (NotJson, None, "not JSON"),
        (NoTests, None, "no tests"),
        (TooMany(257), None, "too many tests"),
        (BadLimit, None, "bad limit"),
        (NotATest(0), Some(0), "not a test"),
        (BadField(1, Name), Some(1), "bad field name"),
        (BadField(2, Input), Some(2), "bad field input"),
        (BadField(3, Output), Some(3), "bad field output"),
        (BadField(255, Status), Some(255), "bad field status"),
        (TooLongText(4, Name), Some(4), "too long name"),
        (TooLongText(5, Input), Some(5), "too long input"),
        (TooLongText(6, Output), Some(6), "too long output"),
        (SuiteFault::NoMemory, None, "out of memory"),
    ];
    for (fault, test, words) in rows {
        assert_eq!(rt; fault.test(), test, "{words}");
        assert_eq!(rt; fault.words(), words);
        let shown = format!(in rt.alloc(); "{fault}")?;
        assert_eq!(rt; shown.as_str(), words);
    }
    Ok(())
}

/// A text with a part that may be long.
#[derive(Drop)]
struct Shape {
    before: &'static str,
    opening: &'static str,
    closing: &'static str,
    after: &'static str,
}

impl Shape {
    fn new(
        before: &'static str,
        opening: &'static str,
        closing: &'static str,
        after: &'static str,
    ) -> Shape {
        Shape {
            before,
            opening,
            closing,
            after,
        }
    }

    /// The text with so many openings, and as many closings.
    fn text(&self, alloc: Global, count: usize) -> Result<String, AllocError> {
        let mut text = String::from_str(alloc, self.before)?;
        for _ in 0..count {
            text.push_str(self.opening)?;
        }
        for _ in 0..count {
            text.push_str(self.closing)?;
        }
        text.push_str(self.after)?;
        Ok(text)
    }
}
