//! Literals and the values of their characters, by hand from C11 6.4.4.4, 6.4.5 and 6.3.1.3.

ghost use Rattle.std.specs.Prelude.{◌≡◌, true, IfSome};
ghost use Rattle.c_lex.specs.Constants.{is_quoted};

use super::*;
use crate::character::character;
use std::test::Fail;

// The literal at the start of a text.
fn literal_at_start(quote: u8, text: &[u8]) -> Option<&[u8]>
    ensures { IfSome result (λ word. is_quoted quote word.now ≡ true) }
{
    if text.is_empty() || text[0] != quote {
        return None;
    }
    match literal_len(quote, text) {
        Some(len) => Some(&text[..len]),
        None => None,
    }
}

#[test]
fn ends_of_literals(rt: HostRuntime) -> Result<(), Fail> {
    for (text, len) in [
        ("'a'b'", Some(3)),
        ("''", Some(2)),
        ("\"it's\"", Some(6)),
        ("'\"' x", Some(3)),
        (r"'\'' ", Some(4)),
        (r"'\\'\'", Some(4)),
        (r"'\\\''", Some(6)),
        (r#""\"""#, Some(4)),
        (r#""a"b"c""#, Some(3)),
        ("'", None),
        ("'a", None),
        (r"'\'", None),
        (r"'\\\'", None),
        ("'a\n'", None),
        ("\"a\\\n\"", None),
        ("\"abc'", None),
    ] {
        let text = text.as_bytes();
        assert!(rt; !text.is_empty());
        assert_eq!(rt; literal_len(text[0], text), len, "of {text:?}");
    }
    Ok(())
}

#[test]
fn values_of_characters(rt: HostRuntime) -> Result<(), Fail> {
    for (word, value) in [
        ("' '", 32),
        ("'~'", 126),
        ("'\t'", 9),
        ("'\"'", 34),
        (r"'\''", 39),
        (r"'\?'", 63),
        (r"'\\'", 92),
        (r"'\a'", 7),
        (r"'\b'", 8),
        (r"'\n'", 10),
        (r"'\v'", 11),
        (r"'\f'", 12),
        (r"'\r'", 13),
        (r"'\t'", 9),
        (r"'\0'", 0),
        (r"'\177'", 127),
        (r"'\200'", -128),
        (r"'\377'", -1),
        (r"'\x7F'", 127),
        (r"'\x00000ff'", -1),
    ] {
        let word = literal_at_start(b'\'', word.as_bytes()).ok_or("no literal")?;
        assert_eq!(rt; character(word), Some(value), "of {word:?}");
    }
    Ok(())
}

#[test]
fn no_one_character(rt: HostRuntime) -> Result<(), Fail> {
    for word in [
        "''", "'ab'", r"'\0001'", r"'\400'", r"'\777'", r"'\x100'", r"'\x'", r"'\xg'", r"'\8'",
        r"'\c'", r"'\N'", r"'\x41g'", "'\x1f'", "'\x7f'", "'\u{e9}'",
    ] {
        let word = literal_at_start(b'\'', word.as_bytes()).ok_or("no literal")?;
        assert_eq!(rt; character(word), None, "of {word:?}");
    }
    Ok(())
}

#[test]
fn values_of_strings(rt: HostRuntime) -> Result<(), Fail> {
    let empty: &[u8] = &[];
    for (word, values) in [
        (r#""""#, empty),
        (r#""abc""#, b"abc"),
        ("\"it's\"", b"it's"),
        ("\"\t\x01\x7f\"", b"\t\x01\x7f"),
        ("\"\u{e9}\"", b"\xc3\xa9"),
        (r#""%d\n""#, b"%d\n"),
        (r#""\"\\\'\?""#, b"\"\\'?"),
        (r#""\1\12\123\1234""#, b"\x01\nSS4"),
        (r#""\08\0""#, b"\x008\x00"),
        (r#""\377\xFf""#, b"\xff\xff"),
        (r#""\x41g""#, b"Ag"),
        (r#""\a\b\f\n\r\t\v""#, b"\x07\x08\x0c\n\r\t\x0b"),
    ] {
        let word = literal_at_start(b'"', word.as_bytes()).ok_or("no literal")?;
        let found = characters(rt.alloc(), word)?.ok_or("no characters")?;
        assert_eq!(rt; found.as_slice(), values, "of {word:?}");
    }
    Ok(())
}

#[test]
fn no_characters(rt: HostRuntime) -> Result<(), Fail> {
    for word in [
        r#""\400""#,
        r#""a\x100""#,
        r#""\x""#,
        r#""\xg""#,
        r#""\8""#,
        r#""\c""#,
        r#""ok\z""#,
    ] {
        let word = literal_at_start(b'"', word.as_bytes()).ok_or("no literal")?;
        let found = characters(rt.alloc(), word)?;
        assert!(rt; found.is_none(), "of {word:?}");
    }
    Ok(())
}
