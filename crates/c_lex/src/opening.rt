//! What a text begins with.

ghost use Rattle.std.specs.Prelude.{◌≡◌, ◌<◌, length};
ghost use Rattle.c_lex.specs.Openings as spec;
ghost use Rattle.c_lex.specs.Places as places;

use crate::piece::{is_letter, is_space};
use crate::target::is_line_end;

/// What a text begins with, by its first two bytes.
#[derive(Clone, Copy)]
pub enum Opening {
    /// White space.
    Space,
    /// `//`
    LineComment,
    /// `/*`
    BlockComment,
    /// `#`
    Hash,
    /// A letter or `_`.
    Letter,
    /// A digit.
    Digit,
    /// `'`
    Character,
    /// `"`
    Text,
    /// A digraph.
    Digraph,
    /// A punctuator or a stray byte.
    Other,
}

/// What the text of a directive goes on with.
#[derive(Clone, Copy)]
pub enum LinePart {
    /// Its end.
    End,
    /// `//`
    LineComment,
    /// `/*`
    BlockComment,
    /// Another byte.
    Byte,
}

fn is_digraph(text: &[u8]) -> bool
    ensures { result ≡ places.is_digraph text.now }
{
    text.starts_with(b"<:")
        || text.starts_with(b":>")
        || text.starts_with(b"<%")
        || text.starts_with(b"%>")
        || text.starts_with(b"%:")
}

fn other_opening(text: &[u8]) -> Opening
    ensures { result ≡ spec.other_opening text.now }
{
    if text.starts_with(b"//") {
        Opening::LineComment
    } else if text.starts_with(b"/*") {
        Opening::BlockComment
    } else if is_digraph(text) {
        Opening::Digraph
    } else {
        Opening::Other
    }
}

/// What a text that isn't empty begins with.
pub fn opening_of(text: &[u8]) -> Opening
    requires { 0 < length text.now }
    ensures { result ≡ spec.opening_of text.now }
{
    let byte = text[0];
    if is_space(byte) {
        Opening::Space
    } else if is_letter(byte) {
        Opening::Letter
    } else if byte.is_ascii_digit() {
        Opening::Digit
    } else if byte == b'#' {
        Opening::Hash
    } else if byte == b'\'' {
        Opening::Character
    } else if byte == b'"' {
        Opening::Text
    } else {
        other_opening(text)
    }
}

/// What the text of a directive goes on with.
pub fn line_part(text: &[u8]) -> LinePart
    ensures { result ≡ spec.line_part text.now }
{
    if is_line_end(text) {
        LinePart::End
    } else if text.starts_with(b"//") {
        LinePart::LineComment
    } else if text.starts_with(b"/*") {
        LinePart::BlockComment
    } else {
        LinePart::Byte
    }
}
