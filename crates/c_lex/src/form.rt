//! The forms of directives: where the parts of a directive stand in its line.

ghost use Rattle.std.specs.Prelude.{◌≡◌, ◌+◌, ◌≤◌, length, take, drop, None, Some, IfSome, MatchOption};
ghost use Rattle.c_lex.specs.Directives as directives;
ghost use Rattle.c_lex.specs.DirectiveReading as spec;

use crate::piece::{Run, run_len};

/// The parts of a line that has the form of a `#define`, but maybe for its name and number.
#[derive(Clone, Copy)]
pub struct DefineParts {
    /// The place of the name.
    pub name_at: usize,
    /// How many bytes the name has.
    pub name_len: usize,
    /// Whether a `-` stands before the number.
    pub negative: bool,
    /// The place of the number.
    pub number_at: usize,
    /// How many bytes the number has.
    pub number_len: usize,
}

fn is_blank(byte: u8) -> bool
    ensures { result ≡ directives.is_blank byte }
{
    matches!(byte, b' ' | b'\t' | 11..=13)
}

// What stands after the blanks at the start.
fn skip(text: &[u8]) -> &[u8]
    ensures value { result.now ≡ spec.skip text.now }
    ensures within { length result.now ≤ length text.now }
{
    let mut at = 0;
    while at < text.len() && is_blank(text[at]) {
        at += 1;
    }
    &text[at..]
}

fn is_blank_only(text: &[u8]) -> bool
    ensures { result ≡ spec.is_blank_only text.now }
{
    skip(text).is_empty()
}

// What stands after the name of a directive.
fn body<'a>(name: &[u8], line: &'a [u8]) -> Option<&'a [u8]>
    ensures value { MatchOption result (spec.body_of name.now line.now ≡ None)
        (λ rest. spec.body_of name.now line.now ≡ Some rest.now) }
    ensures within { IfSome result (λ rest. length rest.now ≤ length line.now) }
{
    if !line.starts_with(b"#") {
        return None;
    }
    let rest = skip(&line[1..]);
    if rest.starts_with(name) {
        Some(&rest[name.len()..])
    } else {
        None
    }
}

// How many bytes the word at the start has; a first byte is taken whatever it is.
fn word_len(text: &[u8]) -> usize
    ensures value { result ≡ spec.word_len text.now }
    ensures within { result ≤ length text.now }
{
    if text.is_empty() {
        0
    } else {
        run_len(Run::Word, text)
    }
}

fn after_word(text: &[u8]) -> &[u8]
    ensures value { result.now ≡ spec.after_word text.now }
    ensures within { length result.now ≤ length text.now }
{
    &text[word_len(text)..]
}

fn is_header(text: &[u8]) -> bool
    ensures { result ≡ spec.is_header text.now }
{
    if text.starts_with(b"<stdio.h>") {
        is_blank_only(&text[9..])
    } else if text.starts_with(b"<stdlib.h>") {
        is_blank_only(&text[10..])
    } else {
        false
    }
}

/// Whether the line includes a header.
pub fn is_include(line: &[u8]) -> bool
    ensures { result ≡ spec.is_include line.now }
{
    match body(b"include", line) {
        Some(rest) => is_header(skip(rest)),
        None => false,
    }
}

// A value from its sign or number on.
fn inside(value: &[u8]) -> &[u8]
    ensures value { result.now ≡ spec.inside value.now }
    ensures within { length result.now ≤ length value.now }
{
    if value.starts_with(b"(") {
        skip(&value[1..])
    } else {
        value
    }
}

// A value from its number on.
fn number(value: &[u8]) -> &[u8]
    ensures value { result.now ≡ spec.number_of value.now }
    ensures within { length result.now ≤ length value.now }
{
    if value.starts_with(b"-") {
        skip(&value[1..])
    } else {
        value
    }
}

// Whether the text ends a value that began with a parenthesis, or with none.
fn ends_value(parenthesis: bool, text: &[u8]) -> bool
    ensures { result ≡ spec.ends_value parenthesis text.now }
{
    if parenthesis {
        let close = skip(text);
        close.starts_with(b")") && is_blank_only(&close[1..])
    } else {
        is_blank_only(text)
    }
}

// The parts of a line of so many bytes, of which `body` stands after `define`.
fn parts_of(len: usize, body: &[u8]) -> Option<DefineParts>
    requires { length body.now ≤ len }
    ensures value { result ≡ spec.parts_by len body.now }
    ensures within { IfSome result (λ p.
        (p.name_at + p.name_len ≤ len) × (p.number_at + p.number_len ≤ len)) }
{
    let name = skip(body);
    let rest = after_word(name);
    let value = skip(rest);
    let inner = inside(value);
    let number = number(inner);
    if name.len() < body.len()
        && value.len() < rest.len()
        && ends_value(value.starts_with(b"("), after_word(number))
    {
        Some(DefineParts {
            name_at: len - name.len(),
            name_len: word_len(name),
            negative: inner.starts_with(b"-"),
            number_at: len - number.len(),
            number_len: word_len(number),
        })
    } else {
        None
    }
}

/// The parts of a line, if it has the form of a `#define`, but maybe for its name and number.
pub fn define_parts(line: &[u8]) -> Option<DefineParts>
    ensures value { result ≡ spec.parts_of line.now }
    ensures within { IfSome result (λ p. (p.name_at + p.name_len ≤ length line.now)
        × (p.number_at + p.number_len ≤ length line.now)) }
{
    match body(b"define", line) {
        Some(rest) => parts_of(line.len(), rest),
        None => None,
    }
}

/// So many bytes of the line from a place on.
pub fn part(line: &[u8], at: usize, len: usize) -> &[u8]
    requires { at + len ≤ length line.now }
    ensures { result.now ≡ take len (drop at line.now) }
{
    &line[at..at + len]
}
