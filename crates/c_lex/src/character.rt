//! The characters of character constants and string literals.

ghost use Rattle.std.specs.Prelude.{◌≡◌, ◌≤◌, ◌<◌, ℕ, true, [], ◌∷◌, length, MatchOption};
ghost use Rattle.c_lex.specs.Constants as spec;
ghost use Rattle.c_lex.specs.LiteralReading as reading;

use crate::constant::small_digits;

/// The value of the first character of some bytes, and how many of them write it.
#[derive(Clone, Copy)]
pub struct FirstCharacter {
    /// The value.
    pub value: u8,
    /// How many bytes.
    pub len: usize,
}

// Whether the byte stands for itself between such quotes.
fn is_bare(quote: u8, byte: u8) -> bool
    ensures { result ≡ spec.is_bare quote byte }
{
    byte != quote
        && byte != b'\\'
        && byte != b'\n'
        && (quote != b'\'' || byte == b'\t' || (32 <= byte && byte <= 126))
}

// The value of a backslash and this byte, where they are a simple escape sequence.
#[tactic(auto, unfolding(crate::specs::Constants::simple_escape))]
fn simple_escape(byte: u8) -> Option<u8>
    ensures { result ≡ spec.simple_escape byte }
{
    match byte {
        b'\'' | b'"' | b'?' | b'\\' => Some(byte),
        b'a' => Some(7),
        b'b' => Some(8),
        b'f' => Some(12),
        b'n' => Some(10),
        b'r' => Some(13),
        b't' => Some(9),
        b'v' => Some(11),
        _ => None,
    }
}

// How many digits of the base begin the text, up to `most`.
fn digit_count(base: u32, most: usize, text: &[u8]) -> usize
    requires two { 2 ≤ base }
    requires sixteen { base ≤ 16 }
    ensures count { result ≡ reading.digit_count base most text.now }
    ensures within { result ≤ length text.now }
{
    let mut count = 0;
    while count < most && count < text.len() && char::from(text[count]).is_digit(base) {
        count += 1;
    }
    count
}

// The character that up to `most` digits at the start of the text write, after the `before` bytes
// that begin its escape.
#[tactic(auto, unfolding(crate::specs::LiteralReading::numeric_escape))]
fn numeric_escape(base: u32, most: usize, before: usize, text: &[u8]) -> Option<FirstCharacter>
    requires two { 2 ≤ base }
    requires sixteen { base ≤ 16 }
    requires before { before ≤ 2 }
    ensures { result ≡ reading.numeric_escape base most before text.now }
{
    let count = digit_count(base, most, text);
    match small_digits(base, &text[..count]) {
        Some(value) if value <= 255 => Some(FirstCharacter {
            value: value as u8,
            len: before + count,
        }),
        _ => None,
    }
}

// The escape that the bytes after a backslash write.
#[tactic(auto, unfolding(crate::specs::LiteralReading::escape))]
fn escape(text: &[u8]) -> Option<FirstCharacter>
    ensures { result ≡ reading.escape text.now }
{
    match text {
        [] => None,
        [byte, rest @ ..] => match simple_escape(*byte) {
            Some(value) => Some(FirstCharacter { value, len: 2 }),
            None => {
                if *byte == b'x' {
                    numeric_escape(16, rest.len(), 2, rest)
                } else {
                    numeric_escape(8, 3, 1, text)
                }
            }
        },
    }
}

/// The first of the characters that stand between such quotes (C11 6.4.4.4, 6.4.5), or `None`
/// exactly where the text begins with none.
#[tactic(auto, unfolding(crate::specs::LiteralReading::first_character))]
pub fn first_character(quote: u8, text: &[u8]) -> Option<FirstCharacter>
    ensures { result ≡ reading.first_character quote text.now }
{
    match text {
        [] => None,
        [b'\\', rest @ ..] => escape(rest),
        [byte, ..] => {
            if is_bare(quote, *byte) {
                Some(FirstCharacter {
                    value: *byte,
                    len: 1,
                })
            } else {
                None
            }
        }
    }
}

/// What stands between the quotes of a literal.
pub fn between_quotes(word: &[u8]) -> &[u8]
    requires { 2 ≤ length word.now }
    ensures { result.now ≡ spec.between_quotes word.now }
{
    &word[1..word.len() - 1]
}

// A value of 0 to 255 as a `char` of 8 bits with a sign (C11 6.3.1.3).
fn char_value(value: u8) -> i64
    ensures { result ≡ spec.char_value value }
{
    if value <= 127 {
        i64::from(value)
    } else {
        i64::from(value) - 256
    }
}

/// The value of a character constant (C11 6.4.4.4), or `None` exactly where what stands between its
/// quotes isn't one character.
pub fn character(word: &[u8]) -> Option<i64>
    requires { spec.is_quoted spec.single_quote word.now ≡ true }
    ensures { MatchOption result
        ((v : ℕ) → spec.Characters spec.single_quote (spec.between_quotes word.now) (v ∷ []) → ⊥)
        (λ c. (v : ℕ) × spec.Characters spec.single_quote (spec.between_quotes word.now) (v ∷ [])
        × (c ≡ spec.char_value v)) }
{
    let body = between_quotes(word);
    match first_character(b'\'', body) {
        Some(first) if first.len == body.len() => Some(char_value(first.value)),
        _ => None,
    }
}
