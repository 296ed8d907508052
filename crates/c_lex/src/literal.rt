//! Whole literals: where one ends, and the characters of a string literal.

ghost use Rattle.std.specs.Prelude.{◌≡◌, ◌≤◌, ℕ, Bool, true, List, take, slice_index, length, ◌<◌, Some, IfOk, MatchOption};
ghost use Rattle.c_lex.specs.Constants as spec;
ghost use Rattle.c_lex.specs.Constants.{is_quoted, double_quote, Characters};

use crate::character::{between_quotes, first_character};
use std::alloc::{AllocError, Global};

/// The length of the literal at the start of a text that begins with such a quote, both quotes
/// included, or `None` exactly where it isn't closed before the next line feed or the end.
pub fn literal_len(quote: u8, text: &[u8]) -> Option<usize>
    requires some { 0 < length text.now }
    requires begins { slice_index text.now 0 ≡ quote }
    ensures whole { MatchOption result ((n : ℕ) → is_quoted quote (take n text.now) ≡ true → ⊥)
        (λ len. (len ≤ length text.now) × (is_quoted quote (take len text.now) ≡ true)) }
    ensures only { (n : ℕ) → n ≤ length text.now → is_quoted quote (take n text.now) ≡ true
        → result ≡ Some n }
{
    let mut passed = false;
    let mut at = 1;
    while at < text.len() {
        let byte = text[at];
        at += 1;
        if byte == b'\n' {
            return None;
        }
        if passed {
            passed = false;
        } else if byte == quote {
            return Some(at);
        } else {
            passed = byte == b'\\';
        }
    }
    None
}

/// The values of the characters of a string literal (C11 6.4.5), or `None` exactly where what
/// stands between its quotes is no list of characters.
///
/// # Errors
/// `AllocError` where the allocator has no memory left.
pub fn characters(alloc: Global, word: &[u8]) -> Result<Option<Vec<u8>>, AllocError>
    requires { is_quoted double_quote word.now ≡ true }
    ensures { IfOk result (λ found. MatchOption found
        ((values : List ℕ) → Characters double_quote (spec.between_quotes word.now) values → ⊥)
        (λ values. Characters double_quote (spec.between_quotes word.now) values.items)) }
{
    let body = between_quotes(word);
    let mut values = Vec::new(alloc);
    let mut at = 0;
    while at < body.len() {
        match first_character(b'"', &body[at..]) {
            None => return Ok(None),
            Some(first) => {
                values.push(first.value)?;
                at += first.len;
            }
        }
    }
    Ok(Some(values))
}

#[cfg(test)]
mod tests;
