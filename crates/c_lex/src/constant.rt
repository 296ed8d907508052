//! The values of integer constants.

ghost use Rattle.std.specs.Prelude.{◌≡◌, ◌≤◌, ◌<◌, ◌+◌, ◌*◌, ℕ, true, length, MatchOption};
ghost use Rattle.c_lex.specs.Constants.{int_limit, HasDigits};
ghost use Rattle.c_lex.specs.LiteralReading as spec;
ghost use Rattle.c_lex.specs.LiteralReading.{HasSmallDigits, AnswersDigits, Answers};

// One more than the largest value that an `int` of 32 bits holds.
const INT_LIMIT: u64 = 2_147_483_648;

/// What an integer constant without a suffix stands for.
#[derive(Clone, Copy, Debug, PartialEq, Eq)]
pub enum Constant {
    /// A value that an `int` of 32 bits holds.
    Value(i64),
    /// A value above 2,147,483,647.
    TooLarge,
    /// The word has no form of an integer constant.
    Bad,
}

// The value after one more digit, or the limit where that is smaller.
fn with_digit(base: u32, value: u64, digit: u32) -> u64
    requires base { base ≤ 16 }
    requires value { value ≤ int_limit }
    requires digit { digit < base }
    ensures small { value * base + digit < int_limit → result ≡ value * base + digit }
    ensures large { int_limit ≤ value * base + digit → result ≡ int_limit }
{
    let more = value * u64::from(base) + u64::from(digit);
    if more < INT_LIMIT { more } else { INT_LIMIT }
}

/// The value of a word that is one digit of the base or more, or 2,147,483,648 where that is
/// smaller.
pub fn small_digits(base: u32, word: &[u8]) -> Option<u64>
    requires two { 2 ≤ base }
    requires most { base ≤ 16 }
    ensures { MatchOption result ((n : ℕ) → HasDigits base word.now n → ⊥)
        (HasSmallDigits base word.now) }
{
    if word.is_empty() {
        return None;
    }
    let mut value: u64 = 0;
    for byte in word {
        match char::from(*byte).to_digit(base) {
            None => return None,
            Some(digit) => {
                value = with_digit(base, value, digit);
            }
        }
    }
    Some(value)
}

// Whether `0x` or `0X` begins the word.
fn begins_hexadecimal(word: &[u8]) -> bool
    ensures test { result ≡ spec.begins_hexadecimal word.now }
    ensures long { result ≡ true → 2 ≤ length word.now }
{
    match word {
        [b'0', b'x' | b'X', ..] => true,
        _ => false,
    }
}

// Whether a 0 begins the word.
fn begins_zero(word: &[u8]) -> bool
    ensures { result ≡ spec.begins_zero word.now }
{
    match word {
        [b'0', ..] => true,
        _ => false,
    }
}

// What some digits of a base stand for.
fn of_digits(base: u32, word: &[u8]) -> Constant
    requires two { 2 ≤ base }
    requires most { base ≤ 16 }
    ensures { AnswersDigits base word.now result }
{
    match small_digits(base, word) {
        None => Constant::Bad,
        Some(value) => {
            if value < INT_LIMIT {
                Constant::Value(value as i64)
            } else {
                Constant::TooLarge
            }
        }
    }
}

/// What a word stands for as an integer constant without a suffix (C11 6.4.4.1): its value where an
/// `int` of 32 bits holds that, `TooLarge` where it doesn't, and `Bad` exactly where the word has
/// no such form.
pub fn constant_of(word: &[u8]) -> Constant
    ensures { Answers word.now result }
{
    if begins_hexadecimal(word) {
        of_digits(16, &word[2..])
    } else if begins_zero(word) {
        of_digits(8, word)
    } else {
        of_digits(10, word)
    }
}

#[cfg(test)]
mod tests;
