//! The number at the begin of an input, as `%d` of `scanf` reads it.

ghost use Rattle.std.specs.Prelude.{◌≡◌, true, ◌+◌, ◌*◌, ◌≤◌, min};
ghost use Rattle.std.specs.List.{prefix_len};
ghost use Rattle.std.specs.Char.{is_ascii_digit, digit_value};
ghost use Rattle.std.specs.Str.Parse.{digits_value, starts_with_minus, without_leading_sign};
ghost use Rattle.c_stdio.specs.Scanning.{is_white as is_white_space, AreDigits};

/// A number that no number of ten digits is above.
const LARGE: u64 = 10_000_000_000;

/// How many bytes of white space the input begins with.
pub(crate) fn white_count(input: &[u8]) -> usize
    ensures { result ≡ prefix_len is_white_space input.now }
{
    input.iter().take_while(|byte| is_white(**byte)).count()
}

/// How many digits the text begins with.
pub(crate) fn digit_count(text: &[u8]) -> usize
    ensures { result ≡ prefix_len is_ascii_digit text.now }
{
    text.iter().take_while(|byte| byte.is_ascii_digit()).count()
}

/// Whether the text begins with `-`.
pub(crate) fn is_negative(text: &[u8]) -> bool
    ensures { result ≡ starts_with_minus text.now }
{
    match text {
        [first, ..] => *first == b'-',
        [] => false,
    }
}

/// The text without the sign that it begins with, if there is one.
pub(crate) fn after_sign(text: &[u8]) -> &[u8]
    ensures { result.now ≡ without_leading_sign text.now }
{
    let [first, rest @ ..] = text else {
        return text;
    };
    if *first == b'-' || *first == b'+' {
        return rest;
    }
    text
}

/// The number that these digits write, or `LARGE` where that is smaller.
pub(crate) fn small_number(digits: &[u8]) -> u64
    requires { AreDigits digits.now }
    ensures { result ≡ min (digits_value 10 digits.now) LARGE }
{
    let mut number = 0;
    for digit in digits {
        number = with_digit(number, *digit);
    }
    number
}

// A number with one more digit, or `LARGE` where that is smaller.
fn with_digit(number: u64, digit: u8) -> u64
    requires small { number ≤ LARGE }
    requires digit { is_ascii_digit digit ≡ true }
    ensures { result ≡ min (number * 10 + digit_value digit) LARGE }
{
    (number * 10 + u64::from(digit - b'0')).min(LARGE)
}

// Whether the byte is white space: a space, tab, line feed, vertical tab, form feed or carriage return (C11 7.4.1.10).
fn is_white(byte: u8) -> bool
    ensures { result ≡ is_white_space byte }
{
    byte == b' ' || (9 <= byte && byte <= 13)
}
