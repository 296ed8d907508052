//! `scanf` with `%d` over a test.

ghost use Rattle.std.specs.Prelude.{◌≡◌, ◌≤◌, pos, neg_ℤ, if◌then◌else◌};
ghost use Rattle.c_stdio.specs.Scanning.{scanned, input_after, read_of, digits_of};

use crate::io::TestIo;
use crate::number::{after_sign, digit_count, is_negative, small_number, white_count};
use c_arith::fitting;
use c_tree::Ty;

/// What `%d` of `scanf` finds in the input.
#[derive(Clone, Copy, Debug, PartialEq, Eq)]
pub enum Scan {
    /// A number, which is a value of `int`.
    Number(i64),
    /// The input ended before a sign or a digit.
    End,
    /// There is no digit. A sign that stood there is taken.
    NoNumber,
    /// The number is no value of `int`.
    TooWide,
}

impl<'a> TestIo<'a> {
    /// Reads a number: white space is skipped, then a sign is taken if one stands there, and then all digits that stand
    /// there (C11 7.21.6.2).
    #[tactic(auto, using(crate::proofs::Digits::prefix_le))]
    pub fn scan(&mut self) -> Scan
        ensures read { result ≡ scanned self.old.input }
        ensures state { self.new ≡ record self.old { input = input_after self.old.input } }
    {
        let text = &self.input[white_count(self.input)..];
        let unsigned = after_sign(text);
        let count = digit_count(unsigned);
        self.input = &unsigned[count..];
        read(text, &unsigned[..count])
    }
}

// What a text is read as, in which these digits stand after the sign.
fn read(text: &[u8], digits: &[u8]) -> Scan
    requires { digits.now ≡ digits_of text.now }
    ensures { result ≡ read_of text.now }
{
    if text.is_empty() {
        return Scan::End;
    }
    if digits.is_empty() {
        return Scan::NoNumber;
    }
    match fitting(Ty::Int, signed(is_negative(text), small_number(digits))) {
        Some(number) => Scan::Number(number),
        None => Scan::TooWide,
    }
}

// The number with a sign.
fn signed(negative: bool, number: u64) -> i64
    requires { number ≤ 10000000000 }
    ensures { result ≡ (if negative then neg_ℤ (pos number) else pos number) }
{
    if negative {
        -(number as i64)
    } else {
        number as i64
    }
}
