//! A test under way: the input that its program reads byte by byte, and the output that it has to write.

ghost use Rattle.std.specs.Prelude.{◌≡◌, [], ◌∷◌, drop, length};
ghost use Rattle.std.specs.Bool.{OnFalse};
ghost use Rattle.c_stdio.specs.Io.{next_byte};
ghost use Rattle.c_stdio.specs.Output.{agreeing as agreeing_in, is_expected, expected_after};

use crate::test::Test;
use std::marker::Model;

/// A test under way: the input that is unread, and the output that is still expected.
#[derive(Drop)]
pub struct TestIo<'a> {
    pub(crate) input: &'a [u8],
    pub(crate) expected: &'a [u8],
}

impl<'a> Model for TestIo<'a> {
    ghost use Rattle.c_stdio.specs.Io.{Io};

    ghost Value = { Io };

    ghost view = { λ t. record { input = t.input.now; expected = t.expected.now } };
}

impl<'a> TestIo<'a> {
    /// The test at its start: all of its input is unread, and all of its output expected.
    pub fn new(test: &'a Test) -> TestIo<'a>
        ensures { result ≡ record { input = test.now.input; expected = test.now.output } }
    {
        TestIo {
            input: test.input.as_slice(),
            expected: test.output.as_slice(),
        }
    }

    /// Reads the next byte of the input, 0 to 255, or -1 at its end (C11 7.21.7.6).
    pub fn get(&mut self) -> i64
        ensures byte { result ≡ next_byte self.old.input }
        ensures state { self.new ≡ record self.old { input = drop 1 self.old.input } }
    {
        match self.input {
            [] => -1,
            [first, rest @ ..] => {
                self.input = rest;
                i64::from(*first)
            }
        }
    }

    /// Writes a byte, if it is the next one expected (C11 7.21.7.8). Otherwise nothing is taken.
    pub fn put(&mut self, byte: u8) -> bool
        ensures expected { result ≡ is_expected (byte ∷ []) self.old.expected }
        ensures state { self.new ≡
            record self.old { expected = expected_after (byte ∷ []) self.old.expected } }
        ensures refused { OnFalse result (self.new ≡ self.old) }
    {
        match self.expected {
            [] => false,
            [first, rest @ ..] => {
                if *first != byte {
                    return false;
                }
                self.expected = rest;
                true
            }
        }
    }

    /// Writes a text, up to its first byte that isn't the next one expected. Says whether all of it was written.
    #[tactic(auto, using(crate::proofs::Writing::agreeing_le))]
    pub(crate) fn put_all(&mut self, text: &[u8]) -> bool
        ensures expected { result ≡ is_expected text.now self.old.expected }
        ensures state { self.new ≡
            record self.old { expected = expected_after text.now self.old.expected } }
    {
        let count = agreeing(text, self.expected);
        self.expected = &self.expected[count..];
        count == text.len()
    }

    /// How many bytes are still expected.
    pub fn left(&self) -> usize
        ensures { result ≡ length self.now.expected }
    {
        self.expected.len()
    }
}

/// How many bytes the text has before its first one that isn't the expected one in the same place.
fn agreeing(text: &[u8], expected: &[u8]) -> usize
    ensures { result ≡ agreeing_in text.now expected.now }
{
    for (count, byte) in text.iter().enumerate() {
        let Some(next) = expected.get(count) else {
            return count;
        };
        if byte != next {
            return count;
        }
    }
    text.len()
}
