//! `printf` over a test.

ghost use Rattle.std.specs.Prelude.{◌≡◌, pos, Some, None, length, if◌then◌else◌};
ghost use Rattle.c_stdio.specs.Formats.{conversions, text as text_of, takes_argument, converted};
ghost use Rattle.c_stdio.specs.Output.{is_expected, expected_after};

use crate::io::TestIo;
use c_arith::byte_of;
use itoa::Buffer;

impl<'a> TestIo<'a> {
    /// Writes a format, with each of its conversions replaced by the text of the next argument, and answers the number
    /// of bytes (C11 7.21.6.1, 7.21.6.3): None where one byte isn't the next expected one. The bytes before that one are
    /// taken then.
    pub fn print(&mut self, format: &[u8], args: &[i64]) -> Option<i64>
        requires { conversions format.now ≡ Some (length args.now) }
        ensures count { let text = text_of format.now args.now in
            result ≡ (if is_expected text self.old.expected then Some (pos (length text)) else None) }
        ensures state { let text = text_of format.now args.now in
            self.new ≡ record self.old { expected = expected_after text self.old.expected } }
    {
        let before = self.expected.len();
        if !self.put_format(format, args) {
            return None;
        }
        Some((before - self.expected.len()) as i64)
    }

    // Writes a format with its arguments, up to the first byte that isn't the next expected one.
    fn put_format(&mut self, format: &[u8], args: &[i64]) -> bool
        requires { conversions format.now ≡ Some (length args.now) }
        ensures expected { result ≡ is_expected (text_of format.now args.now) self.old.expected }
        ensures state { let text = text_of format.now args.now in
            self.new ≡ record self.old { expected = expected_after text self.old.expected } }
    {
        let mut at = 0;
        let mut next = 0;
        'directives: while at < format.len() {
            let byte = format[at];
            at += 1;
            if byte != b'%' {
                if !self.put(byte) {
                    return false;
                }
                continue;
            }
            let specifier = format[at];
            at += 1;
            if specifier == b'%' {
                if !self.put(b'%') {
                    return false;
                }
                continue;
            }
            let value = args[next];
            if !self.put_converted(specifier, value) {
                return false;
            }
            next += 1;
        }
        true
    }

    // Writes an argument as its specifier says.
    fn put_converted(&mut self, specifier: u8, value: i64) -> bool
        ensures expected { result ≡ is_expected (converted specifier value) self.old.expected }
        ensures state { let text = converted specifier value in
            self.new ≡ record self.old { expected = expected_after text self.old.expected } }
    {
        if specifier == b'd' {
            let mut buffer = Buffer::new();
            return self.put_all(buffer.format(value).as_bytes());
        }
        self.put(byte_of(value))
    }
}
