//! The pieces of a text: how far each goes on.

ghost use Rattle.std.specs.Prelude.{◌≡◌, ◌+◌, ◌<◌, ◌≤◌, length, drop, slice_index};
ghost use Rattle.c_lex.specs.Bytes as bytes;
ghost use Rattle.c_lex.specs.Reading as spec;

/// The pieces that go on as long as their next byte may follow.
#[derive(Clone, Copy)]
pub enum Run {
    /// A name or keyword.
    Word,
    /// A preprocessing number.
    Number,
}

/// Whether the byte is white space.
pub fn is_space(byte: u8) -> bool
    ensures { result ≡ bytes.is_space byte }
{
    matches!(byte, b' ' | b'\t'..=b'\r')
}

/// Whether the byte can begin a word: a letter or `_`.
pub fn is_letter(byte: u8) -> bool
    ensures { result ≡ bytes.is_letter byte }
{
    byte.is_ascii_alphabetic() || byte == b'_'
}

fn is_word(byte: u8) -> bool
    ensures { result ≡ bytes.is_word byte }
{
    is_letter(byte) || byte.is_ascii_digit()
}

fn is_sign(byte: u8) -> bool
    ensures { result ≡ bytes.is_sign byte }
{
    matches!(byte, b'+' | b'-')
}

fn is_exponent(byte: u8) -> bool
    ensures { result ≡ bytes.is_exponent byte }
{
    matches!(byte, b'e' | b'E' | b'p' | b'P')
}

// Whether the byte goes on a run whose last byte is `before`.
fn goes_on(run: Run, before: u8, byte: u8) -> bool
    ensures { result ≡ spec.goes_on run before byte }
{
    match run {
        Run::Word => is_word(byte),
        Run::Number => is_word(byte) || byte == b'.' || (is_sign(byte) && is_exponent(before)),
    }
}

/// How many bytes of the text the run takes that begins with its first byte.
pub fn run_len(run: Run, text: &[u8]) -> usize
    requires { 0 < length text.now }
    ensures value { result
        ≡ 1 + spec.chain_len (spec.goes_on run) (slice_index text.now 0) (drop 1 text.now) }
    ensures within { result ≤ length text.now }
{
    let mut len = 1;
    while len < text.len() && goes_on(run, text[len - 1], text[len]) {
        len += 1;
    }
    len
}
