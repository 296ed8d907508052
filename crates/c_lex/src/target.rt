//! What is looked for in a text: what ends a comment or a line, and what is refused wherever it
//! stands.

ghost use Rattle.std.specs.Prelude.{◌≡◌, ◌≤◌, length, drop, MatchOption};
ghost use Rattle.c_lex.specs.Places as places;
ghost use Rattle.c_lex.specs.Reading as spec;

/// What is looked for in a text.
#[derive(Clone, Copy)]
pub enum Target {
    /// A line splice or a trigraph.
    Refused,
    /// The end of a `/*` comment.
    CommentEnd,
    /// A line feed, or the end of the text.
    LineEnd,
}

/// Whether the text begins with a backslash at the end of its line.
pub fn is_splice(text: &[u8]) -> bool
    ensures { result ≡ places.is_splice text.now }
{
    text.starts_with(b"\\\n") || text.starts_with(b"\\\r\n")
}

fn ends_trigraph(byte: u8) -> bool
    ensures { result ≡ places.ends_trigraph byte }
{
    matches!(
        byte,
        b'=' | b'(' | b'/' | b')' | b'\'' | b'<' | b'!' | b'>' | b'-'
    )
}

fn is_trigraph(text: &[u8]) -> bool
    ensures { result ≡ places.is_trigraph text.now }
{
    match text {
        [first, second, third, ..] => *first == b'?' && *second == b'?' && ends_trigraph(*third),
        _ => false,
    }
}

/// Whether the text begins with a line feed, or is empty.
pub fn is_line_end(text: &[u8]) -> bool
    ensures { result ≡ places.is_line_end text.now }
{
    match text {
        [] => true,
        [byte, ..] => *byte == b'\n',
    }
}

// Whether the target stands at the start of the text.
fn is_at(target: Target, text: &[u8]) -> bool
    ensures { result ≡ spec.test_of target text.now }
{
    match target {
        Target::Refused => is_splice(text) || is_trigraph(text),
        Target::CommentEnd => text.starts_with(b"*/"),
        Target::LineEnd => is_line_end(text),
    }
}

/// The first place of the text where the target stands, if any.
pub fn find(target: Target, text: &[u8]) -> Option<usize>
    ensures { MatchOption result (places.IsNowhere (spec.test_of target) text.now)
        (places.IsFirstAt (spec.test_of target) text.now) }
{
    let mut at = 0;
    while at < text.len() {
        if is_at(target, &text[at..]) {
            return Some(at);
        }
        at += 1;
    }
    if is_at(target, &text[at..]) {
        Some(at)
    } else {
        None
    }
}

/// The first place of the text where a line feed or the end stands.
pub fn line_end(text: &[u8]) -> usize
    ensures { places.IsFirstAt places.is_line_end text.now result }
{
    match find(Target::LineEnd, text) {
        Some(place) => place,
        None => text.len(),
    }
}

/// The place of the first `*/` after the first two bytes of the text, counted from there.
pub fn comment_end(text: &[u8]) -> Option<usize>
    requires { 2 ≤ length text.now }
    ensures { MatchOption result (places.IsNowhere places.is_comment_end (drop 2 text.now))
        (places.IsFirstAt places.is_comment_end (drop 2 text.now)) }
{
    find(Target::CommentEnd, &text[2..])
}
