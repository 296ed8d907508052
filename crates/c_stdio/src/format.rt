//! The formats of `printf`.

ghost use Rattle.std.specs.Prelude.{◌≡◌};
ghost use Rattle.c_stdio.specs.Formats.{conversions, takes_argument as takes};

/// How many conversions a format of `printf` has that take an argument, if it is a format: a text with no zero byte, in
/// which each `%` is followed by `d`, `c` or `%` (C11 7.21.6.1).
pub fn conversion_count(format: &[u8]) -> Option<usize>
    ensures { result ≡ conversions format.now }
{
    let mut count = 0;
    let mut rest = format;
    'directives: while let [first, after @ ..] = rest {
        if *first == 0 {
            return None;
        }
        if *first != b'%' {
            rest = after;
            continue;
        }
        let [specifier, after @ ..] = after else {
            return None;
        };
        rest = after;
        if takes_argument(*specifier) {
            count += 1;
            continue;
        }
        if *specifier != b'%' {
            return None;
        }
    }
    Some(count)
}

/// Whether an argument is converted at this specifier.
fn takes_argument(specifier: u8) -> bool
    ensures { result ≡ takes specifier }
{
    specifier == b'd' || specifier == b'c'
}
