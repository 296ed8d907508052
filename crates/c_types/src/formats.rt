//! The formats of `printf` (C11 7.21.6.1) and `scanf` (C11 7.21.6.2), as far as they are supported.

ghost use Rattle.std.specs.Prelude.{◌≡◌};
ghost use Rattle.c_types.specs.Formats.{conversions, scan_conversions};

/// How many conversions a format of `printf` has.
pub fn conversions(text: &[u8]) -> Option<usize>
    ensures { result ≡ conversions text.now }
{
    let mut count: usize = 0;
    let mut percent = false;
    for b in text {
        if percent {
            match *b {
                b'd' | b'c' => count += 1,
                b'%' => {}
                _ => return None,
            }
            percent = false;
        } else if *b == b'%' {
            percent = true;
        } else if *b == 0 {
            return None;
        }
    }
    if percent {
        return None;
    }
    Some(count)
}

/// How many conversions a format of `scanf` has.
pub fn scan_conversions(text: &[u8]) -> Option<usize>
    ensures { result ≡ scan_conversions text.now }
{
    if text == b"%d".as_slice() {
        Some(1)
    } else {
        None
    }
}
