//! The line and the column of a place in a source.

ghost use Rattle.std.specs.Prelude.{◌≡◌};
ghost use Rattle.patch_text.specs.Lines.{line_of, column_of};

/// The line and the column of the place, both counted from 1. After the source's end they stay as
/// they are at its end.
pub fn line_and_column(source: &[u8], place: u32) -> (usize, usize)
    ensures line { result.0 ≡ line_of source.now place }
    ensures column { result.1 ≡ column_of source.now place }
{
    let text = &source[..source.len().min(place as usize)];
    let mut line = 1;
    let mut column = 1;
    for i in 0..text.len() {
        if text[i] == b'\n' {
            line += 1;
            column = 1;
        } else {
            column += 1;
        }
    }
    (line, column)
}
