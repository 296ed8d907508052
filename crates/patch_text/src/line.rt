//! The line that says what a patch changes.

ghost use Rattle.std.specs.Prelude.{◌≡◌, ◌++◌, OnOk, IfOk, decimal};
ghost use Rattle.c_tree.specs.Views.{tree};
ghost use Rattle.patch_text.specs.Lines.{place_of, word_of, edit_line as line_of_edit};

use crate::position::line_and_column;
use crate::print::put_parenthesized;
use c_tree::{Expr, NoMemory, Span, Text};
use itoa::Buffer;
use std::alloc::Global;

/// What a patch does with the part at its location.
#[derive(Clone, Copy, Debug, PartialEq, Eq)]
pub enum Form {
    /// An expression is put in its place.
    Replace,
    /// The condition is joined to a bound by `&&`.
    And,
    /// The condition is joined to a bound by `||`.
    Or,
    /// An `if` with a bound is put before the statement.
    Guard,
}

/// The word of the form.
fn word(form: Form) -> &'static [u8]
    ensures { result.now ≡ word_of form }
{
    match form {
        Form::Replace => b"replace",
        Form::And => b"and",
        Form::Or => b"or",
        Form::Guard => b"guard",
    }
}

/// Appends the digits of the number.
fn put_number(text: &mut Vec<u8>, n: usize) -> Result<(), NoMemory>
    ensures { OnOk result (text.new.items ≡ text.old.items ++ decimal n) }
{
    let mut buffer = Buffer::new();
    text.extend_from_slice(buffer.format(n).as_bytes())
}

/// Appends the place: its line, its column and its length.
fn put_place(text: &mut Vec<u8>, source: &[u8], at: Span) -> Result<(), NoMemory>
    ensures { OnOk result (text.new.items ≡ text.old.items ++ place_of source.now at) }
{
    let (line, column) = line_and_column(source, at.from);
    put_number(text, line)?;
    text.extend_from_slice(b":")?;
    put_number(text, column)?;
    text.extend_from_slice(b"+")?;
    put_number(text, at.to.saturating_sub(at.from) as usize)
}

/// The line of a change of the text of this span: where it is, what it costs, its form, and the new
/// expression or bound in parentheses. A span that begins after the source's end has the line and
/// the column of the end.
///
/// # Errors
///
/// `NoMemory` where memory runs out.
pub fn edit_line(
    alloc: Global,
    source: &[u8],
    at: Span,
    cost: u8,
    form: Form,
    e: &Expr,
) -> Result<Text, NoMemory>
    ensures { IfOk result (λ text. text ≡ line_of_edit source.now at cost form (tree e.now)) }
{
    let mut text = Vec::new(alloc);
    put_place(&mut text, source, at)?;
    text.extend_from_slice(b" cost ")?;
    put_number(&mut text, cost as usize)?;
    text.extend_from_slice(b" ")?;
    text.extend_from_slice(word(form))?;
    text.extend_from_slice(b" ")?;
    put_parenthesized(&mut text, e)?;
    text.extend_from_slice(b"\n")?;
    Ok(Text::new(text))
}
