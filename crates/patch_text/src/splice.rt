//! A source with the text of a patch put in place of a part.

ghost use Rattle.std.specs.Prelude.{◌≡◌, take, drop, IfOk};
ghost use Rattle.c_tree.specs.Views.{tree};
ghost use Rattle.patch_text.specs.Spliced.{old_text as text_of, replaced, joined, guarded};

use crate::operator::infix_text;
use crate::print::{put_expr, put_parenthesized};
use c_tree::{BinOp, Expr, NoMemory, Span};
use std::alloc::Global;

/// The source up to the span.
fn before(source: &[u8], at: Span) -> &[u8]
    ensures { result.now ≡ take at.from source.now }
{
    &source[..source.len().min(at.from as usize)]
}

/// The source after the span.
fn after(source: &[u8], at: Span) -> &[u8]
    ensures { result.now ≡ drop at.to source.now }
{
    &source[source.len().min(at.to as usize)..]
}

/// The text of the span, as far as the source has it.
fn old_text(source: &[u8], at: Span) -> &[u8]
    ensures { result.now ≡ text_of source.now at }
{
    let from = source.len().min(at.from as usize);
    let to = source.len().min(at.to as usize);
    if to <= from {
        return &source[..0];
    }
    &source[from..to]
}

/// The source with the expression, in parentheses, in place of the bytes of the span, as a patch of
/// a condition or of a right side writes it. A span that reaches past the source's end stands for
/// what the source has of it; where it ends before it begins, the bytes between stand twice.
///
/// # Errors
///
/// `NoMemory` where memory runs out.
pub fn splice_expr(alloc: Global, source: &[u8], at: Span, new: &Expr) -> Result<Vec<u8>, NoMemory>
    ensures { IfOk result (λ text. text.items ≡ replaced source.now at (tree new.now)) }
{
    let mut text = Vec::new(alloc);
    text.extend_from_slice(before(source, at))?;
    put_parenthesized(&mut text, new)?;
    text.extend_from_slice(after(source, at))?;
    Ok(text)
}

/// The source with the text of the span in parentheses, joined by the operator to the bound in
/// parentheses, as a patch of a condition writes it. A span that reaches past the source's end
/// stands for what the source has of it.
///
/// # Errors
///
/// `NoMemory` where memory runs out.
pub fn splice_joined(
    alloc: Global,
    source: &[u8],
    at: Span,
    op: BinOp,
    bound: &Expr,
) -> Result<Vec<u8>, NoMemory>
    ensures { IfOk result (λ text. text.items ≡ joined source.now at op (tree bound.now)) }
{
    let mut text = Vec::new(alloc);
    text.extend_from_slice(before(source, at))?;
    text.extend_from_slice(b"(")?;
    text.extend_from_slice(old_text(source, at))?;
    text.extend_from_slice(b")")?;
    text.extend_from_slice(infix_text(op))?;
    put_parenthesized(&mut text, bound)?;
    text.extend_from_slice(after(source, at))?;
    Ok(text)
}

/// The source with a block in place of the text of the span, in which an `if` with the test stands
/// before the text, as a patch of a statement writes it. A span that reaches past the source's end
/// stands for what the source has of it.
///
/// # Errors
///
/// `NoMemory` where memory runs out.
pub fn splice_guarded(
    alloc: Global,
    source: &[u8],
    at: Span,
    test: &Expr,
) -> Result<Vec<u8>, NoMemory>
    ensures { IfOk result (λ text. text.items ≡ guarded source.now at (tree test.now)) }
{
    let mut text = Vec::new(alloc);
    text.extend_from_slice(before(source, at))?;
    text.extend_from_slice(b"{ if (")?;
    put_expr(&mut text, test)?;
    text.extend_from_slice(b") ")?;
    text.extend_from_slice(old_text(source, at))?;
    text.extend_from_slice(b" }")?;
    text.extend_from_slice(after(source, at))?;
    Ok(text)
}
