//! The text of a directive.

ghost use Rattle.std.specs.Prelude.{◌≡◌, ◌≢◌, ℕ, ◌+◌, ◌<◌, ◌≤◌, ◌^◌, ◌++◌, length, Ok, Err, OnOk, IfOk, IfErr};
ghost use Rattle.c_lex.specs.Directives.{HasLine, spaces};
ghost use Rattle.c_lex.specs.declared.fault.LexFault.TheVariants as fault;

use crate::fault::LexFault;
use crate::opening::{LinePart, line_part};
use crate::target::{comment_end, line_end};
use std::alloc::{AllocError, Global};

// Appends so many spaces to a line.
fn push_spaces(line: &mut Vec<u8>, count: usize) -> Result<(), AllocError>
    ensures { OnOk result (line.new.items ≡ line.old.items ++ spaces count) }
{
    for _ in 0..count {
        line.push(b' ')?;
    }
    Ok(())
}

/// The text of the directive at the start: to before the first line feed outside a comment, or to
/// the end, with spaces for the bytes of comments. The text stands at the place `at` of the source.
///
/// # Errors
/// `OpenComment` where a comment in it isn't closed, at that comment.
pub fn directive_line(alloc: Global, at: usize, text: &[u8]) -> Result<Vec<u8>, LexFault>
    requires { at + length text.now < 2 ^ 32 }
    ensures ok { IfOk result (λ line. HasLine text.now (Ok line.items)) }
    ensures err { IfErr result (λ f. f ≢ fault.NoMemory
        → (place : ℕ) × HasLine text.now (Err place) × (f ≡ fault.OpenComment (at + place))) }
{
    let mut line = Vec::new(alloc);
    let mut place = 0;
    while place < text.len() {
        let rest = &text[place..];
        match line_part(rest) {
            LinePart::End => return Ok(line),
            LinePart::LineComment => {
                push_spaces(&mut line, line_end(rest))?;
                return Ok(line);
            }
            LinePart::BlockComment => match comment_end(rest) {
                None => return Err(LexFault::OpenComment((at + place) as u32)),
                Some(len) => {
                    push_spaces(&mut line, len + 4)?;
                    place += len + 4;
                }
            },
            LinePart::Byte => {
                line.push(rest[0])?;
                place += 1;
            }
        }
    }
    Ok(line)
}
