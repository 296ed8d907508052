//! The directives of the head of a text.

ghost use Rattle.std.specs.Prelude.{◌≡◌, ◌≢◌, ℕ, pos, ◌+◌, ◌<◌, ◌≤◌, ◌^◌, false, length, Ok, Some, MatchBool};
ghost use Rattle.c_lex.specs.declared.constant.Constant.TheVariants as constant_is;
ghost use Rattle.c_lex.specs.declared.scan.Scanned.TheVariants as scanned;
ghost use Rattle.c_lex.specs.DirectiveReading as reading;
ghost use Rattle.c_lex.specs.LiteralReading.{Answers};
ghost use Rattle.c_lex.specs.Constants.{int_limit};
ghost use Rattle.c_lex.specs.Reading.{Finds, FindsKnowing};
ghost use Rattle.c_lex.specs.Tokens as spec;

use crate::constant::{Constant, constant_of};
use crate::fault::LexFault;
use crate::form::{DefineParts, define_parts, is_include, part};
use crate::line::directive_line;
use crate::macros::MacroMap;
use crate::piece::is_letter;
use crate::scan::Scanned;
use crate::spelling::keyword;
use c_tree::Text;
use std::alloc::Global;

// Whether a word begins as a name does, and is no keyword.
fn begins_name(word: &[u8]) -> bool
    ensures { MatchBool result (reading.BeginsName word.now) (reading.BeginsName word.now → ⊥) }
{
    !word.is_empty() && is_letter(word[0]) && keyword(word).is_none()
}

// The number with its sign.
fn signed(negative: bool, value: i64) -> i64
    requires { (n : ℕ) × (value ≡ pos n) × (n < int_limit) }
    ensures { (n : ℕ) → value ≡ pos n → n < int_limit → result ≡ spec.signed negative n }
{
    if negative { -value } else { value }
}

// A new macro.
fn new_macro(alloc: Global, name: &[u8], value: i64, len: usize) -> Result<Scanned, LexFault>
    ensures { Finds (λ r. r ≡ Ok (scanned.Define name.now value len)) result }
{
    let word = name.to_vec(alloc)?;
    Ok(Scanned::Define {
        name: Text::new(word),
        value,
        len,
    })
}

// The definition of a macro, whose number is that constant, or why it can't be defined.
fn define(
    alloc: Global,
    macros: &MacroMap,
    at: usize,
    line: &[u8],
    parts: DefineParts,
    number: Constant,
) -> Result<Scanned, LexFault>
    requires places { at + length line.now < 2 ^ 32 }
    requires name { parts.name_at + parts.name_len ≤ length line.now }
    requires number_at { parts.number_at ≤ length line.now }
    requires is_number { Answers (reading.definition_of line.now parts).number number }
    requires good { number ≢ constant_is.Bad }
    ensures { FindsKnowing macros.now
        (λ m. spec.Defines m at (length line.now) (reading.definition_of line.now parts)) result }
{
    let name = part(line, parts.name_at, parts.name_len);
    match macros.value(name) {
        Some(_) => Err(LexFault::MacroTwice((at + parts.name_at) as u32)),
        None => match number {
            Constant::Value(value) => new_macro(
                alloc,
                name,
                signed(parts.negative, value),
                line.len(),
            ),
            Constant::TooLarge => Err(LexFault::ConstantTooLarge((at + parts.number_at) as u32)),
            Constant::Bad => Err(LexFault::DirectiveUnknown(at as u32)),
        },
    }
}

// What a line with these parts says, whose number is that constant.
fn named(
    alloc: Global,
    macros: &MacroMap,
    at: usize,
    line: &[u8],
    parts: DefineParts,
    number: Constant,
) -> Result<Scanned, LexFault>
    requires places { at + length line.now < 2 ^ 32 }
    requires no_include { reading.is_include line.now ≡ false }
    requires is_parts { reading.parts_of line.now ≡ Some parts }
    requires name { parts.name_at + parts.name_len ≤ length line.now }
    requires number_at { parts.number_at ≤ length line.now }
    requires is_number { Answers (reading.definition_of line.now parts).number number }
    requires good { number ≢ constant_is.Bad }
    ensures { FindsKnowing macros.now (λ m. spec.Says m at line.now) result }
{
    if begins_name(part(line, parts.name_at, parts.name_len)) {
        define(alloc, macros, at, line, parts, number)
    } else {
        Err(LexFault::DirectiveUnknown(at as u32))
    }
}

// What a line with these parts says.
fn defines(
    alloc: Global,
    macros: &MacroMap,
    at: usize,
    line: &[u8],
    parts: DefineParts,
) -> Result<Scanned, LexFault>
    requires places { at + length line.now < 2 ^ 32 }
    requires no_include { reading.is_include line.now ≡ false }
    requires is_parts { reading.parts_of line.now ≡ Some parts }
    requires name { parts.name_at + parts.name_len ≤ length line.now }
    requires number { parts.number_at + parts.number_len ≤ length line.now }
    ensures { FindsKnowing macros.now (λ m. spec.Says m at line.now) result }
{
    match constant_of(part(line, parts.number_at, parts.number_len)) {
        Constant::Bad => Err(LexFault::DirectiveUnknown(at as u32)),
        number => named(alloc, macros, at, line, parts, number),
    }
}

// What the text of a directive says.
fn says(alloc: Global, macros: &MacroMap, at: usize, line: &[u8]) -> Result<Scanned, LexFault>
    requires places { at + length line.now < 2 ^ 32 }
    ensures { FindsKnowing macros.now (λ m. spec.Says m at line.now) result }
{
    if is_include(line) {
        return Ok(Scanned::Pass(line.len()));
    }
    match define_parts(line) {
        Some(parts) => defines(alloc, macros, at, line, parts),
        None => Err(LexFault::DirectiveUnknown(at as u32)),
    }
}

/// What the directive at the start of the text is, which stands at the place `at` of the source.
///
/// # Errors
/// The fault of the directive, if it has one, or `NoMemory`.
pub fn read_directive(
    alloc: Global,
    macros: &MacroMap,
    at: usize,
    text: &[u8],
) -> Result<Scanned, LexFault>
    requires { at + length text.now < 2 ^ 32 }
    ensures { FindsKnowing macros.now (λ m. spec.IsDirective m at text.now) result }
{
    let line = directive_line(alloc, at, text)?;
    says(alloc, macros, at, &line)
}
