//! The scanner: what stands at the start of a text.

ghost use Rattle.std.specs.Prelude.{◌≡◌, ◌≢◌, ℕ, ◌+◌, ◌<◌, ◌≤◌, ◌^◌, ◌++◌, Bool, true, false, List, length, take, slice_index, Ok, IfNone, IfSome, IfOk, MatchOption};
ghost use Rattle.std.specs.Char.{is_ascii_digit as begins_number};
ghost use Rattle.c_lex.specs.declared.scan.Scanned.TheVariants as scanned;
ghost use Rattle.c_lex.specs.declared.token.Punct.{Punct as PunctKind};
ghost use Rattle.c_lex.specs.declared.token.TokenKind.TheVariants as kind;
ghost use Rattle.c_lex.specs.declared.opening.Opening.TheVariants as begin;
ghost use Rattle.c_lex.specs.Bytes.{is_letter as begins_word};
ghost use Rattle.c_lex.specs.Constants.{is_quoted, single_quote, double_quote};
ghost use Rattle.c_lex.specs.Openings as openings;
ghost use Rattle.c_lex.specs.Spellings.{punct_spelling};
ghost use Rattle.c_lex.specs.Reading.{Knows, Finds, FindsAt, FindsKnowing, IsPunctuator, NoPiece};
ghost use Rattle.c_lex.specs.Tokens.{Macros, IsWord, IsNumber, IsCharacter, IsText, Stands};

use crate::character::character;
use crate::constant::{Constant, constant_of};
use crate::directive::read_directive;
use crate::fault::LexFault;
use crate::literal::{characters, literal_len};
use crate::macros::MacroMap;
use crate::opening::{Opening, opening_of};
use crate::piece::{Run, run_len};
use crate::spelling::{keyword, punctuator};
use crate::target::{comment_end, line_end};
use crate::token::{Punct, TokenKind};
use c_tree::Text;
use std::alloc::{AllocError, Global};

/// What stands at the start of a text, and how many bytes it has.
#[derive(Drop)]
pub enum Scanned {
    /// White space, a comment or an `#include`.
    Pass(usize),
    /// A `#define` of a macro.
    Define { name: Text, value: i64, len: usize },
    /// A token.
    Take { kind: TokenKind, len: usize },
}

// The token of an identifier.
fn word_kind(alloc: Global, macros: &MacroMap, word: &[u8]) -> Result<TokenKind, AllocError>
    ensures { IfOk result (λ kind. (m : Macros) → Knows macros.now m → IsWord m word.now kind) }
{
    if let Some(keyword) = keyword(word) {
        return Ok(TokenKind::Word(keyword));
    }
    let spelling = Text::new(word.to_vec(alloc)?);
    match macros.value(word) {
        Some(value) => Ok(TokenKind::Const {
            value,
            word: spelling,
        }),
        None => Ok(TokenKind::Name(spelling)),
    }
}

// What stands at a letter.
fn word(alloc: Global, macros: &MacroMap, text: &[u8]) -> Result<Scanned, LexFault>
    requires some { 0 < length text.now }
    requires letter { begins_word (slice_index text.now 0) ≡ true }
    ensures { Finds
        (λ r. (m : Macros) (at : ℕ) (begun : Bool) → Knows macros.now m
        → Stands m at text.now begun begin.Letter r) result }
{
    let len = run_len(Run::Word, text);
    let kind = word_kind(alloc, macros, &text[..len])?;
    Ok(Scanned::Take { kind, len })
}

// A constant with its value and its spelling.
fn constant_token(alloc: Global, value: i64, word: &[u8]) -> Result<Scanned, LexFault>
    ensures { Finds
        (λ r. r ≡ Ok (scanned.Take (kind.Const value word.now) (length word.now))) result }
{
    let spelling = word.to_vec(alloc)?;
    Ok(Scanned::Take {
        kind: TokenKind::Const {
            value,
            word: Text::new(spelling),
        },
        len: word.len(),
    })
}

// What a number is.
fn number_kind(alloc: Global, at: usize, word: &[u8]) -> Result<Scanned, LexFault>
    requires { at < 2 ^ 32 }
    ensures { Finds (IsNumber at word.now) result }
{
    match constant_of(word) {
        Constant::Value(value) => constant_token(alloc, value, word),
        Constant::TooLarge => Err(LexFault::ConstantTooLarge(at as u32)),
        Constant::Bad => Err(LexFault::BadConstant(at as u32)),
    }
}

// What stands at a digit.
fn number(alloc: Global, at: usize, text: &[u8]) -> Result<Scanned, LexFault>
    requires places { at < 2 ^ 32 }
    requires some { 0 < length text.now }
    requires digit { begins_number (slice_index text.now 0) ≡ true }
    ensures { FindsAt at text.now begin.Digit result }
{
    let len = run_len(Run::Number, text);
    number_kind(alloc, at, &text[..len])
}

// What a whole character constant is.
fn character_kind(alloc: Global, at: usize, word: &[u8]) -> Result<Scanned, LexFault>
    requires places { at < 2 ^ 32 }
    requires quoted { is_quoted single_quote word.now ≡ true }
    ensures { Finds (IsCharacter at word.now) result }
{
    match character(word) {
        Some(value) => constant_token(alloc, value, word),
        None => Err(LexFault::BadConstant(at as u32)),
    }
}

// What stands at a `'`.
fn character_literal(alloc: Global, at: usize, text: &[u8]) -> Result<Scanned, LexFault>
    requires places { at < 2 ^ 32 }
    requires some { 0 < length text.now }
    requires quote { slice_index text.now 0 ≡ single_quote }
    ensures { FindsAt at text.now begin.Character result }
{
    match literal_len(b'\'', text) {
        Some(len) => character_kind(alloc, at, &text[..len]),
        None => Err(LexFault::OpenLiteral(at as u32)),
    }
}

// What a whole string literal is.
fn text_kind(alloc: Global, at: usize, word: &[u8]) -> Result<Scanned, LexFault>
    requires places { at < 2 ^ 32 }
    requires quoted { is_quoted double_quote word.now ≡ true }
    ensures { Finds (IsText at word.now) result }
{
    let found = characters(alloc, word)?;
    match found {
        Some(values) => Ok(Scanned::Take {
            kind: TokenKind::Str(Text::new(values)),
            len: word.len(),
        }),
        None => Err(LexFault::BadConstant(at as u32)),
    }
}

// What stands at a `"`.
fn string_literal(alloc: Global, at: usize, text: &[u8]) -> Result<Scanned, LexFault>
    requires places { at < 2 ^ 32 }
    requires some { 0 < length text.now }
    requires quote { slice_index text.now 0 ≡ double_quote }
    ensures { FindsAt at text.now begin.Text result }
{
    match literal_len(b'"', text) {
        Some(len) => text_kind(alloc, at, &text[..len]),
        None => Err(LexFault::OpenLiteral(at as u32)),
    }
}

// The punctuator of that length at the start, if any.
fn punctuator_of(text: &[u8], len: usize) -> Option<Punct>
    ensures none { IfNone result ((p : PunctKind) (rest : List ℕ)
        → text.now ≡ punct_spelling p ++ rest → length (punct_spelling p) ≢ len) }
    ensures some { IfSome result (λ p.
        (len ≤ length text.now) × (take len text.now ≡ punct_spelling p)) }
{
    if len > text.len() {
        return None;
    }
    punctuator(&text[..len])
}

// The punctuator at the start, and how many bytes it has.
fn longest_punctuator(text: &[u8]) -> Option<(Punct, usize)>
    requires no_word { begins_word (slice_index text.now 0) ≡ false }
    requires no_number { begins_number (slice_index text.now 0) ≡ false }
    ensures { MatchOption result (NoPiece text.now)
        (λ found. IsPunctuator text.now found.0 found.1) }
{
    if let Some(punct) = punctuator_of(text, 3) {
        return Some((punct, 3));
    }
    if let Some(punct) = punctuator_of(text, 2) {
        return Some((punct, 2));
    }
    match punctuator_of(text, 1) {
        Some(punct) => Some((punct, 1)),
        None => None,
    }
}

// What stands where no identifier, number, literal, comment or digraph begins.
fn operator(at: usize, text: &[u8]) -> Result<Scanned, LexFault>
    requires places { at < 2 ^ 32 }
    requires no_word { begins_word (slice_index text.now 0) ≡ false }
    requires no_number { begins_number (slice_index text.now 0) ≡ false }
    ensures { FindsAt at text.now begin.Other result }
{
    match longest_punctuator(text) {
        Some((punct, len)) => Ok(Scanned::Take {
            kind: TokenKind::Punct(punct),
            len,
        }),
        None => Err(LexFault::StrayByte(at as u32)),
    }
}

// The comment at the start.
fn comment(at: usize, text: &[u8]) -> Result<Scanned, LexFault>
    requires places { at < 2 ^ 32 }
    requires two { 2 ≤ length text.now }
    ensures { FindsAt at text.now begin.BlockComment result }
{
    match comment_end(text) {
        Some(len) => Ok(Scanned::Pass(len + 4)),
        None => Err(LexFault::OpenComment(at as u32)),
    }
}

fn line_comment(text: &[u8]) -> Scanned
    ensures { (m : Macros) (at : ℕ) (begun : Bool)
        → Stands m at text.now begun begin.LineComment (Ok result) }
{
    Scanned::Pass(line_end(text))
}

// What stands at a `#`.
fn hash(
    alloc: Global,
    macros: &MacroMap,
    begun: bool,
    at: usize,
    text: &[u8],
) -> Result<Scanned, LexFault>
    requires places { at + length text.now < 2 ^ 32 }
    ensures { FindsKnowing macros.now (λ m. Stands m at text.now begun begin.Hash) result }
{
    if begun {
        Err(LexFault::DirectiveLate(at as u32))
    } else {
        read_directive(alloc, macros, at, text)
    }
}

/// What stands at the start of a text that isn't empty, at the place `at` of the source; `begun`
/// says that a token was read before.
///
/// # Errors
/// The fault at the start, if there is one, or `NoMemory`.
pub fn scan_at(
    alloc: Global,
    macros: &MacroMap,
    begun: bool,
    at: usize,
    text: &[u8],
) -> Result<Scanned, LexFault>
    requires some { 0 < length text.now }
    requires places { at + length text.now < 2 ^ 32 }
    ensures { FindsKnowing macros.now
        (λ m. Stands m at text.now begun (openings.opening_of text.now)) result }
{
    match opening_of(text) {
        Opening::Space => Ok(Scanned::Pass(1)),
        Opening::LineComment => Ok(line_comment(text)),
        Opening::BlockComment => comment(at, text),
        Opening::Hash => hash(alloc, macros, begun, at, text),
        Opening::Letter => word(alloc, macros, text),
        Opening::Digit => number(alloc, at, text),
        Opening::Character => character_literal(alloc, at, text),
        Opening::Text => string_literal(alloc, at, text),
        Opening::Digraph => Err(LexFault::Digraph(at as u32)),
        Opening::Other => operator(at, text),
    }
}
