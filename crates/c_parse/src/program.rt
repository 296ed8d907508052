//! The parser of whole programs: declarations, prototypes and definitions of functions (C11 6.9).

ghost use Rattle.std.specs.Prelude.{◌≡◌, List, IfOk, IfErr};
ghost use Rattle.c_lex.specs.Lexemes.{Rise};
ghost use Rattle.c_tree.specs.Order.{ProgramIn};
ghost use Rattle.c_tree.specs.Tree as plain;
ghost use Rattle.c_tree.specs.Views.{outer, program as program_tree};
ghost use Rattle.c_grammar.specs.Grammar.{Tokens};
ghost use Rattle.c_grammar.specs.Programs.{Derives, max_nesting};
ghost use Rattle.c_grammar.specs.Terminals as terminals;
ghost use Rattle.c_grammar.specs.ProgramDescent as spec;
ghost use Rattle.c_grammar.specs.BegunNesting.{Passes};
ghost use Rattle.c_grammar.specs.Judge.{good, unexpected_at, too_deep_at, Judged, judge};
ghost use Rattle.c_parse.specs.Gives as seen;
ghost use Rattle.c_parse.specs.Gives.{Parses, itself};
ghost use Rattle.c_parse.specs.Parts as parts;
ghost use Rattle.c_parse.specs.Results.{IsFirstFault, IsPlaced, MatchesVerdict, place_of};

use crate::cursor::{Cursor, span_over};
use crate::declaration::{parse_brackets, parse_declaration};
use crate::fault::{ParseFault, Stop};
use crate::statement::parse_block_items;
use crate::tree::{function_definition, parameter, prototype};
use c_grammar::Terminal;
use c_lex::Token;
use c_tree::{External, Item, Param, Program, Span, Text, Ty};
use std::alloc::Global;

// How many openers may be open at a token of a program.
const MAX_NESTING: u8 = 64;

// Parses a parameter.
fn parse_parameter(alloc: Global, cursor: &mut Cursor<'_>) -> Result<Param, Stop>
    ensures { Parses itself spec.param cursor.old result cursor.new }
{
    let ty = cursor.expect_type()?;
    let (word, at) = cursor.expect_name(alloc)?;
    if cursor.is_at_open_bracket() {
        let (_, to) = parse_brackets(alloc, cursor)?;
        Ok(parameter(word, span_over(at, to), ty, true))
    } else {
        Ok(parameter(word, at, ty, false))
    }
}

// Parses one parameter, or more with commas between them.
fn parse_parameter_list(alloc: Global, cursor: &mut Cursor<'_>) -> Result<Vec<Param>, Stop>
    ensures { Parses seen.params (parts.comma_list terminals.never spec.param)
        cursor.old result cursor.new }
{
    let room = cursor.room;
    let mut params = Vec::new(alloc);
    for _turn in 0..cursor.rest.len() + 1 {
        cursor.room = room;
        let next = parse_parameter(alloc, cursor)?;
        params.push(next)?;
        if !cursor.is_at_comma() {
            return Ok(params);
        }
        cursor.advance()?;
    }
    Err(Stop::Unexpected)
}

// Parses the parameters of a function, of which there may be none.
fn parse_parameters(alloc: Global, cursor: &mut Cursor<'_>) -> Result<Vec<Param>, Stop>
    ensures { Parses seen.params spec.params cursor.old result cursor.new }
{
    match cursor.peek() {
        Terminal::CloseParen => Ok(Vec::new(alloc)),
        Terminal::Void => {
            cursor.advance()?;
            Ok(Vec::new(alloc))
        }
        _ => parse_parameter_list(alloc, cursor),
    }
}

// Parses `( parameters )` after the name of a function.
fn parse_signature(alloc: Global, cursor: &mut Cursor<'_>) -> Result<Vec<Param>, Stop>
    ensures { Parses seen.params spec.signature cursor.old result cursor.new }
{
    let outside = cursor.room;
    cursor.expect_open_paren()?;
    let params = parse_parameters(alloc, cursor)?;
    cursor.expect_close_paren(outside)?;
    Ok(params)
}

// Parses what a function returns: a type, or `void`.
fn parse_result_type(cursor: &mut Cursor<'_>) -> Result<Option<Ty>, Stop>
    ensures { Parses itself spec.result cursor.old result cursor.new }
{
    match cursor.peek_result_type() {
        Some(ret) => {
            cursor.advance()?;
            Ok(ret)
        }
        None => Err(Stop::Unexpected),
    }
}

// Parses the body of a function: the items between its braces, and the span of the `}`.
fn parse_body(alloc: Global, cursor: &mut Cursor<'_>) -> Result<(Vec<Item>, Span), Stop>
    ensures { Parses seen.closed_body spec.body cursor.old result cursor.new }
{
    let outside = cursor.room;
    cursor.expect_open_brace()?;
    let items = parse_block_items(alloc, cursor, outside)?;
    let to = cursor.expect_close_brace(outside)?;
    Ok((items, to))
}

// Parses a prototype or a definition of a function.
fn parse_function(alloc: Global, cursor: &mut Cursor<'_>) -> Result<External, Stop>
    ensures { Parses outer spec.func cursor.old result cursor.new }
{
    let ret = parse_result_type(cursor)?;
    let (word, at) = cursor.expect_name(alloc)?;
    let params = parse_signature(alloc, cursor)?;
    if cursor.is_at_semicolon() {
        let to = cursor.advance()?;
        Ok(prototype(word, span_over(at, to), ret, params))
    } else {
        let (items, to) = parse_body(alloc, cursor)?;
        Ok(function_definition(word, span_over(at, to), ret, params, items))
    }
}

// Parses an external declaration: variables, a prototype or a function.
fn parse_external(alloc: Global, cursor: &mut Cursor<'_>) -> Result<External, Stop>
    ensures { Parses outer spec.external cursor.old result cursor.new }
{
    if cursor.is_at_function() {
        return parse_function(alloc, cursor);
    }
    let (ty, variables) = parse_declaration(alloc, cursor)?;
    Ok(External::Vars(ty, variables))
}

// Parses external declarations up to the end of the tokens.
fn parse_externals(alloc: Global, cursor: &mut Cursor<'_>) -> Result<Vec<External>, Stop>
    ensures { Parses seen.outers spec.program cursor.old result cursor.new }
{
    let mut externals = Vec::new(alloc);
    for _turn in 0..cursor.rest.len() + 1 {
        let next = parse_external(alloc, cursor)?;
        externals.push(next)?;
        if cursor.is_at_end() {
            return Ok(externals);
        }
    }
    Err(Stop::Unexpected)
}

// Parses a whole program: its tree, or the first fault of the tokens.
fn parse_program(alloc: Global, tokens: &[Token], end: u32) -> Result<Program, ParseFault>
    ensures { MatchesVerdict end (judge max_nesting tokens.now) result }
{
    let mut cursor = Cursor {
        rest: tokens,
        room: MAX_NESTING,
    };
    match parse_externals(alloc, &mut cursor) {
        Ok(externals) => Ok(Program { externals }),
        Err(Stop::Unexpected) => Err(ParseFault::Unexpected(fault_place(&cursor, end))),
        Err(Stop::TooDeep) => Err(ParseFault::TooDeep(fault_place(&cursor, end))),
        Err(Stop::NoMemory) => Err(ParseFault::NoMemory),
    }
}

// Where the next token begins; at the end of the tokens, where their source ends.
fn fault_place(cursor: &Cursor<'_>, end: u32) -> u32
    ensures { result ≡ place_of end cursor.now.rest.now }
{
    match cursor.rest {
        [] => end,
        [token, ..] => token.span.from,
    }
}

/// The one tree of the tokens. `end` is the length of their source. Where the tokens rise in it, the
/// parts of the tree stand in text order.
///
/// # Errors
/// `Unexpected` at the first token with which, or with the end of the tokens, nothing is a program;
/// `TooDeep` at the first token at which the nesting is 65; `NoMemory` where the allocator has no
/// memory left.
pub fn parse(alloc: Global, tokens: &[Token], end: u32) -> Result<Program, ParseFault>
    ensures derived { IfOk result (λ p. Derives max_nesting tokens.now (program_tree p)) }
    ensures ordered { IfOk result (λ p. Rise 0 end tokens.now → ProgramIn 0 end (program_tree p)) }
    ensures refused { IfErr result (λ e. IsFirstFault end tokens.now e) }
    ensures accepts { (p : List plain.Outer) → Derives max_nesting tokens.now p
        → MatchesVerdict end (good p) result }
    ensures expects { (b : Tokens) → Judged max_nesting tokens.now (unexpected_at b)
        → MatchesVerdict end (unexpected_at b) result }
    ensures nests { (b : Tokens) → Passes max_nesting tokens.now b
        → MatchesVerdict end (too_deep_at b) result }
    ensures placed { Rise 0 end tokens.now → IfErr result (IsPlaced end) }
{
    parse_program(alloc, tokens, end)
}
