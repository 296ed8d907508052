//! The parser of declarations of variables (C11 6.7).

ghost use Rattle.c_tree.specs.Views.{variable};
ghost use Rattle.c_grammar.specs.declared.nonterminal.Nonterminal.TheVariants.{Assignment};
ghost use Rattle.c_grammar.specs.Terminals as terminals;
ghost use Rattle.c_grammar.specs.ProgramDescent as spec;
ghost use Rattle.c_parse.specs.Gives as seen;
ghost use Rattle.c_parse.specs.Gives.{Parses, itself};
ghost use Rattle.c_parse.specs.Parts as parts;

use crate::cursor::{Cursor, span_over};
use crate::expression::parse_expression;
use crate::fault::Stop;
use crate::tree::declarator;
use c_grammar::Nonterminal;
use c_tree::{Declarator, Expr, Shape, Span, Start, Text, Ty};
use std::alloc::Global;

// Parses the length of an array, where one is written.
fn parse_array_length(alloc: Global, cursor: &mut Cursor<'_>) -> Result<Option<i64>, Stop>
    ensures { Parses itself parts.array_length cursor.old result cursor.new }
{
    if cursor.is_at_constant() {
        let (value, _, _) = cursor.expect_constant(alloc)?;
        Ok(Some(value))
    } else {
        Ok(None)
    }
}

/// Parses the brackets after an array's name: the length in them, and the span of the `]`.
pub fn parse_brackets(alloc: Global, cursor: &mut Cursor<'_>) -> Result<(Option<i64>, Span), Stop>
    ensures { Parses itself spec.bracketed cursor.old result cursor.new }
{
    let outside = cursor.room;
    cursor.open()?;
    let length = parse_array_length(alloc, cursor)?;
    let to = cursor.expect_close_bracket(outside)?;
    Ok((length, to))
}

// Parses the elements of an initializer list, with commas between them, up to its `}`.
fn parse_initializer_list(alloc: Global, cursor: &mut Cursor<'_>) -> Result<Vec<Expr>, Stop>
    ensures { Parses seen.elements
        (parts.comma_list terminals.is_close_brace (spec.value Assignment))
        cursor.old result cursor.new }
{
    let room = cursor.room;
    let mut elements = Vec::new(alloc);
    for _turn in 0..cursor.rest.len() + 1 {
        cursor.room = room;
        let next = parse_expression(alloc, cursor, Nonterminal::Assignment)?;
        elements.push(next)?;
        if !cursor.is_at_comma() {
            return Ok(elements);
        }
        cursor.advance()?;
        if cursor.is_at_close_brace() {
            return Ok(elements);
        }
    }
    Err(Stop::Unexpected)
}

// Parses `{ elements }`.
fn parse_braced_initializer(alloc: Global, cursor: &mut Cursor<'_>) -> Result<Vec<Expr>, Stop>
    ensures { Parses seen.elements spec.elements cursor.old result cursor.new }
{
    let outside = cursor.room;
    cursor.expect_open_brace()?;
    let elements = parse_initializer_list(alloc, cursor)?;
    cursor.expect_close_brace(outside)?;
    Ok(elements)
}

// Parses what comes after an array's name.
fn parse_array_rest(
    alloc: Global,
    cursor: &mut Cursor<'_>,
    word: Text,
    at: Span,
) -> Result<Declarator, Stop>
    ensures { Parses variable (spec.array (word, at)) cursor.old result cursor.new }
{
    let (length, to) = parse_brackets(alloc, cursor)?;
    let shape = Shape::Array(length);
    if !cursor.is_at_assign() {
        return Ok(declarator(word, span_over(at, to), shape, Start::Bare));
    }
    cursor.advance()?;
    let elements = parse_braced_initializer(alloc, cursor)?;
    Ok(declarator(word, span_over(at, to), shape, Start::List(elements)))
}

// Parses what comes after the name of a variable that is one number.
fn parse_scalar_rest(
    alloc: Global,
    cursor: &mut Cursor<'_>,
    word: Text,
    at: Span,
) -> Result<Declarator, Stop>
    ensures { Parses variable (parts.scalar (word, at)) cursor.old result cursor.new }
{
    if !cursor.is_at_assign() {
        return Ok(declarator(word, at, Shape::Scalar, Start::Bare));
    }
    cursor.advance()?;
    let value = parse_expression(alloc, cursor, Nonterminal::Assignment)?;
    Ok(declarator(word, at, Shape::Scalar, Start::One(value)))
}

// Parses a declared variable, with its initializer where it has one.
fn parse_declarator(alloc: Global, cursor: &mut Cursor<'_>) -> Result<Declarator, Stop>
    ensures { Parses variable spec.declarator cursor.old result cursor.new }
{
    let (word, at) = cursor.expect_name(alloc)?;
    if cursor.is_at_open_bracket() {
        parse_array_rest(alloc, cursor, word, at)
    } else {
        parse_scalar_rest(alloc, cursor, word, at)
    }
}

// Parses one declared variable, or more with commas between them.
fn parse_declarator_list(alloc: Global, cursor: &mut Cursor<'_>) -> Result<Vec<Declarator>, Stop>
    ensures { Parses seen.declared spec.declarators cursor.old result cursor.new }
{
    let room = cursor.room;
    let mut variables = Vec::new(alloc);
    for _turn in 0..cursor.rest.len() + 1 {
        cursor.room = room;
        let next = parse_declarator(alloc, cursor)?;
        variables.push(next)?;
        if !cursor.is_at_comma() {
            return Ok(variables);
        }
        cursor.advance()?;
    }
    Err(Stop::Unexpected)
}

/// Parses a declaration of variables: a type, the variables and `;`.
pub fn parse_declaration(
    alloc: Global,
    cursor: &mut Cursor<'_>,
) -> Result<(Ty, Vec<Declarator>), Stop>
    ensures { Parses seen.typed spec.vars cursor.old result cursor.new }
{
    let ty = cursor.expect_type()?;
    let variables = parse_declarator_list(alloc, cursor)?;
    cursor.expect_semicolon()?;
    Ok((ty, variables))
}
