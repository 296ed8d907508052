//! The parser of statements and blocks (C11 6.8).

ghost use Rattle.c_tree.specs.Views.{tree, tree_option, first, code};
ghost use Rattle.c_grammar.specs.ProgramDescent as spec;
ghost use Rattle.c_parse.specs.Gives as seen;
ghost use Rattle.c_parse.specs.Gives.{Parses};
ghost use Rattle.c_parse.specs.Parts as parts;

use crate::cursor::{Cursor, span_over};
use crate::declaration::parse_declaration;
use crate::expression::parse_expression;
use crate::fault::Stop;
use crate::tree::{
    block_stmt, boxed_stmt, do_stmt, expr_stmt, for_stmt, if_else_stmt, if_stmt, return_stmt,
    while_stmt,
};
use c_grammar::{Nonterminal, Terminal};
use c_tree::{Expr, Init, Item, Span, Stmt, StmtNode};
use std::alloc::Global;

// Parses `( expression )`, the condition of a statement.
fn parse_condition(alloc: Global, cursor: &mut Cursor<'_>) -> Result<Expr, Stop>
    ensures { Parses tree spec.tested cursor.old result cursor.new }
{
    let outside = cursor.room;
    cursor.expect_open_paren()?;
    let test = parse_expression(alloc, cursor, Nonterminal::Expression)?;
    cursor.expect_close_paren(outside)?;
    Ok(test)
}

// Parses an expression, unless it is absent.
fn parse_optional_expression(
    alloc: Global,
    cursor: &mut Cursor<'_>,
    absent: bool,
) -> Result<Option<Expr>, Stop>
    ensures { Parses tree_option (spec.optional_by absent) cursor.old result cursor.new }
{
    if absent {
        return Ok(None);
    }
    let tree = parse_expression(alloc, cursor, Nonterminal::Expression)?;
    Ok(Some(tree))
}

// Parses `expression ;` as the first clause of a `for`.
fn parse_for_expression(alloc: Global, cursor: &mut Cursor<'_>) -> Result<Init, Stop>
    ensures { Parses first spec.first_act cursor.old result cursor.new }
{
    let tree = parse_expression(alloc, cursor, Nonterminal::Expression)?;
    cursor.expect_semicolon()?;
    Ok(Init::Act(tree))
}

// Parses the first clause of a `for`, with its `;`.
fn parse_for_init(alloc: Global, cursor: &mut Cursor<'_>) -> Result<Init, Stop>
    ensures { Parses first spec.clause cursor.old result cursor.new }
{
    match cursor.peek() {
        Terminal::Semicolon => {
            cursor.advance()?;
            Ok(Init::Empty)
        }
        Terminal::Type(_) => {
            let (ty, variables) = parse_declaration(alloc, cursor)?;
            Ok(Init::Vars(ty, variables))
        }
        _ => parse_for_expression(alloc, cursor),
    }
}

// Parses the condition of a `for`, with its `;`.
fn parse_for_test(alloc: Global, cursor: &mut Cursor<'_>) -> Result<Option<Expr>, Stop>
    ensures { Parses tree_option parts.for_test cursor.old result cursor.new }
{
    let always = cursor.is_at_semicolon();
    let test = parse_optional_expression(alloc, cursor, always)?;
    cursor.expect_semicolon()?;
    Ok(test)
}

// Parses the step of a `for`, with the `)` after it, outside of which there is that room.
fn parse_for_step(alloc: Global, cursor: &mut Cursor<'_>, outside: u8) -> Result<Option<Expr>, Stop>
    ensures { Parses tree_option (parts.for_step outside) cursor.old result cursor.new }
{
    let no_step = cursor.is_at_close_paren();
    let step = parse_optional_expression(alloc, cursor, no_step)?;
    cursor.expect_close_paren(outside)?;
    Ok(step)
}

// Parses the clauses of a `for`, with their parentheses.
fn parse_for_clauses(
    alloc: Global,
    cursor: &mut Cursor<'_>,
) -> Result<(Init, Option<Expr>, Option<Expr>), Stop>
    ensures { Parses seen.clauses spec.clauses cursor.old result cursor.new }
{
    let outside = cursor.room;
    cursor.expect_open_paren()?;
    let init = parse_for_init(alloc, cursor)?;
    let test = parse_for_test(alloc, cursor)?;
    let step = parse_for_step(alloc, cursor, outside)?;
    Ok((init, test, step))
}

// Parses `expression ;`.
fn parse_expression_statement(alloc: Global, cursor: &mut Cursor<'_>) -> Result<Stmt, Stop>
    ensures { Parses code spec.act cursor.old result cursor.new }
{
    let tree = parse_expression(alloc, cursor, Nonterminal::Expression)?;
    let to = cursor.expect_semicolon()?;
    Ok(expr_stmt(tree, to))
}

// Parses `return`, a value or none, and `;`.
fn parse_return(alloc: Global, cursor: &mut Cursor<'_>) -> Result<Stmt, Stop>
    ensures { Parses code spec.give cursor.old result cursor.new }
{
    let from = cursor.advance()?;
    let bare = cursor.is_at_semicolon();
    let value = parse_optional_expression(alloc, cursor, bare)?;
    let to = cursor.expect_semicolon()?;
    Ok(return_stmt(value, span_over(from, to)))
}

// Parses `break ;`.
fn parse_break(cursor: &mut Cursor<'_>) -> Result<Stmt, Stop>
    ensures { Parses code spec.break cursor.old result cursor.new }
{
    let from = cursor.advance()?;
    let to = cursor.expect_semicolon()?;
    Ok(Stmt {
        node: StmtNode::Break,
        span: span_over(from, to),
    })
}

// Parses `continue ;`.
fn parse_continue(cursor: &mut Cursor<'_>) -> Result<Stmt, Stop>
    ensures { Parses code spec.continue cursor.old result cursor.new }
{
    let from = cursor.advance()?;
    let to = cursor.expect_semicolon()?;
    Ok(Stmt {
        node: StmtNode::Continue,
        span: span_over(from, to),
    })
}

// Parses `;`, the empty statement.
fn parse_empty(cursor: &mut Cursor<'_>) -> Result<Stmt, Stop>
    ensures { Parses code spec.empty cursor.old result cursor.new }
{
    let span = cursor.advance()?;
    Ok(Stmt {
        node: StmtNode::Empty,
        span,
    })
}

// Parses a statement inside another one: the room for it is one less than the room outside.
#[cycle(statement)]
fn parse_inner_statement(alloc: Global, cursor: &mut Cursor<'_>, outside: u8) -> Result<Stmt, Stop>
    ensures { Parses code (parts.inner outside) cursor.old result cursor.new }
{
    if outside == 0 {
        return Err(Stop::TooDeep);
    }
    cursor.room = outside - 1;
    parse_statement(alloc, cursor)
}

// Parses a statement inside another one, outside of which there is that room, into a box.
#[cycle(statement)]
fn parse_boxed_statement(
    alloc: Global,
    cursor: &mut Cursor<'_>,
    outside: u8,
) -> Result<Box<Stmt>, Stop>
    ensures { Parses seen.boxed (parts.inner outside) cursor.old result cursor.new }
{
    let statement = parse_inner_statement(alloc, cursor, outside)?;
    Ok(boxed_stmt(alloc, statement)?)
}

// Parses an item of a block, outside of whose braces there is that room.
#[cycle(statement)]
fn parse_block_item(alloc: Global, cursor: &mut Cursor<'_>, outside: u8) -> Result<Item, Stop>
    ensures { Parses seen.alone (spec.item (spec.under outside)) cursor.old result cursor.new }
{
    match cursor.peek() {
        Terminal::Type(_) => {
            let (ty, variables) = parse_declaration(alloc, cursor)?;
            Ok(Item::Vars(ty, variables))
        }
        _ => Ok(Item::Stmt(parse_inner_statement(alloc, cursor, outside)?)),
    }
}

/// Parses the items of a block, up to its `}`, outside of whose braces there is that room.
#[cycle(statement)]
pub fn parse_block_items(
    alloc: Global,
    cursor: &mut Cursor<'_>,
    outside: u8,
) -> Result<Vec<Item>, Stop>
    ensures { Parses seen.body (spec.items (spec.under outside)) cursor.old result cursor.new }
{
    let room = cursor.room;
    let mut items = Vec::new(alloc);
    for _turn in 0..cursor.rest.len() + 1 {
        cursor.room = room;
        if cursor.is_at_close_brace() {
            return Ok(items);
        }
        let next = parse_block_item(alloc, cursor, outside)?;
        items.push(next)?;
    }
    Err(Stop::Unexpected)
}

// Parses `{ items }`.
#[cycle(statement)]
fn parse_block(alloc: Global, cursor: &mut Cursor<'_>) -> Result<Stmt, Stop>
    ensures { Parses code (parts.with_inner spec.block) cursor.old result cursor.new }
{
    let outside = cursor.room;
    let from = cursor.open()?;
    let items = parse_block_items(alloc, cursor, outside)?;
    let to = cursor.expect_close_brace(outside)?;
    Ok(block_stmt(from, items, to))
}

// Parses an `if`, with the `else` that comes next after its first arm.
#[cycle(statement)]
fn parse_if(alloc: Global, cursor: &mut Cursor<'_>) -> Result<Stmt, Stop>
    ensures { Parses code (parts.with_inner spec.branch) cursor.old result cursor.new }
{
    let outside = cursor.room;
    let from = cursor.open()?;
    let test = parse_condition(alloc, cursor)?;
    let yes = parse_boxed_statement(alloc, cursor, outside)?;
    if !cursor.is_at_else() {
        cursor.room = outside;
        return Ok(if_stmt(from, test, yes));
    }
    cursor.advance()?;
    let no = parse_boxed_statement(alloc, cursor, outside)?;
    cursor.room = outside;
    Ok(if_else_stmt(from, test, yes, no))
}

// Parses a `while`.
#[cycle(statement)]
fn parse_while(alloc: Global, cursor: &mut Cursor<'_>) -> Result<Stmt, Stop>
    ensures { Parses code (parts.with_inner spec.while_loop) cursor.old result cursor.new }
{
    let outside = cursor.room;
    let from = cursor.open()?;
    let test = parse_condition(alloc, cursor)?;
    let body = parse_boxed_statement(alloc, cursor, outside)?;
    cursor.room = outside;
    Ok(while_stmt(from, test, body))
}

// Parses `while ( expression ) ;` after the body of a `do`, outside of which there is that room:
// the condition, and the span of the `;`.
fn parse_do_end(alloc: Global, cursor: &mut Cursor<'_>, outside: u8) -> Result<(Expr, Span), Stop>
    ensures { Parses seen.ended (parts.do_end outside) cursor.old result cursor.new }
{
    cursor.expect_while()?;
    let test = parse_condition(alloc, cursor)?;
    cursor.room = outside;
    let to = cursor.expect_semicolon()?;
    Ok((test, to))
}

// Parses a `do`.
#[cycle(statement)]
fn parse_do(alloc: Global, cursor: &mut Cursor<'_>) -> Result<Stmt, Stop>
    ensures { Parses code (parts.with_inner spec.do_loop) cursor.old result cursor.new }
{
    let outside = cursor.room;
    let from = cursor.open()?;
    let body = parse_boxed_statement(alloc, cursor, outside)?;
    let (test, to) = parse_do_end(alloc, cursor, outside)?;
    Ok(do_stmt(body, test, span_over(from, to)))
}

// Parses a `for`.
#[cycle(statement)]
fn parse_for(alloc: Global, cursor: &mut Cursor<'_>) -> Result<Stmt, Stop>
    ensures { Parses code (parts.with_inner spec.for_loop) cursor.old result cursor.new }
{
    let outside = cursor.room;
    let from = cursor.open()?;
    let (init, test, step) = parse_for_clauses(alloc, cursor)?;
    let body = parse_boxed_statement(alloc, cursor, outside)?;
    cursor.room = outside;
    Ok(for_stmt(from, init, test, step, body))
}

// Parses a statement.
#[cycle(statement)]
fn parse_statement(alloc: Global, cursor: &mut Cursor<'_>) -> Result<Stmt, Stop>
    ensures { Parses code (parts.with_inner spec.statement) cursor.old result cursor.new }
{
    match cursor.peek() {
        Terminal::Semicolon => parse_empty(cursor),
        Terminal::OpenBrace => parse_block(alloc, cursor),
        Terminal::If => parse_if(alloc, cursor),
        Terminal::While => parse_while(alloc, cursor),
        Terminal::Do => parse_do(alloc, cursor),
        Terminal::For => parse_for(alloc, cursor),
        Terminal::Return => parse_return(alloc, cursor),
        Terminal::Break => parse_break(cursor),
        Terminal::Continue => parse_continue(cursor),
        _ => parse_expression_statement(alloc, cursor),
    }
}
