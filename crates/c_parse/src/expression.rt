//! The parser of expressions (C11 6.5): one method for each rule of the grammar.

ghost use Rattle.std.specs.Prelude.{◌<◌, true, false};
ghost use Rattle.c_tree.specs.Views.{tree};
ghost use Rattle.c_grammar.specs.Descent as spec;
ghost use Rattle.c_grammar.specs.Descent.{run};
ghost use Rattle.c_grammar.specs.Terminals as terminals;
ghost use Rattle.c_grammar.specs.ProgramDescent as program;
ghost use Rattle.c_parse.specs.Gives.{Parses, ReadsParts, marked, marked_box, given, givens};
ghost use Rattle.c_parse.specs.Parts as parts;

use crate::cursor::{Cursor, span_over};
use crate::fault::Stop;
use crate::tree::{
    assign_expr, binary_expr, boxed_expr, call_expr, cast_expr, comma_expr, conditional_expr,
    const_expr, index_expr, name_expr, parenthesized, postfix_bump_expr, prefix_bump_expr,
    unary_expr,
};
use c_grammar::{Nonterminal, Terminal};
use c_tree::{Arg, BinOp, Expr, Span, Text, UnOp};
use std::alloc::Global;

// The rank of `||`, the operator that binds weakest.
const WEAKEST: u8 = 10;

// A parser of expressions. `parse_part` parses the parts after an opener, to a given depth of
// nesting, here `depth`. At most `turns` operators of one rank may follow one another.
#[derive(Clone, Copy)]
pub struct ExpressionParser<F> {
    pub alloc: Global,
    pub depth: usize,
    pub turns: usize,
    pub parse_part: F,
}

impl<
    F: Fn(Global, &mut Cursor<'_>, usize, Nonterminal) -> Result<(Expr, bool), Stop>,
> ExpressionParser<F> {
    // Parses a part after an opener.
    fn parse_nested(&self, cursor: &mut Cursor<'_>, part: Nonterminal) -> Result<(Expr, bool), Stop>
        requires { ReadsParts F.pre F.post self.now }
        ensures { Parses marked (run self.now.depth part) cursor.old result cursor.new }
    {
        (self.parse_part)(self.alloc, cursor, self.depth, part)
    }

    // Parses a part after an opener into a box, in which it waits for what comes after it.
    fn parse_boxed(
        &self,
        cursor: &mut Cursor<'_>,
        part: Nonterminal,
    ) -> Result<(Box<Expr>, bool), Stop>
        requires { ReadsParts F.pre F.post self.now }
        ensures { Parses marked_box (run self.now.depth part) cursor.old result cursor.new }
    {
        let (tree, unary) = self.parse_nested(cursor, part)?;
        Ok((boxed_expr(self.alloc, tree)?, unary))
    }

    // Parses an argument that is a value.
    fn parse_value_argument(&self, cursor: &mut Cursor<'_>) -> Result<Arg, Stop>
        requires { ReadsParts F.pre F.post self.now }
        ensures { Parses given (spec.value (run self.now.depth)) cursor.old result cursor.new }
    {
        let room = cursor.room;
        let (value, _) = self.parse_nested(cursor, Nonterminal::Assignment)?;
        cursor.room = room;
        Ok(Arg::Value(value))
    }

    // Parses an argument that is a string literal.
    fn parse_format_argument(&self, cursor: &mut Cursor<'_>) -> Result<Arg, Stop>
        requires { ReadsParts F.pre F.post self.now }
        ensures { Parses given (spec.format (run self.now.depth)) cursor.old result cursor.new }
    {
        let (word, span) = cursor.expect_string(self.alloc)?;
        Ok(Arg::Format(word, span))
    }

    // Parses an argument that is an address: `&` and a unary expression.
    fn parse_address_argument(&self, cursor: &mut Cursor<'_>) -> Result<Arg, Stop>
        requires { ReadsParts F.pre F.post self.now }
        ensures { Parses given (spec.address (run self.now.depth)) cursor.old result cursor.new }
    {
        let room = cursor.room;
        cursor.open()?;
        let (place, _) = self.parse_nested(cursor, Nonterminal::Unary)?;
        cursor.room = room;
        Ok(Arg::Address(place))
    }

    // Parses an argument of a call.
    fn parse_argument(&self, cursor: &mut Cursor<'_>) -> Result<Arg, Stop>
        requires { ReadsParts F.pre F.post self.now }
        ensures { Parses given (spec.argument (run self.now.depth)) cursor.old result cursor.new }
    {
        match cursor.peek() {
            Terminal::Text => self.parse_format_argument(cursor),
            Terminal::Binary(BinOp::BitAnd) => self.parse_address_argument(cursor),
            _ => self.parse_value_argument(cursor),
        }
    }

    // Parses one argument, or more with commas between them.
    fn parse_argument_list(&self, cursor: &mut Cursor<'_>) -> Result<Vec<Arg>, Stop>
        requires { ReadsParts F.pre F.post self.now }
        ensures { Parses givens
            (parts.comma_list terminals.never (spec.argument (run self.now.depth)))
            cursor.old result cursor.new }
    {
        let room = cursor.room;
        let mut args = Vec::new(self.alloc);
        for _turn in 0..cursor.rest.len() + 1 {
            cursor.room = room;
            let next = self.parse_argument(cursor)?;
            args.push(next)?;
            if !cursor.is_at_comma() {
                return Ok(args);
            }
            cursor.advance()?;
        }
        Err(Stop::Unexpected)
    }

    // Parses the arguments of a call, up to its `)`.
    fn parse_arguments(&self, cursor: &mut Cursor<'_>) -> Result<Vec<Arg>, Stop>
        requires { ReadsParts F.pre F.post self.now }
        ensures { Parses givens (spec.arguments (run self.now.depth)) cursor.old result cursor.new }
    {
        if cursor.is_at_close_paren() {
            Ok(Vec::new(self.alloc))
        } else {
            self.parse_argument_list(cursor)
        }
    }

    // Parses `[ expression ]` after a name.
    fn parse_index(
        &self,
        cursor: &mut Cursor<'_>,
        word: Text,
        at: Span,
    ) -> Result<(Expr, bool), Stop>
        requires { ReadsParts F.pre F.post self.now }
        ensures { Parses marked (spec.index (run self.now.depth) word at)
            cursor.old result cursor.new }
    {
        let outside = cursor.room;
        cursor.open()?;
        let (index, _) = self.parse_boxed(cursor, Nonterminal::Expression)?;
        let to = cursor.expect_close_bracket(outside)?;
        Ok((index_expr(word, index, span_over(at, to)), true))
    }

    // Parses `( arguments )` after a name.
    fn parse_call(
        &self,
        cursor: &mut Cursor<'_>,
        word: Text,
        at: Span,
    ) -> Result<(Expr, bool), Stop>
        requires { ReadsParts F.pre F.post self.now }
        ensures { Parses marked (spec.call (run self.now.depth) word at)
            cursor.old result cursor.new }
    {
        let outside = cursor.room;
        cursor.open()?;
        let args = self.parse_arguments(cursor)?;
        let to = cursor.expect_close_paren(outside)?;
        Ok((call_expr(word, args, span_over(at, to)), true))
    }

    // Parses a name, an element of an array or a call.
    fn parse_named(&self, cursor: &mut Cursor<'_>) -> Result<(Expr, bool), Stop>
        requires { ReadsParts F.pre F.post self.now }
        ensures { Parses marked (spec.named (run self.now.depth)) cursor.old result cursor.new }
    {
        let (word, at) = cursor.expect_name(self.alloc)?;
        match cursor.peek() {
            Terminal::OpenBracket => self.parse_index(cursor, word, at),
            Terminal::OpenParen => self.parse_call(cursor, word, at),
            _ => Ok((name_expr(word, at), true)),
        }
    }

    // Parses `( expression )`.
    fn parse_parenthesized(&self, cursor: &mut Cursor<'_>) -> Result<(Expr, bool), Stop>
        requires { ReadsParts F.pre F.post self.now }
        ensures { Parses marked (spec.paren (run self.now.depth)) cursor.old result cursor.new }
    {
        let outside = cursor.room;
        let from = cursor.open()?;
        let (inner, _) = self.parse_nested(cursor, Nonterminal::Expression)?;
        let to = cursor.expect_close_paren(outside)?;
        Ok((parenthesized(span_over(from, to), inner), true))
    }

    // Parses a constant.
    fn parse_constant(&self, cursor: &mut Cursor<'_>) -> Result<(Expr, bool), Stop>
        requires { ReadsParts F.pre F.post self.now }
        ensures { Parses marked (spec.number (run self.now.depth)) cursor.old result cursor.new }
    {
        let (value, word, span) = cursor.expect_constant(self.alloc)?;
        Ok((const_expr(value, word, span), true))
    }

    // Parses a primary expression (C11 6.5.1), an element of an array or a call.
    fn parse_primary(&self, cursor: &mut Cursor<'_>) -> Result<(Expr, bool), Stop>
        requires { ReadsParts F.pre F.post self.now }
        ensures { Parses marked (spec.primary (run self.now.depth)) cursor.old result cursor.new }
    {
        match cursor.peek() {
            Terminal::Constant => self.parse_constant(cursor),
            Terminal::Name => self.parse_named(cursor),
            Terminal::OpenParen => self.parse_parenthesized(cursor),
            _ => Err(Stop::Unexpected),
        }
    }

    // Parses a postfix expression (C11 6.5.2).
    fn parse_postfix(&self, cursor: &mut Cursor<'_>) -> Result<(Expr, bool), Stop>
        requires { ReadsParts F.pre F.post self.now }
        ensures { Parses marked (spec.postfix (run self.now.depth)) cursor.old result cursor.new }
    {
        let (tree, unary) = self.parse_primary(cursor)?;
        match cursor.peek_bump() {
            Some(up) => {
                let place = boxed_expr(self.alloc, tree)?;
                let to = cursor.advance()?;
                Ok((postfix_bump_expr(up, place, to), true))
            }
            None => Ok((tree, unary)),
        }
    }

    // Parses `++` or `--` and the unary expression after it.
    fn parse_prefix_bump(&self, cursor: &mut Cursor<'_>, up: bool) -> Result<(Expr, bool), Stop>
        requires { ReadsParts F.pre F.post self.now }
        ensures { Parses marked (spec.bump (run self.now.depth) up) cursor.old result cursor.new }
    {
        let from = cursor.open()?;
        let (place, _) = self.parse_nested(cursor, Nonterminal::Unary)?;
        Ok((prefix_bump_expr(self.alloc, up, from, place)?, true))
    }

    // Parses an operator and the operand after it (C11 6.5.3.3).
    fn parse_prefix_operator(&self, cursor: &mut Cursor<'_>, op: UnOp) -> Result<(Expr, bool), Stop>
        requires { ReadsParts F.pre F.post self.now }
        ensures { Parses marked (spec.prefix (run self.now.depth) op) cursor.old result cursor.new }
    {
        let from = cursor.open()?;
        let (of, _) = self.parse_nested(cursor, Nonterminal::Cast)?;
        Ok((unary_expr(self.alloc, op, from, of)?, true))
    }

    // Parses a unary expression (C11 6.5.3).
    fn parse_unary(&self, cursor: &mut Cursor<'_>) -> Result<(Expr, bool), Stop>
        requires { ReadsParts F.pre F.post self.now }
        ensures { Parses marked (spec.unary (run self.now.depth)) cursor.old result cursor.new }
    {
        if let Some(up) = cursor.peek_bump() {
            return self.parse_prefix_bump(cursor, up);
        }
        match cursor.peek_prefix_operator() {
            Some(op) => self.parse_prefix_operator(cursor, op),
            None => self.parse_postfix(cursor),
        }
    }

    // Parses `( type ) operand`.
    fn parse_type_cast(&self, cursor: &mut Cursor<'_>) -> Result<(Expr, bool), Stop>
        requires { ReadsParts F.pre F.post self.now }
        ensures { Parses marked (spec.conversion (run self.now.depth))
            cursor.old result cursor.new }
    {
        let from = cursor.open()?;
        let ty = cursor.expect_type()?;
        let inside = cursor.room;
        cursor.expect_close_paren(inside)?;
        let (of, _) = self.parse_nested(cursor, Nonterminal::Cast)?;
        Ok((cast_expr(self.alloc, from, ty, of)?, false))
    }

    // Parses a cast expression (C11 6.5.4).
    fn parse_cast(&self, cursor: &mut Cursor<'_>) -> Result<(Expr, bool), Stop>
        requires { ReadsParts F.pre F.post self.now }
        ensures { Parses marked (spec.cast (run self.now.depth)) cursor.old result cursor.new }
    {
        if cursor.is_at_type_cast() {
            self.parse_type_cast(cursor)
        } else {
            self.parse_unary(cursor)
        }
    }

    // Parses the operators of the rank `below + 1` that follow the operand `left`, each with its
    // right operand.
    fn parse_binary_rest(
        &self,
        cursor: &mut Cursor<'_>,
        below: u8,
        mut left: Expr,
        mut unary: bool,
    ) -> Result<(Expr, bool), Stop>
        requires low { below < 255 }
        requires nests { ReadsParts F.pre F.post self.now }
        ensures { Parses marked
            (spec.operators (run self.now.depth) self.now.turns below (tree left, unary))
            cursor.old result cursor.new }
    {
        for _turn in 0..self.turns {
            let Some(op) = cursor.peek_binary_operator(below + 1) else {
                return Ok((left, unary));
            };
            let held = boxed_expr(self.alloc, left)?;
            cursor.open()?;
            let (right, _) = self.parse_nested(cursor, Nonterminal::Binary(below))?;
            left = binary_expr(self.alloc, op, held, right)?;
            unary = false;
        }
        Err(Stop::TooDeep)
    }

    // Parses operands with operators of at most that rank between them (C11 6.5.5 to 6.5.14).
    fn parse_binary(&self, cursor: &mut Cursor<'_>, rank: u8) -> Result<(Expr, bool), Stop>
        requires { ReadsParts F.pre F.post self.now }
        ensures { Parses marked (spec.binary (run self.now.depth) self.now.turns rank)
            cursor.old result cursor.new }
    {
        if rank == 0 {
            return self.parse_cast(cursor);
        }
        let (left, unary) = self.parse_binary(cursor, rank - 1)?;
        self.parse_binary_rest(cursor, rank - 1, left, unary)
    }

    // Parses `? yes : no` after a test, where a `?` comes next.
    fn parse_conditional_rest(
        &self,
        cursor: &mut Cursor<'_>,
        test: Expr,
        unary: bool,
    ) -> Result<(Expr, bool), Stop>
        requires { ReadsParts F.pre F.post self.now }
        ensures { Parses marked (spec.choose (run self.now.depth) (tree test, unary))
            cursor.old result cursor.new }
    {
        if !cursor.is_at_question() {
            return Ok((test, unary));
        }
        let test = boxed_expr(self.alloc, test)?;
        cursor.open()?;
        let (yes, _) = self.parse_boxed(cursor, Nonterminal::Expression)?;
        cursor.expect_colon()?;
        let (no, _) = self.parse_boxed(cursor, Nonterminal::Conditional)?;
        Ok((conditional_expr(test, yes, no), false))
    }

    // Parses a conditional expression (C11 6.5.15).
    fn parse_conditional(&self, cursor: &mut Cursor<'_>) -> Result<(Expr, bool), Stop>
        requires { ReadsParts F.pre F.post self.now }
        ensures { Parses marked (spec.conditional (run self.now.depth) self.now.turns)
            cursor.old result cursor.new }
    {
        let (test, unary) = self.parse_binary(cursor, WEAKEST)?;
        self.parse_conditional_rest(cursor, test, unary)
    }

    // Parses an assignment operator and a value after the left side, where an assignment operator
    // comes next.
    fn parse_assignment_rest(
        &self,
        cursor: &mut Cursor<'_>,
        place: Expr,
    ) -> Result<(Expr, bool), Stop>
        requires { ReadsParts F.pre F.post self.now }
        ensures { Parses marked (spec.placed (run self.now.depth) (tree place, true))
            cursor.old result cursor.new }
    {
        match cursor.peek_assignment() {
            Some(op) => {
                let place = boxed_expr(self.alloc, place)?;
                cursor.open()?;
                let (value, _) = self.parse_nested(cursor, Nonterminal::Assignment)?;
                Ok((assign_expr(self.alloc, op, place, value)?, false))
            }
            None => Ok((place, true)),
        }
    }

    // Parses an assignment expression (C11 6.5.16).
    fn parse_assignment(&self, cursor: &mut Cursor<'_>) -> Result<(Expr, bool), Stop>
        requires { ReadsParts F.pre F.post self.now }
        ensures { Parses marked (spec.assignment (run self.now.depth) self.now.turns)
            cursor.old result cursor.new }
    {
        let (left, unary) = self.parse_conditional(cursor)?;
        if unary {
            self.parse_assignment_rest(cursor, left)
        } else {
            Ok((left, false))
        }
    }

    // Parses the commas that follow the operand `left`, each with its right operand.
    fn parse_comma_rest(
        &self,
        cursor: &mut Cursor<'_>,
        mut left: Expr,
        mut unary: bool,
    ) -> Result<(Expr, bool), Stop>
        requires { ReadsParts F.pre F.post self.now }
        ensures { Parses marked (spec.commas (run self.now.depth) self.now.turns (tree left, unary))
            cursor.old result cursor.new }
    {
        for _turn in 0..self.turns {
            if !cursor.is_at_comma() {
                return Ok((left, unary));
            }
            let held = boxed_expr(self.alloc, left)?;
            cursor.open()?;
            let (right, _) = self.parse_nested(cursor, Nonterminal::Assignment)?;
            left = comma_expr(self.alloc, held, right)?;
            unary = false;
        }
        Err(Stop::TooDeep)
    }

    // Parses an expression (C11 6.5.17).
    fn parse_expression(&self, cursor: &mut Cursor<'_>) -> Result<(Expr, bool), Stop>
        requires { ReadsParts F.pre F.post self.now }
        ensures { Parses marked (spec.expression (run self.now.depth) self.now.turns)
            cursor.old result cursor.new }
    {
        let (left, unary) = self.parse_assignment(cursor)?;
        self.parse_comma_rest(cursor, left, unary)
    }

    // Parses an expression of that kind.
    fn parse(&self, cursor: &mut Cursor<'_>, part: Nonterminal) -> Result<(Expr, bool), Stop>
        requires { ReadsParts F.pre F.post self.now }
        ensures { Parses marked (spec.step (run self.now.depth) self.now.turns part)
            cursor.old result cursor.new }
    {
        match part {
            Nonterminal::Expression => self.parse_expression(cursor),
            Nonterminal::Assignment => self.parse_assignment(cursor),
            Nonterminal::Conditional => self.parse_conditional(cursor),
            Nonterminal::Binary(rank) => self.parse_binary(cursor, rank),
            Nonterminal::Cast => self.parse_cast(cursor),
            Nonterminal::Unary => self.parse_unary(cursor),
            Nonterminal::Postfix => self.parse_postfix(cursor),
            Nonterminal::Primary => self.parse_primary(cursor),
        }
    }
}

// Parses an expression of that kind whose openers are nested less than `depth` deep. The flag says
// whether it is written as a unary expression, which an assignment operator may follow.
pub fn parse_part(
    alloc: Global,
    cursor: &mut Cursor<'_>,
    depth: usize,
    part: Nonterminal,
) -> Result<(Expr, bool), Stop>
    ensures { Parses marked (run depth part) cursor.old result cursor.new }
{
    if depth == 0 {
        return Err(Stop::TooDeep);
    }
    ExpressionParser {
        alloc,
        depth: depth - 1,
        turns: depth,
        parse_part,
    }
    .parse(cursor, part)
}

/// Parses an expression of that kind. The room after it is the room before it.
pub fn parse_expression(
    alloc: Global,
    cursor: &mut Cursor<'_>,
    part: Nonterminal,
) -> Result<Expr, Stop>
    ensures { Parses tree (program.value part) cursor.old result cursor.new }
{
    let room = cursor.room;
    let (tree, _) = parse_part(alloc, cursor, usize::from(room) + 1, part)?;
    cursor.room = room;
    Ok(tree)
}
