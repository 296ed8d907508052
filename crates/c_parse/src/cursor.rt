//! A cursor over the tokens: what comes next, and the steps that take it.

ghost use Rattle.std.specs.Prelude.{◌≡◌, IfOk};
ghost use Rattle.c_grammar.specs.Descent as spec;
ghost use Rattle.c_grammar.specs.Terminals as terminals;
ghost use Rattle.c_grammar.specs.Operators as operators;
ghost use Rattle.c_grammar.specs.ProgramDescent as program;
ghost use Rattle.c_grammar.specs.Grammar.{over};
ghost use Rattle.c_parse.specs.Gives.{Parses, itself, named, numbered};
ghost use Rattle.c_parse.specs.Parts as parts;

use crate::fault::Stop;
use c_grammar::{Terminal, terminal_of};
use c_lex::{Token, TokenKind};
use c_tree::{BinOp, NoMemory, Span, Text, Ty, UnOp};
use std::alloc::Global;

/// The tokens that are left to parse, and the room: how many more openers may be open.
#[derive(Drop)]
pub struct Cursor<'a> {
    pub rest: &'a [Token],
    pub room: u8,
}

impl<'a> Cursor<'a> {
    /// What the next token is to the grammar.
    pub fn peek(&self) -> Terminal
        ensures { result ≡ terminals.lookahead self.now.rest.now }
    {
        match self.rest {
            [] => Terminal::End,
            [token, ..] => terminal_of(&token.kind),
        }
    }

    /// Whether `)` comes next.
    pub fn is_at_close_paren(&self) -> bool
        ensures { result ≡ terminals.is_close_paren (terminals.lookahead self.now.rest.now) }
    {
        matches!(self.peek(), Terminal::CloseParen)
    }

    /// Whether `[` comes next.
    pub fn is_at_open_bracket(&self) -> bool
        ensures { result ≡ terminals.is_open_bracket (terminals.lookahead self.now.rest.now) }
    {
        matches!(self.peek(), Terminal::OpenBracket)
    }

    /// Whether `}` comes next.
    pub fn is_at_close_brace(&self) -> bool
        ensures { result ≡ terminals.is_close_brace (terminals.lookahead self.now.rest.now) }
    {
        matches!(self.peek(), Terminal::CloseBrace)
    }

    /// Whether `;` comes next.
    pub fn is_at_semicolon(&self) -> bool
        ensures { result ≡ terminals.is_semicolon (terminals.lookahead self.now.rest.now) }
    {
        matches!(self.peek(), Terminal::Semicolon)
    }

    /// Whether `,` comes next.
    pub fn is_at_comma(&self) -> bool
        ensures { result ≡ terminals.is_comma (terminals.lookahead self.now.rest.now) }
    {
        matches!(self.peek(), Terminal::Comma)
    }

    /// Whether `?` comes next.
    pub fn is_at_question(&self) -> bool
        ensures { result ≡ terminals.is_question (terminals.lookahead self.now.rest.now) }
    {
        matches!(self.peek(), Terminal::Question)
    }

    /// Whether a constant comes next.
    pub fn is_at_constant(&self) -> bool
        ensures { result ≡ terminals.is_constant (terminals.lookahead self.now.rest.now) }
    {
        matches!(self.peek(), Terminal::Constant)
    }

    /// Whether `else` comes next.
    pub fn is_at_else(&self) -> bool
        ensures { result ≡ terminals.is_else (terminals.lookahead self.now.rest.now) }
    {
        matches!(self.peek(), Terminal::Else)
    }

    /// Whether `=` comes next.
    pub fn is_at_assign(&self) -> bool
        ensures { result ≡ terminals.is_assign (terminals.lookahead self.now.rest.now) }
    {
        matches!(self.peek(), Terminal::Assign(None))
    }

    /// Whether the tokens end.
    pub fn is_at_end(&self) -> bool
        ensures { result ≡ terminals.is_end (terminals.lookahead self.now.rest.now) }
    {
        matches!(self.peek(), Terminal::End)
    }

    // The type that comes next, if one does.
    fn peek_type(&self) -> Option<Ty>
        ensures { result ≡ terminals.type_at (terminals.lookahead self.now.rest.now) }
    {
        match self.peek() {
            Terminal::Type(ty) => Some(ty),
            _ => None,
        }
    }

    /// Whether `++` comes next, which is `true`, or `--`, if one of them does.
    pub fn peek_bump(&self) -> Option<bool>
        ensures { result ≡ terminals.bump_at (terminals.lookahead self.now.rest.now) }
    {
        match self.peek() {
            Terminal::Bump(up) => Some(up),
            _ => None,
        }
    }

    /// The assignment operator that comes next, if one does: `None` inside stands for `=`.
    pub fn peek_assignment(&self) -> Option<Option<BinOp>>
        ensures { result ≡ terminals.assignment_at (terminals.lookahead self.now.rest.now) }
    {
        match self.peek() {
            Terminal::Assign(op) => Some(op),
            _ => None,
        }
    }

    /// The type that a function returns whose declaration comes next: `None` inside stands for
    /// `void`.
    pub fn peek_result_type(&self) -> Option<Option<Ty>>
        ensures { result ≡ terminals.result_at (terminals.lookahead self.now.rest.now) }
    {
        match self.peek() {
            Terminal::Type(ty) => Some(Some(ty)),
            Terminal::Void => Some(None),
            _ => None,
        }
    }

    /// The prefix operator that comes next, if one does (C11 6.5.3.3).
    pub fn peek_prefix_operator(&self) -> Option<UnOp>
        ensures { result ≡ terminals.prefix_at (terminals.lookahead self.now.rest.now) }
    {
        match self.peek() {
            Terminal::Prefix(op) => Some(op),
            Terminal::Binary(op) => as_prefix_operator(op),
            _ => None,
        }
    }

    /// The binary operator of that rank that comes next, if one does.
    pub fn peek_binary_operator(&self, at: u8) -> Option<BinOp>
        ensures { result ≡ terminals.operator_at at (terminals.lookahead self.now.rest.now) }
    {
        match self.peek() {
            Terminal::Binary(op) => { if rank(op) == at { Some(op) } else { None } }
            _ => None,
        }
    }

    /// Whether `(` and a type come next.
    pub fn is_at_type_cast(&self) -> bool
        ensures { result ≡ terminals.casts self.now.rest.now }
    {
        match self.peek() {
            Terminal::OpenParen => matches!(self.after_next().peek(), Terminal::Type(_)),
            _ => false,
        }
    }

    /// Whether what comes next can only be a function.
    pub fn is_at_function(&self) -> bool
        ensures { result ≡ program.is_func self.now.rest.now }
    {
        match self.peek() {
            Terminal::Void => true,
            Terminal::Type(_) => matches!(
                self.after_next().after_next().peek(),
                Terminal::OpenParen
            ),
            _ => false,
        }
    }

    // The cursor after the next token.
    fn after_next(&self) -> Cursor<'a>
        ensures { result.rest.now ≡ terminals.rest self.now.rest.now }
    {
        let rest = match self.rest {
            [] => self.rest,
            [_, rest @ ..] => rest,
        };
        Cursor {
            rest,
            room: self.room,
        }
    }

    /// Takes the next token, whichever it is.
    pub fn advance(&mut self) -> Result<Span, Stop>
        ensures { Parses itself spec.taken self.old result self.new }
    {
        match self.rest {
            [] => Err(Stop::Unexpected),
            [token, rest @ ..] => {
                self.rest = rest;
                Ok(token.span)
            }
        }
    }

    /// Takes the next token as an opener.
    pub fn open(&mut self) -> Result<Span, Stop>
        ensures { Parses itself spec.opened self.old result self.new }
    {
        if self.room == 0 {
            return Err(Stop::TooDeep);
        }
        self.room -= 1;
        self.advance()
    }

    /// Takes `(`, an opener.
    pub fn expect_open_paren(&mut self) -> Result<Span, Stop>
        ensures { Parses itself (spec.entered terminals.is_open_paren) self.old result self.new }
    {
        match self.peek() {
            Terminal::OpenParen => self.open(),
            _ => Err(Stop::Unexpected),
        }
    }

    /// Takes `{`, an opener.
    pub fn expect_open_brace(&mut self) -> Result<Span, Stop>
        ensures { Parses itself (spec.entered terminals.is_open_brace) self.old result self.new }
    {
        match self.peek() {
            Terminal::OpenBrace => self.open(),
            _ => Err(Stop::Unexpected),
        }
    }

    /// Takes `)`: the room is again the one outside.
    pub fn expect_close_paren(&mut self, outside: u8) -> Result<Span, Stop>
        ensures { Parses itself (parts.closed terminals.is_close_paren outside)
            self.old result self.new }
    {
        self.room = outside;
        match self.peek() {
            Terminal::CloseParen => self.advance(),
            _ => Err(Stop::Unexpected),
        }
    }

    /// Takes `]`: the room is again the one outside.
    pub fn expect_close_bracket(&mut self, outside: u8) -> Result<Span, Stop>
        ensures { Parses itself (parts.closed terminals.is_close_bracket outside)
            self.old result self.new }
    {
        self.room = outside;
        match self.peek() {
            Terminal::CloseBracket => self.advance(),
            _ => Err(Stop::Unexpected),
        }
    }

    /// Takes `}`: the room is again the one outside.
    pub fn expect_close_brace(&mut self, outside: u8) -> Result<Span, Stop>
        ensures { Parses itself (parts.closed terminals.is_close_brace outside)
            self.old result self.new }
    {
        self.room = outside;
        match self.peek() {
            Terminal::CloseBrace => self.advance(),
            _ => Err(Stop::Unexpected),
        }
    }

    /// Takes `;`.
    pub fn expect_semicolon(&mut self) -> Result<Span, Stop>
        ensures { Parses itself (spec.expected terminals.is_semicolon) self.old result self.new }
    {
        match self.peek() {
            Terminal::Semicolon => self.advance(),
            _ => Err(Stop::Unexpected),
        }
    }

    /// Takes `:`.
    pub fn expect_colon(&mut self) -> Result<Span, Stop>
        ensures { Parses itself (spec.expected terminals.is_colon) self.old result self.new }
    {
        match self.peek() {
            Terminal::Colon => self.advance(),
            _ => Err(Stop::Unexpected),
        }
    }

    /// Takes `while`.
    pub fn expect_while(&mut self) -> Result<Span, Stop>
        ensures { Parses itself (spec.expected terminals.is_while) self.old result self.new }
    {
        match self.peek() {
            Terminal::While => self.advance(),
            _ => Err(Stop::Unexpected),
        }
    }

    /// Takes a type.
    pub fn expect_type(&mut self) -> Result<Ty, Stop>
        ensures { Parses itself spec.type self.old result self.new }
    {
        match self.peek_type() {
            Some(ty) => {
                self.advance()?;
                Ok(ty)
            }
            None => Err(Stop::Unexpected),
        }
    }

    /// Takes a name: a copy of its text, and its span.
    pub fn expect_name(&mut self, alloc: Global) -> Result<(Text, Span), Stop>
        ensures { Parses named spec.name self.old result self.new }
    {
        match self.rest {
            [token, rest @ ..] => match &token.kind {
                TokenKind::Name(word) => {
                    self.rest = rest;
                    Ok((copy_text(alloc, word)?, token.span))
                }
                _ => Err(Stop::Unexpected),
            },
            [] => Err(Stop::Unexpected),
        }
    }

    /// Takes a string literal: a copy of its characters, and its span.
    pub fn expect_string(&mut self, alloc: Global) -> Result<(Text, Span), Stop>
        ensures { Parses named spec.text self.old result self.new }
    {
        match self.rest {
            [token, rest @ ..] => match &token.kind {
                TokenKind::Str(word) => {
                    self.rest = rest;
                    Ok((copy_text(alloc, word)?, token.span))
                }
                _ => Err(Stop::Unexpected),
            },
            [] => Err(Stop::Unexpected),
        }
    }

    /// Takes a constant: its value, a copy of its text, and its span.
    pub fn expect_constant(&mut self, alloc: Global) -> Result<(i64, Text, Span), Stop>
        ensures { Parses numbered spec.constant self.old result self.new }
    {
        match self.rest {
            [token, rest @ ..] => match &token.kind {
                TokenKind::Const { value, word } => {
                    self.rest = rest;
                    Ok((*value, copy_text(alloc, word)?, token.span))
                }
                _ => Err(Stop::Unexpected),
            },
            [] => Err(Stop::Unexpected),
        }
    }
}

// The prefix operator that is written like this binary one, if there is one (C11 6.5.3.3).
fn as_prefix_operator(op: BinOp) -> Option<UnOp>
    ensures { result ≡ terminals.binary_prefix op }
{
    match op {
        BinOp::Add => Some(UnOp::Plus),
        BinOp::Sub => Some(UnOp::Minus),
        _ => None,
    }
}

// The rank of an operator: the higher, the weaker it binds (C11 6.5.5 to 6.5.14).
fn rank(op: BinOp) -> u8
    ensures { result ≡ operators.rank op }
{
    match op {
        BinOp::Mul | BinOp::Div | BinOp::Rem => 1,
        BinOp::Add | BinOp::Sub => 2,
        BinOp::Shl | BinOp::Shr => 3,
        BinOp::Lt | BinOp::Le | BinOp::Gt | BinOp::Ge => 4,
        BinOp::Eq | BinOp::Ne => 5,
        BinOp::BitAnd => 6,
        BinOp::BitXor => 7,
        BinOp::BitOr => 8,
        BinOp::Both => 9,
        BinOp::Either => 10,
    }
}

// A copy of a text.
fn copy_text(alloc: Global, word: &Text) -> Result<Text, NoMemory>
    ensures { IfOk result (λ copy. copy ≡ word.now) }
{
    Ok(Text::new(word.as_slice().to_vec(alloc)?))
}

/// The span from the start of the one to the end of the other.
pub fn span_over(first: Span, last: Span) -> Span
    ensures { result ≡ over first last }
{
    Span {
        from: first.from,
        to: last.to,
    }
}
