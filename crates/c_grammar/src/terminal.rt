//! The terminals of the grammar: what it sees of a token.

ghost use Rattle.std.specs.Prelude.{◌≡◌};
ghost use Rattle.c_grammar.specs.Operators as operators;
ghost use Rattle.c_grammar.specs.Terminals as spec;

use c_lex::{Keyword, Punct, TokenKind};
use c_tree::{BinOp, Ty, UnOp};

/// A terminal of the grammar: what a token is to it, without its text.
#[derive(Clone, Copy, Debug, PartialEq, Eq)]
pub enum Terminal {
    Name,
    /// A number, a character constant or a macro.
    Constant,
    /// A string literal.
    Text,
    /// `int` or `char`
    Type(Ty),
    Void,
    If,
    Else,
    While,
    Do,
    For,
    Return,
    Break,
    Continue,
    OpenParen,
    CloseParen,
    OpenBracket,
    CloseBracket,
    OpenBrace,
    CloseBrace,
    Semicolon,
    Comma,
    Question,
    Colon,
    /// `=`, or an assignment with an operator.
    Assign(Option<BinOp>),
    /// An operator between two operands. `+` and `-` stand before one operand as well, and `&`
    /// before an argument.
    Binary(BinOp),
    /// `!` or `~`
    Prefix(UnOp),
    /// `++`, which is true, or `--`.
    Bump(bool),
    /// A token that no program has.
    Other,
    /// The end of the tokens.
    End,
}

/// The terminal that a token of that kind is.
pub fn terminal_of(kind: &TokenKind) -> Terminal
    ensures { result ≡ spec.terminal_of kind.now }
{
    match kind {
        TokenKind::Name(_) => Terminal::Name,
        TokenKind::Const { .. } => Terminal::Constant,
        TokenKind::Str(_) => Terminal::Text,
        TokenKind::Word(keyword) => keyword_terminal(*keyword),
        TokenKind::Punct(punct) => punct_terminal(*punct),
    }
}

// What a keyword is to the grammar.
fn keyword_terminal(keyword: Keyword) -> Terminal
    ensures { result ≡ spec.keyword_terminal keyword }
{
    match keyword {
        Keyword::Int => Terminal::Type(Ty::Int),
        Keyword::Char => Terminal::Type(Ty::Char),
        Keyword::Void => Terminal::Void,
        Keyword::If => Terminal::If,
        Keyword::Else => Terminal::Else,
        Keyword::While => Terminal::While,
        Keyword::Do => Terminal::Do,
        Keyword::For => Terminal::For,
        Keyword::Return => Terminal::Return,
        Keyword::Break => Terminal::Break,
        Keyword::Continue => Terminal::Continue,
        _ => Terminal::Other,
    }
}

// What a punctuator is to the grammar.
fn punct_terminal(punct: Punct) -> Terminal
    ensures { result ≡ spec.punct_terminal punct }
{
    match punct {
        Punct::OpenParen => Terminal::OpenParen,
        Punct::CloseParen => Terminal::CloseParen,
        Punct::OpenBracket => Terminal::OpenBracket,
        Punct::CloseBracket => Terminal::CloseBracket,
        Punct::OpenBrace => Terminal::OpenBrace,
        Punct::CloseBrace => Terminal::CloseBrace,
        Punct::Semicolon => Terminal::Semicolon,
        Punct::Comma => Terminal::Comma,
        Punct::Question => Terminal::Question,
        Punct::Colon => Terminal::Colon,
        Punct::Not => Terminal::Prefix(UnOp::Flip),
        Punct::Tilde => Terminal::Prefix(UnOp::Compl),
        Punct::Increment => Terminal::Bump(true),
        Punct::Decrement => Terminal::Bump(false),
        _ => operator_terminal(punct),
    }
}

// What an operator is to the grammar that assigns or stands between two operands.
fn operator_terminal(punct: Punct) -> Terminal
    ensures { result ≡ spec.operator_terminal punct }
{
    match assignment_operator(punct) {
        Some(op) => Terminal::Assign(op),
        None => match binary_operator(punct) {
            Some(op) => Terminal::Binary(op),
            None => Terminal::Other,
        },
    }
}

// The assignment that a punctuator is (C11 6.5.16).
fn assignment_operator(punct: Punct) -> Option<Option<BinOp>>
    ensures { result ≡ operators.assignment_operator punct }
{
    match punct {
        Punct::Assign => Some(None),
        Punct::StarAssign => Some(Some(BinOp::Mul)),
        Punct::SlashAssign => Some(Some(BinOp::Div)),
        Punct::PercentAssign => Some(Some(BinOp::Rem)),
        Punct::PlusAssign => Some(Some(BinOp::Add)),
        Punct::MinusAssign => Some(Some(BinOp::Sub)),
        Punct::ShiftLeftAssign => Some(Some(BinOp::Shl)),
        Punct::ShiftRightAssign => Some(Some(BinOp::Shr)),
        Punct::AndAssign => Some(Some(BinOp::BitAnd)),
        Punct::XorAssign => Some(Some(BinOp::BitXor)),
        Punct::OrAssign => Some(Some(BinOp::BitOr)),
        _ => None,
    }
}

// The operator between two operands that a punctuator is (C11 6.5.5 to 6.5.14).
fn binary_operator(punct: Punct) -> Option<BinOp>
    ensures { result ≡ operators.binary_operator punct }
{
    match punct {
        Punct::Star => Some(BinOp::Mul),
        Punct::Slash => Some(BinOp::Div),
        Punct::Percent => Some(BinOp::Rem),
        Punct::Plus => Some(BinOp::Add),
        Punct::Minus => Some(BinOp::Sub),
        Punct::ShiftLeft => Some(BinOp::Shl),
        Punct::ShiftRight => Some(BinOp::Shr),
        Punct::Less => Some(BinOp::Lt),
        Punct::LessEqual => Some(BinOp::Le),
        Punct::Greater => Some(BinOp::Gt),
        Punct::GreaterEqual => Some(BinOp::Ge),
        Punct::Equal => Some(BinOp::Eq),
        Punct::NotEqual => Some(BinOp::Ne),
        Punct::And => Some(BinOp::BitAnd),
        Punct::Xor => Some(BinOp::BitXor),
        Punct::Or => Some(BinOp::BitOr),
        Punct::AndAnd => Some(BinOp::Both),
        Punct::OrOr => Some(BinOp::Either),
        _ => None,
    }
}

#[cfg(test)]
mod tests;
