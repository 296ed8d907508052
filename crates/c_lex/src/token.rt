//! Tokens, with the text that each covers.

use c_tree::{Span, Text};
use std::marker::Model;

/// A keyword of C11 (6.4.1). Those that the grammar doesn't use are never expected.
#[derive(Clone, Copy, Debug, PartialEq, Eq)]
pub enum Keyword {
    Auto,
    Break,
    Case,
    Char,
    Const,
    Continue,
    Default,
    Do,
    Double,
    Else,
    Enum,
    Extern,
    Float,
    For,
    Goto,
    If,
    Inline,
    Int,
    Long,
    Register,
    Restrict,
    Return,
    Short,
    Signed,
    Sizeof,
    Static,
    Struct,
    Switch,
    Typedef,
    Union,
    Unsigned,
    Void,
    Volatile,
    While,
    Alignas,
    Alignof,
    Atomic,
    Bool,
    Complex,
    Generic,
    Imaginary,
    Noreturn,
    StaticAssert,
    ThreadLocal,
}

/// A punctuator of the language (C11 6.4.6).
#[derive(Clone, Copy, Debug, PartialEq, Eq)]
pub enum Punct {
    /// `(`
    OpenParen,
    /// `)`
    CloseParen,
    /// `[`
    OpenBracket,
    /// `]`
    CloseBracket,
    /// `{`
    OpenBrace,
    /// `}`
    CloseBrace,
    /// `;`
    Semicolon,
    /// `,`
    Comma,
    /// `?`
    Question,
    /// `:`
    Colon,
    /// `=`
    Assign,
    /// `==`
    Equal,
    /// `!`
    Not,
    /// `!=`
    NotEqual,
    /// `<`
    Less,
    /// `<=`
    LessEqual,
    /// `<<`
    ShiftLeft,
    /// `<<=`
    ShiftLeftAssign,
    /// `>`
    Greater,
    /// `>=`
    GreaterEqual,
    /// `>>`
    ShiftRight,
    /// `>>=`
    ShiftRightAssign,
    /// `+`
    Plus,
    /// `++`
    Increment,
    /// `+=`
    PlusAssign,
    /// `-`
    Minus,
    /// `--`
    Decrement,
    /// `-=`
    MinusAssign,
    /// `*`
    Star,
    /// `*=`
    StarAssign,
    /// `/`
    Slash,
    /// `/=`
    SlashAssign,
    /// `%`
    Percent,
    /// `%=`
    PercentAssign,
    /// `&`
    And,
    /// `&&`
    AndAnd,
    /// `&=`
    AndAssign,
    /// `|`
    Or,
    /// `||`
    OrOr,
    /// `|=`
    OrAssign,
    /// `^`
    Xor,
    /// `^=`
    XorAssign,
    /// `~`
    Tilde,
}

/// The kinds of token. A constant has its value and its spelling.
#[derive(Drop)]
pub enum TokenKind {
    /// An identifier that is no keyword (C11 6.4.2).
    Name(Text),
    /// A number (C11 6.4.4).
    Const { value: i64, word: Text },
    /// A string literal (C11 6.4.5).
    Str(Text),
    /// A keyword.
    Word(Keyword),
    /// A punctuator.
    Punct(Punct),
}

/// A token. Contracts see the pair of its kind and its span.
#[derive(Drop)]
pub struct Token {
    pub kind: TokenKind,
    pub span: Span,
}

impl Model for Token {
    ghost use Rattle.c_tree.specs.declared.place.Span.{Span};
    ghost use Rattle.c_lex.specs.declared.token.TokenKind.{TokenKind};

    ghost Value = { TokenKind × Span };

    ghost view = { λ t. (t.kind, t.span) };
}
