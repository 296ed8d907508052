//! What the grammar sees of each kind of token, by the tables of C11 6.4.1, 6.4.6 and 6.5.

use super::*;
use c_tree::Text;
use std::test::Fail;

#[test]
fn words_have_their_terminals(rt: HostRuntime) -> Result<(), Fail> {
    for (keyword, terminal) in [
        (Keyword::Int, Terminal::Type(Ty::Int)),
        (Keyword::Char, Terminal::Type(Ty::Char)),
        (Keyword::Void, Terminal::Void),
        (Keyword::If, Terminal::If),
        (Keyword::Else, Terminal::Else),
        (Keyword::While, Terminal::While),
        (Keyword::Do, Terminal::Do),
        (Keyword::For, Terminal::For),
        (Keyword::Return, Terminal::Return),
        (Keyword::Break, Terminal::Break),
        (Keyword::Continue, Terminal::Continue),
        (Keyword::Struct, Terminal::Other),
        (Keyword::Sizeof, Terminal::Other),
    ] {
        assert_eq!(rt; terminal_of(&TokenKind::Word(keyword)), terminal);
    }
    let name = Text::new(b"a".to_vec(rt.alloc())?);
    assert_eq!(rt; terminal_of(&TokenKind::Name(name)), Terminal::Name);
    let text = Text::new(b"%d".to_vec(rt.alloc())?);
    assert_eq!(rt; terminal_of(&TokenKind::Str(text)), Terminal::Text);
    let word = Text::new(b"7".to_vec(rt.alloc())?);
    assert_eq!(rt;
        terminal_of(&TokenKind::Const { value: 7, word }),
        Terminal::Constant
    );
    Ok(())
}

#[test]
fn punctuators_have_their_terminals(rt: HostRuntime) -> Result<(), Fail> {
    for (punct, terminal) in [
        (Punct::OpenParen, Terminal::OpenParen),
        (Punct::CloseBracket, Terminal::CloseBracket),
        (Punct::OpenBrace, Terminal::OpenBrace),
        (Punct::Semicolon, Terminal::Semicolon),
        (Punct::Question, Terminal::Question),
        (Punct::Not, Terminal::Prefix(UnOp::Flip)),
        (Punct::Tilde, Terminal::Prefix(UnOp::Compl)),
        (Punct::Increment, Terminal::Bump(true)),
        (Punct::Decrement, Terminal::Bump(false)),
        (Punct::Assign, Terminal::Assign(None)),
        (Punct::ShiftLeftAssign, Terminal::Assign(Some(BinOp::Shl))),
        (Punct::XorAssign, Terminal::Assign(Some(BinOp::BitXor))),
        (Punct::Minus, Terminal::Binary(BinOp::Sub)),
        (Punct::And, Terminal::Binary(BinOp::BitAnd)),
        (Punct::AndAnd, Terminal::Binary(BinOp::Both)),
        (Punct::Or, Terminal::Binary(BinOp::BitOr)),
        (Punct::OrOr, Terminal::Binary(BinOp::Either)),
        (Punct::LessEqual, Terminal::Binary(BinOp::Le)),
    ] {
        assert_eq!(rt; terminal_of(&TokenKind::Punct(punct)), terminal);
    }
    Ok(())
}
