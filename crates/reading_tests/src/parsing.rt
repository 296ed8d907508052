//! Programs as words with a space between them. The words are numbered from 0, and the word n
//! covers the bytes from n to n + 1.

mod faults;
mod nesting;
mod trees;

use c_lex::{Keyword, Punct, Token, TokenKind};
use c_parse::{ParseFault, parse};
use c_tree::{NoMemory, Span, Text};
use std::alloc::Global;
use std::test::Fail;

fn keyword(word: &[u8]) -> Option<Keyword> {
    match word {
        b"int" => Some(Keyword::Int),
        b"char" => Some(Keyword::Char),
        b"void" => Some(Keyword::Void),
        b"if" => Some(Keyword::If),
        b"else" => Some(Keyword::Else),
        b"while" => Some(Keyword::While),
        b"do" => Some(Keyword::Do),
        b"for" => Some(Keyword::For),
        b"return" => Some(Keyword::Return),
        b"break" => Some(Keyword::Break),
        b"continue" => Some(Keyword::Continue),
        b"goto" => Some(Keyword::Goto),
        _ => None,
    }
}

fn punct(word: &[u8]) -> Option<Punct> {
    match word {
        b"(" => Some(Punct::OpenParen),
        b")" => Some(Punct::CloseParen),
        b"[" => Some(Punct::OpenBracket),
        b"]" => Some(Punct::CloseBracket),
        b"{" => Some(Punct::OpenBrace),
        b"}" => Some(Punct::CloseBrace),
        b";" => Some(Punct::Semicolon),
        b"," => Some(Punct::Comma),
        b"?" => Some(Punct::Question),
        b":" => Some(Punct::Colon),
        b"=" => Some(Punct::Assign),
        b"+=" => Some(Punct::PlusAssign),
        b"+" => Some(Punct::Plus),
        b"-" => Some(Punct::Minus),
        b"*" => Some(Punct::Star),
        b"!" => Some(Punct::Not),
        b"++" => Some(Punct::Increment),
        b"--" => Some(Punct::Decrement),
        b"<" => Some(Punct::Less),
        b"&" => Some(Punct::And),
        b"||" => Some(Punct::OrOr),
        _ => None,
    }
}

fn kind(alloc: Global, word: &[u8]) -> Result<TokenKind, NoMemory> {
    if let Some(keyword) = keyword(word) {
        return Ok(TokenKind::Word(keyword));
    }
    if let Some(punct) = punct(word) {
        return Ok(TokenKind::Punct(punct));
    }
    let text = Text::new(word.to_vec(alloc)?);
    match word {
        [b'0'..=b'9', ..] => Ok(TokenKind::Const {
            value: 1,
            word: text,
        }),
        [b'"', ..] => Ok(TokenKind::Str(text)),
        _ => Ok(TokenKind::Name(text)),
    }
}

// The tokens of these words.
fn tokens(alloc: Global, words: &str) -> Result<Vec<Token>, NoMemory> {
    let mut tokens = Vec::new(alloc);
    let mut at: u32 = 0;
    for word in words.split(' ') {
        let to = at.wrapping_add(1);
        tokens.push(Token {
            kind: kind(alloc, word.as_bytes())?,
            span: Span { from: at, to },
        })?;
        at = to;
    }
    Ok(tokens)
}

// Whether these words are a program, or which is the first fault. The end is the place 99.
fn outcome(alloc: Global, words: &str) -> Result<Option<ParseFault>, NoMemory> {
    let tokens = tokens(alloc, words)?;
    match parse(alloc, &tokens, 99) {
        Ok(_) => Ok(None),
        Err(fault) => Ok(Some(fault)),
    }
}

#[test]
fn programs_are_read(rt: HostRuntime) -> Result<(), Fail> {
    let alloc = rt.alloc();
    let table = [
        "int a ;",
        "char a = 1 , b [ 2 ] = { 1 , 2 , } , c [ ] , d ;",
        "int f ( void ) ;",
        "void f ( int a , char b [ ] , int c [ 2 ] ) ;",
        "int f ( ) { int a = 1 ; a = 2 ; { char b ; } ; return a ; }",
        "int f ( ) { if ( a ) if ( b ) c ; else d ; else e ; }",
        "int f ( ) { while ( a ) { break ; continue ; } do a -- ; while ( a ) ; return ; }",
        "int f ( ) { for ( ; ; ) a ; for ( int i = 1 , j ; i < j ; i ++ , j -- ) { } }",
        "int f ( ) { for ( i = 1 ; ; i += 2 ) { } }",
        "int f ( ) { a [ i ] = b ( \"%d\" , & c , d , & e [ 1 ] ) + ( int ) - ! ++ c * 2 ; }",
        "int f ( ) { a = b += c ? d , e : f ? g : ( h , i ) || - 1 < 2 ; }",
    ];
    for words in table {
        assert_eq!(rt; outcome(alloc, words)?, None, "at {words}");
    }
    Ok(())
}

#[test]
fn first_faults_have_their_places(rt: HostRuntime) -> Result<(), Fail> {
    let alloc = rt.alloc();
    let table: [(&str, u32); 16] = [
        ("int", 99),
        ("a ;", 0),
        ("int a", 99),
        ("int a ; ;", 3),
        ("void a ;", 2),
        ("int a [ ] = 1 ;", 5),
        ("int a [ ] = { } ;", 6),
        ("int f ( int ) ;", 4),
        ("int f ( ) { goto a ; }", 5),
        ("int f ( ) { return 1 }", 7),
        ("int f ( ) { else ; }", 5),
        ("int f ( ) { a + b = c ; }", 8),
        ("int f ( ) { ( int ) a = c ; }", 9),
        ("int f ( ) { a ? b , c ; }", 10),
        ("int f ( ) { do ; while ( a ) }", 11),
        ("int f ( ) { a ( b , ) ; }", 9),
    ];
    for (words, at) in table {
        assert_eq!(rt;
            outcome(alloc, words)?,
            Some(ParseFault::Unexpected(at)),
            "at {words}"
        );
    }
    Ok(())
}

// A function with that many parentheses one in the other.
fn nested(alloc: Global, parens: usize) -> Result<Option<ParseFault>, NoMemory> {
    let mut tokens = tokens(alloc, "int f ( ) {")?;
    for _ in 0..parens {
        push_word(alloc, &mut tokens, "(")?;
    }
    push_word(alloc, &mut tokens, "a")?;
    for _ in 0..parens {
        push_word(alloc, &mut tokens, ")")?;
    }
    push_word(alloc, &mut tokens, ";")?;
    push_word(alloc, &mut tokens, "}")?;
    match parse(alloc, &tokens, 99) {
        Ok(_) => Ok(None),
        Err(fault) => Ok(Some(fault)),
    }
}

// Adds the token of a word.
fn push_word(alloc: Global, tokens: &mut Vec<Token>, word: &str) -> Result<(), NoMemory> {
    tokens.push(Token {
        kind: kind(alloc, word.as_bytes())?,
        span: Span { from: 7, to: 8 },
    })?;
    Ok(())
}

#[test]
fn sixty_four_openers_may_be_open(rt: HostRuntime) -> Result<(), Fail> {
    let alloc = rt.alloc();
    // The brace of the function is open as well.
    assert_eq!(rt; nested(alloc, 63)?, None);
    assert_eq!(rt; nested(alloc, 64)?, Some(ParseFault::TooDeep(7)));
    Ok(())
}
