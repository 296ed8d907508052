//! Sources with their tokens and their faults, by hand from the C standard.

use c_lex::{LexFault, Token, TokenKind, lex};
use c_tree::{Span, Text};
use std::alloc::Global;
use std::test::Fail;

// The bytes of a text in decimal where they aren't printing ASCII.
fn spelled(alloc: Global, text: &Text) -> Result<String, Fail> {
    let mut all = String::new(alloc);
    for byte in text.as_slice() {
        if (33..=126).contains(byte) {
            all.push(char::from(*byte))?;
        } else {
            let one = format!(in alloc; "[{byte}]")?;
            all.push_str(one.as_str())?;
        }
    }
    Ok(all)
}

fn shown(alloc: Global, token: &Token) -> Result<String, Fail> {
    let Span { from, to } = token.span;
    match &token.kind {
        TokenKind::Name(word) => {
            let word = spelled(alloc, word)?;
            Ok(format!(in alloc; "name:{word}@{from}-{to}")?)
        }
        TokenKind::Const { value, word } => {
            let word = spelled(alloc, word)?;
            Ok(format!(in alloc; "{value}:{word}@{from}-{to}")?)
        }
        TokenKind::Str(text) => {
            let text = spelled(alloc, text)?;
            Ok(format!(in alloc; "text:{text}@{from}-{to}")?)
        }
        TokenKind::Word(keyword) => Ok(format!(in alloc; "{keyword:?}@{from}-{to}")?),
        TokenKind::Punct(punct) => Ok(format!(in alloc; "{punct:?}@{from}-{to}")?),
    }
}

fn all_shown(alloc: Global, tokens: &[Token]) -> Result<String, Fail> {
    let mut all = String::new(alloc);
    for (place, token) in tokens.iter().enumerate() {
        if place > 0 {
            all.push_str(" ")?;
        }
        let one = shown(alloc, token)?;
        all.push_str(one.as_str())?;
    }
    Ok(all)
}

// Fails with the source whose tokens differ.
fn reads(alloc: Global, rows: &[(&str, &str)]) -> Result<(), Fail> {
    for (source, tokens) in rows {
        (source.len() < 1000).then_some(()).ok_or("too long")?;
        let found = lex(alloc, source.as_bytes())?;
        let found = all_shown(alloc, &found)?;
        (found.as_str() == *tokens).then_some(()).ok_or(*source)?;
    }
    Ok(())
}

// Fails with the source whose fault differs.
fn refuses(alloc: Global, rows: &[(&str, LexFault)]) -> Result<(), Fail> {
    for (source, fault) in rows {
        (source.len() < 1000).then_some(()).ok_or("too long")?;
        let found = lex(alloc, source.as_bytes()).err().ok_or("tokens")?;
        (found == *fault).then_some(()).ok_or(*source)?;
    }
    Ok(())
}

#[test]
fn cuts_words_and_marks(rt: HostRuntime) -> Result<(), Fail> {
    reads(
        rt.alloc(),
        &[
            ("", ""),
            (" \t\n\x0b\x0c\r", ""),
            (
                "int main(void){return 0;}",
                "Int@0-3 name:main@4-8 OpenParen@8-9 Void@9-13 CloseParen@13-14 \
                 OpenBrace@14-15 Return@15-21 0:0@22-23 Semicolon@23-24 CloseBrace@24-25",
            ),
            (
                "_x9 whilex While",
                "name:_x9@0-3 name:whilex@4-10 name:While@11-16",
            ),
            ("a+++b", "name:a@0-1 Increment@1-3 Plus@3-4 name:b@4-5"),
            ("a<<=b", "name:a@0-1 ShiftLeftAssign@1-4 name:b@4-5"),
            ("a->b", "name:a@0-1 Minus@1-2 Greater@2-3 name:b@3-4"),
            ("a/b", "name:a@0-1 Slash@1-2 name:b@2-3"),
            ("/ *b", "Slash@0-1 Star@2-3 name:b@3-4"),
            (
                "a?b:c",
                "name:a@0-1 Question@1-2 name:b@2-3 Colon@3-4 name:c@4-5",
            ),
            ("EOF", "-1:EOF@0-3"),
            ("EOFx", "name:EOFx@0-4"),
            ("L'a'", "name:L@0-1 97:'a'@1-4"),
        ],
    )
}

#[test]
fn passes_comments(rt: HostRuntime) -> Result<(), Fail> {
    reads(
        rt.alloc(),
        &[
            ("/**/x", "name:x@4-5"),
            ("a/*b*/c", "name:a@0-1 name:c@6-7"),
            ("a//b\nc", "name:a@0-1 name:c@5-6"),
            ("a//b", "name:a@0-1"),
            ("//", ""),
            ("/* // */x", "name:x@8-9"),
            ("// /*\nx", "name:x@6-7"),
            ("/***/x", "name:x@5-6"),
            ("/*/*/x", "name:x@5-6"),
            ("/* ' \" # @ */x", "name:x@13-14"),
            ("/*\n*/x", "name:x@5-6"),
        ],
    )
}

#[test]
fn cuts_numbers(rt: HostRuntime) -> Result<(), Fail> {
    reads(
        rt.alloc(),
        &[
            ("0", "0:0@0-1"),
            ("00", "0:00@0-2"),
            ("017", "15:017@0-3"),
            ("0x1F", "31:0x1F@0-4"),
            ("0XaB", "171:0XaB@0-4"),
            ("2147483647", "2147483647:2147483647@0-10"),
            ("017777777777", "2147483647:017777777777@0-12"),
            ("0x7fffffff", "2147483647:0x7fffffff@0-10"),
            ("0x000000000000000001", "1:0x000000000000000001@0-20"),
            ("1+1", "1:1@0-1 Plus@1-2 1:1@2-3"),
            ("1-e+1", "1:1@0-1 Minus@1-2 name:e@2-3 Plus@3-4 1:1@4-5"),
        ],
    )
}

#[test]
fn cuts_literals(rt: HostRuntime) -> Result<(), Fail> {
    reads(
        rt.alloc(),
        &[
            ("'a'", "97:'a'@0-3"),
            ("'\"'", "34:'\"'@0-3"),
            ("'\\''", "39:'\\''@0-4"),
            ("'\\\\'", "92:'\\\\'@0-4"),
            ("'\t'", "9:'[9]'@0-3"),
            ("' '", "32:'[32]'@0-3"),
            ("'\\n'", "10:'\\n'@0-4"),
            ("'\\0'", "0:'\\0'@0-4"),
            ("'\\177'", "127:'\\177'@0-6"),
            ("'\\200'", "-128:'\\200'@0-6"),
            ("'\\xff'", "-1:'\\xff'@0-6"),
            ("'\\x0000041'", "65:'\\x0000041'@0-11"),
            ("\"\"", "text:@0-2"),
            ("\"a'b\"", "text:a'b@0-5"),
            ("\"\\\"\"", "text:\"@0-4"),
            ("\"\\\\\"x", "text:\\@0-4 name:x@4-5"),
            ("\"\\0001\"", "text:[0]1@0-7"),
            ("\"\\x41g\"", "text:Ag@0-7"),
            (
                "\"\\a\\b\\f\\n\\r\\t\\v\\?\"",
                "text:[7][8][12][10][13][9][11]?@0-18",
            ),
            ("\"\x01/*\"", "text:[1]/*@0-5"),
        ],
    )
}

#[test]
fn reads_directives(rt: HostRuntime) -> Result<(), Fail> {
    reads(
        rt.alloc(),
        &[
            ("#include <stdio.h>\nx", "name:x@19-20"),
            ("#include<stdlib.h>", ""),
            (" # include /**/ <stdio.h> // c\nx", "name:x@31-32"),
            ("#include <stdio.h>\n#include <stdio.h>\n", ""),
            ("/* c */ #include <stdio.h>/*\n*/\nx", "name:x@32-33"),
            ("#define N 3\nN", "3:N@12-13"),
            ("#define N -3\nN", "-3:N@13-14"),
            ("#define N ( - 0x10 )\nN", "-16:N@21-22"),
            ("#define N (017)\nN NN", "15:N@16-17 name:NN@18-20"),
            ("#\tdefine/**/N/**/(/**/-/**/1/**/)/**/\nN", "-1:N@38-39"),
            ("#define A 1\n#define B 2\nB A", "2:B@24-25 1:A@26-27"),
            ("#define N 2147483647\nN", "2147483647:N@21-22"),
            ("#define N -2147483647//\nN", "-2147483647:N@24-25"),
            ("#define N/*\n\n*/1\nN", "1:N@17-18"),
            ("#include /* \" ' */ <stdio.h>\nx", "name:x@29-30"),
        ],
    )
}

#[test]
fn finds_each_fault(rt: HostRuntime) -> Result<(), Fail> {
    refuses(
        rt.alloc(),
        &[
            ("@", LexFault::StrayByte(0)),
            ("a.b", LexFault::StrayByte(1)),
            ("x\0", LexFault::StrayByte(1)),
            ("x /*", LexFault::OpenComment(2)),
            ("/*/", LexFault::OpenComment(0)),
            ("x 'a", LexFault::OpenLiteral(2)),
            ("\"a\n\"", LexFault::OpenLiteral(0)),
            ("'\\'", LexFault::OpenLiteral(0)),
            ("\"\\\\\\\"", LexFault::OpenLiteral(0)),
            ("08", LexFault::BadConstant(0)),
            ("x 2147483648", LexFault::ConstantTooLarge(2)),
            ("x #", LexFault::DirectiveLate(2)),
            (" #", LexFault::DirectiveUnknown(1)),
            ("#define N 1\n#define N 1\n", LexFault::MacroTwice(20)),
            ("#define EOF 1", LexFault::MacroTwice(8)),
            ("x<:", LexFault::Digraph(1)),
            ("x\\\ny", LexFault::LineSplice(1)),
            ("x\\\r\ny", LexFault::LineSplice(1)),
            ("\"??/\"", LexFault::Trigraph(1)),
            ("???=", LexFault::Trigraph(1)),
        ],
    )
}

#[test]
fn refuses_bad_constants(rt: HostRuntime) -> Result<(), Fail> {
    refuses(
        rt.alloc(),
        &[
            ("0x", LexFault::BadConstant(0)),
            ("1x", LexFault::BadConstant(0)),
            ("1.", LexFault::BadConstant(0)),
            ("1e+1", LexFault::BadConstant(0)),
            ("1_", LexFault::BadConstant(0)),
            ("1u", LexFault::BadConstant(0)),
            ("037777777777", LexFault::ConstantTooLarge(0)),
            ("0x80000000", LexFault::ConstantTooLarge(0)),
            ("99999999999999999999999999", LexFault::ConstantTooLarge(0)),
            ("''", LexFault::BadConstant(0)),
            ("'ab'", LexFault::BadConstant(0)),
            ("'\\0001'", LexFault::BadConstant(0)),
            ("'\\400'", LexFault::BadConstant(0)),
            ("'\\x100'", LexFault::BadConstant(0)),
            ("'\\x'", LexFault::BadConstant(0)),
            ("'\\q'", LexFault::BadConstant(0)),
            ("'\x7f'", LexFault::BadConstant(0)),
            ("\"\\q\"", LexFault::BadConstant(0)),
            ("\"\\777\"", LexFault::BadConstant(0)),
            ("x \"a\\x\"", LexFault::BadConstant(2)),
        ],
    )
}

#[test]
fn refuses_directives(rt: HostRuntime) -> Result<(), Fail> {
    refuses(
        rt.alloc(),
        &[
            ("#include \"stdio.h\"", LexFault::DirectiveUnknown(0)),
            ("#include <math.h>", LexFault::DirectiveUnknown(0)),
            ("#include < stdio.h>", LexFault::DirectiveUnknown(0)),
            ("#include <stdio.h> x", LexFault::DirectiveUnknown(0)),
            ("#if 1", LexFault::DirectiveUnknown(0)),
            ("#define", LexFault::DirectiveUnknown(0)),
            ("#define N", LexFault::DirectiveUnknown(0)),
            ("#define N(1)", LexFault::DirectiveUnknown(0)),
            ("#define N-1", LexFault::DirectiveUnknown(0)),
            ("#define N 1x", LexFault::DirectiveUnknown(0)),
            ("#define N 08", LexFault::DirectiveUnknown(0)),
            ("#define N 1 2", LexFault::DirectiveUnknown(0)),
            ("#define N (1", LexFault::DirectiveUnknown(0)),
            ("#define N ((1))", LexFault::DirectiveUnknown(0)),
            ("#define N -(1)", LexFault::DirectiveUnknown(0)),
            ("#define N --1", LexFault::DirectiveUnknown(0)),
            ("#define N 'a'", LexFault::DirectiveUnknown(0)),
            ("#define while 1", LexFault::DirectiveUnknown(0)),
            ("#define 1 1", LexFault::DirectiveUnknown(0)),
            ("#definexN 1", LexFault::DirectiveUnknown(0)),
        ],
    )
}

#[test]
fn finds_the_first_of_two_faults(rt: HostRuntime) -> Result<(), Fail> {
    refuses(
        rt.alloc(),
        &[
            ("@ \\\n", LexFault::LineSplice(2)),
            ("@ /* ??= */", LexFault::Trigraph(5)),
            ("??! \\\n", LexFault::Trigraph(0)),
            ("\\\n ??!", LexFault::LineSplice(0)),
            ("#if /*", LexFault::OpenComment(4)),
            ("#define EOF 1 /*", LexFault::OpenComment(14)),
            ("#define EOF 1x", LexFault::DirectiveUnknown(0)),
            ("#define EOF 2147483648", LexFault::MacroTwice(8)),
            ("#define N - ( 2147483648 )", LexFault::DirectiveUnknown(0)),
            ("#define N ( - 2147483648 )", LexFault::ConstantTooLarge(14)),
            (
                "#/**/define N/**/2147483648",
                LexFault::ConstantTooLarge(17),
            ),
            ("'ab' @", LexFault::BadConstant(0)),
            ("@ 'ab'", LexFault::StrayByte(0)),
            ("'\\q", LexFault::OpenLiteral(0)),
            ("08 2147483648", LexFault::BadConstant(0)),
            ("%: #", LexFault::Digraph(0)),
            ("x\n#define EOF 1", LexFault::DirectiveLate(2)),
            ("#if\n@", LexFault::DirectiveUnknown(0)),
            ("\"a // /*\n @", LexFault::OpenLiteral(0)),
        ],
    )
}

#[test]
fn says_the_faults(rt: HostRuntime) -> Result<(), Fail> {
    for (fault, words) in [
        (LexFault::StrayByte(0), "stray byte"),
        (LexFault::OpenComment(0), "comment is not closed"),
        (LexFault::OpenLiteral(0), "literal is not closed"),
        (LexFault::BadConstant(0), "bad constant"),
        (LexFault::ConstantTooLarge(0), "constant too large"),
        (
            LexFault::DirectiveLate(0),
            "directive after the first declaration",
        ),
        (LexFault::DirectiveUnknown(0), "unknown directive"),
        (LexFault::MacroTwice(0), "macro defined twice"),
        (LexFault::Digraph(0), "digraph"),
        (LexFault::LineSplice(0), "line splice"),
        (LexFault::Trigraph(0), "trigraph"),
    ] {
        let found = format!(in rt.alloc(); "{fault}")?;
        assert_eq!(rt; found.as_str(), words);
    }
    Ok(())
}
