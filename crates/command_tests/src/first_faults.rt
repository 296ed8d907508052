//! What crosses the crates below: the first faults of sources by the calls that read them, and how
//! many patches of a large program are tried.

use c_lex::{LexFault, lex};
use c_parse::{ParseFault, parse};
use c_types::check;
use patch_space::Space;
use std::alloc::{AllocError, Global};
use std::test::Fail;

// A program with so many conditions. Each has 36 patches: the five other comparisons; 0 and 1 in
// place of either side, and one more and one less than the right side; its negation; and with `&&`
// and with `||` each of the twelve comparisons of the variable with 0 and with 1.
fn program_of(alloc: Global, conditions: usize) -> Result<Vec<u8>, AllocError> {
    let mut source = b"int main(void) { int a; ".to_vec(alloc)?;
    for _ in 0..conditions {
        source.extend_from_slice(b"if (a < a) { }")?;
    }
    source.extend_from_slice(b" }")?;
    Ok(source)
}

#[test]
fn tries_the_first_patches_by_rank(rt: HostRuntime) -> Result<(), Fail> {
    for (conditions, most, patches) in [
        (1, 100, 36u32),
        (2, 100, 72),
        (3, 100, 100),
        (3, 1_000, 108),
        (3, 1, 1),
    ] {
        let source = program_of(rt.alloc(), conditions)?;
        assert!(rt; source.len() < 65_536);
        let end = source.len() as u32;
        let tokens = lex(rt.alloc(), &source)?;
        let program = check(rt.alloc(), parse(rt.alloc(), &tokens, end)?, end)?;
        match Space::build(rt.alloc(), &program, most) {
            Ok(space) => assert_eq!(rt; space.len(), patches),
            Err(_) => assert!(rt; false),
        }
    }
    Ok(())
}

#[test]
fn lex_finds_the_first_fault(rt: HostRuntime) -> Result<(), Fail> {
    for (source, fault) in [
        ("int main(void){ return @; }", LexFault::StrayByte(23)),
        ("int main(void){} /* x", LexFault::OpenComment(17)),
        ("int main(void){ putchar('a); }", LexFault::OpenLiteral(24)),
        ("int main(void) { return 08; }", LexFault::BadConstant(24)),
        (
            "int main(void) { return 2147483648; }",
            LexFault::ConstantTooLarge(24),
        ),
        (
            "int main(void) { return 0; } #define N 1",
            LexFault::DirectiveLate(29),
        ),
        ("#pragma once", LexFault::DirectiveUnknown(0)),
        ("#define N 1\n#define N 2", LexFault::MacroTwice(20)),
        ("int main(void) <% %>", LexFault::Digraph(15)),
        (
            "int main(void) { return 0; } /* ??= */",
            LexFault::Trigraph(32),
        ),
        ("// \\\n", LexFault::LineSplice(3)),
    ] {
        (source.len() < 1_000).then_some(()).ok_or("too long")?;
        assert_eq!(rt;
            lex(rt.alloc(), source.as_bytes()).err(),
            Some(fault),
            "{source}"
        );
    }
    Ok(())
}

// The fault of the tokens of this source.
fn unread(alloc: Global, source: &[u8]) -> Result<Option<ParseFault>, Fail> {
    let end = u32::try_from(source.len()).ok().ok_or("too long")?;
    (source.len() < 1_000).then_some(()).ok_or("too long")?;
    let tokens = lex(alloc, source)?;
    match parse(alloc, &tokens, end) {
        Ok(_) => Ok(None),
        Err(fault) => Ok(Some(fault)),
    }
}

#[test]
fn parse_finds_the_first_fault(rt: HostRuntime) -> Result<(), Fail> {
    let alloc = rt.alloc();
    let early = unread(alloc, b"int main(void) { return 1 }")?;
    assert_eq!(rt; early, Some(ParseFault::Unexpected(26)));
    assert_eq!(rt; unread(alloc, b"")?, Some(ParseFault::Unexpected(0)));
    for (depth, fault) in [(63, None), (64, Some(ParseFault::TooDeep(85)))] {
        let mut source = b"int main(void){return ".to_vec(alloc)?;
        for _ in 0..depth {
            source.push(b'(')?;
        }
        source.push(b'0')?;
        for _ in 0..depth {
            source.push(b')')?;
        }
        source.extend_from_slice(b";}")?;
        assert_eq!(rt; unread(alloc, &source)?, fault, "{depth}");
    }
    Ok(())
}
