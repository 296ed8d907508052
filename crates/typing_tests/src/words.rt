//! How the faults of a source are displayed: in words, without their places.

use c_lex::LexFault;
use c_parse::ParseFault;
use c_types::TypeFault;
use std::test::Fail;

/// Faults of the tokens.
const OF_TOKENS: &[(LexFault, &str)] = &[
    (LexFault::StrayByte(1), "stray byte"),
    (LexFault::OpenComment(1), "comment is not closed"),
    (LexFault::OpenLiteral(1), "literal is not closed"),
    (LexFault::BadConstant(1), "bad constant"),
    (LexFault::ConstantTooLarge(1), "constant too large"),
    (
        LexFault::DirectiveLate(1),
        "directive after the first declaration",
    ),
    (LexFault::DirectiveUnknown(1), "unknown directive"),
    (LexFault::MacroTwice(1), "macro defined twice"),
    (LexFault::Digraph(1), "digraph"),
    (LexFault::LineSplice(1), "line splice"),
    (LexFault::Trigraph(1), "trigraph"),
    (LexFault::NoMemory, "out of memory"),
];

/// Faults of the grammar.
const OF_GRAMMAR: &[(ParseFault, &str)] = &[
    (ParseFault::Unexpected(1), "unexpected token"),
    (ParseFault::TooDeep(1), "nested too deep"),
    (ParseFault::NoMemory, "out of memory"),
];

/// Faults of names and kinds.
const OF_KINDS: &[(TypeFault, &str)] = &[
    (TypeFault::Unknown(1), "unknown name"),
    (TypeFault::Twice(1), "declared twice"),
    (TypeFault::WrongKind(1), "wrong kind"),
    (TypeFault::WrongCount(1), "wrong count"),
    (TypeFault::NotPlace(1), "not a place"),
    (TypeFault::NotConstant(1), "not a constant"),
    (TypeFault::BadArrayLength(1), "bad array length"),
    (TypeFault::LoopOnly(1), "outside a loop"),
    (TypeFault::BadFormat(1), "bad format"),
    (TypeFault::NoMain(1), "no main"),
    (TypeFault::NoMemory, "out of memory"),
];

#[test]
fn faults_are_displayed_in_words(rt: HostRuntime) -> Result<(), Fail> {
    let alloc = rt.alloc();
    for (fault, want) in OF_TOKENS {
        let text = format!(in alloc; "{fault}")?;
        assert_eq!(rt; text.as_str(), *want);
    }
    for (fault, want) in OF_GRAMMAR {
        let text = format!(in alloc; "{fault}")?;
        assert_eq!(rt; text.as_str(), *want);
    }
    for (fault, want) in OF_KINDS {
        let text = format!(in alloc; "{fault}")?;
        assert_eq!(rt; text.as_str(), *want);
    }
    Ok(())
}
