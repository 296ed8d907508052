//! The messages for faults at places of a program.

use crate::fault::ProgramFault;
use crate::refusal::Refusal;
use crate::report::refuse;
use c_lex::LexFault;
use c_parse::ParseFault;
use fx_io::MemSink;
use std::alloc::Global;
use std::process::Abort;
use std::test::Fail;

/// What is wrong, and what is said of it.
const FAULTS: [(ProgramFault, &str); 13] = [
    (
        ProgramFault::Lex(LexFault::StrayByte(5)),
        "p.c:2:3: stray byte\n",
    ),
    (
        ProgramFault::Lex(LexFault::OpenComment(5)),
        "p.c:2:3: comment is not closed\n",
    ),
    (
        ProgramFault::Lex(LexFault::OpenLiteral(5)),
        "p.c:2:3: literal is not closed\n",
    ),
    (
        ProgramFault::Lex(LexFault::BadConstant(5)),
        "p.c:2:3: bad constant\n",
    ),
    (
        ProgramFault::Lex(LexFault::ConstantTooLarge(5)),
        "p.c:2:3: constant too large\n",
    ),
    (
        ProgramFault::Lex(LexFault::DirectiveLate(5)),
        "p.c:2:3: directive after the first declaration\n",
    ),
    (
        ProgramFault::Lex(LexFault::DirectiveUnknown(5)),
        "p.c:2:3: unknown directive\n",
    ),
    (
        ProgramFault::Lex(LexFault::MacroTwice(5)),
        "p.c:2:3: macro defined twice\n",
    ),
    (
        ProgramFault::Lex(LexFault::Digraph(5)),
        "p.c:2:3: digraph\n",
    ),
    (
        ProgramFault::Lex(LexFault::LineSplice(5)),
        "p.c:2:3: line splice\n",
    ),
    (
        ProgramFault::Lex(LexFault::Trigraph(5)),
        "p.c:2:3: trigraph\n",
    ),
    (
        ProgramFault::Parse(ParseFault::Unexpected(5)),
        "p.c:2:3: unexpected token\n",
    ),
    (
        ProgramFault::Parse(ParseFault::TooDeep(5)),
        "p.c:2:3: nested too deep\n",
    ),
];

// Writes the message for the refusal, at most ten bytes at a time.
fn refused(rt: &impl Abort, alloc: Global, refusal: Refusal, want: &str) -> Result<(), Fail> {
    let mut err = MemSink::new(alloc, 100, [1_000_000].to_vec(alloc)?, 10)?;
    let status = refuse(refusal, &mut err);
    assert_eq!(rt; status.number(), 4, "{want}");
    assert_eq!(rt; err.written(), want.as_bytes(), "{want}");
    Ok(())
}

#[test]
fn faults_have_messages_with_their_places(rt: HostRuntime) -> Result<(), Fail> {
    let alloc = rt.alloc();
    for (fault, want) in FAULTS {
        let refusal = Refusal::of_program("p.c", b"ab\ncd\n", fault);
        refused(&rt, alloc, refusal, want)?;
    }
    let long = Refusal::whole("p.c", ProgramFault::TooLong);
    refused(&rt, alloc, long, "p.c: too long\n")?;
    let far = Refusal::Program {
        name: "",
        fault: ProgramFault::Parse(ParseFault::TooDeep(0)),
        at: Some((65_537, 4_294_967_295)),
    };
    refused(&rt, alloc, far, ":65537:4294967295: nested too deep\n")
}
