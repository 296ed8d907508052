//! Sources in which an `@` marks a place, and what is said of them. No token of C begins with `@`, so the source is
//! the text without it.

ghost use Rattle.std.specs.Prelude.{◌<◌, length, IfOk, OnOk};
ghost use Rattle.c_tree.specs.Order.{ProgramIn};
ghost use Rattle.c_tree.specs.Views.{program as tree_program};

use c_lex::lex;
use c_parse::parse;
use c_tree::Program;
use c_types::{TypeFault, check};
use std::alloc::Global;
use std::test::Fail;

/// A rule of scopes and kinds.
#[derive(Clone, Copy, Debug, PartialEq, Eq)]
pub enum Rule {
    Unknown,
    Twice,
    WrongKind,
    WrongCount,
    NotPlace,
    NotConstant,
    BadArrayLength,
    LoopOnly,
    BadFormat,
    NoMain,
}

impl Rule {
    /// The fault of a program that breaks the rule there.
    pub fn broken_at(self, place: u32) -> TypeFault {
        match self {
            Rule::Unknown => TypeFault::Unknown(place),
            Rule::Twice => TypeFault::Twice(place),
            Rule::WrongKind => TypeFault::WrongKind(place),
            Rule::WrongCount => TypeFault::WrongCount(place),
            Rule::NotPlace => TypeFault::NotPlace(place),
            Rule::NotConstant => TypeFault::NotConstant(place),
            Rule::BadArrayLength => TypeFault::BadArrayLength(place),
            Rule::LoopOnly => TypeFault::LoopOnly(place),
            Rule::BadFormat => TypeFault::BadFormat(place),
            Rule::NoMain => TypeFault::NoMain(place),
        }
    }
}

/// A source, and the place of its mark; its end where it has none.
#[derive(Drop)]
pub struct Marked {
    pub source: Vec<u8>,
    pub place: u32,
}

/// The source that these texts are one after another, of which the middle one may have a mark.
pub fn without_mark(alloc: Global, before: &str, text: &str, after: &str) -> Result<Marked, Fail> {
    let mut source = before.as_bytes().to_vec(alloc)?;
    let mut mark = None;
    for byte in text.bytes() {
        if byte == b'@' {
            mark = Some(source.len());
        } else {
            source.push(byte)?;
        }
    }
    source.extend_from_slice(after.as_bytes())?;
    let place = mark.unwrap_or(source.len());
    let place = u32::try_from(place).ok().ok_or("too long")?;
    Ok(Marked { source, place })
}

/// The tree of a source without slots.
pub fn parsed(alloc: Global, source: &[u8]) -> Result<Program, Fail>
    ensures short { OnOk result (length source.now < 10000) }
    ensures ordered { IfOk result (λ p. ProgramIn 0 (length source.now) (tree_program p)) }
{
    (source.len() < 10_000).then_some(()).ok_or("too long")?;
    let tokens = lex(alloc, source)?;
    let end = source.len() as u32;
    Ok(parse(alloc, &tokens, end)?)
}

/// The first fault of a source, none where it is accepted.
pub fn first_fault(alloc: Global, source: &[u8]) -> Result<Option<TypeFault>, Fail> {
    let program = parsed(alloc, source)?;
    match check(alloc, program, source.len() as u32) {
        Ok(_) => Ok(None),
        Err(fault) => Ok(Some(fault)),
    }
}

/// Fails with the text that isn't refused by this rule at its mark.
pub fn breaks(
    alloc: Global,
    rule: Rule,
    before: &str,
    text: &str,
    after: &str,
) -> Result<(), Fail> {
    let Marked { source, place } = without_mark(alloc, before, text, after)?;
    let found = first_fault(alloc, &source)?;
    (found == Some(rule.broken_at(place)))
        .then_some(())
        .ok_or(text)?;
    Ok(())
}

/// Fails with the text that is refused.
pub fn keeps(alloc: Global, before: &str, text: &str, after: &str) -> Result<(), Fail> {
    let Marked { source, .. } = without_mark(alloc, before, text, after)?;
    let found = first_fault(alloc, &source)?;
    found.is_none().then_some(()).ok_or(text)?;
    Ok(())
}
