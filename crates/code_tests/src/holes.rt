//! One program without a hole, and with a hole at a location of each kind.

use c_lex::lex;
use c_location::locations;
use c_parse::parse;
use c_types::check;
use interp_code::{Code, Node, flatten};
use std::alloc::Global;
use std::test::Fail;

/// Its locations are, in text order: the right side `1`, the condition `a`, the guard `a = 0;`, the right side `0`, the
/// guard `return 0;` and the right side `0`.
const PLAIN: &str = "int main(void) { int a = 1; if (a) a = 0; return 0; }";

/// Its first location but one is a condition that has an effect.
const IMPURE: &str = "int main(void) { int a = 1; if (a = 0) return 1; return 0; }";

/// The code of a program, with a hole at the location of that number.
pub fn code_of(alloc: Global, source: &str, hole: Option<usize>) -> Result<Code, Fail> {
    (source.len() < 10_000).then_some(()).ok_or("too long")?;
    let end = source.len() as u32;
    let tokens = lex(alloc, source.as_bytes())?;
    let program = check(alloc, parse(alloc, &tokens, end)?, end)?;
    let Some(hole) = hole else {
        return Ok(flatten(alloc, &program, None)?);
    };
    let listed = locations(alloc, program.program())?;
    let location = listed.get(hole).ok_or("no such location")?;
    Ok(flatten(alloc, &program, Some(location))?)
}

/// The ends of `main` are the places 0 to 2, `return 0;` begins at 6, `a = 0;` at 11, the `if` at 15 and `int a = 1;` at
/// 21. The call of `main` is the last node.
#[test]
fn no_hole(rt: HostRuntime) -> Result<(), Fail> {
    let code = code_of(rt.alloc(), PLAIN, None)?;
    assert_eq!(rt; code.len(), 24);
    assert_eq!(rt; code.start(), 23);
    assert_eq!(rt; code.routine(0).map(|main| main.start), Some(21));
    assert!(rt; code.routine(1).is_none());
    assert!(rt; matches!(code.node(12), Node::Fork { zero: 6, other: 11 }));
    assert!(rt; matches!(code.node(18), Node::Push { value: 1, next: 17 }));
    assert!(rt; matches!(code.node(21), Node::Spend { next: 20 }));
    Ok(())
}

/// The hole is one node in the place of one.
#[test]
fn hole_at_right_side(rt: HostRuntime) -> Result<(), Fail> {
    let code = code_of(rt.alloc(), PLAIN, Some(0))?;
    assert_eq!(rt; code.len(), 24);
    assert!(rt; matches!(code.node(18), Node::Ask { next: 17 }));
    Ok(())
}

/// The hole is one node in the place of the two of a variable.
#[test]
fn hole_at_condition(rt: HostRuntime) -> Result<(), Fail> {
    let code = code_of(rt.alloc(), PLAIN, Some(1))?;
    assert_eq!(rt; code.len(), 23);
    assert!(rt; matches!(code.node(13), Node::Ask { next: 12 }));
    Ok(())
}

/// The value of the condition comes first.
#[test]
fn hole_at_condition_with_effect(rt: HostRuntime) -> Result<(), Fail> {
    let code = code_of(rt.alloc(), IMPURE, Some(1))?;
    assert!(rt; code.len() > 13);
    assert!(rt; matches!(code.node(11), Node::Fork { zero: 6, other: 10 }));
    assert!(rt; matches!(code.node(12), Node::AskAfter { next: 11 }));
    assert!(rt; matches!(code.node(13), Node::Keep { next: 12, .. }));
    Ok(())
}

/// Round the statement stand a scope with its three ways out, at 7 to 9, and the test of an `if`, of four nodes.
#[test]
fn hole_at_guard(rt: HostRuntime) -> Result<(), Fail> {
    let code = code_of(rt.alloc(), PLAIN, Some(2))?;
    assert_eq!(rt; code.len(), 31);
    assert!(rt; matches!(code.node(7), Node::CloseScope { next: 6 }));
    assert!(rt; matches!(code.node(15), Node::Fork { zero: 7, other: 14 }));
    assert!(rt; matches!(code.node(16), Node::Ask { next: 15 }));
    assert!(rt; matches!(code.node(18), Node::OpenScope { next: 17 }));
    Ok(())
}
