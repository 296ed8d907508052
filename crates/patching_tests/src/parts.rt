//! Parts that are found by their location, and programs that are changed there.

use crate::build::{boxed, digit, item, name, program, span};
use c_location::{Change, Part, change_at, part_at};
use c_tree::{
    BinOp, Expr, ExprNode, Loc, LocKind, NoMemory, Program, Span, StmtNode, same_expr, same_tree,
};
use std::alloc::Global;
use std::test::Fail;

const FIRST: Span = Span { from: 3, to: 8 };

const SECOND: Span = Span { from: 3, to: 9 };

/// `while (FIRST) if (SECOND) inside`
fn nested(alloc: Global, first: Expr, second: Expr, inside: StmtNode) -> Result<Program, NoMemory> {
    let inner = StmtNode::If {
        test: second,
        yes: boxed(alloc, inside, FIRST)?,
        no: None,
    };
    let outer = StmtNode::While {
        test: first,
        body: boxed(alloc, inner, FIRST)?,
    };
    let mut items = Vec::new(alloc);
    items.push(item(outer, FIRST))?;
    program(alloc, items)
}

/// `while (a) if (b) break;`
fn plain(alloc: Global) -> Result<Program, NoMemory> {
    let first = name(alloc, b'a', FIRST)?;
    let second = name(alloc, b'b', SECOND)?;
    nested(alloc, first, second, StmtNode::Break)
}

/// `b OP 1`
fn joined(alloc: Global, op: BinOp) -> Result<Expr, NoMemory> {
    let node = ExprNode::Binary {
        op,
        left: Box::new(alloc, name(alloc, b'b', SECOND)?)?,
        right: Box::new(alloc, digit(alloc, FIRST)?)?,
    };
    Ok(Expr { node, span: SECOND })
}

#[test]
fn a_part_is_found_by_its_kind_and_its_whole_text(rt: HostRuntime) -> Result<(), Fail> {
    let alloc = rt.alloc();
    let program = plain(alloc)?;
    for (at, letter) in [(FIRST, b'a'), (SECOND, b'b')] {
        let want = name(alloc, letter, at)?;
        let kind = LocKind::Cond;
        let found = part_at(&program, &Loc { kind, at });
        assert!(rt; matches!(found, Some(Part::Expr(e)) if same_expr(e, &want)));
    }
    for (kind, at, found) in [
        (LocKind::Guard, FIRST, true),
        (LocKind::Guard, SECOND, false),
        (LocKind::Cond, span(2, 8), false),
        (LocKind::Right, FIRST, false),
    ] {
        assert_eq!(rt; part_at(&program, &Loc { kind, at }).is_some(), found);
    }
    Ok(())
}

#[test]
fn a_change_changes_one_condition(rt: HostRuntime) -> Result<(), Fail> {
    let alloc = rt.alloc();
    let l = Loc {
        kind: LocKind::Cond,
        at: SECOND,
    };
    let new = digit(alloc, FIRST)?;
    for (change, second) in [
        (Change::Replaced(digit(alloc, FIRST)?), new),
        (
            Change::Narrowed(digit(alloc, FIRST)?),
            joined(alloc, BinOp::Both)?,
        ),
        (
            Change::Widened(digit(alloc, FIRST)?),
            joined(alloc, BinOp::Either)?,
        ),
        (
            Change::Guarded(digit(alloc, FIRST)?),
            name(alloc, b'b', SECOND)?,
        ),
    ] {
        let mut changed = plain(alloc)?;
        change_at(alloc, &mut changed, &l, &change)?;
        let want = nested(alloc, name(alloc, b'a', FIRST)?, second, StmtNode::Break)?;
        assert!(rt; same_tree(&changed, &want));
    }
    Ok(())
}

#[test]
fn a_guard_stands_round_its_statement(rt: HostRuntime) -> Result<(), Fail> {
    let alloc = rt.alloc();
    let l = Loc {
        kind: LocKind::Guard,
        at: FIRST,
    };
    let mut changed = plain(alloc)?;
    change_at(
        alloc,
        &mut changed,
        &l,
        &Change::Guarded(digit(alloc, FIRST)?),
    )?;
    let guard = StmtNode::If {
        test: digit(alloc, FIRST)?,
        yes: boxed(alloc, StmtNode::Break, FIRST)?,
        no: None,
    };
    let mut items = Vec::new(alloc);
    items.push(item(guard, FIRST))?;
    let first = name(alloc, b'a', FIRST)?;
    let second = name(alloc, b'b', SECOND)?;
    let want = nested(alloc, first, second, StmtNode::Block(items))?;
    assert!(rt; same_tree(&changed, &want));
    Ok(())
}
