//! Programs whose locations are listed by hand.

use crate::build::{
    checked, declaration, digit, name, program, row_of_statements, span, statements,
};
use c_location::{LocFault, locations};
use c_tree::{BinOp, Expr, ExprNode, Init, Item, Loc, LocKind, NoMemory, Span, Stmt, StmtNode};
use std::alloc::Global;
use std::test::Fail;

fn assign(
    alloc: Global,
    op: Option<BinOp>,
    place: Expr,
    value: Expr,
    at: Span,
) -> Result<Expr, NoMemory> {
    let node = ExprNode::Assign {
        op,
        place: Box::new(alloc, place)?,
        value: Box::new(alloc, value)?,
    };
    Ok(Expr { node, span: at })
}

/// `a = 1`, with the spans of the whole and of the number.
fn assign_digit(alloc: Global, at: Span, value: Span) -> Result<Expr, NoMemory> {
    assign(
        alloc,
        None,
        name(alloc, b'a', at)?,
        digit(alloc, value)?,
        at,
    )
}

fn block(alloc: Global, only: StmtNode, at: Span) -> Result<Box<Stmt>, NoMemory> {
    let mut items = Vec::new(alloc);
    items.push(Item::Stmt(Stmt {
        node: only,
        span: at,
    }))?;
    Ok(Box::new(
        alloc,
        Stmt {
            node: StmtNode::Block(items),
            span: at,
        },
    )?)
}

/// `a=a=8;` and `a+=a=9;`
fn add_assignments(alloc: Global, items: &mut Vec<Item>) -> Result<(), NoMemory> {
    let plain = assign_digit(alloc, span(11, 14), span(13, 14))?;
    let outer = assign(
        alloc,
        None,
        name(alloc, b'a', span(9, 10))?,
        plain,
        span(9, 14),
    )?;
    items.push(Item::Stmt(Stmt {
        node: StmtNode::Act(outer),
        span: span(9, 15),
    }))?;
    let plain = assign_digit(alloc, span(19, 22), span(21, 22))?;
    let outer = assign(
        alloc,
        Some(BinOp::Add),
        name(alloc, b'a', span(16, 17))?,
        plain,
        span(16, 22),
    )?;
    items.push(Item::Stmt(Stmt {
        node: StmtNode::Act(outer),
        span: span(16, 23),
    }))?;
    Ok(())
}

/// `if(a=1){break;}else{}` and `do{continue;}while(a);`
fn add_branch_and_loop(alloc: Global, items: &mut Vec<Item>) -> Result<(), NoMemory> {
    let test = assign_digit(alloc, span(27, 30), span(29, 30))?;
    let yes = block(alloc, StmtNode::Break, span(32, 38))?;
    let no = block(alloc, StmtNode::Empty, span(43, 45))?;
    items.push(Item::Stmt(Stmt {
        node: StmtNode::If {
            test,
            yes,
            no: Some(no),
        },
        span: span(24, 45),
    }))?;
    let body = block(alloc, StmtNode::Continue, span(49, 58))?;
    let test = name(alloc, b'a', span(65, 66))?;
    items.push(Item::Stmt(Stmt {
        node: StmtNode::Do { body, test },
        span: span(46, 68),
    }))?;
    Ok(())
}

/// `for(a=2;a;a=3)return a;` and `return;`
fn add_for_and_return(alloc: Global, items: &mut Vec<Item>) -> Result<(), NoMemory> {
    let init = Init::Act(assign_digit(alloc, span(73, 76), span(75, 76))?);
    let test = Some(name(alloc, b'a', span(77, 78))?);
    let step = Some(assign_digit(alloc, span(79, 82), span(81, 82))?);
    let value = Some(name(alloc, b'a', span(90, 91))?);
    let body = Box::new(
        alloc,
        Stmt {
            node: StmtNode::Return(value),
            span: span(83, 92),
        },
    )?;
    items.push(Item::Stmt(Stmt {
        node: StmtNode::For {
            init,
            test,
            step,
            body,
        },
        span: span(69, 92),
    }))?;
    items.push(Item::Stmt(Stmt {
        node: StmtNode::Return(None),
        span: span(93, 100),
    }))?;
    Ok(())
}

/// `int a=1; a=a=8; a+=a=9; if(a=1){break;}else{} do{continue;}while(a); for(a=2;a;a=3)return a; return;`
#[test]
fn each_kind_stands_in_text_order(rt: HostRuntime) -> Result<(), Fail> {
    let alloc = rt.alloc();
    let mut items = Vec::new(alloc);
    items.push(declaration(alloc)?)?;
    add_assignments(alloc, &mut items)?;
    add_branch_and_loop(alloc, &mut items)?;
    add_for_and_return(alloc, &mut items)?;
    let found = locations(alloc, &program(alloc, items)?)?;
    let want = [
        (LocKind::Right, 6, 7),
        (LocKind::Guard, 9, 15),
        (LocKind::Right, 11, 14),
        (LocKind::Right, 13, 14),
        (LocKind::Guard, 16, 23),
        (LocKind::Right, 21, 22),
        (LocKind::Cond, 27, 30),
        (LocKind::Right, 29, 30),
        (LocKind::Guard, 32, 38),
        (LocKind::Guard, 49, 58),
        (LocKind::Cond, 65, 66),
        (LocKind::Right, 75, 76),
        (LocKind::Cond, 77, 78),
        (LocKind::Right, 81, 82),
        (LocKind::Guard, 83, 92),
        (LocKind::Right, 90, 91),
        (LocKind::Guard, 93, 100),
    ];
    assert_eq!(rt; found.len(), want.len());
    for (loc, (kind, from, to)) in found.iter().zip(want) {
        assert_eq!(rt;
            *loc,
            Loc {
                kind,
                at: span(from, to)
            }
        );
    }
    Ok(())
}

/// Locations in one another, in parentheses, in lists and in loops.
const NESTED: &str = "int g = 5;
int f(int a) { return(a); }
int main(void) {
    int a, b = (2);
    while ((a = b = 1) < 2) { if ((a)) return a = 3; }
    for (int i = a; i < 2; i = i + 1) if (b) { b; } else break;
    do b += a = 4; while (!(a)/* a */);
    int c[2] = {1, a = 6};
    for (;;) continue;
}";

/// Their kinds and texts.
const KINDS_AND_TEXTS: [(LocKind, &str); 21] = [
    (LocKind::Guard, "return(a);"),
    (LocKind::Right, "(a)"),
    (LocKind::Right, "(2)"),
    (LocKind::Cond, "(a = b = 1) < 2"),
    (LocKind::Right, "b = 1"),
    (LocKind::Right, "1"),
    (LocKind::Cond, "(a)"),
    (LocKind::Guard, "return a = 3;"),
    (LocKind::Right, "a = 3"),
    (LocKind::Right, "3"),
    (LocKind::Right, "a"),
    (LocKind::Cond, "i < 2"),
    (LocKind::Right, "i + 1"),
    (LocKind::Cond, "b"),
    (LocKind::Guard, "b;"),
    (LocKind::Guard, "break;"),
    (LocKind::Guard, "b += a = 4;"),
    (LocKind::Right, "4"),
    (LocKind::Cond, "!(a)"),
    (LocKind::Right, "6"),
    (LocKind::Guard, "continue;"),
];

#[test]
fn nested_parts_stand_in_text_order(rt: HostRuntime) -> Result<(), Fail> {
    let alloc = rt.alloc();
    let program = checked(alloc, NESTED.as_bytes())?;
    let found = schemas::locations(alloc, &program)?;
    assert_eq!(rt; found.len(), KINDS_AND_TEXTS.len());
    for (loc, (kind, text)) in found.iter().zip(KINDS_AND_TEXTS) {
        let place = loc.at.from as usize..loc.at.to as usize;
        let part = NESTED.as_bytes().get(place).ok_or("no such place")?;
        assert_eq!(rt; loc.kind, kind, "{text}");
        assert_eq!(rt; part, text.as_bytes(), "{text}");
    }
    Ok(())
}

#[test]
fn more_than_the_limit_are_refused(rt: HostRuntime) -> Result<(), Fail> {
    let alloc = rt.alloc();
    let checked = row_of_statements(alloc, 4095)?;
    assert_eq!(rt; schemas::locations(alloc, &checked)?.len(), 4096);
    for (count, all) in [(4096, 4097), (4999, 5000)] {
        let refused = locations(alloc, &program(alloc, statements(alloc, count)?)?);
        assert!(rt; matches!(refused, Err(LocFault::TooMany(n)) if n == all));
    }
    Ok(())
}
