//! Spaces of small programs, and what their patches make of them.

use crate::build::{checked, comparison, row_of_statements, two_conditions};
use c_location::Change;
use c_tree::{BinOp, Span, same_expr, same_tree};
use patch_space::{Space, SpaceFault, apply, changed};
use schemas::Edit;
use std::test::Fail;

/// The conditions of `two_conditions` with `<` and `==`.
const FIRST: Span = Span { from: 32, to: 37 };

const SECOND: Span = Span { from: 46, to: 52 };

/// The first patches of `two_conditions` with `<` and `==`, as the number of the location and the new operator.
const RANKED: [(u32, BinOp); 10] = [
    (1, BinOp::Eq),
    (1, BinOp::Ne),
    (1, BinOp::Le),
    (1, BinOp::Gt),
    (1, BinOp::Ge),
    (3, BinOp::Ne),
    (3, BinOp::Lt),
    (3, BinOp::Le),
    (3, BinOp::Gt),
    (3, BinOp::Ge),
];

/// All its patches, as the cost, the number of the location, and the rank that comes after those.
const BY_COST: [(u8, u32, u32); 13] = [
    (1, 1, 5),
    (1, 3, 10),
    (2, 0, 13),
    (2, 1, 19),
    (2, 3, 25),
    (3, 1, 26),
    (3, 3, 27),
    (4, 1, 39),
    (4, 3, 51),
    (5, 1, 63),
    (5, 3, 75),
    (6, 2, 87),
    (6, 4, 99),
];

/// What some of its patches make of it.
const MADE: [(u32, &str); 9] = [
    (
        10,
        "int main(void) { int a = 0; if (a < a) a; if (a == a) a; }",
    ),
    (
        11,
        "int main(void) { int a = 1 + 1; if (a < a) a; if (a == a) a; }",
    ),
    (
        13,
        "int main(void) { int a = 1; if (0 < a) a; if (a == a) a; }",
    ),
    (
        24,
        "int main(void) { int a = 1; if (a < a) a; if (a == a - 1) a; }",
    ),
    (
        25,
        "int main(void) { int a = 1; if (!(a < a)) a; if (a == a) a; }",
    ),
    (
        38,
        "int main(void) { int a = 1; if (a < a && a >= 1) a; if (a == a) a; }",
    ),
    (
        51,
        "int main(void) { int a = 1; if (a < a || a == 0) a; if (a == a) a; }",
    ),
    (
        75,
        "int main(void) { int a = 1; if (a < a) { if (a == 0) a; } if (a == a) a; }",
    ),
    (
        98,
        "int main(void) { int a = 1; if (a < a) a; if (a == a) { if (a >= 1) a; } }",
    ),
];

#[test]
fn patches_stand_by_cost_and_then_by_location(rt: HostRuntime) -> Result<(), Fail> {
    let alloc = rt.alloc();
    let program = two_conditions(alloc, BinOp::Lt, BinOp::Eq)?;
    for (max, count) in [(0, 0), (12, 12), (98, 98), (99, 99), (65_536, 99)] {
        let space = Space::build(alloc, &program, max)?;
        assert_eq!(rt; space.len(), count);
        for i in 0..space.len() {
            let patch = space.patch(i);
            let row = BY_COST.iter().find(|row| i < row.2);
            assert_eq!(rt;
                row.map(|row| (row.0, row.1)),
                Some((patch.cost, patch.loc))
            );
        }
    }
    Ok(())
}

#[test]
fn the_ranks_at_a_location_rise(rt: HostRuntime) -> Result<(), Fail> {
    let alloc = rt.alloc();
    let program = two_conditions(alloc, BinOp::Lt, BinOp::Eq)?;
    let space = Space::build(alloc, &program, 26)?;
    assert_eq!(rt; space.locations(), 5);
    assert!(rt; space.at_location(0) == [10, 11, 12].as_slice());
    assert!(rt; space.at_location(1) == [0, 1, 2, 3, 4, 13, 14, 15, 16, 17, 18, 25].as_slice());
    assert!(rt; space.at_location(2).is_empty());
    assert!(rt; space.at_location(3) == [5, 6, 7, 8, 9, 19, 20, 21, 22, 23, 24].as_slice());
    Ok(())
}

#[test]
fn a_patch_of_each_cost_makes_its_program(rt: HostRuntime) -> Result<(), Fail> {
    let alloc = rt.alloc();
    let program = two_conditions(alloc, BinOp::Lt, BinOp::Eq)?;
    let space = Space::build(alloc, &program, 99)?;
    for (rank, source) in MADE {
        assert!(rt; rank < space.len());
        let patched = apply(alloc, &program, &space, rank)?;
        let want = checked(alloc, source.as_bytes())?;
        assert!(rt; same_tree(patched.program(), want.program()), "{rank}");
    }
    Ok(())
}

#[test]
fn an_atom_takes_the_place_of_a_right_side(rt: HostRuntime) -> Result<(), Fail> {
    let alloc = rt.alloc();
    let program = checked(
        alloc,
        b"int main(void) { int a = 1; int b = a + 2; return b; }",
    )?;
    let space = Space::build(alloc, &program, 65_536)?;
    assert_eq!(rt; space.len(), 68);
    let patched = apply(alloc, &program, &space, 22)?;
    let want = checked(alloc, b"int main(void) { int a = 1; int b = a; return b; }")?;
    assert!(rt; matches!(space.patch(22).edit, Edit::Take(_)));
    assert!(rt; same_tree(patched.program(), want.program()));
    Ok(())
}

#[test]
fn the_first_patches_stand_by_location_and_then_by_operator(rt: HostRuntime) -> Result<(), Fail> {
    let alloc = rt.alloc();
    let program = two_conditions(alloc, BinOp::Lt, BinOp::Eq)?;
    for (max, count) in [(0, 0), (1, 1), (7, 7), (10, 10)] {
        let space = Space::build(alloc, &program, max)?;
        assert_eq!(rt; space.len(), count);
        assert_eq!(rt; space.is_empty(), count == 0);
        assert_eq!(rt; space.locations(), 5);
        assert_eq!(rt; space.location(3).at, SECOND);
        for i in 0..space.len() {
            let Some((loc, op)) = RANKED.get(i as usize) else {
                break;
            };
            let patch = space.patch(i);
            assert_eq!(rt; patch.cost, 1);
            assert_eq!(rt; patch.loc, *loc);
            assert!(rt; matches!(patch.edit, Edit::Op(new) if new == *op));
        }
    }
    Ok(())
}

#[test]
fn a_patch_changes_its_condition_alone(rt: HostRuntime) -> Result<(), Fail> {
    let alloc = rt.alloc();
    let program = two_conditions(alloc, BinOp::Lt, BinOp::Eq)?;
    let space = Space::build(alloc, &program, 10)?;
    assert_eq!(rt; space.len(), 10);
    for i in 0..space.len() {
        let Some((loc, op)) = RANKED.get(i as usize) else {
            break;
        };
        let patched = apply(alloc, &program, &space, i)?;
        let new = changed(alloc, &program, &space, i)?;
        let (want, at) = match loc {
            1 => (two_conditions(alloc, *op, BinOp::Eq)?, FIRST),
            _ => (two_conditions(alloc, BinOp::Lt, *op)?, SECOND),
        };
        let condition = comparison(alloc, *op, at)?;
        assert!(rt; same_tree(patched.program(), want.program()));
        assert!(rt;
            matches!(&new, Some((l, Change::Replaced(e))) if l.at == at && same_expr(e, &condition))
        );
    }
    Ok(())
}

#[test]
fn a_program_without_the_location_has_no_change(rt: HostRuntime) -> Result<(), Fail> {
    let alloc = rt.alloc();
    let space = Space::build(alloc, &two_conditions(alloc, BinOp::Lt, BinOp::Eq)?, 99)?;
    let other = row_of_statements(alloc, 3)?;
    for i in 0..space.len() {
        // Both programs have the initialiser, location 0.
        let there = space.patch(i).loc == 0;
        assert_eq!(rt; changed(alloc, &other, &space, i)?.is_some(), there);
    }
    Ok(())
}

#[test]
fn too_many_locations_are_refused(rt: HostRuntime) -> Result<(), Fail> {
    let alloc = rt.alloc();
    let most = row_of_statements(alloc, 4095)?;
    assert_eq!(rt; Space::build(alloc, &most, 0)?.locations(), 4096);
    let refused = Space::build(alloc, &row_of_statements(alloc, 4096)?, 0);
    assert!(rt; matches!(refused, Err(SpaceFault::TooManyLocations(4097))));
    Ok(())
}
