//! Holes that are visited more than once, and what runs with given answers come to. All is counted by hand.

use crate::run::{ENOUGH, events, holed, test_of, whole};
use crate::views::{ARRAY, BACK, COPY, ITSELF};
use c_meaning::Outcome;
use c_tree::LocKind;
use interp::Event;
use std::alloc::Global;
use std::process::Abort;
use std::test::Fail;

/// A program that reads and writes nothing; the kind of a location, and how many of that kind come before it; the status
/// that is wanted; the answers; and the events. The last event comes again.
type Visited = (
    &'static str,
    LocKind,
    usize,
    u8,
    &'static [Option<i64>],
    &'static [Event],
);

/// A hole without an old value.
const HOLE: Event = Event::Hole(None);

/// The end of a run that passed.
const PASSED: Event = Event::End(Outcome::Passed);

/// The end of a run that trapped.
const TRAPPED: Event = Event::End(Outcome::Trapped);

/// A condition that counts to 3.
const WHILE: &str = "int main(void) { int n = 0; while (n < 3) n++; return n; }";

/// The same in a `for`.
const FOR: &str = "int main(void) { int s = 0; for (int i = 0; i < 3; i++) s += i; return s; }";

/// A `for` of a condition alone.
const BARE: &str = "int main(void) { int i = 0; for (; i < 3; ) i++; return i; }";

/// A condition in a `for` that has none itself.
const ENDLESS: &str = "int main(void) { int i; for (i = 5; ; i++) if (i > 6) break; return i; }";

/// The same in a `do`.
const DO: &str = "int main(void) { int n = 0; do n++; while (n < 3); return n; }";

/// A condition in a function that calls itself.
const CALLS: &str = "int f(int n) { if (n == 0) return 0; return 1 + f(n - 1); }
int main(void) { return f(9); }";

/// A condition with an effect: `n` rises at each visit.
const RISES: &str = "int main(void) { int n = 5; while (n++ < 6) ; return n; }";

/// Guards before `break`, `continue` and `return`.
const BREAK: &str = "int main(void) { int n = 0; while (1) { n++; break; } return n; }";

const CONTINUE: &str =
    "int main(void) { int n = 0, s = 0; while (n < 3) { n++; continue; s++; } return s; }";

const RETURN: &str = "int main(void) { return 1; return 2; }";

/// An initialiser of `char`.
const START: &str = "int main(void) { char a = 1 / 0; return a == -56; }";

/// The right side of an assignment in a loop.
const RIGHT: &str = "int main(void) { int a, s = 0; while (s < 5) { a = 1; s += a; } return s; }";

/// Two ways, the first of which is guarded.
const ELSE: &str = "int main(void) { int x = 0; if (1) x = 1; else x = 2; return x; }";

/// A condition with a call in it.
const CALLED: &str = "int main(void) { int n = -2; if (abs(n) > 1) return 1; return 0; }";

/// A loop whose turns are counted.
const THOUSAND: &str = "int main(void) { int n = 0; while (n < 3) n++; return n == 1000; }";

/// What each visit of a hole comes to.
const VISITED: &[Visited] = &[
    // the condition of a loop
    (
        WHILE,
        LocKind::Cond,
        0,
        0,
        &[Some(0)],
        &[HOLE, PASSED, PASSED],
    ),
    (
        WHILE,
        LocKind::Cond,
        0,
        2,
        &[Some(1), Some(-7), Some(0)],
        &[HOLE, HOLE, HOLE, PASSED, PASSED],
    ),
    (
        WHILE,
        LocKind::Cond,
        0,
        0,
        &[Some(1), Some(1), Some(0)],
        &[
            HOLE,
            HOLE,
            HOLE,
            Event::End(Outcome::Status(2)),
            Event::End(Outcome::Status(2)),
        ],
    ),
    // one that has no answer waits, and waits again
    (WHILE, LocKind::Cond, 0, 0, &[], &[HOLE, HOLE]),
    (WHILE, LocKind::Cond, 0, 0, &[Some(1)], &[HOLE, HOLE, HOLE]),
    // answers that aren't used
    (
        WHILE,
        LocKind::Cond,
        0,
        0,
        &[Some(0), None],
        &[HOLE, PASSED],
    ),
    // the same of a `for` and a `do`
    (
        FOR,
        LocKind::Cond,
        0,
        6,
        &[Some(1), Some(1), Some(1), Some(1), Some(0)],
        &[HOLE, HOLE, HOLE, HOLE, HOLE, PASSED, PASSED],
    ),
    (
        DO,
        LocKind::Cond,
        0,
        2,
        &[Some(1), Some(0)],
        &[HOLE, HOLE, PASSED, PASSED],
    ),
    // where other clauses of the `for` are missing, or the condition
    (
        BARE,
        LocKind::Cond,
        0,
        2,
        &[Some(1), Some(1), Some(0)],
        &[HOLE, HOLE, HOLE, PASSED, PASSED],
    ),
    (
        ENDLESS,
        LocKind::Cond,
        0,
        8,
        &[Some(0), Some(0), Some(0), Some(1)],
        &[HOLE, HOLE, HOLE, HOLE, PASSED, PASSED],
    ),
    // a function that calls itself
    (
        CALLS,
        LocKind::Cond,
        0,
        2,
        &[Some(0), Some(0), Some(1)],
        &[HOLE, HOLE, HOLE, PASSED, PASSED],
    ),
    // a condition with an effect is evaluated first: its value is 1, as 5 < 6, then 0 twice
    (
        RISES,
        LocKind::Cond,
        0,
        8,
        &[Some(1), Some(1), Some(0)],
        &[
            Event::Hole(Some(1)),
            Event::Hole(Some(0)),
            Event::Hole(Some(0)),
            PASSED,
            PASSED,
        ],
    ),
    // guards: where the answer is 0 the statement isn't executed
    (
        BREAK,
        LocKind::Guard,
        1,
        3,
        &[Some(0), Some(0), Some(1)],
        &[HOLE, HOLE, HOLE, PASSED, PASSED],
    ),
    (
        CONTINUE,
        LocKind::Guard,
        1,
        2,
        &[Some(0), Some(1), Some(0)],
        &[HOLE, HOLE, HOLE, PASSED, PASSED],
    ),
    (
        RETURN,
        LocKind::Guard,
        0,
        1,
        &[Some(1)],
        &[HOLE, PASSED, PASSED],
    ),
    (
        RETURN,
        LocKind::Guard,
        0,
        2,
        &[Some(0)],
        &[HOLE, PASSED, PASSED],
    ),
    // the `else` belongs to the `if` that it belonged to
    (
        ELSE,
        LocKind::Guard,
        0,
        0,
        &[Some(0)],
        &[HOLE, PASSED, PASSED],
    ),
    (
        ELSE,
        LocKind::Guard,
        0,
        1,
        &[Some(1)],
        &[HOLE, PASSED, PASSED],
    ),
    // in a function that gets an array, and after a call came back
    (
        ARRAY,
        LocKind::Cond,
        0,
        8,
        &[Some(1)],
        &[HOLE, PASSED, PASSED],
    ),
    (
        BACK,
        LocKind::Cond,
        0,
        6,
        &[Some(1)],
        &[HOLE, PASSED, PASSED],
    ),
    // a condition with a call in it is evaluated first, also where the call has no effect
    (
        CALLED,
        LocKind::Cond,
        0,
        0,
        &[Some(0)],
        &[Event::Hole(Some(1)), PASSED, PASSED],
    ),
    // what stands at a right side isn't evaluated, and the answer is converted to the type of the variable
    (
        START,
        LocKind::Right,
        0,
        1,
        &[Some(200)],
        &[HOLE, PASSED, PASSED],
    ),
    (
        RIGHT,
        LocKind::Right,
        1,
        7,
        &[Some(3), Some(4)],
        &[HOLE, HOLE, PASSED, PASSED],
    ),
    (
        ITSELF,
        LocKind::Right,
        0,
        0,
        &[Some(1)],
        &[HOLE, PASSED, PASSED],
    ),
    // the status is the value modulo 256
    (
        "int main(void) { return 1; }",
        LocKind::Right,
        0,
        7,
        &[Some(263)],
        &[HOLE, PASSED, PASSED],
    ),
    // an answer that traps, at the first visit and at a later one
    (
        WHILE,
        LocKind::Cond,
        0,
        0,
        &[None],
        &[HOLE, TRAPPED, TRAPPED],
    ),
    (
        WHILE,
        LocKind::Cond,
        0,
        0,
        &[Some(1), Some(1), None],
        &[HOLE, HOLE, HOLE, TRAPPED, TRAPPED],
    ),
    (
        RISES,
        LocKind::Cond,
        0,
        0,
        &[None],
        &[Event::Hole(Some(1)), TRAPPED, TRAPPED],
    ),
    (
        RETURN,
        LocKind::Guard,
        0,
        0,
        &[None],
        &[HOLE, TRAPPED, TRAPPED],
    ),
    (
        START,
        LocKind::Right,
        0,
        0,
        &[None],
        &[HOLE, TRAPPED, TRAPPED],
    ),
    // no hole is due where the run ends before it
    (
        "int main(void) { int n = 0; if (n++ / 0) ; }",
        LocKind::Cond,
        0,
        0,
        &[],
        &[TRAPPED, TRAPPED],
    ),
    (
        "int main(void) { exit(4); while (1) ; }",
        LocKind::Cond,
        0,
        4,
        &[],
        &[PASSED, PASSED],
    ),
];

/// A program, a hole in it, a status and answers as above, and the units that the run takes: with
/// one fewer it doesn't end. A hole takes none.
type Taken = (
    &'static str,
    LocKind,
    usize,
    u8,
    &'static [Option<i64>],
    u64,
);

/// What runs take.
const TAKEN: &[Taken] = &[
    // the entry, the initialiser, two tests, one `n++` and the `return`
    (WHILE, LocKind::Cond, 0, 1, &[Some(1), Some(0)], 6),
    // the entries of `main` and `f` and the `return` of `main`; the `if` and a `return`
    (CALLS, LocKind::Cond, 0, 0, &[Some(1)], 5),
    // the entry, the initialiser, three tests and the `return`
    (RISES, LocKind::Cond, 0, 8, &[Some(1), Some(1), Some(0)], 6),
    // the entry, the initialiser, twice a test, `n++` and the `if` of the guard, `break` and the `return`
    (BREAK, LocKind::Guard, 1, 2, &[Some(0), Some(1)], 10),
    // the entry, the `if` of the guard and a `return`
    (RETURN, LocKind::Guard, 0, 1, &[Some(1)], 3),
    // the entry, the initialiser and the `return`
    (START, LocKind::Right, 0, 1, &[Some(200)], 3),
    // the entry, the initialiser, the `if`, that of the guard, what it guards, and the `return`
    (ELSE, LocKind::Guard, 0, 0, &[Some(0)], 5),
    (ELSE, LocKind::Guard, 0, 1, &[Some(1)], 6),
];

/// A program without a hole; what it reads, and what is expected; the status that is wanted; the
/// units; and the end, which comes again.
type Ended = (&'static str, &'static [u8], &'static [u8], u8, u64, Outcome);

/// How runs without a hole end.
const ENDED: &[Ended] = &[
    // the entry, the initialiser, four tests, three times `n++`, and the `return`
    (WHILE, b"", b"", 3, 10, Outcome::Passed),
    (WHILE, b"", b"", 3, 9, Outcome::Budget),
    (WHILE, b"", b"", 0, ENOUGH, Outcome::Status(3)),
    (CALLS, b"", b"", 9, ENOUGH, Outcome::Passed),
    (COPY, b"ab\0c", b"ab\0c", 0, ENOUGH, Outcome::Passed),
    (COPY, b"ab\0c", b"ab\0d", 0, ENOUGH, Outcome::Wrong),
    (COPY, b"ab\0c", b"ab\0cd", 0, ENOUGH, Outcome::Short),
    (ITSELF, b"", b"", 0, ENOUGH, Outcome::Trapped),
    (
        "int main(void) { exit(4); }",
        b"",
        b"",
        4,
        ENOUGH,
        Outcome::Passed,
    ),
    (
        "int main(void) { return main(); }",
        b"",
        b"",
        0,
        ENOUGH,
        Outcome::Depth,
    ),
    (
        "char a[1048576]; int main(void) { char c; return 0; }",
        b"",
        b"",
        0,
        ENOUGH,
        Outcome::Cells,
    ),
];

#[test]
fn holes_are_visited(rt: HostRuntime) -> Result<(), Fail> {
    let alloc = rt.alloc();
    for (source, kind, passed, status, answers, want) in VISITED {
        let code = holed(alloc, source, *kind, *passed)?;
        let test = test_of(alloc, b"", b"", *status)?;
        let found = events(alloc, &code, &test, ENOUGH, answers)?;
        assert!(rt; found.as_slice() == *want, "at {source}, status {status}");
    }
    Ok(())
}

#[test]
fn holes_take_no_unit(rt: HostRuntime) -> Result<(), Fail> {
    let alloc = rt.alloc();
    for (source, kind, passed, status, answers, units) in TAKEN {
        let code = holed(alloc, source, *kind, *passed)?;
        let test = test_of(alloc, b"", b"", *status)?;
        let found = events(alloc, &code, &test, *units, answers)?;
        assert_eq!(rt; found.last(), Some(&PASSED), "at {source}");
        let found = events(alloc, &code, &test, units.wrapping_sub(1), answers)?;
        assert_eq!(rt;
            found.last(),
            Some(&Event::End(Outcome::Budget)),
            "at {source}"
        );
    }
    Ok(())
}

#[test]
fn a_thousand_answers(rt: HostRuntime) -> Result<(), Fail> {
    let alloc = rt.alloc();
    let mut answers = Vec::new(alloc);
    for _ in 0..1000 {
        answers.push(Some(1))?;
    }
    answers.push(Some(0))?;
    let code = holed(alloc, THOUSAND, LocKind::Cond, 0)?;
    let test = test_of(alloc, b"", b"", 1)?;
    // the entry, the initialiser, 1,001 tests, 1,000 times `n++`, and the `return`
    let found = events(alloc, &code, &test, 2004, answers.as_slice())?;
    assert_eq!(rt; found.last(), Some(&PASSED), "with 2,004 units");
    let found = events(alloc, &code, &test, 2003, answers.as_slice())?;
    assert_eq!(rt;
        found.last(),
        Some(&Event::End(Outcome::Budget)),
        "with 2,003 units"
    );
    Ok(())
}

#[test]
fn runs_without_a_hole_end(rt: HostRuntime) -> Result<(), Fail> {
    let alloc = rt.alloc();
    for (source, input, output, status, limit, want) in ENDED {
        let code = whole(alloc, source)?;
        let test = test_of(alloc, input, output, *status)?;
        let found = events(alloc, &code, &test, *limit, &[])?;
        let end = Event::End(*want);
        assert!(rt;
            found.as_slice() == [end, end].as_slice(),
            "at {source}, status {status}"
        );
    }
    Ok(())
}

/// With 256 calls that are live, that of `main` among them, a further one ends the run.
#[test]
fn each_call_has_its_hole(rt: HostRuntime) -> Result<(), Fail> {
    let alloc = rt.alloc();
    let code = holed(alloc, CALLS, LocKind::Cond, 0)?;
    let test = test_of(alloc, b"", b"", 0)?;
    let answers = vec![in alloc; Some(0); 256]?;
    let mut expected = vec![in alloc; HOLE; 255]?;
    expected.push(Event::End(Outcome::Depth))?;
    let found = events(alloc, &code, &test, ENOUGH, &answers)?;
    assert!(rt; found.as_slice() == expected.as_slice());
    Ok(())
}

/// An answer that traps in a call within many.
#[test]
fn a_deep_answer_traps(rt: HostRuntime) -> Result<(), Fail> {
    let alloc = rt.alloc();
    let code = holed(alloc, CALLS, LocKind::Cond, 0)?;
    let test = test_of(alloc, b"", b"", 0)?;
    let mut answers = vec![in alloc; Some(0); 199]?;
    answers.push(None)?;
    let mut expected = vec![in alloc; HOLE; 200]?;
    expected.push(TRAPPED)?;
    expected.push(TRAPPED)?;
    let found = events(alloc, &code, &test, ENOUGH, &answers)?;
    assert!(rt; found.as_slice() == expected.as_slice());
    Ok(())
}
