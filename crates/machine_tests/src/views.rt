//! What the variables of a run hold where a hole is due.

ghost use Rattle.std.specs.Prelude.{◌≡◌, ◌<◌};

use crate::run::{ENOUGH, events, holed, test_of};
use c_meaning::Outcome;
use c_stdio::Test;
use c_tree::{LocKind, Slot};
use c_types::Reads;
use interp::{Event, Machine, Steps};
use interp_code::Code;
use std::alloc::Global;
use std::marker::Brand;
use std::sync::ledger::{Blank, Ledger};
use std::test::Fail;

/// An element of a variable, and what it holds.
type Element = (Slot, i64, Option<i64>);

/// A program that reads and writes nothing; the kind of a location, and how many of that kind come
/// before it; the answers; the event after them; and what elements of variables hold then.
type Viewed = (
    &'static str,
    LocKind,
    usize,
    &'static [Option<i64>],
    Event,
    &'static [Element],
);

/// A hole without an old value.
const HOLE: Event = Event::Hole(None);

/// The first three variables of a function.
const FIRST: Slot = Slot::Local(0);

const SECOND: Slot = Slot::Local(1);

const THIRD: Slot = Slot::Local(2);

/// The first variable of file scope.
const OUTER: Slot = Slot::Global(0);

/// The lesser of two numbers.
const NUMBERS: &str = "#include <stdio.h>
int main(void) {
    int a, b;
    scanf(\"%d\", &a);
    scanf(\"%d\", &b);
    if (a < b)
        printf(\"%d\\n\", a);
    else
        printf(\"%d\\n\", b);
    return 0;
}
";

/// What is read is written.
pub const COPY: &str = "#include <stdio.h>
int main(void) {
    int c;
    while ((c = getchar()) != EOF)
        putchar(c);
    return 0;
}
";

/// An object of file scope, an array, a variable that the condition assigns, and one without a value.
const OBJECTS: &str = "int g = 9;
int main(void) { int a[3] = {4, 5}; int u, v; if (u = 1) v = a[0]; return g; }";

/// A function that calls itself, with a variable of its own beside its parameter.
const CALLS: &str = "int f(int n) { int twice = 2 * n; if (n == 0) return twice; return f(n - 1); }
int main(void) { int m = 5; return f(9); }";

/// A hole in a scope within a loop: the variable has no value at the second visit either.
const SCOPES: &str =
    "int main(void) { int n = 3; while (n) { int k; if (n == 2) ; k = n; n--; } return 0; }";

/// A name that hides another one, which hides one of file scope.
const HIDDEN: &str = "int x = 9; int main(void) { int x = 1; { int x = 2; if (x) ; } return 0; }";

/// The condition of a `for` that has a variable of its own, and a scope in it.
const FOR: &str =
    "int main(void) { int s = 0; for (int i = 0; i < 3; i++) { int k = 7; s += k; } return s; }";

/// A statement in a loop.
const SUM: &str = "int main(void) { int n = 0, s = 0; while (n < 3) { n++; s += n; } return s; }";

/// A statement in a block that has a variable of its own.
const BLOCK: &str = "int g = 2; int main(void) { int a = 1; { int b = 3; a = b; } return a; }";

/// The right side of an assignment in a loop.
const RIGHT: &str = "int main(void) { int a, s = 0; while (s < 5) { a = 1; s += a; } return s; }";

/// An initialiser that reads its own variable.
pub const ITSELF: &str = "int main(void) { int x = x; return 0; }";

/// A function that gets an array.
pub const ARRAY: &str = "int f(int v[], int n) { if (n) return v[1]; return 0; }
int main(void) { int m = 5, a[2] = {7, 8}; return f(a, 3); }";

/// A function that changes an array of its caller.
const CHANGED: &str = "int f(int v[], int n) { v[1] = n; return n; }
int main(void) { int a[2] = {7, 8}, m = 5; f(a, 9); if (m) return a[1]; return 0; }";

/// A call that came back.
pub const BACK: &str = "int f(int x) { return x + 1; }
int main(void) { int m = 5; m = f(m); if (m) return m; return 0; }";

/// A function that ends the run.
const EXIT: &str = "int g = 1; void f(int x) { g = 2; if (x) exit(x); }
int main(void) { int m = 5, n = 6; f(7); return m + n; }";

/// What elements hold.
const VIEWED: &[Viewed] = &[
    (
        OBJECTS,
        LocKind::Cond,
        0,
        &[],
        Event::Hole(Some(1)),
        &[
            (OUTER, 0, Some(9)),
            (FIRST, 0, Some(4)),
            (FIRST, 1, Some(5)),
            (FIRST, 2, Some(0)),
            (FIRST, 3, None),
            (FIRST, -1, None),
            (SECOND, 0, Some(1)),
            (THIRD, 0, None),
            (Slot::Local(3), 0, None),
            (Slot::Global(1), 0, None),
            (Slot::Unset, 0, None),
        ],
    ),
    // the innermost call
    (
        CALLS,
        LocKind::Cond,
        0,
        &[],
        HOLE,
        &[(FIRST, 0, Some(9)), (SECOND, 0, Some(18))],
    ),
    (
        CALLS,
        LocKind::Cond,
        0,
        &[Some(0), Some(0)],
        HOLE,
        &[(FIRST, 0, Some(7)), (SECOND, 0, Some(14))],
    ),
    // a scope begins anew
    (
        SCOPES,
        LocKind::Cond,
        1,
        &[],
        HOLE,
        &[(FIRST, 0, Some(3)), (SECOND, 0, None)],
    ),
    (
        SCOPES,
        LocKind::Cond,
        1,
        &[Some(1)],
        HOLE,
        &[(FIRST, 0, Some(2)), (SECOND, 0, None)],
    ),
    // a variable that is hidden keeps its own value
    (
        HIDDEN,
        LocKind::Cond,
        0,
        &[],
        HOLE,
        &[
            (OUTER, 0, Some(9)),
            (FIRST, 0, Some(1)),
            (SECOND, 0, Some(2)),
        ],
    ),
    // in the scope of a `for`
    (
        FOR,
        LocKind::Cond,
        0,
        &[],
        HOLE,
        &[(FIRST, 0, Some(0)), (SECOND, 0, Some(0)), (THIRD, 0, None)],
    ),
    (
        FOR,
        LocKind::Cond,
        0,
        &[Some(1), Some(1)],
        HOLE,
        &[(FIRST, 0, Some(14)), (SECOND, 0, Some(2))],
    ),
    // at a statement
    (
        BLOCK,
        LocKind::Guard,
        0,
        &[],
        HOLE,
        &[
            (OUTER, 0, Some(2)),
            (FIRST, 0, Some(1)),
            (SECOND, 0, Some(3)),
            (THIRD, 0, None),
        ],
    ),
    (
        SUM,
        LocKind::Guard,
        1,
        &[Some(1), Some(0)],
        HOLE,
        &[(FIRST, 0, Some(3)), (SECOND, 0, Some(1))],
    ),
    // at a right side
    (
        RIGHT,
        LocKind::Right,
        1,
        &[],
        HOLE,
        &[(FIRST, 0, None), (SECOND, 0, Some(0))],
    ),
    (
        RIGHT,
        LocKind::Right,
        1,
        &[Some(3)],
        HOLE,
        &[(FIRST, 0, Some(3)), (SECOND, 0, Some(3))],
    ),
    (ITSELF, LocKind::Right, 0, &[], HOLE, &[(FIRST, 0, None)]),
    // in a function that gets an array, and after its call
    (
        ARRAY,
        LocKind::Cond,
        0,
        &[],
        HOLE,
        &[
            (FIRST, 0, Some(7)),
            (FIRST, 1, Some(8)),
            (FIRST, 2, None),
            (SECOND, 0, Some(3)),
        ],
    ),
    (
        CHANGED,
        LocKind::Cond,
        0,
        &[],
        HOLE,
        &[
            (FIRST, 0, Some(7)),
            (FIRST, 1, Some(9)),
            (SECOND, 0, Some(5)),
        ],
    ),
    (BACK, LocKind::Cond, 0, &[], HOLE, &[(FIRST, 0, Some(6))]),
    // after the end: `main` has returned, or the innermost call is the one that ended the run
    (
        EXIT,
        LocKind::Cond,
        0,
        &[Some(0)],
        Event::End(Outcome::Status(11)),
        &[(OUTER, 0, Some(2)), (FIRST, 0, None), (SECOND, 0, None)],
    ),
    (
        EXIT,
        LocKind::Cond,
        0,
        &[Some(1)],
        Event::End(Outcome::Status(7)),
        &[(OUTER, 0, Some(2)), (FIRST, 0, Some(7)), (SECOND, 0, None)],
    ),
    (
        EXIT,
        LocKind::Cond,
        0,
        &[None],
        Event::End(Outcome::Trapped),
        &[(OUTER, 0, Some(2)), (FIRST, 0, Some(7)), (SECOND, 0, None)],
    ),
];

/// These elements, with what they hold in a run.
fn held(alloc: Global, machine: &Machine<'_>, elements: &[Element]) -> Result<Vec<Element>, Fail> {
    let view = machine.view();
    let mut found = Vec::new(alloc);
    for (slot, index, _) in elements {
        let value = view.element(*slot, *index);
        if *index == 0 && view.scalar(*slot) != value {
            return Err("a variable and its element 0 differ".into());
        }
        found.push((*slot, *index, value))?;
    }
    Ok(found)
}

/// The event after these answers, and these elements with what they hold then. Both come again.
fn seen(
    alloc: Global,
    code: &Code,
    test: &Test,
    answers: &[Option<i64>],
    elements: &[Element],
) -> Result<(Event, Vec<Element>), Fail> {
    counted::<Brand>(alloc, code, test, answers, elements, Blank::new(1))
}

/// The same, over a counter of steps.
fn counted<L: Ledger>(
    alloc: Global,
    code: &Code,
    test: &Test,
    answers: &[Option<i64>],
    elements: &[Element],
    blank: Blank,
) -> Result<(Event, Vec<Element>), Fail>
    requires name { blank.name ≡ L.name }
    requires parts { blank.parts ≡ L.parts }
    requires some { 0 < L.parts }
{
    let mut steps: Steps<L> = Steps::new(blank);
    let mut machine = Machine::new(alloc, code, test, ENOUGH)?;
    for answer in answers {
        // a hole that waits is the next one again
        machine.next(&mut steps)?;
        match machine.next(&mut steps)? {
            Event::Hole(_) => machine.fill(*answer),
            Event::End(_) => return Err("the run is over".into()),
        }
    }
    let event = machine.next(&mut steps)?;
    let found = held(alloc, &machine, elements)?;
    if machine.next(&mut steps)? != event || held(alloc, &machine, elements)? != found {
        return Err("the next event differs".into());
    }
    Ok((event, found))
}

#[test]
fn variables_are_seen(rt: HostRuntime) -> Result<(), Fail> {
    let alloc = rt.alloc();
    let test = test_of(alloc, b"", b"", 0)?;
    for (source, kind, passed, answers, event, elements) in VIEWED {
        let code = holed(alloc, source, *kind, *passed)?;
        let (found, values) = seen(alloc, &code, &test, answers, elements)?;
        assert_eq!(rt; found, *event, "at {source}");
        assert!(rt; values.as_slice() == *elements, "at {source}");
    }
    Ok(())
}

/// The innermost of 255 calls, beside that of `main`.
#[test]
fn a_deep_call_is_seen(rt: HostRuntime) -> Result<(), Fail> {
    let alloc = rt.alloc();
    let code = holed(alloc, CALLS, LocKind::Cond, 0)?;
    let test = test_of(alloc, b"", b"", 0)?;
    let answers = vec![in alloc; Some(0); 254]?;
    let elements = [(FIRST, 0, Some(-245)), (SECOND, 0, Some(-490))];
    let (event, values) = seen(alloc, &code, &test, &answers, &elements)?;
    assert_eq!(rt; event, HOLE);
    assert!(rt; values.as_slice() == elements.as_slice());
    Ok(())
}

#[test]
fn numbers_are_seen(rt: HostRuntime) -> Result<(), Fail> {
    let alloc = rt.alloc();
    let code = holed(alloc, NUMBERS, LocKind::Cond, 0)?;
    let test = test_of(alloc, b"1 2\n", b"2\n", 0)?;
    let elements = [(FIRST, 0, Some(1)), (SECOND, 0, Some(2))];
    let (event, values) = seen(alloc, &code, &test, &[], &elements)?;
    assert_eq!(rt; event, HOLE);
    assert!(rt; values.as_slice() == elements.as_slice());
    // with 0 in the place of the condition the greater one is written, after 6 units
    let passed = events(alloc, &code, &test, 6, &[Some(0)])?;
    assert_eq!(rt; passed.last(), Some(&Event::End(Outcome::Passed)));
    let cut = events(alloc, &code, &test, 5, &[Some(0)])?;
    assert_eq!(rt; cut.last(), Some(&Event::End(Outcome::Budget)));
    Ok(())
}

#[test]
fn an_old_value_comes_first(rt: HostRuntime) -> Result<(), Fail> {
    let alloc = rt.alloc();
    let code = holed(alloc, COPY, LocKind::Cond, 0)?;
    let test = test_of(alloc, b"ab\0c", b"ab\0c", 0)?;
    let elements = [(FIRST, 0, Some(97))];
    let (event, values) = seen(alloc, &code, &test, &[], &elements)?;
    assert_eq!(rt; event, Event::Hole(Some(1)));
    assert!(rt; values.as_slice() == elements.as_slice());
    let ends = events(alloc, &code, &test, ENOUGH, &[None])?;
    assert_eq!(rt; ends.last(), Some(&Event::End(Outcome::Trapped)));
    Ok(())
}
