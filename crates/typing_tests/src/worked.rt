//! Sources on one line with their faults, whose places are counted from 0 in bytes.

use crate::source::first_fault;
use c_types::TypeFault;
use std::test::Fail;

const ROWS: &[(&str, TypeFault)] = &[
    ("int main(void) { return x; }", TypeFault::Unknown(24)),
    ("int main(void) { int x; int x; }", TypeFault::Twice(28)),
    (
        "int main(void) { int a[2]; return a; }",
        TypeFault::WrongKind(34),
    ),
    (
        "int f(int a) { return a; } int main(void) { return f(); }",
        TypeFault::WrongCount(51),
    ),
    ("int main(void) { 3 = 4; }", TypeFault::NotPlace(17)),
    (
        "int a; int b = a; int main(void) { return 0; }",
        TypeFault::NotConstant(15),
    ),
    (
        "int main(void) { int a[0]; }",
        TypeFault::BadArrayLength(21),
    ),
    (
        "int main(void) { int a[EOF]; }",
        TypeFault::BadArrayLength(21),
    ),
    (
        "int a[EOF] = {1}; int main(void) { }",
        TypeFault::WrongCount(4),
    ),
    ("int main(void) { break; }", TypeFault::LoopOnly(17)),
    (
        "int main(void) { printf(\"%s\", 1); }",
        TypeFault::BadFormat(24),
    ),
    ("int f(void) { return 1; }", TypeFault::NoMain(25)),
];

#[test]
fn places_are_counted_in_bytes(rt: HostRuntime) -> Result<(), Fail> {
    for (source, fault) in ROWS {
        let found = first_fault(rt.alloc(), source.as_bytes())?;
        assert_eq!(rt; found, Some(*fault), "at {source}");
    }
    Ok(())
}
