//! Which steps are done as one. The lists are derived by hand, from what is done last to what is done first.

use crate::holes::code_of;
use interp_code::{Code, Node, Superinstruction};
use std::alloc::Global;
use std::test::Fail;

/// A program, and its superinstructions in the order of their places.
type Joined = (&'static str, &'static [&'static str]);

const JOINED: &[Joined] = &[
    (
        "int main(void) { int x; x = 1; }",
        &["store", "spend and push"],
    ),
    (
        "int main(void) { int x, y; x = y; }",
        &["store", "load", "spend and push"],
    ),
    // an operator, the store with it, the variable on its left, and all of that
    (
        "int main(void) { int x, y; x = y + 1; }",
        &["store", "store with", "load", "assign"],
    ),
    (
        "int main(void) { int a[2], x, y; a[x] = y - 3; }",
        &["store", "store with", "load", "load"],
    ),
    (
        "int main(void) { int x; x += 2; }",
        &["change", "spend and push"],
    ),
    ("int main(void) { int x; x++; }", &["count"]),
    ("int main(void) { int x; --x; }", &["count"]),
    // conditions
    (
        "int main(void) { int x, y; if (x < y) ; }",
        &["branch", "branch with", "branch on"],
    ),
    (
        "int main(void) { int a[2], x; if (a[x] > 5) ; }",
        &["branch", "branch with", "load"],
    ),
    (
        "int main(void) { int a[2], x, y; if (a[x] == a[y]) ; }",
        &["branch", "load", "load"],
    ),
    ("int main(void) { int x; if (x) ; }", &["load"]),
    // values of functions
    (
        "int main(void) { return 1; }",
        &["give as", "spend and push"],
    ),
    (
        "int main(void) { int x, y; return x * y; }",
        &["give as", "operate with", "operate on"],
    ),
    (
        "int main(void) { int a[2], x; return a[x] + 7; }",
        &["give as", "operate with", "load"],
    ),
];

/// What a superinstruction does, in words.
fn words(several: Superinstruction) -> &'static str {
    match several {
        Superinstruction::Load { .. } => "load",
        Superinstruction::Store { .. } => "store",
        Superinstruction::Change { .. } => "change",
        Superinstruction::Count(_) => "count",
        Superinstruction::OperateWith { .. } => "operate with",
        Superinstruction::OperateOn { .. } => "operate on",
        Superinstruction::StoreWith { .. } => "store with",
        Superinstruction::Assign(_) => "assign",
        Superinstruction::Branch { .. } => "branch",
        Superinstruction::BranchWith { .. } => "branch with",
        Superinstruction::BranchOn { .. } => "branch on",
        Superinstruction::SpendPush { .. } => "spend and push",
        Superinstruction::GiveAs(_) => "give as",
    }
}

/// The superinstructions of flat code.
fn joined(alloc: Global, code: &Code) -> Result<Vec<&'static str>, Fail> {
    let mut found = Vec::new(alloc);
    for at in 0..code.len() {
        if let Node::Super(several) = code.node(at) {
            found.push(words(*several))?;
        }
    }
    Ok(found)
}

#[test]
fn steps_are_joined(rt: HostRuntime) -> Result<(), Fail> {
    let alloc = rt.alloc();
    for (source, expected) in JOINED {
        let found = joined(alloc, &code_of(alloc, source, None)?)?;
        assert!(rt; found.as_slice() == *expected, "at {source}");
    }
    Ok(())
}
