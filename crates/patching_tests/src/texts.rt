//! Sources with the text of a patch in them, and the lines that say what a patch changes.

use crate::exprs::{differs, equals, greater, sum};
use c_tree::{BinOp, Span};
use patch_text::{Form, edit_line, line_and_column, splice_expr, splice_guarded, splice_joined};
use std::test::Fail;

/// The greater of two numbers that are read, but for its condition.
const GREATER: &str = "#include <stdio.h>
int main(void) {
    int a, b;
    scanf(\"%d\", &a);
    scanf(\"%d\", &b);
    if (a < b)
        printf(\"%d\\n\", a);
    else
        printf(\"%d\\n\", b);
    return 0;
}
";

/// The same with another condition.
const REPAIRED: &str = "#include <stdio.h>
int main(void) {
    int a, b;
    scanf(\"%d\", &a);
    scanf(\"%d\", &b);
    if ((a > b))
        printf(\"%d\\n\", a);
    else
        printf(\"%d\\n\", b);
    return 0;
}
";

/// A source, and the line and the column of a place in it; after its end they are those of the end.
const PLACES: &[(&str, u32, (usize, usize))] = &[
    ("", 0, (1, 1)),
    ("int", 0, (1, 1)),
    ("int", 3, (1, 4)),
    ("ab\ncd\n", 2, (1, 3)),
    ("ab\ncd\n", 3, (2, 1)),
    ("ab\ncd\n", 5, (2, 3)),
    ("ab\ncd\n", 6, (3, 1)),
    ("ab\n\nc", 3, (2, 1)),
    ("ab\n\nc", 5, (3, 2)),
    ("ab\n\nc", 9, (3, 2)),
    ("\n\n\n", 2, (3, 1)),
    ("a\r\n\tb", 4, (2, 2)),
];

#[test]
fn a_condition_is_replaced_on_its_line(rt: HostRuntime) -> Result<(), Fail> {
    let alloc = rt.alloc();
    let source = GREATER.as_bytes();
    let at = Span { from: 100, to: 105 };
    let new = greater(alloc)?;
    let patched = splice_expr(alloc, source, at, &new)?;
    assert_eq!(rt; patched.as_slice(), REPAIRED.as_bytes());
    let line = edit_line(alloc, source, at, 1, Form::Replace, &new)?;
    assert_eq!(rt;
        line.as_slice(),
        b"6:9+5 cost 1 replace (a > b)\n".as_slice()
    );
    Ok(())
}

#[test]
fn lines_and_columns_are_counted_from_one(rt: HostRuntime) -> Result<(), Fail> {
    for (source, place, want) in PLACES {
        assert_eq!(rt;
            line_and_column(source.as_bytes(), *place),
            *want,
            "at {place}"
        );
    }
    Ok(())
}

#[test]
fn replaces_parts(rt: HostRuntime) -> Result<(), Fail> {
    let alloc = rt.alloc();
    let parts = [
        (0, 1, "(a + 1) = y;"),
        (4, 5, "x = (a + 1);"),
        (5, 6, "x = y(a + 1)"),
        (0, 6, "(a + 1)"),
        (3, 3, "x =(a + 1) y;"),
        (6, 9, "x = y;(a + 1)"),
        (4, 4_294_967_295, "x = (a + 1)"),
    ];
    for (from, to, text) in parts {
        let patched = splice_expr(alloc, b"x = y;", Span { from, to }, &sum(alloc)?)?;
        assert_eq!(rt; patched.as_slice(), text.as_bytes(), "{text}");
    }
    Ok(())
}

#[test]
fn joins_a_condition_to_a_bound(rt: HostRuntime) -> Result<(), Fail> {
    let alloc = rt.alloc();
    let source = b"while ((c = getchar()) != EOF) ;";
    let at = Span { from: 7, to: 29 };
    let narrowed = splice_joined(alloc, source, at, BinOp::Both, &differs(alloc)?)?;
    let want = "while (((c = getchar()) != EOF) && (c != 0)) ;";
    assert_eq!(rt; narrowed.as_slice(), want.as_bytes());
    let widened = splice_joined(alloc, source, at, BinOp::Either, &differs(alloc)?)?;
    let want = "while (((c = getchar()) != EOF) || (c != 0)) ;";
    assert_eq!(rt; widened.as_slice(), want.as_bytes());
    Ok(())
}

#[test]
fn puts_a_guard_round_a_statement(rt: HostRuntime) -> Result<(), Fail> {
    let alloc = rt.alloc();
    let source = b"if (a) x = 1; else x = 2;";
    let guarded = splice_guarded(alloc, source, Span { from: 7, to: 13 }, &equals(alloc)?)?;
    let want = "if (a) { if (a == 1) x = 1; } else x = 2;";
    assert_eq!(rt; guarded.as_slice(), want.as_bytes());
    Ok(())
}

#[test]
fn says_what_changes_in_a_line(rt: HostRuntime) -> Result<(), Fail> {
    let alloc = rt.alloc();
    let source = b"int a, x;\nif (a) x = 1; else x = 2;\n";
    let at = Span { from: 17, to: 23 };
    for (form, cost, text) in [
        (Form::Replace, 1, "2:8+6 cost 1 replace (a == 1)\n"),
        (Form::And, 4, "2:8+6 cost 4 and (a == 1)\n"),
        (Form::Or, 5, "2:8+6 cost 5 or (a == 1)\n"),
        (Form::Guard, 6, "2:8+6 cost 6 guard (a == 1)\n"),
    ] {
        let line = edit_line(alloc, source, at, cost, form, &equals(alloc)?)?;
        assert_eq!(rt; line.as_slice(), text.as_bytes(), "{text}");
    }
    Ok(())
}
