//! Whole programs: how many patches they have, by cost and location, and the lines of some of them.

use crate::build::checked;
use c_tree::NoMemory;
use c_types::Typed;
use patch_print::edit_line;
use patch_space::Space;
use std::alloc::Global;
use std::process::Abort;
use std::test::Fail;

/// The lesser of two numbers is written.
const LESSER: &str = "#include <stdio.h>
int main(void) {
    int a, b;
    scanf(\"%d\", &a);
    scanf(\"%d\", &b);
    if (a < b)
        printf(\"%d\\n\", a);
    else
        printf(\"%d\\n\", b);
    return 0;
}
";

/// By steps of two the number isn't met where it is odd.
const STEPS: &str = "#include <stdio.h>
int main(void) {
    int i, n;
    scanf(\"%d\", &n);
    i = 0;
    while (i != n)
        i = i + 2;
    printf(\"%d\\n\", i);
    return 0;
}
";

/// Copies its input up to the end.
const COPY: &str = "#include <stdio.h>
int main(void) {
    int c;
    while ((c = getchar()) != EOF)
        putchar(c);
    return 0;
}
";

/// Whether one number goes more than once into another, where that one isn't 0.
const RATIO: &str = "#include <stdio.h>
int main(void) {
    int a, b;
    scanf(\"%d\", &a);
    scanf(\"%d\", &b);
    if (b != 0 && a / b > 1)
        putchar('y');
    else
        putchar('n');
    return 0;
}
";

/// Two ways, by a number.
const TWO_WAYS: &str = "#include <stdio.h>
int main(void) {
    int a, x;
    x = 0;
    scanf(\"%d\", &a);
    if (a) x = 1; else x = 2;
    printf(\"%d\\n\", x);
    return 0;
}
";

/// One condition over eight variables, with four constants behind it.
const EIGHT: &str = "int a, b, c, d, e, f, g, h;
int main(void) {
    if (a == b) ;
    for (;; 2 + 3 + 4 + 5) ;
}
";

const PRODUCT: &str = "int main(void) { return 0 * 5; }";

const FOREVER: &str = "int main(void){while(1);}";

/// A cost, the number of a location, and how many patches of that cost there are at it.
type Row = (u8, u32, u32);

/// Programs with how many locations they have, and the rows that aren't empty.
const COUNTED: [(&str, u32, &[Row]); 8] = [
    // The atoms are b, a, 0, 1, the bounds 18 and 12.
    (
        LESSER,
        7,
        &[
            (1, 2, 5),
            (2, 2, 8),
            (2, 6, 5),
            (3, 2, 1),
            (4, 2, 30),
            (5, 2, 30),
            (6, 0, 30),
            (6, 1, 30),
            (6, 3, 30),
            (6, 4, 30),
            (6, 5, 30),
        ],
    ),
    // The atoms are b, a, 0, 1, 'y', 'n', the bounds 30 and 24. In the condition five of them can be replaced.
    (
        RATIO,
        7,
        &[
            (1, 2, 1),
            (2, 2, 25),
            (2, 6, 7),
            (3, 2, 1),
            (4, 2, 54),
            (5, 2, 54),
            (6, 0, 54),
            (6, 1, 54),
            (6, 3, 54),
            (6, 4, 54),
            (6, 5, 54),
        ],
    ),
    // The atoms are n, i, 0, 1, 2, the bounds 24 and 18.
    (
        STEPS,
        9,
        &[
            (1, 3, 5),
            (1, 5, 4),
            (2, 2, 6),
            (2, 3, 10),
            (2, 5, 10),
            (2, 8, 6),
            (3, 3, 1),
            (3, 5, 5),
            (4, 3, 42),
            (5, 3, 42),
            (6, 0, 42),
            (6, 1, 42),
            (6, 4, 42),
            (6, 6, 42),
            (6, 7, 42),
        ],
    ),
    // The atoms are c, 0, 1, EOF, the bounds 18.
    (
        COPY,
        5,
        &[(2, 4, 5), (4, 0, 18), (5, 0, 18), (6, 2, 18), (6, 3, 18)],
    ),
    // The atoms are x, a, 0, 1, 2, the bounds 24 and 18.
    (
        TWO_WAYS,
        11,
        &[
            (2, 1, 6),
            (2, 3, 4),
            (2, 5, 6),
            (2, 7, 6),
            (2, 10, 6),
            (3, 3, 1),
            (4, 3, 42),
            (5, 3, 42),
            (6, 0, 42),
            (6, 2, 42),
            (6, 4, 42),
            (6, 6, 42),
            (6, 8, 42),
            (6, 9, 42),
        ],
    ),
    (
        EIGHT,
        1,
        &[(1, 0, 5), (2, 0, 28), (3, 0, 1), (4, 0, 456), (5, 0, 456)],
    ),
    (PRODUCT, 2, &[(1, 1, 4), (2, 1, 6), (3, 1, 3)]),
    (FOREVER, 1, &[(2, 0, 1), (3, 0, 1)]),
];

/// Checks that the patches are those of the rows, one row after another.
fn expect_rows(
    rt: &impl Abort,
    alloc: Global,
    program: &Typed,
    locations: u32,
    rows: &[Row],
) -> Result<(), Fail> {
    let space = Space::build(alloc, program, 16_384)?;
    assert_eq!(rt; space.locations(), locations);
    assert_eq!(rt; space.all_locations().len(), locations as usize);
    let mut costs = Vec::new(alloc);
    for (cost, loc, count) in rows {
        for _ in 0..*count {
            costs.push((*cost, *loc))?;
        }
    }
    assert_eq!(rt; space.len() as usize, costs.len());
    for rank in 0..space.len() {
        let Some(row) = costs.get(rank as usize) else {
            break;
        };
        let patch = space.patch(rank);
        assert_eq!(rt; (patch.cost, patch.loc), *row, "{rank}");
    }
    Ok(())
}

#[test]
fn patches_are_counted_by_cost_and_location(rt: HostRuntime) -> Result<(), Fail> {
    let alloc = rt.alloc();
    for (source, locations, rows) in COUNTED {
        let program = checked(alloc, source.as_bytes())?;
        expect_rows(&rt, alloc, &program, locations, rows)?;
    }
    Ok(())
}

/// Checks the line of the patch of that rank.
fn expect_line(
    rt: &impl Abort,
    alloc: Global,
    source: &[u8],
    rank: u32,
    want: &str,
) -> Result<(), Fail> {
    let program = checked(alloc, source)?;
    let space = Space::build(alloc, &program, 16_384)?;
    let line = edit_line(alloc, source, &space, rank, &program)?;
    assert_eq!(rt; line.as_slice(), want.as_bytes(), "{want}");
    Ok(())
}

/// Programs with the rank of a patch, and its line. Where there is no such patch it is empty.
const LINES: [(&str, u32, &str); 17] = [
    (LESSER, 0, "6:9+5 cost 1 replace (a == b)\n"),
    (LESSER, 3, "6:9+5 cost 1 replace (a > b)\n"),
    (LESSER, 4, "6:9+5 cost 1 replace (a >= b)\n"),
    (STEPS, 1, "6:12+6 cost 1 replace (i < n)\n"),
    (COPY, 6, "4:12+22 cost 4 and (c != 0)\n"),
    (COPY, 23, "4:12+22 cost 5 or (c == 0)\n"),
    (
        RATIO,
        0,
        "6:9+19 cost 1 replace ((b != 0) || ((a / b) > 1))\n",
    ),
    (
        RATIO,
        1,
        "6:9+19 cost 2 replace ((a != 0) && ((a / b) > 1))\n",
    ),
    (
        RATIO,
        2,
        "6:9+19 cost 2 replace ((0 != 0) && ((a / b) > 1))\n",
    ),
    (
        RATIO,
        33,
        "6:9+19 cost 3 replace (!((b != 0) && ((a / b) > 1)))\n",
    ),
    (TWO_WAYS, 227, "6:12+6 cost 6 guard (a == 1)\n"),
    (PRODUCT, 0, "1:25+5 cost 1 replace (0 + 5)\n"),
    (PRODUCT, 4, "1:25+5 cost 2 replace (1 * 5)\n"),
    (PRODUCT, 7, "1:25+5 cost 2 replace (0 * 1)\n"),
    (PRODUCT, 12, "1:25+5 cost 3 replace (5)\n"),
    (FOREVER, 0, "1:22+1 cost 2 replace (0)\n"),
    (FOREVER, 2, ""),
];

#[test]
fn patches_have_lines(rt: HostRuntime) -> Result<(), Fail> {
    for (source, rank, line) in LINES {
        expect_line(&rt, rt.alloc(), source.as_bytes(), rank, line)?;
    }
    Ok(())
}

/// As many functions as `count`, each of which gives the greater of its number and its argument, but for the one in the
/// middle, which gives the lesser; and `main`, which calls the one whose number is read.
fn many_functions(alloc: Global, count: u32) -> Result<String, NoMemory> {
    let mut text = String::from_str(alloc, "#include <stdio.h>\n")?;
    for i in 1..=count {
        let op = if i == count.div_ceil(2) { '>' } else { '<' };
        write!(
            text,
            "int f{i}(int x) {{\n    if (x {op} {i}) return {i};\n    return x;\n}}\n"
        )?;
    }
    text.push_str("int main(void) {\n    int k, x;\n")?;
    text.push_str("    scanf(\"%d\", &k);\n    scanf(\"%d\", &x);\n")?;
    for i in 1..=count {
        write!(text, "    if (k == {i}) printf(\"%d\\n\", f{i}(x));\n")?;
    }
    text.push_str("    return 0;\n}\n")?;
    Ok(text)
}

#[test]
fn forty_functions_have_many_patches(rt: HostRuntime) -> Result<(), Fail> {
    let alloc = rt.alloc();
    let source = many_functions(alloc, 40)?;
    let program = checked(alloc, source.as_bytes())?;
    let space = Space::build(alloc, &program, 16_384)?;
    assert_eq!(rt; (space.locations(), space.len()), (284, 14_330));
    let line = "79:9+6 cost 1 replace (x < 20)\n";
    expect_line(&rt, alloc, source.as_bytes(), 97, line)
}
