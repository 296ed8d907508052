//! How deep a program may nest: each opener of the language, 64 and 65 deep.

use c_lex::lex;
use c_parse::{ParseFault, parse};
use c_tree::NoMemory;
use std::alloc::Global;
use std::process::Abort;
use std::test::Fail;

// So many copies of `opener`, what stands inside, and so many of `closer`. With `most` copies the
// nesting is 64 at the deepest; with one copy more the 65th opener stands `at` bytes after the
// begin of the last copy.
#[derive(Clone, Copy)]
struct Nest {
    before: &'static str,
    opener: &'static str,
    inside: &'static str,
    closer: &'static str,
    after: &'static str,
    most: u32,
    at: u32,
}

fn row(texts: [&'static str; 5], most: u32, at: u32) -> Nest {
    let [before, opener, inside, closer, after] = texts;
    Nest {
        before,
        opener,
        inside,
        closer,
        after,
        most,
        at,
    }
}

fn add(out: &mut Vec<u8>, text: &str) -> Result<(), NoMemory> {
    for byte in text.as_bytes() {
        out.push(*byte)?;
    }
    Ok(())
}

fn source(alloc: Global, row: &Nest, copies: u32) -> Result<Vec<u8>, NoMemory> {
    let mut out = Vec::new(alloc);
    add(&mut out, row.before)?;
    for _ in 0..copies {
        add(&mut out, row.opener)?;
    }
    add(&mut out, row.inside)?;
    for _ in 0..copies {
        add(&mut out, row.closer)?;
    }
    add(&mut out, row.after)?;
    Ok(out)
}

// What `parse` says of a source that can be cut into tokens.
fn fault(alloc: Global, source: &[u8]) -> Result<Option<ParseFault>, Fail> {
    (source.len() < 65_536).then_some(()).ok_or("too long")?;
    let tokens = lex(alloc, source)?;
    match parse(alloc, &tokens, source.len() as u32) {
        Ok(_) => Ok(None),
        Err(fault) => Ok(Some(fault)),
    }
}

// How many bytes the text has.
fn length(text: &str) -> Result<u32, Fail> {
    Ok(u32::try_from(text.len()).ok().ok_or("too long")?)
}

fn sixty_four_at_most(rt: &impl Abort, alloc: Global, row: &Nest) -> Result<(), Fail> {
    let valid = source(alloc, row, row.most)?;
    assert_eq!(rt; fault(alloc, &valid)?, None, "at {}", row.opener);
    let deeper = source(alloc, row, row.most.wrapping_add(1))?;
    let place = length(row.before)?
        .wrapping_add(row.most.wrapping_mul(length(row.opener)?))
        .wrapping_add(row.at);
    assert_eq!(rt;
        fault(alloc, &deeper)?,
        Some(ParseFault::TooDeep(place)),
        "at {}",
        row.opener
    );
    Ok(())
}

#[test]
fn brackets_nest(rt: HostRuntime) -> Result<(), Fail> {
    let rows = [
        row(["int main(void){return ", "(", "1", ")", ";}"], 63, 0),
        row(
            ["int a[1];int main(void){return ", "a[", "0", "]", ";}"],
            63,
            1,
        ),
        row(
            ["int f(int x);int main(void){return ", "f(", "1", ")", ";}"],
            63,
            1,
        ),
        row(["int main(void)", "{", "", "}", ""], 64, 0),
        row(["int main(void)", "{", "int a[1];", "}", ""], 63, 6),
        row(["int main(void)", "{", "int a[1]={1};", "}", ""], 63, 6),
        row(["int main(void){return ", "(", "f(&a)", ")", ";}"], 61, 3),
        row(
            [
                "int main(void){return ",
                "(",
                "f(-a,-b,\"c\",-d)",
                ")",
                ";}",
            ],
            61,
            3,
        ),
    ];
    for row in rows.iter() {
        sixty_four_at_most(&rt, rt.alloc(), row)?;
    }
    Ok(())
}

#[test]
fn operators_nest(rt: HostRuntime) -> Result<(), Fail> {
    let rows = [
        row(["int main(void){return ", "- ", "1", "", ";}"], 63, 0),
        row(["int main(void){return ", "+ ", "1", "", ";}"], 63, 0),
        row(["int main(void){return ", "!", "1", "", ";}"], 63, 0),
        row(["int main(void){return ", "~", "1", "", ";}"], 63, 0),
        row(["int main(void){return ", "++ ", "a", "", ";}"], 63, 0),
        row(["int main(void){return ", "(int)", "1", "", ";}"], 63, 0),
        row(["int main(void){return 1", "+1", "", "", ";}"], 63, 0),
        row(["int main(void){return 1", "*1", "", "", ";}"], 63, 0),
        row(["int main(void){return 1", "||1", "", "", ";}"], 63, 0),
        row(["int main(void){return 1", "<1", "", "", ";}"], 63, 0),
        row(["int main(void){", "a=", "1", "", ";}"], 63, 1),
        row(["int main(void){", "a+=", "1", "", ";}"], 63, 1),
        row(["int main(void){return ", "1?2:", "3", "", ";}"], 63, 1),
        row(["int main(void){return 1", ",2", "", "", ";}"], 63, 0),
    ];
    for row in rows.iter() {
        sixty_four_at_most(&rt, rt.alloc(), row)?;
    }
    Ok(())
}

#[test]
fn statements_nest(rt: HostRuntime) -> Result<(), Fail> {
    let rows = [
        row(["int main(void){", "if(1)", ";", "", "}"], 62, 2),
        row(["int main(void){", "if(1);else ", ";", "", "}"], 62, 2),
        row(["int main(void){", "while(1)", ";", "", "}"], 62, 5),
        row(["int main(void){", "for(;;)", ";", "", "}"], 62, 3),
        row(["int main(void){", "do ", ";", "while(1);", "}"], 62, 9),
        row(["int main(void)", "{", "if(1);", "}", ""], 62, 3),
        row(
            ["int main(void){int v[]={1", "+1", ",1+1}", "", ";}"],
            62,
            0,
        ),
        row(["int main(void){int a=1", "+1", ",b=1+1", "", ";}"], 63, 0),
        row(["int main(void){for(1", "+1", ";1+1;1)", "", ";}"], 61, 0),
        row(["int main(void){f(1", "+1", ",1+1)", "", ";}"], 62, 0),
        row(["int a=1", "+1", "", "", ";"], 64, 0),
    ];
    for row in rows.iter() {
        sixty_four_at_most(&rt, rt.alloc(), row)?;
    }
    Ok(())
}

#[test]
fn the_opener_itself_is_too_deep(rt: HostRuntime) -> Result<(), Fail> {
    let alloc = rt.alloc();
    for word in ["if", "do", "for", "while", "{"] {
        let nest = row(["int main(void)", "{", word, "", ""], 64, 0);
        let deep = source(alloc, &nest, 64)?;
        assert_eq!(rt;
            fault(alloc, &deep)?,
            Some(ParseFault::TooDeep(78)),
            "at {word}"
        );
    }
    // What ends a statement gives back its room, so that what follows may nest as deep.
    let again = row(
        ["int main(void)", "{", ";f(1);a=1;-1;if(0);", "}", ""],
        62,
        0,
    );
    let valid = source(alloc, &again, 62)?;
    assert_eq!(rt; fault(alloc, &valid)?, None);
    Ok(())
}

#[test]
fn what_does_not_nest_is_read_in_any_number(rt: HostRuntime) -> Result<(), Fail> {
    let alloc = rt.alloc();
    let rows = [
        row(["int main(void){", ";", "", "", "}"], 0, 0),
        row(["int main(void){", "1;", "", "", "}"], 0, 0),
        row(["int main(void){f(1", ",1", "", "", ");}"], 0, 0),
        row(["int a", ",a", "", "", ";"], 0, 0),
        row(["int a[]={1", ",1", "", "", "};"], 0, 0),
        row(["", "int a;", "", "", ""], 0, 0),
        row(["int f(int a", ",int a", "", "", ");"], 0, 0),
        row(["int main(void){", "int a;", "", "", "}"], 0, 0),
        row(["int main(void){", "if(1);else;", "", "", "}"], 0, 0),
    ];
    for row in rows.iter() {
        let many = source(alloc, row, 2000)?;
        assert_eq!(rt; fault(alloc, &many)?, None, "at {}", row.opener);
    }
    Ok(())
}
